ghost use Rattle.std.specs.Prelude.{◌≡◌, ◌<◌, ◌≤◌, length, slice_index};
ghost use Rattle.pb_buses.specs.Buses.{bit, position, selected, number, words, opening_buses, changed_at, with_bit, with_position};

use pb_names::bit_bus;

/// The entries of both buses at a tick.
#[derive(Clone, Copy, Debug)]
pub struct Bus {
    /// The bit bus, by entry.
    pub bits: [bool; 128],
    /// The position bus, by entry.
    pub positions: [i32; 32],
}

/// The buses, and for each entry the tick at which it last changed.
#[derive(Clone, Copy, Debug)]
pub struct Buses {
    bus: Bus,
    /// By entry, the positions from 128 on.
    changed: [u64; 160],
}

impl Buses {
    /// All entries are 0, and so are the ticks of their last changes.
    pub fn new() -> Buses
        ensures { result ≡ opening_buses }
    {
        Buses {
            bus: Bus {
                bits: [false; 128],
                positions: [0; 32],
            },
            changed: [0; 160],
        }
    }

    /// The entries.
    pub fn bus(&self) -> &Bus
        ensures { result.now ≡ self.now.bus }
    {
        &self.bus
    }

    /// A bit entry.
    pub fn bit(&self, i: u8) -> bool
        requires { i < 128 }
        ensures { result ≡ bit self.now.bus i }
    {
        self.bus.bits[i as usize]
    }

    /// A position entry.
    pub fn position(&self, i: u8) -> i32
        requires { i < 32 }
        ensures { result ≡ position self.now.bus i }
    {
        self.bus.positions[i as usize]
    }

    /// What a bit input with this raw value selects: 0 to 127 are the entries, 129 is ONE, and 128 is
    /// ZERO. No entry stands at ZERO or above ONE, so there it is 0.
    pub fn selected(&self, select: u8) -> bool
        ensures { result ≡ selected self.now.bus select }
    {
        match self.bus.bits.get(select as usize) {
            Some(bit) => *bit,
            None => select == bit_bus::ONE,
        }
    }

    /// What a position input with this raw value selects: 0 to 31 are the entries, and 32 is ZERO. No
    /// entry stands from there on, so there it is 0.
    pub fn selected_position(&self, select: u8) -> i32
        ensures { result ≡ position self.now.bus select }
    {
        self.bus
            .positions
            .get(select as usize)
            .copied()
            .unwrap_or(0)
    }

    /// The bit bus as four words: bit b of word w is entry 32w + b.
    pub fn words(&self) -> [u32; 4]
        ensures { result ≡ words self.now.bus }
    {
        let bits = &self.bus.bits;
        [
            word(&bits[..32]),
            word(&bits[32..64]),
            word(&bits[64..96]),
            word(&bits[96..]),
        ]
    }

    /// The tick at which an entry last changed, in ticks of 8 ns, and 0 where it never did. The positions
    /// are counted from 128.
    pub fn changed_at(&self, entry: u8) -> u64
        requires { entry < 160 }
        ensures { result ≡ changed_at self.now entry }
    {
        self.changed[entry as usize]
    }

    /// Gives a bit entry a value at a tick.
    pub fn put_bit(&mut self, i: u8, value: bool, tick: u64)
        requires { i < 128 }
        ensures { self.new ≡ with_bit self.old i value tick }
    {
        if self.bus.bits[i as usize] != value {
            self.bus.bits[i as usize] = value;
            self.changed[i as usize] = tick;
        }
    }

    /// Gives a position entry a value at a tick.
    pub fn put_position(&mut self, i: u8, value: i32, tick: u64)
        requires { i < 32 }
        ensures { self.new ≡ with_position self.old i value tick }
    {
        if self.bus.positions[i as usize] != value {
            self.bus.positions[i as usize] = value;
            self.changed[128 + i as usize] = tick;
        }
    }
}

/// The number whose binary digits are these bits, the lowest first.
fn word(bits: &[bool]) -> u32
    requires { length bits.now ≤ 32 }
    ensures { result ≡ number bits.now }
{
    let mut word = 0;
    for (i, bit) in bits.iter().enumerate() {
        word += u32::from(*bit) << i;
    }
    word
}
