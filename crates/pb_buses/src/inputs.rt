ghost use Rattle.std.specs.Prelude.{◌≡◌, ◌↔◌, IsTrue};

/// What one block sees at a tick.
#[derive(Clone, Copy, Debug)]
pub struct Inputs {
    /// The bit inputs, in the order of the block's bit_mux fields in the catalogue. Those beyond its own
    /// are false.
    pub bits: [bool; 5],
    /// The position inputs, in the order of the block's pos_mux fields in the catalogue. Those beyond its
    /// own are 0.
    pub positions: [i32; 3],
    /// The bits of the whole bit bus: bit b of word w is entry 32w + b. They are 0 for every block but PCAP.
    pub words: [u32; 4],
    /// The whole position bus, by entry. It is 0 for every block but PCAP.
    pub bus: [i32; 32],
}

/// What a block shows on the buses.
#[derive(Clone, Copy, Debug, PartialEq, Eq)]
pub struct Outputs {
    /// Bit 0 is the block's first bit output in the order of the catalogue, bit 1 its second, and so on.
    /// Those beyond its own are 0.
    pub bits: u8,
    /// The block's position output, and 0 for a block without one.
    pub position: i32,
}

impl Inputs {
    /// Whether both are the same in every part.
    pub fn same(&self, other: &Inputs) -> bool
        ensures { IsTrue result ↔ (self.now ≡ other.now) }
    {
        are_same_bits(&self.bits, &other.bits)
            && are_same_positions(&self.positions, &other.positions)
            && are_same_words(&self.words, &other.words)
            && are_same_positions(&self.bus, &other.bus)
    }
}

fn are_same_bits(a: &[bool], b: &[bool]) -> bool
    ensures { IsTrue result ↔ (a.now ≡ b.now) }
{
    a == b
}

fn are_same_positions(a: &[i32], b: &[i32]) -> bool
    ensures { IsTrue result ↔ (a.now ≡ b.now) }
{
    a == b
}

fn are_same_words(a: &[u32], b: &[u32]) -> bool
    ensures { IsTrue result ↔ (a.now ≡ b.now) }
{
    a == b
}
