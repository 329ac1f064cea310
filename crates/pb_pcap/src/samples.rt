ghost use Rattle.std.specs.Prelude.{◌≡◌};
ghost use Rattle.std.specs.Int.{int_min, int_max};
ghost use Rattle.pb_pcap.specs.Each.{each, added};

/// The samples since the last record, once there is one. A time stamp counts ticks of 8 ns from the tick
/// at which the run began.
#[derive(Clone, Copy, Debug)]
pub struct PcapSamples {
    /// How many they are, modulo 2^64.
    pub count: u64,
    /// The sum of each position entry over them, modulo 2^64.
    pub sums: [i64; 32],
    /// The least value of each position entry.
    pub least: [i32; 32],
    /// The greatest value of each position entry.
    pub greatest: [i32; 32],
    /// The time stamp of the first.
    pub ts_start: u64,
    /// The time stamp after the last.
    pub ts_end: u64,
}

impl PcapSamples {
    ghost use Rattle.pb_pcap.specs.Pcap as definition;

    /// The first sample.
    pub(crate) fn first(ts: u64, bus: &[i32; 32]) -> PcapSamples
        ensures { result ≡ definition.first_sample ts bus.now }
    {
        let mut sums = [0; 32];
        add_each(&mut sums, bus);
        PcapSamples {
            count: 1,
            sums,
            least: *bus,
            greatest: *bus,
            ts_start: ts,
            ts_end: ts.wrapping_add(1),
        }
    }

    /// One more sample.
    pub(crate) fn add(&mut self, ts: u64, bus: &[i32; 32])
        ensures { self.new ≡ definition.next_sample self.old ts bus.now }
    {
        self.count = self.count.wrapping_add(1);
        add_each(&mut self.sums, bus);
        keep_least(&mut self.least, bus);
        keep_greatest(&mut self.greatest, bus);
        self.ts_end = ts.wrapping_add(1);
    }
}

fn add_each(sums: &mut [i64; 32], bus: &[i32; 32])
    ensures { sums.new ≡ each added sums.old bus.now }
{
    for i in 0..bus.len() {
        sums[i] = sums[i].wrapping_add(i64::from(bus[i]));
    }
}

pub(crate) fn keep_least(least: &mut [i32; 32], bus: &[i32; 32])
    ensures { least.new ≡ each int_min least.old bus.now }
{
    for i in 0..bus.len() {
        least[i] = least[i].min(bus[i]);
    }
}

pub(crate) fn keep_greatest(greatest: &mut [i32; 32], bus: &[i32; 32])
    ensures { greatest.new ≡ each int_max greatest.old bus.now }
{
    for i in 0..bus.len() {
        greatest[i] = greatest[i].max(bus[i]);
    }
}
