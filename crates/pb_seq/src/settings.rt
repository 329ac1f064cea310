ghost use Rattle.std.specs.Prelude.{◌≡◌, ◌<◌, ◌≤◌, ◌^◌};

/// What commands set of a SEQ, beside its table.
#[derive(Clone, Copy, Debug, PartialEq, Eq)]
pub struct SeqSettings {
    /// PRESCALE in ticks of 8 ns: the unit of the times in the table. 0 counts as 1.
    pub prescale: u32,
    /// How often the table is run through. 0 is without end.
    pub repeats: u32,
}

impl SeqSettings {
    ghost use Rattle.pb_seq.specs.Seq as definition;

    fn prescale(&self) -> u64
        ensures value { result ≡ definition.prescale_of self.now }
        ensures bound { result < 2 ^ 32 }
    {
        u64::from(self.prescale.max(1))
    }

    /// So many ticks of 8 ns is a time of a row.
    pub(crate) fn ticks(&self, time: u32) -> u64
        ensures { result ≡ definition.ticks_of self.now time }
    {
        self.prescale() * u64::from(time)
    }
}
