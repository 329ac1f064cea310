use pb_buses::Condition;

/// Why an advance ended.
#[derive(Clone, Copy, Debug, PartialEq, Eq)]
pub enum Why {
    /// Its target is reached.
    Target,
    /// So many eventful ticks were made as were asked for, and the next tick is eventful.
    Events,
    /// There is no memory for the record that the next tick emits.
    Memory,
}

/// What an advance came to.
#[derive(Clone, Copy, Debug, PartialEq, Eq)]
pub struct Advanced {
    /// The tick at which the box stands, in ticks of 8 ns.
    pub reached: u64,
    pub why: Why,
    /// How the acquisition ended, if it did.
    pub completed: Option<Condition>,
}
