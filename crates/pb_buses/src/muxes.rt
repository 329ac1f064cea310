ghost use Rattle.std.specs.Prelude.{◌≡◌, ◌≤◌, ◌∷◌, false, slice_index_or, IfSome};
ghost use Rattle.pb_buses.specs.Delay.{seen, shifted, wired, delayed, opening_input, latest, digits, pushed, IsNextChange};

use pb_names::bit_bus;
use std::marker::Model;

/// A bit input of a block: a mux and the delay line behind it.
#[derive(Debug, Drop)]
pub struct Mux {
    /// What it selects: 0 to 127 are the entries of the bit bus, 128 is ZERO, 129 is ONE.
    pub select: u8,
    /// The delay in ticks of 8 ns, at most 31.
    pub delay: u8,
    /// The values that it selected at the last 31 ticks: bit 0 is the latest. Bit 31 has no meaning.
    pub line: u32,
}

impl Model for Mux {
    ghost use Rattle.std.specs.Prelude.{◌≤◌};
    ghost use Rattle.pb_buses.specs.Delay.{BitInput, digits};

    ghost Value = { BitInput };

    ghost view = { λ m. record { select = m.select; delay = m.delay; line = digits 31 m.line } };

    ghost invariant = { λ m. m.delay ≤ 31 };
}

impl Mux {
    /// An input that selects ZERO without delay.
    pub fn new() -> Mux
        ensures { result ≡ opening_input }
    {
        Mux {
            select: bit_bus::ZERO,
            delay: 0,
            line: 0,
        }
    }

    /// The same input once more.
    pub fn copy(&self) -> Mux
        ensures { result ≡ self.now }
    {
        Mux {
            select: self.select,
            delay: self.delay,
            line: self.line,
        }
    }

    /// The raw value that says what it selects.
    pub fn select(&self) -> u8
        ensures { result ≡ self.now.select }
    {
        self.select
    }

    /// The delay in ticks.
    pub fn delay(&self) -> u8
        ensures value { result ≡ self.now.delay }
        ensures limit { result ≤ 31 }
    {
        self.delay
    }

    /// Selects another entry from now on. The line keeps what was selected before.
    pub fn wire(&mut self, select: u8)
        ensures { self.new ≡ wired self.old select }
    {
        self.select = select;
    }

    /// Takes another delay from now on.
    pub fn set_delay(&mut self, delay: u8)
        requires { delay ≤ 31 }
        ensures { self.new ≡ delayed self.old delay }
    {
        self.delay = delay;
    }

    /// What the block sees where this value is selected now.
    pub fn seen(&self, selected: bool) -> bool
        ensures { result ≡ seen self.now selected }
    {
        value_at(self.line, self.delay, selected)
    }

    /// What it selected at the tick before, and false where there was none.
    pub fn latest(&self) -> bool
        ensures { result ≡ latest self.now }
    {
        value_at(self.line, 1, false)
    }

    /// So many ticks pass at each of which this value is selected.
    pub fn shift(&mut self, selected: bool, ticks: u64)
        ensures { self.new ≡ shifted self.old selected ticks }
    {
        self.line = line_later(self.line, selected, ticks);
    }

    /// After how many ticks the block sees something else than now for the first time, where this value is
    /// selected now and at each of them: 1 to 31. None where it goes on to see the same.
    pub fn next_change(&self, selected: bool) -> Option<u32>
        ensures next { IsNextChange self.now selected result }
        ensures few { IfSome result (λ n. n ≤ 31) }
    {
        line_change(self.line, self.delay, selected)
    }

    /// One tick passes at which this value is selected. What the block sees at it.
    pub fn take(&mut self, selected: bool) -> bool
        ensures sees { result ≡ seen self.old selected }
        ensures left { self.new ≡ shifted self.old selected 1 }
    {
        let seen = value_at(self.line, self.delay, selected);
        self.line = line_next(self.line, selected);
        seen
    }
}

/// The value at this delay of a line with this value in front of it.
fn value_at(line: u32, delay: u8, selected: bool) -> bool
    requires { delay ≤ 31 }
    ensures { result ≡ slice_index_or (selected ∷ digits 31 line) delay false }
{
    let line = 2 * u64::from(line) + u64::from(selected);
    (line >> delay) & 1 == 1
}

/// The line so many ticks later, at each of which this value is selected.
fn line_later(line: u32, selected: bool, ticks: u64) -> u32
    ensures { digits 31 result ≡ pushed (digits 31 line) selected ticks }
{
    let ticks = ticks.min(31);
    let fill = if selected { (1 << ticks) - 1 } else { 0 };
    let line = (u64::from(line) << ticks) + fill;
    (line & 0xffff_ffff) as u32
}

/// The line one tick later, at which this value is selected.
fn line_next(line: u32, selected: bool) -> u32
    ensures { digits 31 result ≡ pushed (digits 31 line) selected 1 }
{
    let line = 2 * u64::from(line) + u64::from(selected);
    (line & 0xffff_ffff) as u32
}

/// After how many ticks another value stands at this delay for the first time, where this value is selected now
/// and at each of them. None where the same goes on to stand there.
fn line_change(line: u32, delay: u8, selected: bool) -> Option<u32>
    requires { delay ≤ 31 }
    ensures next { IsNextChange (record { select = 0; delay = delay; line = digits 31 line }) selected result }
    ensures few { IfSome result (λ n. n ≤ 31) }
{
    let seen = value_at(line, delay, selected);
    for passed in 0..delay {
        if value_at(line, delay - passed - 1, selected) != seen {
            return Some(u32::from(passed) + 1);
        }
    }
    None
}
