ghost use Rattle.std.specs.Prelude.{◌≡◌, ◌≤◌, ◌<◌, List, [], ◌∷◌, ◌++◌, OnOk, OnErr, length, take, drop, Some, slice_get};
ghost use Rattle.std.specs.List.{AllByRecursion};
ghost use Rattle.pb_stim.specs.declared.stimuli.Row.{Row};

use pb_words::OutOfMemory;
use std::alloc::Global;
use std::marker::Model;

/// One row of the stimulus: from this tick on the target has this value.
#[derive(Clone, Copy, Debug, PartialEq, Eq)]
pub struct Row {
    /// In ticks of 8 ns, below 2^62.
    pub tick: u64,
    /// 0 to 5 are TTLIN1 to TTLIN6, and 6 to 9 are INENC1 to INENC4.
    pub target: u8,
    /// 0 or 1 for a TTL input, and a position for an encoder.
    pub value: i32,
}

/// The rows of the stimulus, whose ticks never fall. A clause sees the list.
#[derive(Debug, Drop)]
pub struct Stimulus {
    rows: Vec<Row>,
}

impl Model for Stimulus {
    ghost use Rattle.std.specs.Prelude.{List};
    ghost use Rattle.pb_stim.specs.declared.stimuli.Row.{Row};
    ghost use Rattle.pb_stim.specs.Stimulus.{AreRows};

    ghost Value = { List Row };

    ghost view = { λ s. s.rows.items };

    ghost invariant = { λ s. AreRows s.rows.items };
}

impl Stimulus {
    ghost use Rattle.pb_stim.specs.Stimulus.{last_tick, IsRow, AreRows, value_at, next_tick};

    /// No rows.
    pub fn new(alloc: Global) -> Stimulus
        ensures { result ≡ [] }
    {
        Stimulus {
            rows: Vec::new(alloc),
        }
    }

    /// Adds a row at the end. Of rows of one target the later one counts, also at one tick. Without
    /// memory nothing changes.
    pub fn push(&mut self, tick: u64, target: u8, value: i32) -> Result<(), OutOfMemory>
        requires row { IsRow (record { tick = tick; target = target; value = value }) }
        requires order { last_tick 0 self.old ≤ tick }
        ensures ok { OnOk result (self.new ≡ self.old ++ record { tick = tick; target = target; value = value } ∷ []) }
        ensures err { OnErr result (self.new ≡ self.old) }
    {
        self.rows.push(Row {
            tick,
            target,
            value,
        })?;
        Ok(())
    }

    /// The number of rows. Each is one that a stimulus may have, and their ticks never fall.
    pub fn len(&self) -> usize
        ensures len { result ≡ length self.now }
        ensures rows { AreRows self.now }
    {
        self.rows.len()
    }

    /// Tick, target and value of row i, in the order in which they were pushed, counted from 0.
    pub fn row(&self, i: usize) -> (u64, u8, i32)
        requires { i < length self.now }
        ensures row { slice_get self.now i ≡ Some (record { tick = result.0; target = result.1; value = result.2 }) }
        ensures valid { IsRow (record { tick = result.0; target = result.1; value = result.2 }) }
    {
        let row = self.rows[i];
        (row.tick, row.target, row.value)
    }

    /// The value of a target at a tick: that of its last row whose tick isn't above, and 0 without one.
    pub fn at(&self, target: u8, tick: u64) -> i32
        ensures { result ≡ value_at self.now target tick }
    {
        let rows = self.rows.as_slice();
        let past = count_until(rows, tick);
        value_in(&rows[..past], target, tick)
    }

    /// The next tick after this one at which a row comes, and None where no row comes later.
    pub fn next_after(&self, tick: u64) -> Option<u64>
        ensures { result ≡ next_tick self.now tick }
    {
        let rows = self.rows.as_slice();
        let coming = count_until(rows, tick);
        if coming < rows.len() {
            Some(rows[coming].tick)
        } else {
            None
        }
    }
}

ghost use Rattle.pb_stim.specs.Stimulus.{NeverFall, value_at};

/// How many rows have come by a tick.
fn count_until(rows: &[Row], tick: u64) -> usize
    requires { NeverFall 0 rows.now }
    ensures within { result ≤ length rows.now }
    ensures past { AllByRecursion (λ (row : Row). row.tick ≤ tick) (take result rows.now) }
    ensures coming { AllByRecursion (λ (row : Row). tick < row.tick) (drop result rows.now) }
{
    rows.partition_point(|row| row.tick <= tick)
}

/// The value of a target after rows that have all come.
fn value_in(rows: &[Row], target: u8, tick: u64) -> i32
    requires { AllByRecursion (λ (row : Row). row.tick ≤ tick) rows.now }
    ensures { result ≡ value_at rows.now target tick }
{
    for i in (0..rows.len()).rev() {
        let row = rows[i];
        if row.target == target {
            return row.value;
        }
    }
    0
}
