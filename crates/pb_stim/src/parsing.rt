ghost use Rattle.std.specs.Prelude.{◌≡◌, ◌≤◌, ◌++◌, List, IfOk, IfErr, OnOk, OnErr};
ghost use Rattle.pb_stim.specs.Stimulus.{last_tick};
ghost use Rattle.pb_stim.specs.Lines.{Line, IsStimulus, rows_of, rows_in};
ghost use Rattle.pb_stim.specs.Refused.{IsRefused};
ghost use Rattle.pb_stim.specs.Answers.{line_of, IsReadLine, FollowsTick};

use crate::cuts::cut_line;
use crate::faults::StimFault;
use crate::forms::ReadLine;
use crate::places::Place;
use crate::stimuli::Stimulus;
use pb_words::OutOfMemory;
use std::alloc::Global;

impl Stimulus {
    /// The stimulus that the bytes are, a line a row: `TICK S TARGET VALUE`; empty lines and comments are skipped. Of other bytes the
    /// first line that breaks a rule is told, with the first rule that it breaks. Where memory is wanting, that is told.
    pub fn parse(alloc: Global, text: &[u8]) -> Result<Stimulus, StimFault>
        ensures read { IfOk result (λ stimulus. (lines : List Line) × IsStimulus text.now lines × (stimulus ≡ rows_in lines)) }
        ensures refused { IfErr result (λ fault. IsRefused text.now fault) }
    {
        let mut stimulus = Stimulus::new(alloc);
        let mut place = Place::start();
        let mut rest = text;
        while let Some((line, more)) = cut_line(rest) {
            match place.read(line) {
                Err(cause) => {
                    return Err(StimFault::Line {
                        line: place.number,
                        cause,
                    });
                }
                Ok(read) => {
                    add(&mut stimulus, read)?;
                    place = place.next(line, read);
                }
            }
            rest = more;
        }
        match place.end(rest) {
            Some(cause) => Err(StimFault::Line {
                line: place.number,
                cause,
            }),
            None => Ok(stimulus),
        }
    }
}

/// Adds the row of a line, if it has one.
fn add(stimulus: &mut Stimulus, line: ReadLine) -> Result<(), OutOfMemory>
    requires line { IsReadLine line }
    requires order { FollowsTick (last_tick 0 stimulus.old) line }
    ensures { OnOk result (stimulus.new ≡ stimulus.old ++ rows_of (line_of line)) }
{
    match line {
        ReadLine::Skipped => Ok(()),
        ReadLine::Level(tick, input, value) => stimulus.push(tick, input, value),
    }
}
