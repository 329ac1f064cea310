ghost use Rattle.std.specs.Prelude.{◌≡◌, List, IfOk, IfErr};
ghost use Rattle.pb_replay.specs.Script.{Line, IsScript};
ghost use Rattle.pb_replay.specs.Kept.{kept};
ghost use Rattle.pb_replay.specs.Refused.{IsRefused};

use crate::cuts::cut_line;
use crate::drafts::Draft;
use crate::faults::ScriptFault;
use crate::places::Place;
use crate::scripts::Script;
use std::alloc::Global;

/// The script that the bytes are. Of other bytes the first line that breaks a rule is told, with the first rule that it
/// breaks. Where memory is wanting, that is told.
pub fn parse(alloc: Global, text: &[u8]) -> Result<Script, ScriptFault>
    ensures read { IfOk result (λ script. (lines : List Line) × IsScript text.now lines × (script ≡ kept lines)) }
    ensures refused { IfErr result (λ fault. IsRefused text.now fault) }
{
    let mut draft = Draft::new(alloc, text);
    let mut place = Place::start();
    let mut rest = text;
    while let Some((line, more)) = cut_line(rest) {
        match place.read(line) {
            Err(cause) => {
                return Err(ScriptFault::Line {
                    line: place.number,
                    cause,
                });
            }
            Ok(read) => {
                draft.add(read, place.before + line.len())?;
                place = place.next(line, read);
            }
        }
        rest = more;
    }
    match place.end(rest) {
        Some(cause) => Err(ScriptFault::Line {
            line: place.number,
            cause,
        }),
        None => Ok(draft.keep(alloc)?),
    }
}
