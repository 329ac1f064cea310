ghost use Rattle.std.specs.Prelude.{◌≡◌, ◌++◌, Bool, List, codes, decimal, IfOk, OnOk};
ghost use Rattle.std.specs.List.{flat_map};
ghost use Rattle.pb_acquire.specs.Acquisitions.{AllAcquisitions};
ghost use Rattle.pb_acquire.specs.Kept as acquire;
ghost use Rattle.pb_replies.specs.Replies.{listed};
ghost use Rattle.pb_core.specs.Sessions.{session_ids, open_of, is_open, is_reading};
ghost use Rattle.pb_core.specs.Who.{session_line, who_reply};

use crate::sessions::Sessions;
use pb_acquire::Acquisitions;
use pb_replies::end_list;
use pb_words::{OutOfMemory, Text};
use std::alloc::Global;

/// The sessions that are open: control sessions first, then those that read data.
pub(crate) fn who_reply(
    alloc: Global,
    sessions: &Sessions,
    acquisitions: &Acquisitions,
) -> Result<Text, OutOfMemory>
    ensures { (all : AllAcquisitions) → acquire.Agrees acquisitions.now all → IfOk result (λ text. text ≡ who_reply (open_of sessions.now) all) }
{
    let mut text = Text::new(alloc);
    list_control(&mut text, sessions)?;
    list_data(&mut text, acquisitions)?;
    end_list(&mut text)?;
    Ok(text)
}

/// Adds the lines of the control sessions that are open.
fn list_control(text: &mut Text, sessions: &Sessions) -> Result<(), OutOfMemory>
    ensures { OnOk result (text.new ≡ text.old ++ flat_map (session_line (codes "C") (is_open sessions.now)) session_ids) }
{
    for id in 1..9u32 {
        if !sessions.is_open(id) {
            continue;
        }
        list_session(text, b"C", id)?;
    }
    Ok(())
}

/// Adds the lines of the data sessions that are open.
fn list_data(text: &mut Text, acquisitions: &Acquisitions) -> Result<(), OutOfMemory>
    ensures { (all : AllAcquisitions) → acquire.Agrees acquisitions.now all →
        OnOk result (text.new ≡ text.old ++ flat_map (session_line (codes "D") (is_reading all)) session_ids) }
{
    for id in 1..9u32 {
        if !acquisitions.is_open(id) {
            continue;
        }
        list_session(text, b"D", id)?;
    }
    Ok(())
}

/// Adds the line of a session.
fn list_session(text: &mut Text, letter: &[u8], id: u32) -> Result<(), OutOfMemory>
    ensures { OnOk result (text.new ≡ text.old ++ listed (letter.now ++ codes " " ++ decimal id)) }
{
    text.append(b"!")?;
    text.append(letter)?;
    text.append(b" ")?;
    text.append_number(u64::from(id))?;
    text.append(b"\n")
}
