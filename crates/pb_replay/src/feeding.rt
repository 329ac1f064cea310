ghost use Rattle.std.specs.Prelude.{◌≡◌, ℕ, List, OnOk, Some};
ghost use Rattle.pb_grammar.specs.Feeding.{Completed, HasWhole};
ghost use Rattle.pb_core.specs.Answer.{CanHappen};
ghost use Rattle.pb_core.specs.Sessions.{IsSession};
ghost use Rattle.pb_core.specs.declared.Event.TheVariants as events;
ghost use Rattle.pb_replay.specs.Events.{sent};
ghost use Rattle.pb_replay.specs.Output.{receiver_of};
ghost use Rattle.pb_replay.specs.Waiting.{kept_of};
ghost use Rattle.pb_replay.specs.declared.sections.Port.{Port};

use crate::assemblers::Assemblers;
use pb_core::Event;
use pb_words::{OutOfMemory, Text};
use std::alloc::Global;

/// An event before the first: a command without bytes.
pub(crate) fn no_command(alloc: Global) -> Event {
    Event::Line {
        id: 1,
        text: Text::new(alloc),
    }
}

/// Makes the event that of the command that is whole.
pub(crate) fn put_command(
    assemblers: &Assemblers,
    session: u32,
    event: &mut Event,
    alloc: Global,
) -> Result<(), OutOfMemory>
    requires whole { HasWhole (kept_of assemblers.now session) }
    requires session { IsSession session }
    ensures sent { (bytes : List ℕ) → Completed (kept_of assemblers.now session) bytes → OnOk result (event.new ≡ sent session bytes) }
    ensures told { OnOk result (receiver_of event.new ≡ Some (record { port = Port.Control; session = session })) }
    ensures can { OnOk result (CanHappen event.new) }
{
    match assemblers.whole(session) {
        Ok(bytes) => put_line(session, bytes, event, alloc),
        Err(refusal) => {
            *event = Event::Bad {
                id: session,
                refusal,
            };
            Ok(())
        }
    }
}

/// Makes the event that of a command of these bytes. If it was one, its text keeps its memory.
fn put_line(session: u32, bytes: &[u8], event: &mut Event, alloc: Global) -> Result<(), OutOfMemory>
    ensures { OnOk result (event.new ≡ events.Line session bytes.now) }
{
    if let Event::Line { id, text } = event {
        *id = session;
        text.clear();
        return text.append(bytes);
    }
    let mut text = Text::new(alloc);
    text.append(bytes)?;
    *event = Event::Line { id: session, text };
    Ok(())
}
