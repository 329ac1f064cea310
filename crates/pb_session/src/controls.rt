ghost use Rattle.std.specs.Prelude.{◌≡◌, ◌<◌, ◌≤◌, ◌∷◌, [], ℕ, List, Option, OnErr, IfOk};
ghost use Rattle.pb_ports.specs.Ports.{Rose};
ghost use Rattle.pb_turn.specs.Seeing.{Known};
ghost use Rattle.pb_grammar.specs.Feeding.{Fed, Completed, HasWhole};
ghost use Rattle.pb_core.specs.declared.Entry.{Entry};
ghost use Rattle.pb_core.specs.Answer.{CanHappen};
ghost use Rattle.pb_core.specs.Sessions.{IsSession};
ghost use Rattle.pb_session.specs.Calls.{Adds, Keeps};
ghost use Rattle.pb_session.specs.Controls.{IsSent, HasEnded, session_of, opens, closes};
ghost use Rattle.pb_session.specs.Serving.{Answers, Serving, HasFed};

use crate::endings::Ended;
use crate::happening::happen;
use crate::telling::tell;
use pb_core::{Event, Server};
use pb_grammar::Assembler;
use pb_ports::{Failed, Read, Sink, Source};
use pb_turn::{Pass, Turn};
use pb_words::{OutOfMemory, Refusal, Steps, Text};
use std::alloc::Global;
use std::marker::Brand;
use std::sync::Wait;
use std::sync::ledger::{Blank, Ledger};

/// Serves the control session of this id, 1 to 8: each whole command that the source sends is an event, and its answer is
/// written before the next one is looked at. What is begun when the source ends is forgotten.
pub fn control_session<V: Server, S: Source, K: Sink, R: Wait>(
    rt: &R,
    alloc: Global,
    turn: &Turn<V>,
    pass: Pass<V>,
    id: u32,
    source: &mut S,
    sink: &mut K,
) -> (Pass<V>, Ended)
    requires turn { pass.turn ≡ turn.now }
    requires id { IsSession id }
    ensures pass { Keeps pass result.0 }
    ensures ended { HasEnded (session_of id) V.opening id pass result.1 result.0 (S.left source.old) (S.left source.new) (K.held sink.old) (K.held sink.new) }
    ensures read_cause { result.1 ≡ Ended.ReadFault → Rose (S.faults source.old) (S.faults source.new) }
    ensures write_cause { result.1 ≡ Ended.WriteFault → Rose (K.faults sink.old) (K.faults sink.new) }
    ensures read_count { S.faults source.old ≤ S.faults source.new }
    ensures write_count { K.faults sink.old ≤ K.faults sink.new }
{
    counted::<V, S, K, R, Brand>(rt, alloc, turn, pass, id, source, sink, Blank::new(1))
}

/// The same with a counter of work of its own.
fn counted<V: Server, S: Source, K: Sink, R: Wait, L: Ledger>(
    rt: &R,
    alloc: Global,
    turn: &Turn<V>,
    pass: Pass<V>,
    id: u32,
    source: &mut S,
    sink: &mut K,
    blank: Blank,
) -> (Pass<V>, Ended)
    requires name { blank.name ≡ L.name }
    requires parts { blank.parts ≡ L.parts }
    requires some { 0 < blank.parts }
    requires turn { pass.turn ≡ turn.now }
    requires id { IsSession id }
    ensures pass { Keeps pass result.0 }
    ensures ended { HasEnded (session_of id) V.opening id pass result.1 result.0 (S.left source.old) (S.left source.new) (K.held sink.old) (K.held sink.new) }
    ensures read_cause { result.1 ≡ Ended.ReadFault → Rose (S.faults source.old) (S.faults source.new) }
    ensures write_cause { result.1 ≡ Ended.WriteFault → Rose (K.faults sink.old) (K.faults sink.new) }
    ensures read_count { S.faults source.old ≤ S.faults source.new }
    ensures write_count { K.faults sink.old ≤ K.faults sink.new }
{
    let mut assembler = match Assembler::new(alloc) {
        Ok(assembler) => assembler,
        Err(_) => return (pass, Ended::NoMemory),
    };
    let mut steps = Steps::<L>::new(blank);
    let pass = begin(rt, turn, pass, id, &mut steps);
    let (pass, ended) = serve(
        rt,
        alloc,
        turn,
        pass,
        id,
        source,
        &mut assembler,
        sink,
        &mut steps,
    );
    let pass = end(rt, turn, pass, id, &mut steps);
    (pass, ended)
}

/// The session opens.
fn begin<V: Server, R: Wait, L: Ledger>(
    rt: &R,
    turn: &Turn<V>,
    pass: Pass<V>,
    id: u32,
    steps: &mut Steps<L>,
) -> Pass<V>
    requires turn { pass.turn ≡ turn.now }
    requires id { IsSession id }
    ensures { Adds V.opening pass result (opens id ∷ []) }
{
    let (pass, _nothing) = happen(rt, turn, pass, Event::OpenControl { id }, steps);
    pass
}

/// The session closes.
fn end<V: Server, R: Wait, L: Ledger>(
    rt: &R,
    turn: &Turn<V>,
    pass: Pass<V>,
    id: u32,
    steps: &mut Steps<L>,
) -> Pass<V>
    requires turn { pass.turn ≡ turn.now }
    requires id { IsSession id }
    ensures { Adds V.opening pass result (closes id ∷ []) }
{
    let (pass, _nothing) = happen(rt, turn, pass, Event::CloseControl { id }, steps);
    pass
}

/// Serves the session that is open until the source ends, or a read or a write fails.
fn serve<V: Server, S: Source, K: Sink, R: Wait, L: Ledger>(
    rt: &R,
    alloc: Global,
    turn: &Turn<V>,
    pass: Pass<V>,
    id: u32,
    source: &mut S,
    assembler: &mut Assembler,
    sink: &mut K,
    steps: &mut Steps<L>,
) -> (Pass<V>, Ended)
    requires turn { pass.turn ≡ turn.now }
    requires id { IsSession id }
    requires nothing { Fed assembler.old [] }
    ensures ended { (start : Known Entry V) → Adds V.opening start pass (opens id ∷ [])
        → HasEnded (λ done. opens id ∷ done) V.opening id start result.1 result.0 (S.left source.old) (S.left source.new) (K.held sink.old) (K.held sink.new) }
    ensures turn { result.0.turn ≡ turn.now }
    ensures began { ¬ (result.1 ≡ Ended.NoMemory) }
    ensures read_cause { result.1 ≡ Ended.ReadFault → Rose (S.faults source.old) (S.faults source.new) }
    ensures write_cause { result.1 ≡ Ended.WriteFault → Rose (K.faults sink.old) (K.faults sink.new) }
    ensures read_count { S.faults source.old ≤ S.faults source.new }
    ensures write_count { K.faults sink.old ≤ K.faults sink.new }
{
    let mut pass = pass;
    let mut piece = [0u8; 4096];
    for _ in rt.forever() {
        match source.read(&mut piece) {
            Read::Some(n) => {
                let (next, written) = feed(
                    rt,
                    alloc,
                    turn,
                    pass,
                    id,
                    &piece[..n],
                    assembler,
                    sink,
                    steps,
                );
                pass = next;
                match written {
                    Ok(()) => {}
                    Err(_) => return (pass, Ended::WriteFault),
                }
            }
            Read::End => return (pass, Ended::Closed),
            Read::Failed => return (pass, Ended::ReadFault),
        }
    }
    unreachable!()
}

/// Looks at a piece, and answers each command that it completes.
fn feed<V: Server, K: Sink, R: Wait, L: Ledger>(
    rt: &R,
    alloc: Global,
    turn: &Turn<V>,
    pass: Pass<V>,
    id: u32,
    piece: &[u8],
    assembler: &mut Assembler,
    sink: &mut K,
    steps: &mut Steps<L>,
) -> (Pass<V>, Result<(), Failed>)
    requires turn { pass.turn ≡ turn.now }
    requires id { IsSession id }
    ensures fed { (start : Known Entry V) (looked : List ℕ) (held : Option (List ℕ)) → Serving V.opening id start pass looked assembler.old held (K.held sink.old)
        → HasFed V.opening id start result.0 looked piece.now assembler.new result.1 held (K.held sink.new) }
    ensures turn { result.0.turn ≡ turn.now }
    ensures cause { OnErr result.1 (Rose (K.faults sink.old) (K.faults sink.new)) }
    ensures count { K.faults sink.old ≤ K.faults sink.new }
{
    let mut pass = pass;
    for byte in piece {
        if assembler.feed(*byte) {
            let (next, written) = answer(rt, alloc, turn, pass, id, assembler, sink, steps);
            pass = next;
            match written {
                Ok(()) => {}
                Err(failed) => return (pass, Err(failed)),
            }
        }
    }
    (pass, Ok(()))
}

/// Lets the command that is whole happen, and writes its answer.
fn answer<V: Server, K: Sink, R: Wait, L: Ledger>(
    rt: &R,
    alloc: Global,
    turn: &Turn<V>,
    pass: Pass<V>,
    id: u32,
    assembler: &Assembler,
    sink: &mut K,
    steps: &mut Steps<L>,
) -> (Pass<V>, Result<(), Failed>)
    requires turn { pass.turn ≡ turn.now }
    requires id { IsSession id }
    requires whole { HasWhole assembler.now }
    ensures answers { (command : List ℕ) → Completed assembler.now command → Answers V.opening id command pass result.0 result.1 (K.held sink.old) (K.held sink.new) }
    ensures turn { result.0.turn ≡ turn.now }
    ensures cause { OnErr result.1 (Rose (K.faults sink.old) (K.faults sink.new)) }
    ensures count { K.faults sink.old ≤ K.faults sink.new }
{
    let event = event_of(alloc, id, assembler);
    let (pass, result) = happen(rt, turn, pass, event, steps);
    let written = tell(&result, sink);
    (pass, written)
}

/// The event of the command that is whole. Where there is no memory for a copy of its bytes, it is a refusal.
fn event_of(alloc: Global, id: u32, assembler: &Assembler) -> Event
    requires id { IsSession id }
    requires whole { HasWhole assembler.now }
    ensures sent { (command : List ℕ) → Completed assembler.now command → IsSent id command result }
    ensures can { CanHappen result }
{
    match assembler.whole() {
        Ok(bytes) => match copy(alloc, bytes) {
            Ok(text) => Event::Line { id, text },
            Err(_) => Event::Bad {
                id,
                refusal: Refusal::OutOfMemory,
            },
        },
        Err(refusal) => Event::Bad { id, refusal },
    }
}

fn copy(alloc: Global, bytes: &[u8]) -> Result<Text, OutOfMemory>
    ensures { IfOk result (λ text. text ≡ bytes.now) }
{
    let mut text = Text::new(alloc);
    text.append(bytes)?;
    Ok(text)
}
