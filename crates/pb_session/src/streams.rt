ghost use Rattle.std.specs.Prelude.{◌≡◌, ◌<◌, ◌≤◌, ◌∷◌, [], List};
ghost use Rattle.pb_ports.specs.Ports.{Rose};
ghost use Rattle.pb_core.specs.History.{IsOpening};
ghost use Rattle.pb_core.specs.Sessions.{IsSession};
ghost use Rattle.pb_session.specs.Calls.{Adds, Keeps};
ghost use Rattle.pb_session.specs.Data.{HasRun, HasStreamed, opens, leaves, stream_of};

use crate::endings::DataEnded;
use crate::happening::happen;
use crate::lines::read_line;
use crate::taking::take_all;
use pb_core::{Answer, Event, Server};
use pb_ports::{Pacer, Sink, Source};
use pb_turn::{Pass, Turn};
use pb_words::{Steps, Text};
use std::alloc::Global;
use std::marker::Brand;
use std::sync::Wait;
use std::sync::ledger::{Blank, Ledger};

/// Serves the data session of this id, 1 to 8: it reads the options line and opens, and then it takes and writes pieces. Where
/// there is none yet it pauses and takes again. The source isn't read after the line.
pub fn data_session<V: Server, S: Source, K: Sink, P: Pacer, R: Wait>(
    rt: &R,
    alloc: Global,
    turn: &Turn<V>,
    pass: Pass<V>,
    id: u32,
    source: &mut S,
    sink: &mut K,
    pacer: &mut P,
) -> (Pass<V>, DataEnded)
    requires turn { pass.turn ≡ turn.now }
    requires id { IsSession id }
    ensures pass { Keeps pass result.0 }
    ensures ended { HasStreamed V.opening id pass result.1 result.0 (S.left source.old) (S.left source.new) (K.held sink.old) (K.held sink.new) }
    ensures read_cause { result.1 ≡ DataEnded.ReadFault → Rose (S.faults source.old) (S.faults source.new) }
    ensures write_cause { result.1 ≡ DataEnded.WriteFault → Rose (K.faults sink.old) (K.faults sink.new) }
    ensures read_count { S.faults source.old ≤ S.faults source.new }
    ensures write_count { K.faults sink.old ≤ K.faults sink.new }
{
    match read_line(alloc, source) {
        Ok(line) => counted::<V, K, P, R, Brand>(
            rt,
            turn,
            pass,
            id,
            line,
            sink,
            pacer,
            Blank::new(1),
        ),
        Err(ended) => (pass, ended),
    }
}

/// The session with this options line, with a counter of work of its own.
fn counted<V: Server, K: Sink, P: Pacer, R: Wait, L: Ledger>(
    rt: &R,
    turn: &Turn<V>,
    pass: Pass<V>,
    id: u32,
    line: Text,
    sink: &mut K,
    pacer: &mut P,
    blank: Blank,
) -> (Pass<V>, DataEnded)
    requires name { blank.name ≡ L.name }
    requires parts { blank.parts ≡ L.parts }
    requires some { 0 < blank.parts }
    requires turn { pass.turn ≡ turn.now }
    requires id { IsSession id }
    ensures pass { Keeps pass result.0 }
    ensures ran { HasRun (stream_of id line) V.opening id pass result.1 result.0 (K.held sink.old) (K.held sink.new) }
    ensures cause { result.1 ≡ DataEnded.WriteFault → Rose (K.faults sink.old) (K.faults sink.new) }
    ensures count { K.faults sink.old ≤ K.faults sink.new }
{
    let mut steps = Steps::<L>::new(blank);
    let (pass, ended) = run(rt, turn, pass, id, line, sink, pacer, &mut steps);
    let pass = leave(rt, turn, pass, id, &mut steps);
    (pass, ended)
}

/// The session opens, writes what it is told, and takes all that there is.
fn run<V: Server, K: Sink, P: Pacer, R: Wait, L: Ledger>(
    rt: &R,
    turn: &Turn<V>,
    pass: Pass<V>,
    id: u32,
    line: Text,
    sink: &mut K,
    pacer: &mut P,
    steps: &mut Steps<L>,
) -> (Pass<V>, DataEnded)
    requires turn { pass.turn ≡ turn.now }
    requires id { IsSession id }
    ensures ran { HasRun (λ told takes. opens id line told ∷ takes) V.opening id pass result.1 result.0 (K.held sink.old) (K.held sink.new) }
    ensures turn { result.0.turn ≡ turn.now }
    ensures cause { result.1 ≡ DataEnded.WriteFault → Rose (K.faults sink.old) (K.faults sink.new) }
    ensures count { K.faults sink.old ≤ K.faults sink.new }
{
    let (pass, told) = begin(rt, turn, pass, id, line, steps);
    match sink.write_all(told.bytes()) {
        Ok(()) => {}
        Err(_) => return (pass, DataEnded::WriteFault),
    }
    match told {
        Answer::Opened { status: _ } => take_all(rt, turn, pass, id, sink, pacer, steps),
        Answer::Error(_) => (pass, DataEnded::Refused),
        _ => unreachable!(),
    }
}

/// The session opens with this options line, or is refused.
fn begin<V: Server, R: Wait, L: Ledger>(
    rt: &R,
    turn: &Turn<V>,
    pass: Pass<V>,
    id: u32,
    line: Text,
    steps: &mut Steps<L>,
) -> (Pass<V>, Answer)
    requires turn { pass.turn ≡ turn.now }
    requires id { IsSession id }
    ensures adds { Adds V.opening pass result.0 (opens id line result.1 ∷ []) }
    ensures told { IsOpening (Ok result.1) }
    ensures turn { result.0.turn ≡ turn.now }
{
    let (pass, result) = happen(rt, turn, pass, Event::OpenData { id, options: line }, steps);
    match result {
        Ok(told) => (pass, told),
        Err(_) => unreachable!(),
    }
}

/// The session closes.
fn leave<V: Server, R: Wait, L: Ledger>(
    rt: &R,
    turn: &Turn<V>,
    pass: Pass<V>,
    id: u32,
    steps: &mut Steps<L>,
) -> Pass<V>
    requires turn { pass.turn ≡ turn.now }
    requires id { IsSession id }
    ensures { Adds V.opening pass result (leaves id ∷ []) }
{
    let (pass, _nothing) = happen(rt, turn, pass, Event::CloseData { id }, steps);
    pass
}
