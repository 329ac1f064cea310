//! `panda_sim replay` runs a script of commands, stimulus and data sessions from bytes to bytes. `panda_sim make` writes a script, and
//! `panda_sim bench` tells of the output of that script. `panda_sim serve` opens the two network ports.
#![tactic(auto)]

mod benching;
mod making;
mod running;
mod serving;
#[cfg(test)]
mod serving_tests;
mod statuses;
#[cfg(test)]
mod tests;

ghost use Rattle.std.specs.Prelude.{◌≡◌, ◌<◌};

use pb_cli::starts_server;
use pb_ports::{ClockPacer, ReaderSource, TcpListen, ThreadSpawner, WriterSink};
use pb_replay::ScriptFault;
use pb_words::{Steps, Text};
use running::run;
use serving::serve;
use statuses::Status;
use std::alloc::Global;
use std::marker::Brand;
use std::net::{Net, TcpListener, TcpStream};
use std::process::ExitCode;
use std::rt::Env;
use std::sync::Wait;
use std::sync::ledger::{Blank, Ledger};
use std::thread::Threads;
use std::time::Clock;
use std::{env, io};

fn main(rt: HostRuntime) -> ExitCode {
    let status = match words(&rt) {
        Ok(words) if starts_server(words.as_slice()) => serve_ports(rt, words.as_slice()),
        Ok(words) => replay::<Brand, HostRuntime>(&rt, words.as_slice(), Blank::new(1)),
        Err(status) => status,
    };
    report(&rt, status);
    ExitCode::from(code(status))
}

/// The words of the command line after the program's name. One that isn't text is a wrong word.
fn words<R: Env + AllocGlobal>(rt: &R) -> Result<Vec<Text>, Status> {
    let args = match env::args(rt) {
        Ok(args) => args,
        Err(e) => {
            return Err(if e.kind() == io::ErrorKind::OutOfMemory {
                Status::OutOfMemory
            } else {
                Status::Usage
            });
        }
    };
    let mut words = Vec::new(rt.alloc());
    for (i, arg) in args.enumerate() {
        if 0 < i {
            let mut word = Text::new(rt.alloc());
            if word.append(arg.as_str().as_bytes()).is_err() {
                return Err(Status::OutOfMemory);
            }
            if words.push(word).is_err() {
                return Err(Status::OutOfMemory);
            }
        }
    }
    Ok(words)
}

/// Runs the program between standard input and standard output.
fn replay<L: Ledger, R: Input + Print + AllocGlobal>(rt: &R, words: &[Text], blank: Blank) -> Status
    requires name { blank.name ≡ L.name }
    requires parts { blank.parts ≡ L.parts }
    requires some { 0 < blank.parts }
{
    let mut input = ReaderSource::new(rt.reader());
    let mut output = WriterSink::new(io::writer(rt));
    let mut steps = Steps::<L>::new(blank);
    run(rt.alloc(), words, &mut input, &mut output, &mut steps)
}

/// Serves the ports of this machine, with the stimulus on standard input.
fn serve_ports<
    R: Input
        + AllocGlobal
        + Clock
        + Net<Listener = TcpListener, Stream = TcpStream>
        + Threads
        + Wait
        + Copy
        + Send
        + 'static,
>(rt: R, words: &[Text]) -> Status {
    let mut stimulus = ReaderSource::new(rt.reader());
    let mut net = TcpListen::new(rt, rt.alloc());
    let mut spawner = ThreadSpawner::new(rt.alloc());
    let pacer = ClockPacer::new(rt);
    serve(
        rt,
        rt.alloc(),
        words,
        &mut stimulus,
        &mut net,
        pacer,
        &mut spawner,
    )
}

/// The exit status of the program.
fn code(status: Status) -> u8 {
    match status {
        Status::Ok => 0,
        Status::Usage => 1,
        Status::Script { .. } => 2,
        Status::ReadFault => 3,
        Status::WriteFault => 4,
        Status::OutOfMemory => 5,
        Status::EventLimit { .. } => 6,
        Status::PortFault => 7,
        Status::SpawnFault => 8,
    }
}

/// Tells a person why the program ends, on standard error.
fn report(rt: &impl Eprint, status: Status) {
    let text = match status {
        Status::Ok => return,
        Status::Usage =>
            "usage: panda_sim replay | make N SEED | bench N SEED | serve [--control PORT] [--data PORT]",
        Status::Script { line, cause } => {
            let _ = rt.eprintln(ScriptFault::Line { line, cause });
            return;
        }
        Status::ReadFault => "read fault",
        Status::WriteFault => "write fault",
        Status::OutOfMemory => "out of memory",
        Status::PortFault => "port fault",
        Status::SpawnFault => "spawn fault",
        Status::EventLimit { tick } => {
            let _ = eprintln!(rt; "event limit at tick {tick}");
            return;
        }
    };
    let _ = rt.eprintln(text);
}
