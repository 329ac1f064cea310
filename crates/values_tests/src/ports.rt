ghost use Rattle.std.specs.Prelude.{◌≤◌, IfOk};

use pb_ports::{MemSink, MemSource, Read, ReaderSource, Sink, Source, WriterSink};
use pb_words::{OutOfMemory, Text};
use std::alloc::Global;
use std::io;
use std::process::Abort;
use std::test::Fail;

fn text_of(alloc: Global, bytes: &[u8]) -> Result<Text, OutOfMemory> {
    let mut text = Text::new(alloc);
    text.append(bytes)?;
    Ok(text)
}

/// Makes a call for each answer, with a buffer of four bytes, and adds up what came.
fn reads_as<S: Source>(
    rt: &impl Abort,
    source: &mut S,
    answers: &[Read],
    got: &mut Text,
) -> Result<(), OutOfMemory> {
    let mut buf = [0; 4];
    for want in answers {
        let answer = source.read(&mut buf);
        assert_eq!(rt; answer, *want);
        if let Read::Some(n) = answer {
            got.append(&buf[..n])?;
        }
    }
    Ok(())
}

/// Makes a call for each piece, which succeeds or fails as wanted.
fn writes_as<S: Sink>(rt: &impl Abort, sink: &mut S, pieces: &[(&[u8], bool)]) {
    for (piece, succeeds) in pieces {
        assert_eq!(rt; sink.write_all(*piece).is_ok(), *succeeds);
    }
}

#[test]
fn a_source_in_memory_gives_pieces_and_fails_at_its_call(rt: HostRuntime) -> Result<(), Fail> {
    let mut source = MemSource::new(text_of(rt.alloc(), b"panda")?, 3, Some(2));
    let answers = [Read::Some(3), Read::Failed, Read::Some(2), Read::End];
    let mut got = Text::new(rt.alloc());
    reads_as(&rt, &mut source, &answers, &mut got)?;
    assert_eq!(rt; got.bytes(), b"panda".as_slice());
    assert_eq!(rt; source.faults(), 1);
    Ok(())
}

#[test]
fn a_sink_in_memory_fails_at_its_call_and_beyond_its_room(rt: HostRuntime) -> Result<(), Fail> {
    let mut sink = MemSink::new(rt.alloc(), 5, Some(2))?;
    writes_as(
        &rt,
        &mut sink,
        &[(b"pan", true), (b"das", false), (b"das", false)],
    );
    assert_eq!(rt; sink.bytes(), b"panda".as_slice());
    assert_eq!(rt; sink.faults(), 2);
    Ok(())
}

#[test]
fn a_reader_is_a_source(rt: HostRuntime) -> Result<(), Fail> {
    let plan = [Step::Interrupt, Step::Move(3), Step::Fail, Step::Fail];
    let mut source = ReaderSource::new(Planned::new(rt.alloc(), &plan, b"panda"));
    let answers = [
        Read::Some(3),
        Read::Failed,
        Read::Failed,
        Read::Some(2),
        Read::End,
    ];
    let mut got = Text::new(rt.alloc());
    reads_as(&rt, &mut source, &answers, &mut got)?;
    assert_eq!(rt; got.bytes(), b"panda".as_slice());
    assert_eq!(rt; source.faults(), 2);
    assert_eq!(rt; ReaderSource::new(rt.reader()).faults(), 0);
    Ok(())
}

#[test]
fn a_writer_is_a_sink(rt: HostRuntime) -> Result<(), Fail> {
    let plan = [
        Step::Move(1),
        Step::Interrupt,
        Step::Move(2),
        Step::Fail,
        Step::Move(0),
    ];
    let mut writer = Planned::new(rt.alloc(), &plan, b"");
    let mut sink = WriterSink::new(&mut writer);
    writes_as(
        &rt,
        &mut sink,
        &[(b"panda", false), (b"x", false), (b"", true), (b"!", true)],
    );
    assert_eq!(rt; sink.faults(), 2);
    assert_eq!(rt; writer.held.bytes(), b"pan!".as_slice());
    assert_eq!(rt; writer.flushes, 2);
    writes_as(&rt, &mut WriterSink::new(io::writer(&rt)), &[(b"", true)]);
    Ok(())
}

/// What a planned reader or writer does at one call.
#[derive(Clone, Copy)]
enum Step {
    Move(usize),
    Interrupt,
    Fail,
}

/// A reader and a writer that goes by a plan, and moves all that it can when the plan is over.
#[derive(Drop)]
struct Planned<'a> {
    plan: &'a [Step],
    left: &'a [u8],
    held: Text,
    flushes: usize,
}

impl<'a> Planned<'a> {
    fn new(alloc: Global, plan: &'a [Step], left: &'a [u8]) -> Planned<'a> {
        Planned {
            plan,
            left,
            held: Text::new(alloc),
            flushes: 0,
        }
    }

    /// How many of so many bytes the next call moves.
    fn next_count(&mut self, all: usize) -> io::Result<usize>
        ensures { IfOk result (λ n. n ≤ all) }
    {
        let Some((step, later)) = self.plan.split_first() else {
            return Ok(all);
        };
        self.plan = later;
        match step {
            Step::Move(n) => Ok(all.min(*n)),
            Step::Interrupt => Err(io::Error::from(io::ErrorKind::Interrupted)),
            Step::Fail => Err(io::Error::other("planned")),
        }
    }
}

impl io::Read for Planned<'_> {
    fn read(&mut self, buf: &mut [u8]) -> io::Result<usize> {
        let n = self.next_count(buf.len())?.min(self.left.len());
        let (front, later) = self.left.split_at(n);
        buf[..n].copy_from_slice(front);
        self.left = later;
        Ok(n)
    }
}

impl io::Write for Planned<'_> {
    fn write(&mut self, buf: &[u8]) -> io::Result<usize> {
        let n = self.next_count(buf.len())?;
        match self.held.append(&buf[..n]) {
            Ok(()) => Ok(n),
            Err(_) => Err(io::Error::from(io::ErrorKind::OutOfMemory)),
        }
    }

    fn flush(&mut self) -> io::Result<()> {
        self.flushes = self.flushes.wrapping_add(1);
        Ok(())
    }
}
