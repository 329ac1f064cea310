use crate::serving::serve;
use crate::statuses::Status;
use pb_ports::{ClockPacer, MemDoor, MemListen, MemSource, NoSpawner, TcpListen, ThreadSpawner};
use pb_stim::Cause;
use pb_words::{OutOfMemory, Text};
use std::alloc::Global;
use std::io::{Read, Write};
use std::net::{Net, TcpListener, TcpStream};
use std::process::Abort;
use std::sync::Wait;
use std::test::Fail;
use std::thread::Threads;
use std::time::{Clock, Duration};
use std::{io, thread};

fn text_of(alloc: Global, bytes: &[u8]) -> Result<Text, OutOfMemory> {
    let mut text = Text::new(alloc);
    text.append(bytes)?;
    Ok(text)
}

/// The words `serve --control A --data B`.
fn words_of(alloc: Global, control: u16, records: u16) -> Result<Vec<Text>, OutOfMemory> {
    let mut words = Vec::new(alloc);
    words.push(text_of(alloc, b"serve")?)?;
    words.push(text_of(alloc, b"--control")?)?;
    words.push(number_of(alloc, control)?)?;
    words.push(text_of(alloc, b"--data")?)?;
    words.push(number_of(alloc, records)?)?;
    Ok(words)
}

fn number_of(alloc: Global, number: u16) -> Result<Text, OutOfMemory> {
    let mut text = Text::new(alloc);
    text.append_number(u64::from(number))?;
    Ok(text)
}

/// A listener of so many doors, on which nobody comes in.
fn doors(alloc: Global, many: usize) -> Result<MemListen, OutOfMemory> {
    let mut doors = Vec::new(alloc);
    for _ in 0..many {
        doors.push(MemDoor::new(Vec::new(alloc)))?;
    }
    Ok(MemListen::new(doors))
}

/// How serving ends at once: with these ports, this stimulus whose read of the number fails, and so many doors.
fn ends_as<R: Threads + Wait + Clock + Copy + Send + 'static>(
    rt: R,
    alloc: Global,
    ports: (u16, u16),
    stimulus: (&[u8], Option<u64>),
    many: usize,
) -> Result<Status, OutOfMemory> {
    let words = words_of(alloc, ports.0, ports.1)?;
    let mut source = MemSource::new(text_of(alloc, stimulus.0)?, 64, stimulus.1);
    let mut net = doors(alloc, many)?;
    let mut spawner = NoSpawner::new();
    let pacer = ClockPacer::new(rt);
    Ok(serve(
        rt,
        alloc,
        words.as_slice(),
        &mut source,
        &mut net,
        pacer,
        &mut spawner,
    ))
}

#[test]
fn what_keeps_the_server_from_starting(rt: HostRuntime) -> Result<(), Fail> {
    let good: &[u8] = b"1 S TTLIN1 1\n";
    let bad = Status::Script {
        line: 2,
        cause: Cause::Malformed,
    };
    let table = [
        ((8888, 8888), good, None, 16, Status::Usage),
        ((0, 8889), good, None, 16, Status::Usage),
        ((8888, 8889), b"#\nx\n", None, 16, bad),
        ((8888, 8889), good, Some(2), 16, Status::ReadFault),
        ((8888, 8889), good, None, 0, Status::PortFault),
        ((8888, 8889), good, None, 15, Status::PortFault),
        ((8888, 8889), good, None, 16, Status::SpawnFault),
    ];
    for (ports, stimulus, fails, many, wanted) in table {
        let status = ends_as(rt, rt.alloc(), ports, (stimulus, fails), many)?;
        assert_eq!(rt; status, wanted);
    }
    Ok(())
}

/// Serves at these ports, with TTL input 1 up from tick 1 on.
fn serve_at<
    R: Threads
        + Wait
        + Clock
        + Net<Listener = TcpListener, Stream = TcpStream>
        + Copy
        + Send
        + 'static,
>(rt: R, alloc: Global, control: u16, records: u16) -> Result<Status, OutOfMemory> {
    let words = words_of(alloc, control, records)?;
    let mut source = MemSource::new(text_of(alloc, b"1 S TTLIN1 1\n")?, 64, None);
    let mut net = TcpListen::new(rt, alloc);
    let mut spawner = ThreadSpawner::new(alloc);
    let pacer = ClockPacer::new(rt);
    Ok(serve(
        rt,
        alloc,
        words.as_slice(),
        &mut source,
        &mut net,
        pacer,
        &mut spawner,
    ))
}

/// A port that nobody has.
fn free_port<R: Net<Listener = TcpListener, Stream = TcpStream>>(rt: &R) -> io::Result<u16> {
    Ok(
        TcpListener::bind(rt, ("127.0.0.1", 0))?
            .local_addr()?
            .port(),
    )
}

/// A connection to the port, once it is open.
fn connected<R: Net<Listener = TcpListener, Stream = TcpStream> + Clock>(
    rt: &R,
    port: u16,
) -> io::Result<TcpStream> {
    for _ in 0..1000 {
        if let Ok(stream) = TcpStream::connect(rt, ("127.0.0.1", port)) {
            return Ok(stream);
        }
        thread::sleep(rt, Duration::from_millis(5));
    }
    TcpStream::connect(rt, ("127.0.0.1", port))
}

/// The line is answered by exactly these bytes.
fn is_answered(stream: &mut TcpStream, line: &[u8], wanted: &[u8]) -> io::Result<bool> {
    let mut answer = [0u8; 64];
    if wanted.len() > 64 {
        return Ok(false);
    }
    stream.write_all(line)?;
    stream.read_exact(&mut answer[..wanted.len()])?;
    Ok(&answer[..wanted.len()] == wanted)
}

// Each worker of either port answers, and the capture worker lets the input rise.
#[test]
fn sixteen_sessions_at_once(rt: HostRuntime) -> Result<(), Fail> {
    let alloc = rt.alloc();
    let control = free_port(&rt)?;
    let records = free_port(&rt)?;
    let started = thread::spawn(&rt, move || serve_at(rt, alloc, control, records));
    assert!(rt; started.is_ok());
    let mut controls = Vec::new(alloc);
    let mut readers = Vec::new(alloc);
    for _ in 0..8 {
        let mut stream = connected(&rt, control)?;
        assert!(rt; is_answered(&mut stream, b"*IDN?\n", b"OK =panda_sim 1.0\n")?);
        controls.push(stream)?;
        let mut stream = connected(&rt, records)?;
        assert!(rt; is_answered(&mut stream, b"\n", b"OK\n")?);
        readers.push(stream)?;
    }
    let Some(mut first) = controls.pop() else {
        panic!(rt; "eight sessions are open")
    };
    let who = b"!C 1\n!C 2\n!C 3\n!C 4\n!C 5\n!C 6\n!C 7\n!C 8\n!D 1\n!D 2\n!D 3\n!D 4\n";
    assert!(rt; is_answered(&mut first, b"*WHO?\n", who)?);
    assert!(rt; is_answered(&mut first, b"", b"!D 5\n!D 6\n!D 7\n!D 8\n.\n")?);
    for _ in 0..10_000 {
        thread::sleep(&rt, Duration::from_millis(1));
        if is_answered(&mut first, b"TTLIN1.VAL?\n", b"OK =1\n")? {
            return Ok(());
        }
    }
    panic!(rt; "the input didn't rise")
}
