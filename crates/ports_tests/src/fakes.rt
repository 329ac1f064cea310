ghost use Rattle.std.specs.Prelude.{◌≡◌, ◌≤◌};

use crate::threads::Mark;
use pb_ports::{
    Door, ListPacer, Listen, MemDoor, MemListen, MemSink, MemSource, NoSpawner, Pacer, Read, Sink,
    Source, Spawner,
};
use pb_words::{OutOfMemory, Text};
use std::alloc::Global;
use std::sync::Wait;
use std::sync::atomic::Ordering;
use std::test::Fail;

/// A door of two connections, on which `a` and `bc` come in.
fn two_ways(alloc: Global) -> Result<MemDoor, OutOfMemory> {
    let mut first = Text::new(alloc);
    first.append(b"a")?;
    let mut second = Text::new(alloc);
    second.append(b"bc")?;
    let mut ways = Vec::new(alloc);
    ways.push((
        MemSource::new(first, 4, None),
        MemSink::new(alloc, 4, None)?,
    ))?;
    ways.push((
        MemSource::new(second, 4, None),
        MemSink::new(alloc, 4, None)?,
    ))?;
    Ok(MemDoor::new(ways))
}

/// How many bytes came in on the next connection, all of which were sent back; `None` where the door fails.
fn echoed<D: Door, R: Wait>(rt: &R, door: &mut D) -> Option<(usize, D::Out)> {
    let (mut source, mut sink) = door.accept(rt).ok()?;
    let mut buf = [0u8; 4];
    match source.read(&mut buf) {
        Read::Some(n) => {
            sink.write_all(&buf[..n]).ok()?;
            Some((n, sink))
        }
        _ => None,
    }
}

#[test]
fn connections_come_in_turn(rt: HostRuntime) -> Result<(), Fail> {
    let mut doors = Vec::new(rt.alloc());
    doors.push(two_ways(rt.alloc())?)?;
    let mut net = MemListen::new(doors);
    let Ok(mut door) = net.door(8888) else {
        panic!(rt; "the listener has a door")
    };
    let Some((1, sink)) = echoed(&rt, &mut door) else {
        panic!(rt; "the first connection has a byte")
    };
    assert!(rt; sink.bytes() == b"a".as_slice());
    let Some((2, sink)) = echoed(&rt, &mut door) else {
        panic!(rt; "the second connection has two bytes")
    };
    assert!(rt; sink.bytes() == b"bc".as_slice());
    assert!(rt; door.faults() == 0 && echoed(&rt, &mut door).is_none() && door.faults() == 1);
    assert!(rt; net.door(8888).is_err() && net.faults() == 1);
    Ok(())
}

#[test]
fn moments_come_in_turn(rt: HostRuntime) -> Result<(), Fail> {
    let mut moments = Vec::new(rt.alloc());
    moments.push(5)?;
    moments.push(3)?;
    let mut pacer = ListPacer::new(moments);
    let first = pacer.now();
    pacer.pause(&rt);
    assert!(rt; first == 5 && pacer.now() == 3 && pacer.now() == 0);
    Ok(())
}

#[test]
fn every_job_is_handed_back(rt: HostRuntime) -> Result<(), Fail> {
    let mut spawner = NoSpawner::new();
    let job = Mark::new(rt.alloc())?;
    let done = job.again()?;
    match spawner.start(rt, job) {
        Ok(()) => panic!(rt; "the job was taken"),
        Err(_) => {}
    }
    assert!(rt; spawner.faults() == 1 && done.load(Ordering::SeqCst) == 0);
    Ok(())
}
