ghost use Rattle.std.specs.Prelude.{◌≡◌, ◌<◌, length};

use pb_ports::{Door, Listen, Read, Sink, Source, TcpListen};
use std::io;
use std::io::{Read as _, Write as _};
use std::net::{Net, Shutdown, TcpListener, TcpStream};
use std::process::Abort;
use std::sync::Wait;
use std::test::Fail;

/// Waits for a connection, and sends back what comes in on it up to its end.
fn echo<D: Door, R: Wait>(rt: &R, door: &mut D) -> Option<usize> {
    let (mut source, mut sink) = door.accept(rt).ok()?;
    let mut all = 0usize;
    let mut buf = [0u8; 16];
    for _ in 0..1000 {
        match source.read(&mut buf) {
            Read::Some(n) => {
                sink.write_all(&buf[..n]).ok()?;
                all = all.saturating_add(n);
            }
            Read::End => return Some(all),
            Read::Failed => return None,
        }
    }
    None
}

/// A connection on which `ping` was sent and nothing more will be.
fn pinging<R: Net<Listener = TcpListener, Stream = TcpStream>>(
    rt: &R,
    port: u16,
) -> io::Result<TcpStream> {
    let mut stream = TcpStream::connect(rt, ("127.0.0.1", port))?;
    stream.write_all(b"ping")?;
    stream.shutdown(Shutdown::Write)?;
    Ok(stream)
}

/// Whether a connection to the port comes in by this door, and gets back what was sent on it.
fn lets_in<D: Door, R: Net<Listener = TcpListener, Stream = TcpStream> + Wait>(
    rt: &R,
    door: &mut D,
    port: u16,
) -> io::Result<bool> {
    let mut client = pinging(rt, port)?;
    let all = echo(rt, door);
    let mut back = [0u8; 4];
    client.read_exact(&mut back)?;
    Ok(all == Some(4) && back == *b"ping")
}

#[test]
fn two_doors_of_a_port_let_in_two_connections(rt: HostRuntime) -> Result<(), Fail> {
    let listener = TcpListener::bind(&rt, ("127.0.0.1", 0))?;
    let port = listener.local_addr()?.port();
    drop(listener);
    let mut net = TcpListen::new(rt, rt.alloc());
    let (Ok(mut one), Ok(mut two)) = (net.door(port), net.door(port)) else {
        panic!(rt; "the port can't be opened")
    };
    assert!(rt; lets_in(&rt, &mut one, port)?);
    assert!(rt; lets_in(&rt, &mut two, port)?);
    assert!(rt; one.faults() == 0 && net.faults() == 0);
    Ok(())
}

#[test]
fn a_port_in_use_is_a_fault(rt: HostRuntime) -> Result<(), Fail> {
    let listener = TcpListener::bind(&rt, ("127.0.0.1", 0))?;
    let port = listener.local_addr()?.port();
    let mut net = TcpListen::new(rt, rt.alloc());
    assert!(rt; net.door(port).is_err() && net.faults() == 1);
    drop(listener);
    Ok(())
}
