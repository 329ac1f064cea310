//! TCP as doors. A program's `main` makes a listener of them:
//!
//! ```text
//! let mut net = TcpListen::new(rt, rt.alloc());
//! ```
ghost use Rattle.std.specs.Prelude.{◌≡◌, ◌≤◌, None, IfOk, OnErr};
ghost use Rattle.pb_ports.specs.Doors.{Comes, IsFresh};
ghost use Rattle.pb_ports.specs.Ports.{Rose};

use crate::counts::count_on;
use crate::doors::{Door, Listen};
use crate::reader_sources::ReaderSource;
use crate::sinks::Failed;
use crate::writer_sinks::WriterSink;
use std::alloc::Global;
use std::io;
use std::net::{Ipv4Addr, Net, SocketAddr, SocketAddrV4, TcpListener, TcpStream};
use std::sync::Wait;

/// How often an accept that a signal interrupts is made again before it counts as a fault.
const RETRIES: u32 = 64;

/// A listening socket as a door. It doesn't tell what its connections are going to send.
#[derive(Drop)]
pub struct TcpDoor {
    listener: TcpListener,
    faults: u64,
}

impl TcpDoor {
    /// How many calls have failed.
    pub fn faults(&self) -> u64
        ensures { result ≡ self.now.faults }
    {
        self.faults
    }
}

impl Door for TcpDoor {
    type In = ReaderSource<TcpStream>;

    type Out = WriterSink<TcpStream>;

    ghost ways = { λ _. None };

    ghost faults = { λ s. s.faults };

    fn accept<R: Wait>(
        &mut self,
        _rt: &R,
    ) -> Result<(ReaderSource<TcpStream>, WriterSink<TcpStream>), Failed> {
        match accept_next(&self.listener) {
            Ok((reader, writer)) => Ok((ReaderSource::new(reader), WriterSink::new(writer))),
            Err(_) => {
                self.faults = count_on(self.faults);
                Err(Failed)
            }
        }
    }
}

/// The next connection, as two handles of one socket. What is written goes out at once.
fn accept_next(listener: &TcpListener) -> io::Result<(TcpStream, TcpStream)> {
    let stream = accept_once(listener)?;
    let _ = stream.set_nodelay(true);
    let writer = stream.try_clone()?;
    Ok((stream, writer))
}

/// One accept, made again where a signal interrupts it.
fn accept_once(listener: &TcpListener) -> io::Result<TcpStream> {
    for _ in 0..RETRIES {
        match listener.accept() {
            Err(e) if e.kind() == io::ErrorKind::Interrupted => {}
            outcome => return Ok(outcome?.0),
        }
    }
    Ok(listener.accept()?.0)
}

/// A port that was opened.
#[derive(Drop)]
struct OpenPort {
    port: u16,
    listener: TcpListener,
}

/// Ports of this machine that are open to programs on this machine alone, at 127.0.0.1.
#[derive(Drop)]
pub struct TcpListen<N> {
    net: N,
    open: Vec<OpenPort>,
    faults: u64,
}

impl<N> TcpListen<N> {
    /// A listener with no port open so far.
    pub fn new(net: N, alloc: Global) -> TcpListen<N>
        ensures { result.faults ≡ 0 }
    {
        TcpListen {
            net,
            open: Vec::new(alloc),
            faults: 0,
        }
    }

    /// How many calls have failed.
    pub fn faults(&self) -> u64
        ensures { result ≡ self.now.faults }
    {
        self.faults
    }
}

impl<N: Net<Listener = TcpListener, Stream = TcpStream>> Listen for TcpListen<N> {
    type Way = TcpDoor;

    ghost faults = { λ s. s.faults };

    fn door(&mut self, port: u16) -> Result<TcpDoor, Failed> {
        match listener_of(&self.net, &mut self.open, port) {
            Some(listener) => Ok(TcpDoor {
                listener,
                faults: 0,
            }),
            None => {
                self.faults = count_on(self.faults);
                Err(Failed)
            }
        }
    }
}

/// A handle of the port's socket, which is opened where it isn't open.
fn listener_of<N: Net<Listener = TcpListener, Stream = TcpStream>>(
    net: &N,
    open: &mut Vec<OpenPort>,
    port: u16,
) -> Option<TcpListener> {
    for known in open.iter() {
        if known.port == port {
            return known.listener.try_clone().ok();
        }
    }
    let here = SocketAddr::V4(SocketAddrV4::new(Ipv4Addr::LOCALHOST, port));
    let listener = net.bind(here).ok()?;
    let theirs = listener.try_clone().ok()?;
    open.push(OpenPort { port, listener }).ok()?;
    Some(theirs)
}
