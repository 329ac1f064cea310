ghost use Rattle.std.specs.Prelude.{◌≡◌, ◌<◌};
ghost use Rattle.pb_core.specs.Sessions.{IsSession};

use crate::seats::Seat;
use pb_core::Server;
use pb_ports::{Door, Job, Pacer};
use pb_session::{capture_worker, control_worker, data_worker};
use pb_turn::Stands;
use pb_words::Steps;
use std::alloc::Global;
use std::marker::Brand;
use std::sync::Wait;
use std::sync::ledger::{Blank, Ledger};
use std::thread::Threads;

/// How many turns the capture worker takes before it begins anew.
const TURNS: u64 = 1 << 32;

/// Lets the time of the box follow the pacer.
#[derive(Drop)]
pub(crate) struct CaptureJob<V: Stands, P> {
    pub(crate) seat: Seat<V>,
    pub(crate) pacer: P,
}

impl<V: Server + Send + Drop + 'static, P: Pacer + Send + Drop + 'static> Job for CaptureJob<V, P> {
    fn work<R: Threads + Wait + Copy + Send>(self, rt: R) {
        let CaptureJob { seat, pacer } = self;
        capture::<V, P, R, Brand>(&rt, seat, pacer, Blank::new(1));
    }
}

/// The capture worker's calls, with a counter of work.
fn capture<V: Server + Drop, P: Pacer + Drop, R: Wait, L: Ledger>(
    rt: &R,
    seat: Seat<V>,
    pacer: P,
    blank: Blank,
)
    requires name { blank.name ≡ L.name }
    requires parts { blank.parts ≡ L.parts }
    requires some { 0 < blank.parts }
{
    let mut steps = Steps::<L>::new(blank);
    let mut seat = seat;
    let mut pacer = pacer;
    for _ in rt.forever() {
        seat = capture_on(rt, seat, &mut pacer, &mut steps);
    }
}

fn capture_on<V: Server, P: Pacer, R: Wait, L: Ledger>(
    rt: &R,
    seat: Seat<V>,
    pacer: &mut P,
    steps: &mut Steps<L>,
) -> Seat<V> {
    let Seat { turn, pass } = seat;
    let pass = capture_worker(rt, &turn, pass, pacer, TURNS, steps);
    Seat { turn, pass }
}

/// Of which kind the sessions of a door are.
#[derive(Clone, Copy, Debug, PartialEq, Eq)]
pub(crate) enum Side {
    Control,
    Data,
}

/// Serves the sessions of one kind and one id, one after the other.
#[derive(Drop)]
pub(crate) struct SessionJob<V: Stands, D, P> {
    pub(crate) alloc: Global,
    pub(crate) seat: Seat<V>,
    pub(crate) side: Side,
    pub(crate) id: u32,
    pub(crate) door: D,
    pub(crate) pacer: P,
    ghost session: { IsSession id },
}

impl<V: Stands, D, P> SessionJob<V, D, P> {
    /// The job of the door that has this id.
    pub(crate) fn new(
        alloc: Global,
        seat: Seat<V>,
        side: Side,
        id: u32,
        door: D,
        pacer: P,
    ) -> SessionJob<V, D, P>
        requires { IsSession id }
    {
        SessionJob {
            alloc,
            seat,
            side,
            id,
            door,
            pacer,
        }
    }
}

impl<
    V: Server + Send + Drop + 'static,
    D: Door + Send + Drop + 'static,
    P: Pacer + Send + Drop + 'static,
> Job for SessionJob<V, D, P>
where
    D::In: Send,
    D::Out: Send,
{
    fn work<R: Threads + Wait + Copy + Send>(self, rt: R) {
        let SessionJob {
            alloc,
            seat,
            side,
            id,
            door,
            pacer,
        } = self;
        let mut seat = seat;
        let mut door = door;
        let mut pacer = pacer;
        for _ in rt.forever() {
            seat = match side {
                Side::Control => serve_control(&rt, alloc, seat, id, &mut door, &mut pacer),
                Side::Data => serve_data(&rt, alloc, seat, id, &mut door, &mut pacer),
            };
        }
    }
}

/// One control session. How it ended is for nobody to know.
fn serve_control<V: Server, D: Door, P: Pacer, R: Wait>(
    rt: &R,
    alloc: Global,
    seat: Seat<V>,
    id: u32,
    door: &mut D,
    pacer: &mut P,
) -> Seat<V>
    requires { IsSession id }
{
    let Seat { turn, pass } = seat;
    let (pass, _ended) = control_worker(rt, alloc, &turn, pass, id, door, pacer);
    Seat { turn, pass }
}

/// One data session. How it ended is for nobody to know.
fn serve_data<V: Server, D: Door, P: Pacer, R: Wait>(
    rt: &R,
    alloc: Global,
    seat: Seat<V>,
    id: u32,
    door: &mut D,
    pacer: &mut P,
) -> Seat<V>
    requires { IsSession id }
{
    let Seat { turn, pass } = seat;
    let (pass, _ended) = data_worker(rt, alloc, &turn, pass, id, door, pacer);
    Seat { turn, pass }
}
