ghost use Rattle.std.specs.Prelude.{◌≡◌, ◌+◌, ◌<◌, IfOk};
ghost use Rattle.std.specs.Arc.{arc_value};

use pb_turn::{Pass, Stands, Turn};
use pb_words::OutOfMemory;
use std::alloc::Global;
use std::sync::Arc;

/// What a thread takes its turns with: the turn, which all threads share, and a pass of its own.
#[derive(Drop)]
pub(crate) struct Seat<V: Stands> {
    pub(crate) turn: Arc<Turn<V>, Global>,
    pub(crate) pass: Pass<V>,
    ghost own: { pass.turn ≡ arc_value turn },
}

impl<V: Stands + Drop> Seat<V> {
    /// The first seat at a turn.
    pub(crate) fn new(alloc: Global, turn: Turn<V>, pass: Pass<V>) -> Result<Seat<V>, OutOfMemory>
        requires { pass.turn ≡ turn }
        ensures { IfOk result (λ seat. seat.pass.parts ≡ pass.parts) }
    {
        let turn = Arc::new(alloc, turn)?;
        Ok(Seat { turn, pass })
    }

    /// This seat with a part less, and one with that part for another thread.
    pub(crate) fn split(self) -> Result<(Seat<V>, Seat<V>), OutOfMemory>
        requires { 1 < self.pass.parts }
        ensures { IfOk result (λ seats. seats.0.pass.parts + 1 ≡ self.pass.parts) }
    {
        let Seat { turn, pass } = self;
        let theirs = Arc::try_clone(&turn)?;
        let (kept, cut) = turn.split(pass, 1);
        Ok((
            Seat { turn, pass: kept },
            Seat {
                turn: theirs,
                pass: cut,
            },
        ))
    }
}
