ghost use Rattle.std.specs.Prelude.{◌≡◌};
ghost use Rattle.pb_turn.specs.Seeing.{Known};
ghost use Rattle.pb_turn.specs.Passing.{known, IsFree};

use crate::stands::Stands;
use crate::views::View;
use atomic_table::Seat;
use std::marker::Model;

/// What a thread takes its turns with. It takes no bytes: what it knows is seen by contracts alone.
#[derive(Drop)]
pub struct Pass<V: Stands> {
    pub(crate) seat: Seat<Option<V>, View<V::Entry, V>>,
}

impl<V: Stands> Model for Pass<V> {
    ghost Value = { Known V.Entry V };

    ghost view = { λ p. known p.seat.table_id p.seat.me.0 };

    ghost invariant = { λ p. IsFree p.seat.me };
}
