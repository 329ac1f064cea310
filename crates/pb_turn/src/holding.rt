ghost use Rattle.std.specs.Prelude.{◌≡◌, ◌<◌, ◌++◌, ◌∷◌, [], true, Some};
ghost use Rattle.std.specs.Borrow.{Lends, sem};
ghost use Rattle.pb_turn.specs.Seeing.{calls_of, origin_of};
ghost use Rattle.pb_turn.specs.Entering.{after_leaving, with_value};
ghost use Rattle.pb_turn.specs.Steps.{adding};

use crate::passes::Pass;
use crate::rules::{Add, FREE, HISTORY, Home, Said, TURN, Turns, VALUE};
use crate::stands::Stands;
use crate::turns::Turn;
use crate::views::{Opening, View};
use atomic_table::{Seat, Shared};
use std::marker::{Brand, Model};

/// The turn while it is held, with the value. It isn't `Drop`, so that it can't be lost unnoticed: it ends by `leave`.
pub struct Held<'a, V: Stands> {
    pub(crate) turn: &'a Turn<V>,
    pub(crate) seat: Seat<Option<V>, View<V::Entry, V>>,
    pub(crate) value: V,
}

impl<'a, V: Stands> Model for Held<'a, V> {
    ghost use Rattle.std.specs.Prelude.{◌≡◌};
    ghost use Rattle.pb_turn.specs.Entering.{Holding, IsHeld, holding_of};

    ghost Value = { Holding V.Entry V };

    ghost view = { λ h. holding_of h.seat.table_id h.seat.me.0 h.value };

    ghost invariant = { λ h. (h.turn.now ≡ h.seat.table_id) × IsHeld h.seat.me };
}

impl<'a, V: Stands> Held<'a, V> {
    ghost use mir.Syntax.{named};
    ghost use Rattle.pb_turn.specs.contracts.holding.Held.{the_row};

    /// The value, to be read and changed.
    pub fn value(&mut self) -> &mut V
        ensures* writes_back { sem 𝓛 (Lends (the_row (record { mir = named 1; lft = [] }) V.row V.Entry.row V.Stands) V.row self.entry result (with_value self.old)) }
        ensures value { result.now ≡ self.old.value }
    {
        &mut self.value
    }

    /// Gives the turn back. The entry is added to the history, and is the pass's own.
    pub fn leave(self, entry: &V::Entry) -> Pass<V>
        requires stands { V.stands self.value (self.pass.seen ++ entry.now ∷ []) }
        requires origin { origin_of V.origin self.pass ≡ Some (V.origin self.value) }
        ensures pass { result ≡ after_leaving self.entry.pass entry.now }
        ensures calls { calls_of result ≡ calls_of self.entry.pass ++ entry.now ∷ [] }
    {
        let Held {
            turn,
            mut seat,
            value,
        } = self;
        let shared = &turn.table.shared;
        note::<V, Brand>(shared, &mut seat, entry);
        let left = shared.exchange(&mut seat, VALUE, Some(value));
        let None = left else { unreachable!() };
        shared.store::<Home>(&mut seat, TURN, FREE);
        shared.wake_one(TURN);
        Pass { seat }
    }
}

// The history has one more entry, which is the seat's own.
fn note<V: Stands, N: Said<V::Entry>>(
    shared: &Shared<Option<V>, View<V::Entry, V>, Opening<V>, Turns>,
    seat: &mut Seat<Option<V>, View<V::Entry, V>>,
    entry: &V::Entry,
)
    requires picked { N.said ≡ Some entry.now }
    requires table { (seat.old.table_id ≡ shared.now.table_id) × (shared.now.table_id.words ≡ 2) }
    requires holds { (0 < seat.old.me.0.parts) × (seat.old.me.0.holds ≡ true) }
    ensures { (seat.new.table_id ≡ seat.old.table_id) × (seat.new.me ≡ (adding seat.old.me.0 entry.now, seat.old.me.1)) }
{
    let _ = entry;
    shared.fetch_add::<Add<N>>(seat, HISTORY, 1);
}
