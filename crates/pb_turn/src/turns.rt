ghost use Rattle.std.specs.Prelude.{◌≡◌, ◌<◌, ◌++◌, ◌∷◌, [], List, IfOk, IfErr, Some, false};
ghost use Rattle.pb_turn.specs.Seeing.{origin_of};
ghost use Rattle.pb_turn.specs.Passing.{newcomer, kept_of, cut_of, joined_of, IsJoined};
ghost use Rattle.pb_turn.specs.Steps.{keeping, getting};

use crate::passes::Pass;
use crate::rules::{Cut, FREE, HISTORY, Load, Parts, Together, Turns, VALUE};
use crate::stands::Stands;
use crate::views::{Opening, View};
use atomic_table::{Refused, Seat, Shared, Table};
use std::alloc::Global;
use std::marker::{Brand, Model};
use std::snapshot::Snapshot;

/// A value that threads take turns at, and the one history for which it stands. A contract sees of it which turn it is.
#[derive(Drop)]
pub struct Turn<V: Stands> {
    pub(crate) table: Table<Option<V>, View<V::Entry, V>, Opening<V>, Turns, Global>,
}

impl<V: Stands> Model for Turn<V> {
    ghost use Rattle.std.specs.Prelude.{◌≡◌};
    ghost use Rattle.atomic_table.specs.Seated.{TableId};

    ghost Value = { TableId };

    ghost view = { λ t. t.table.shared.table_id };

    ghost invariant = { λ t. (t.table.shared.table_id.words ≡ 2) × (t.table.shared.table_id.slots ≡ 1) };
}

impl<V: Stands> Turn<V> {
    /// A turn at the value, and the pass that has all its parts. Where memory is wanting the value comes back.
    pub fn new(alloc: Global, value: V, parts: u64) -> Result<(Turn<V>, Pass<V>), V>
        requires opening { V.stands value [] }
        requires some { 0 < parts }
        ensures ok { IfOk result (λ made. made.1 ≡ newcomer made.0 value parts) }
        ensures err { IfErr result (λ back. back ≡ value) }
    {
        let about = Opening {
            value: Snapshot::of(&value),
            parts,
        };
        let mut slots = match Vec::with_capacity(alloc, 1) {
            Ok(slots) => slots,
            Err(_) => return Err(value),
        };
        slots.push_reserved(Some(value));
        match Table::new(alloc, &[0, FREE], slots, &about) {
            Ok((table, seat)) => Ok((Turn { table }, Pass { seat })),
            Err(Refused { slots }) => Err(only(slots)),
        }
    }

    /// Cuts this many parts off a pass: a pass for another thread, which has seen as much and made nothing.
    pub fn split(&self, pass: Pass<V>, parts: u64) -> (Pass<V>, Pass<V>)
        requires turn { pass.turn ≡ self.now }
        requires some { 0 < parts }
        requires fewer { parts < pass.parts }
        ensures first { result.0 ≡ kept_of pass parts }
        ensures second { result.1 ≡ cut_of pass parts }
    {
        let Pass { mut seat } = pass;
        let other = cut::<V, Brand>(&self.table.shared, &mut seat, parts);
        (Pass { seat }, Pass { seat: other })
    }

    /// Makes one pass of two: it has seen what either has seen, and has the calls and the parts of both.
    pub fn join(&self, a: Pass<V>, b: Pass<V>) -> Pass<V>
        requires first { a.turn ≡ self.now }
        requires second { b.turn ≡ self.now }
        ensures pass { result ≡ joined_of a b }
        ensures both { IsJoined a b result }
    {
        let Pass { mut seat } = a;
        let Pass { seat: other } = b;
        let shared = &self.table.shared;
        shared.join_seat::<Together>(&mut seat, other);
        shared.load::<Load>(&mut seat, HISTORY);
        Pass { seat }
    }

    /// Ends the turn and gives its value, which stands for a history that begins with what the pass has seen.
    pub fn close(self, pass: Pass<V>) -> V
        requires turn { pass.turn ≡ self }
        requires all { pass.parts ≡ pass.all }
        ensures stands { (more : List V.Entry) × V.stands result (pass.seen ++ more) }
        ensures origin { origin_of V.origin pass ≡ Some (V.origin result) }
    {
        let Pass { seat } = pass;
        let Turn { table } = self;
        let mut closed = table.close_with(seat);
        let slot = closed.take(VALUE);
        closed.free();
        match slot {
            Some(value) => value,
            None => unreachable!(),
        }
    }
}

// The value that came back.
fn only<V>(mut slots: Vec<Option<V>, Global>) -> V
    requires { (value : V) × (slots.items ≡ Some value ∷ []) }
    ensures { slots.items ≡ Some result ∷ [] }
{
    let value = match slots.pop() {
        Some(Some(value)) => value,
        _ => unreachable!(),
    };
    slots.destroy_empty();
    value
}

// A new seat with this many parts of the seat's.
fn cut<V: Stands, N: Parts>(
    shared: &Shared<Option<V>, View<V::Entry, V>, Opening<V>, Turns>,
    seat: &mut Seat<Option<V>, View<V::Entry, V>>,
    parts: u64,
) -> Seat<Option<V>, View<V::Entry, V>>
    requires picked { parts ≡ N.parts }
    requires table { (seat.old.table_id ≡ shared.now.table_id) × (shared.now.table_id.words ≡ 2) }
    requires parts { (0 < parts) × (parts < seat.old.me.0.parts) × (seat.old.me.0.holds ≡ false) }
    ensures seat { (seat.new.table_id ≡ seat.old.table_id) × (seat.new.me ≡ (keeping seat.old.me.0 parts, seat.old.me.1)) }
    ensures other { (result.table_id ≡ seat.old.table_id) × (result.me ≡ (getting seat.old.me.0 parts, [])) }
{
    shared.split_seat::<Cut<N>>(seat)
}
