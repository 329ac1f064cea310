ghost use Rattle.std.specs.Prelude.{◌≡◌, ◌≤◌};
ghost use Rattle.pb_turn.specs.Entering.{HasValue, Holds, IsTaken};

use crate::holding::Held;
use crate::passes::Pass;
use crate::rules::{FREE, Out, TAKEN, TURN, VALUE};
use crate::stands::Stands;
use crate::turns::Turn;
use crate::views::View;
use atomic_table::Seat;
use std::hint::spin_loop;
use std::sync::Wait;

// So often a thread tries, each time after twice the wait of the last, before it sleeps.
const TRIES: u32 = 5;

// The first wait, in turns of a loop. Threads that look more often slow the one that holds the turn.
const FIRST_WAIT: u32 = 32;

/// What `try_enter` gives: the turn, or the pass again where another holds the turn.
pub enum Entered<'a, V: Stands> {
    Held(Held<'a, V>),
    Busy(Pass<V>),
}

impl<V: Stands> Turn<V> {
    ghost use Rattle.pb_turn.specs.Trying.{IsEntered};

    /// Takes the turn if nobody holds it. Else the pass comes back, which has lost once more.
    pub fn try_enter(&self, pass: Pass<V>) -> Entered<'_, V>
        requires turn { pass.turn ≡ self.now }
        ensures { IsEntered V.origin V.stands pass result }
    {
        let Pass { mut seat } = pass;
        if self
            .table
            .shared
            .compare_exchange::<Out>(&mut seat, TURN, FREE, TAKEN)
            == FREE
        {
            Entered::Held(self.take(seat))
        } else {
            Entered::Busy(Pass { seat })
        }
    }

    /// Takes the turn, and waits for it where another holds it: it spins for a short time and then sleeps until
    /// the turn is given back. The pass may have lost on the way.
    pub fn enter<R: Wait>(&self, rt: &R, pass: Pass<V>) -> Held<'_, V>
        requires turn { pass.turn ≡ self.now }
        ensures holds { Holds V.origin V.stands pass result }
        ensures lost { pass.lost ≤ result.pass.lost }
    {
        let mut waiting = pass;
        let mut tried = 0;
        for _ in rt.forever() {
            match self.try_enter(waiting) {
                Entered::Held(held) => return held,
                Entered::Busy(back) => waiting = back,
            }
            if tried < TRIES {
                spin(FIRST_WAIT << tried);
                tried += 1;
            } else {
                self.table.shared.park(rt, TURN, TAKEN as u32);
            }
        }
        unreachable!()
    }

    // The value, out of its slot.
    fn take(&self, mut seat: Seat<Option<V>, View<V::Entry, V>>) -> Held<'_, V>
        requires turn { seat.table_id ≡ self.now }
        requires has { HasValue seat.me }
        ensures { IsTaken seat.table_id seat.me result }
    {
        match self.table.shared.exchange(&mut seat, VALUE, None) {
            Some(value) => Held {
                turn: self,
                seat,
                value,
            },
            None => unreachable!(),
        }
    }
}

// Waits for so many turns of a loop.
fn spin(turns: u32) {
    for _ in 0..turns {
        spin_loop();
    }
}
