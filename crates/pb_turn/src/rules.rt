// The rule of a turn's table, and what its steps tell.
ghost use Rattle.pb_turn.specs.Turning.{OneHistory};
ghost use Rattle.std.specs.Prelude.{ℕ, Option, None};
ghost use Rattle.pb_turn.specs.Steps.{fresh, Loads, Outs, AddsSaid, Homes, keeping, getting, joined};
ghost use Rattle.pb_turn.specs.Steps as steps;

use crate::stands::Stands;
use crate::views::{Opening, View};
use atomic_table::{Join, Play, Split, TableRule};
use std::marker::{Brand, PhantomData};

// Word 0: the length of the history modulo 2^64.
pub const HISTORY: usize = 0;

// Word 1, the turn word: whether somebody holds the turn.
pub const TURN: usize = 1;

pub const FREE: u64 = 0;

pub const TAKEN: u64 = 1;

// The one slot has the value.
pub const VALUE: usize = 0;

pub struct Turns;

impl<V: Stands> TableRule<Option<V>, View<V::Entry, V>, Opening<V>> for Turns {
    ghost holds = { λ key. OneHistory V.origin V.stands key.value.value key.parts };

    ghost first = { λ key. fresh key.value.value key.parts };
}

// load
pub struct Load;

impl<V: Stands> Play<Option<V>, View<V::Entry, V>> for Load {
    ghost then = { λ st m found n. Loads m n };
}

// out
pub struct Out;

impl<V: Stands> Play<Option<V>, View<V::Entry, V>> for Out {
    ghost then = { λ st m found n. Outs V.origin V.stands m found n };
}

// home
pub struct Home;

impl<V: Stands> Play<Option<V>, View<V::Entry, V>> for Home {
    ghost then = { λ st m found n. Homes m n };
}

// How many parts a split asks for, for the proof alone. A call at `Brand` picks it.
pub trait Parts {
    ghost parts: { ℕ };
}

impl Parts for Brand {
    ghost parts = { 0 };
}

// split
pub struct Cut<N> {
    parts: PhantomData<N>,
}

impl<E, V, N: Parts> Split<View<E, V>> for Cut<N> {
    ghost left = { λ v. keeping v N.parts };

    ghost right = { λ v. getting v N.parts };
}

// join
pub struct Together;

impl<E, V> Join<View<E, V>> for Together {
    ghost both = { joined };

    ghost spent = { steps.spent };
}

// Which entry an add adds, for the proof alone. A call at `Brand` picks it.
pub trait Said<E> {
    ghost said: { Option E };
}

impl<E> Said<E> for Brand {
    ghost said = { None };
}

// add
pub struct Add<N> {
    said: PhantomData<N>,
}

impl<V: Stands, N: Said<V::Entry>> Play<Option<V>, View<V::Entry, V>> for Add<N> {
    ghost then = { λ st m found n. AddsSaid N.said m n };
}
