// A counter that threads take turns at.
ghost use Rattle.std.specs.Prelude.{◌≡◌, ◌≤◌, ◌+◌, ◌%◌, ◌^◌, ℕ, length};

use pb_turn::{Pass, Stands, Turn};
use std::sync::Wait;
use std::thread::{Threads, join, yield_now};

/// Counts calls. It stands for the lists that are as long as it has counted.
#[derive(Drop)]
pub struct Counter {
    count: u64,
    name: u64,
}

impl Stands for Counter {
    type Entry = u64;

    ghost Origin = { ℕ };

    ghost origin = { λ c. c.name };

    ghost stands = { λ c history. c.count ≡ length history % 2 ^ 64 };
}

impl Counter {
    pub fn new(name: u64) -> Counter
        ensures { (result.count ≡ 0) × (result.name ≡ name) }
    {
        Counter { count: 0, name }
    }

    pub fn count(&self) -> u64 {
        self.count
    }

    pub fn name(&self) -> u64
        ensures { result ≡ self.now.name }
    {
        self.name
    }

    /// Reads, lets others run if it is slow, and writes: a call would be lost where two held the counter at once.
    pub fn bump(&mut self, slow: bool)
        ensures count { self.new.count ≡ (self.old.count + 1) % 2 ^ 64 }
        ensures name { self.new.name ≡ self.old.name }
    {
        let seen = self.count;
        if slow {
            yield_now();
        }
        self.count = seen.wrapping_add(1);
    }
}

/// One turn: the counter is bumped, and the entry says by whom.
pub fn call<R: Wait>(
    rt: &R,
    turn: &Turn<Counter>,
    pass: Pass<Counter>,
    by: u64,
    slow: bool,
) -> Pass<Counter>
    requires { pass.turn ≡ turn.now }
    ensures { (result.turn ≡ pass.turn) × (result.parts ≡ pass.parts) × (result.all ≡ pass.all) }
{
    let mut held = turn.enter(rt, pass);
    held.value().bump(slow);
    held.leave(&by)
}

/// So many turns.
pub fn calls<R: Wait>(
    rt: &R,
    turn: &Turn<Counter>,
    pass: Pass<Counter>,
    by: u64,
    many: u64,
    slow: bool,
) -> Pass<Counter>
    requires { pass.turn ≡ turn.now }
    ensures { (result.turn ≡ pass.turn) × (result.parts ≡ pass.parts) × (result.all ≡ pass.all) }
{
    let mut mine = pass;
    for _ in 0..many {
        mine = call(rt, turn, mine, by, slow);
    }
    mine
}

/// So many turns by each of two threads.
pub fn by_two<R: Threads + Wait + Sync>(
    rt: &R,
    turn: &Turn<Counter>,
    pass: Pass<Counter>,
    many: u64,
    slow: bool,
) -> Pass<Counter>
    requires { (pass.turn ≡ turn.now) × (2 ≤ pass.parts) }
    ensures { (result.turn ≡ pass.turn) × (result.parts ≡ pass.parts) × (result.all ≡ pass.all) }
{
    let (one, two) = turn.split(pass, 1);
    let (one, two) = join(
        rt,
        || -> Pass<Counter>
            requires { one.turn ≡ turn.now }
            ensures { (result.turn ≡ one.turn) × (result.parts ≡ one.parts) × (result.all ≡ one.all) }
        { calls(rt, turn, one, 1, many, slow) },
        || -> Pass<Counter>
            requires { two.turn ≡ turn.now }
            ensures { (result.turn ≡ two.turn) × (result.parts ≡ two.parts) × (result.all ≡ two.all) }
        { calls(rt, turn, two, 2, many, slow) },
    );
    turn.join(one, two)
}

/// So many turns by each of four threads.
pub fn by_four<R: Threads + Wait + Sync>(
    rt: &R,
    turn: &Turn<Counter>,
    pass: Pass<Counter>,
    many: u64,
    slow: bool,
) -> Pass<Counter>
    requires { (pass.turn ≡ turn.now) × (4 ≤ pass.parts) }
    ensures { (result.turn ≡ pass.turn) × (result.parts ≡ pass.parts) × (result.all ≡ pass.all) }
{
    let (one, two) = turn.split(pass, 2);
    let (one, two) = join(
        rt,
        || -> Pass<Counter>
            requires { (one.turn ≡ turn.now) × (2 ≤ one.parts) }
            ensures { (result.turn ≡ one.turn) × (result.parts ≡ one.parts) × (result.all ≡ one.all) }
        { by_two(rt, turn, one, many, slow) },
        || -> Pass<Counter>
            requires { (two.turn ≡ turn.now) × (2 ≤ two.parts) }
            ensures { (result.turn ≡ two.turn) × (result.parts ≡ two.parts) × (result.all ≡ two.all) }
        { by_two(rt, turn, two, many, slow) },
    );
    turn.join(one, two)
}

/// So many turns by each of eight threads.
pub fn by_eight<R: Threads + Wait + Sync>(
    rt: &R,
    turn: &Turn<Counter>,
    pass: Pass<Counter>,
    many: u64,
    slow: bool,
) -> Pass<Counter>
    requires { (pass.turn ≡ turn.now) × (8 ≤ pass.parts) }
    ensures { (result.turn ≡ pass.turn) × (result.parts ≡ pass.parts) × (result.all ≡ pass.all) }
{
    let (one, two) = turn.split(pass, 4);
    let (one, two) = join(
        rt,
        || -> Pass<Counter>
            requires { (one.turn ≡ turn.now) × (4 ≤ one.parts) }
            ensures { (result.turn ≡ one.turn) × (result.parts ≡ one.parts) × (result.all ≡ one.all) }
        { by_four(rt, turn, one, many, slow) },
        || -> Pass<Counter>
            requires { (two.turn ≡ turn.now) × (4 ≤ two.parts) }
            ensures { (result.turn ≡ two.turn) × (result.parts ≡ two.parts) × (result.all ≡ two.all) }
        { by_four(rt, turn, two, many, slow) },
    );
    turn.join(one, two)
}
