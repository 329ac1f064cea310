ghost use Rattle.std.specs.Prelude.{◌≡◌, ◌<◌, ◌≤◌, ◌^◌, ◌==◌, [], length, not, IfOk};
ghost use Rattle.pb_pulse.specs.Holding.{IsStillFor};
ghost use Rattle.pb_pulse.specs.Queue.{InOrder, is_any_on, left};

use crate::trains::Train;
use circular_buffer::HeapCircularBuffer;
use pb_words::OutOfMemory;
use std::alloc::Global;
use std::marker::Model;

/// So many trains can be queued.
const ROOM: usize = 255;

/// The queued trains, of which the first to begin is in front. None begins before the one before it has ended.
#[derive(Drop)]
pub(crate) struct Queue {
    trains: HeapCircularBuffer<Train>,
}

impl Model for Queue {
    ghost use Rattle.std.specs.Prelude.{◌≡◌, List};
    ghost use Rattle.pb_pulse.specs.declared.trains.Train.{Train};
    ghost use Rattle.pb_pulse.specs.Queue.{InOrder, room};

    ghost Value = { List Train };

    ghost view = { λ q. q.trains.items };

    ghost invariant = { λ q. (q.trains.capacity ≡ room) × InOrder 0 q.trains.items };
}

impl Queue {
    ghost use Rattle.pb_pulse.specs.Queue as definition;

    /// An empty queue with room for all trains that it can have.
    pub(crate) fn new(alloc: Global) -> Result<Queue, OutOfMemory>
        ensures { IfOk result (λ queue. queue ≡ []) }
    {
        let trains = HeapCircularBuffer::with_capacity(alloc, ROOM)?;
        Ok(Queue { trains })
    }

    /// How many trains are queued.
    pub(crate) fn len(&self) -> usize
        ensures len { result ≡ length self.now }
        ensures within { result ≤ 255 }
    {
        self.trains.len()
    }

    /// No train is queued any more.
    pub(crate) fn clear(&mut self)
        ensures { self.new ≡ [] }
    {
        self.trains.clear();
    }

    /// The tick behind the last train, and 0 where there is none.
    fn last_end(&self) -> u128
        ensures { result ≡ definition.last_end self.now }
    {
        match self.trains.back() {
            Some(train) => train.end(),
            None => 0,
        }
    }

    /// Whether a train that is asked for is dropped.
    fn drops(&self, train: Train) -> bool
        ensures { result ≡ definition.is_dropped train self.now }
    {
        train.width == 0
            || train.number > 1 && train.step < train.width
            || self.len() >= ROOM
            || u128::from(train.start) < self.last_end()
    }

    /// Puts a train at the end, if it isn't dropped. Says whether it is queued.
    pub(crate) fn ask(&mut self, train: Train) -> bool
        requires { 0 < train.number }
        ensures queue { self.new ≡ definition.asked train self.old }
        ensures queued { result ≡ not (definition.is_dropped train self.old) }
    {
        if self.drops(train) {
            return false;
        }
        self.trains.push_back(train);
        true
    }

    pub(crate) fn is_empty(&self) -> bool
        ensures { result ≡ (length self.now == 0) }
    {
        self.trains.is_empty()
    }

    /// For how many ticks, from a tick on, no train leaves and the output stays; none where that is so for ever.
    pub(crate) fn still(&self, tick: u64, out: bool) -> Option<u128>
        requires { tick < 2 ^ 62 }
        ensures { IsStillFor tick out self.now result }
    {
        let Some(&front) = self.trains.front() else {
            if out {
                return Some(0);
            }
            return None;
        };
        if front.end() <= u128::from(tick + 1) {
            return Some(0);
        }
        if front.is_on_at(tick) != out {
            return Some(0);
        }
        Some(front.holds_until(tick) - u128::from(tick))
    }

    /// Whether a pulse is on at a tick. The trains that have ended by the next one leave.
    pub(crate) fn pass(&mut self, tick: u64) -> bool
        requires { tick < 2 ^ 62 }
        ensures out { result ≡ definition.is_any_on tick self.old }
        ensures left { self.new ≡ definition.left tick self.old }
    {
        pass(&mut self.trains, tick)
    }
}

/// The trains in front that end by the next tick leave. A train behind one that stays begins too late to be on.
fn pass(trains: &mut HeapCircularBuffer<Train>, tick: u64) -> bool
    requires tick { tick < 2 ^ 62 }
    requires order { InOrder 0 trains.old.items }
    ensures out { result ≡ is_any_on tick trains.old.items }
    ensures left { trains.new.items ≡ left tick trains.old.items }
    ensures order { InOrder 0 trains.new.items }
    ensures room { trains.new.capacity ≡ trains.old.capacity }
{
    let mut out = false;
    while let Some(&front) = trains.front() {
        out |= front.is_on_at(tick);
        if front.end() > u128::from(tick + 1) {
            return out;
        }
        trains.pop_front();
    }
    out
}
