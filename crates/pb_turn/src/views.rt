use std::collections::LinkedList;
use std::snapshot::Snapshot;

// What a seat at the turn's table knows. No value of it is made: it exists in proofs alone.
pub struct View<E, V> {
    // the history, as far as the seat has seen it
    pub seen: LinkedList<E>,
    // where its own entries stand in the history
    pub made: LinkedList<u64>,
    // what the pass that was joined last had seen
    pub heard: LinkedList<E>,
    // its parts of the right to close the turn
    pub parts: u64,
    // the parts of all passes together
    pub all: u64,
    // how often it found the turn taken
    pub lost: u64,
    // the value that the turn was made of
    pub opened: Option<V>,
    // it holds the turn
    pub holds: bool,
}

// What the table is told when it is made: the value, and the number of parts.
pub struct Opening<V> {
    pub value: Snapshot<V>,
    pub parts: u64,
}

impl<V> Drop for Opening<V> {
    fn drop(self) {
        let Self { value: _, parts: _ } = self;
    }
}
