//! What a pass knows. Values of these types exist in proofs alone.

use std::collections::LinkedList;

/// A pass that was joined into the first one: the number of its process, and the items that this process made.
pub struct Finished<I> {
    pub pid: u64,
    pub mine: LinkedList<I>,
}

/// What a pass knows of the lock's value and of the other passes. No value of it is made.
pub struct Known<I, S> {
    /// The number of its process, from 1; 0 is the view of a pass that was joined.
    pub pid: u64,
    /// What the value is about. Only the view of a pass that was joined has none.
    pub subject: Option<S>,
    /// The history as it was at the last turn, or as another pass had seen it that was joined.
    pub seen: LinkedList<I>,
    /// The items that this process made.
    pub mine: LinkedList<I>,
    /// How many tickets it drew.
    pub drawn: u64,
    /// The ticket whose turn it waits for or has.
    pub ticket: Option<u64>,
    /// Whether its ticket is the one that is served.
    pub turn: bool,
    /// How many passes are not joined. The first pass alone knows it.
    pub live: u64,
    /// The passes that were joined, the last one first. The first pass alone knows them.
    pub ended: LinkedList<Finished<I>>,
    /// What the first pass had seen before the last join.
    pub before: LinkedList<I>,
    /// What the pass that was joined last had seen.
    pub other: LinkedList<I>,
}
