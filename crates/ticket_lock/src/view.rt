//! What a seat of the lock's table knows, as ghost state.

use std::collections::LinkedList;

/// What a seat knows: a door's seat stands for one number, and a note's for none. `E` is an entry of the journal, and `F` the
/// part of the value that never changes. Lists have the oldest entry first. No value of it is made; only contracts read it.
pub struct View<E, F> {
    /// The first of the numbers that the seat stands for.
    pub from: u64,
    /// How many numbers it stands for.
    pub count: u64,
    /// What it has seen of the journal.
    pub seen: LinkedList<E>,
    /// What it had seen before it last took a note in or left.
    pub old: LinkedList<E>,
    /// What the note had seen that it last took in.
    pub told: LinkedList<E>,
    /// Whether it has a ticket, and has not left since it drew it.
    pub waits: bool,
    /// Its ticket, the number of those drawn before it. It says something only while the seat waits.
    pub ticket: u64,
    /// Whether it has the value.
    pub turn: bool,
    /// The journal of the value as it took it.
    pub held: LinkedList<E>,
    /// The part of the value that never changes, if it knows it.
    pub fixed: Option<F>,
}
