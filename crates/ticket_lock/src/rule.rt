//! The value that a lock holds, the invariant of the lock's table, and the atomic steps that seats make.

ghost use Rattle.std.specs.Prelude.{ℕ, List};

use crate::view::View;
use atomic_table::{Join, Play, Split, TableRule};
use std::marker::PhantomData;
use std::snapshot::Snapshot;

/// A value that has a journal, which only grows, and a part that never changes. Only contracts read them. Of what else a value
/// holds, a door knows nothing at its next call but what an invariant of the type ties to these two.
pub trait Journaled {
    /// An entry of the journal.
    type Entry;

    /// The part that never changes.
    type Fixed;

    /// The journal of a value, oldest entry first.
    ghost entries: { Self → List Self.Entry };

    /// The part of a value that never changes.
    ghost fixed: { Self → Self.Fixed };

    /// The number of the door that made an entry.
    ghost by: { Self.Entry → ℕ };
}

/// The rule that word, slot and seats of a lock's table keep, whatever happens in between. No value of it is made.
pub struct LockRule<X> {
    value: PhantomData<X>,
}

// The key that the rule is about is the number of doors, and the value that the lock was opened with.
impl<X: Journaled> TableRule<Option<X>, View<X::Entry, X::Fixed>, (u64, Snapshot<X>)>
    for LockRule<X> {
    ghost use Rattle.ticket_lock.specs.Turns.{newcomer, Keeps};

    ghost holds = { λ key. Keeps X.entries X.fixed X.by (key.0, X.fixed key.1.value) };

    ghost first = { λ key. newcomer key.0 (X.fixed key.1.value) };
}

/// The step of drawing a ticket: word 1 counts it, and the seat waits with it.
pub struct Ticket;

impl<X, E, F> Play<Option<X>, View<E, F>> for Ticket {
    ghost use Rattle.ticket_lock.specs.Turns.{Ticketed};

    ghost then = { Ticketed };
}

/// The step of reading in word 0 which ticket is served. The seat takes the value if it is its own, and stays as it is if not.
pub struct Serve<X> {
    value: PhantomData<X>,
}

impl<X: Journaled> Play<Option<X>, View<X::Entry, X::Fixed>> for Serve<X> {
    ghost use Rattle.ticket_lock.specs.Turns.{Served};

    ghost then = { Served X.entries X.fixed X.by };
}

/// The step of looking at what a note told: the seat stays as it is, and learns that what it had seen and what it was told both
/// begin what it has seen.
pub struct Look<X> {
    value: PhantomData<X>,
}

impl<X: Journaled> Play<Option<X>, View<X::Entry, X::Fixed>> for Look<X> {
    ghost use Rattle.ticket_lock.specs.Turns.{Looked};

    ghost then = { Looked X.entries X.fixed X.by };
}

/// The step of leaving: the value goes home, word 0 counts, and the seat has seen the value's journal.
pub struct Leave<X> {
    value: PhantomData<X>,
}

impl<X: Journaled> Play<Option<X>, View<X::Entry, X::Fixed>> for Leave<X> {
    ghost use Rattle.ticket_lock.specs.Turns.{Left};

    ghost then = { Left X.entries X.fixed X.by };
}

/// Splits a seat into the door with the first of its numbers and the one that keeps the others.
pub struct SplitDoor;

impl<E, F> Split<View<E, F>> for SplitDoor {
    ghost use Rattle.ticket_lock.specs.Turns.{less_one, first_door};

    ghost left = { less_one };

    ghost right = { first_door };
}

/// Splits from a seat a note of what it has seen; the seat stays as it was.
pub struct SplitNote;

impl<E, F> Split<View<E, F>> for SplitNote {
    ghost use Rattle.ticket_lock.specs.Turns.{note_of};

    ghost left = { λ v. v };

    ghost right = { note_of };
}

/// Joins a note to a door's seat, which has then seen the longer of the two lists, and keeps both.
pub struct JoinNote;

impl<E, F> Join<View<E, F>> for JoinNote {
    ghost use Rattle.ticket_lock.specs.Turns.{met, spent};

    ghost both = { met };

    ghost spent = { spent };
}
