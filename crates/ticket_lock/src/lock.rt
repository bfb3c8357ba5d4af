//! The lock, its doors and their notes, and the calls that doors make.

ghost use Rattle.std.specs.Prelude.{◌≡◌, ◌⊎◌, ℕ, ◌<◌, ◌≤◌, List, [], ◌∷◌, ◌++◌, true, false, All, IsSome, IfSome, IfOk, IfErr, Some, None, vec_len, slice_index_or};
ghost use mathlib.Core.List.{IsPrefix};
ghost use Rattle.ticket_lock.specs.Turns.{entries_by, leaving, most_doors};
ghost use Rattle.ticket_lock.specs.Doors.{new_door, IsIdle, Follows, Adds, HasEntered};

use crate::rule::{
    JoinNote, Journaled, Leave, LockRule, Look, Serve, SplitDoor, SplitNote, Ticket,
};
use crate::view::View;
use atomic_table::{Refused, Seat, Table};
use std::alloc::Global;
use std::marker::Model;
use std::snapshot::Snapshot;
use std::sync::Wait;

/// Holds a value that its doors take one at a time, in the order of the tickets that they draw when they ask. Contracts see
/// which lock it is.
#[derive(Drop)]
pub struct TicketLock<X: Journaled + Drop> {
    table: Table<Option<X>, View<X::Entry, X::Fixed>, (u64, Snapshot<X>), LockRule<X>, Global>,
}

impl<X: Journaled + Drop> Model for TicketLock<X> {
    ghost use Rattle.std.specs.Prelude.{◌≡◌};
    ghost use Rattle.atomic_table.specs.Seated.{TableId};

    ghost Value = { TableId };

    ghost view = { λ l. l.table.shared.table_id };

    ghost invariant = { λ l.
        (l.table.shared.table_id.words ≡ 2) × (l.table.shared.table_id.slots ≡ 1) };
}

/// A door of a lock, for one thread at a time to ask through. Contracts see which lock it is of, its number, what it has seen
/// of the journal, oldest entry first, and the part of the value that never changes.
#[derive(Drop)]
pub struct LockDoor<X: Journaled> {
    number: u64,
    seat: Seat<Option<X>, View<X::Entry, X::Fixed>>,
}

impl<X: Journaled> Model for LockDoor<X> {
    ghost use Rattle.std.specs.Prelude.{◌≡◌, [], false, IsSome};
    ghost use Rattle.ticket_lock.specs.Doors.{DoorView};

    ghost Value = { DoorView X.Entry X.Fixed };

    ghost view = { λ d. record {
      lock = d.seat.table_id;
      number = d.number;
      seen = d.seat.me.0.seen;
      fixed = d.seat.me.0.fixed;
    } };

    ghost invariant = { λ d.
        (d.seat.me.1 ≡ []) × (d.seat.me.0.waits ≡ false) × (d.seat.me.0.turn ≡ false)
        × (d.seat.me.0.count ≡ 1) × (d.seat.me.0.from ≡ d.number) × IsSome d.seat.me.0.fixed };
}

/// What a door had seen when it made the note, for another door of the lock to take in. Contracts see which lock it is of, and
/// the entries that were seen, oldest first.
#[derive(Drop)]
pub struct Note<X: Journaled> {
    seat: Seat<Option<X>, View<X::Entry, X::Fixed>>,
}

impl<X: Journaled> Model for Note<X> {
    ghost use Rattle.std.specs.Prelude.{◌≡◌, [], false};
    ghost use Rattle.ticket_lock.specs.Doors.{NoteView};

    ghost Value = { NoteView X.Entry };

    ghost view = { λ n. record { lock = n.seat.table_id; seen = n.seat.me.0.seen } };

    ghost invariant = { λ n. (n.seat.me.1 ≡ []) × (n.seat.me.0.waits ≡ false) };
}

impl<X: Journaled + Drop> TicketLock<X> {
    /// A lock that holds the value, whose journal must be empty, and 1 to 64 doors of it, numbered from 0 and in this order.
    /// They have seen nothing. If memory runs out, the value comes back as it was. Never waits.
    pub fn open(alloc: Global, value: X, doors: u64) -> Result<(TicketLock<X>, Vec<LockDoor<X>>), X>
        requires doors { (0 < doors) × (doors ≤ most_doors) }
        requires empty { X.entries value ≡ [] }
        ensures count { IfOk result (λ r. vec_len r.1 ≡ doors) }
        ensures doors { IfOk result (λ r. (k : ℕ) (d : _) → k < doors →
            slice_index_or r.1.items k d ≡ new_door r.0 k (X.fixed value)) }
        ensures err { IfErr result (λ x. x ≡ value) }
    {
        // Memory can run out in three places, at each of which the value is at hand. Once the table is open nothing fails.
        let Ok(mut list) = Vec::with_capacity(alloc, doors as usize) else {
            return Err(value);
        };
        let Ok(mut slots) = Vec::with_capacity(alloc, 1) else {
            return Err(value);
        };
        let first = Snapshot::of(&value);
        slots.push_reserved(Some(value));
        match Table::new(alloc, &[0, 0], slots, &(doors, first)) {
            Ok((table, mut rest)) => {
                for number in 0..doors - 1 {
                    let seat = table.shared.split_seat::<SplitDoor>(&mut rest);
                    list.push_reserved(LockDoor::of(number, seat));
                }
                // What is left when each other number has its seat is the last door's.
                list.push_reserved(LockDoor::of(doors - 1, rest));
                Ok((TicketLock { table }, list))
            }
            Err(Refused { mut slots }) => {
                let Some(Some(value)) = slots.pop() else {
                    unreachable!()
                };
                Err(value)
            }
        }
    }

    // Draws a ticket, waits until it is served, and takes the value.
    fn enter<R: Wait>(&self, rt: &R, seat: &mut Seat<Option<X>, View<X::Entry, X::Fixed>>) -> X
        requires own { seat.old.table_id ≡ self.now }
        requires idle { IsIdle seat.old.me }
        requires numbered { 0 < seat.old.me.0.count }
        ensures seat { (seat.new.table_id ≡ seat.old.table_id) × (seat.new.id ≡ seat.old.id) }
        ensures taken { HasEntered X.entries X.fixed X.by seat.old.me seat.new.me result }
    {
        let ticket = self.table.shared.fetch_add::<Ticket>(seat, 1, 1);
        for _ in rt.forever() {
            let served = self.table.shared.load::<Serve<X>>(seat, 0);
            if served == ticket {
                let Some(value) = self.table.shared.exchange(seat, 0, None) else {
                    unreachable!()
                };
                return value;
            }
            // Parking sees the lower half of the word alone, which each leaving changes. It may also end for no reason, so the
            // word is then read again.
            self.table.shared.park(rt, 0, (served & 0xffff_ffff) as u32);
        }
        unreachable!()
    }

    // Gives the value back, and lets the next door in. The slot is full before the word counts, since the next door takes the
    // value as soon as it reads the count.
    fn leave(&self, seat: &mut Seat<Option<X>, View<X::Entry, X::Fixed>>, value: X)
        requires own { seat.old.table_id ≡ self.now }
        requires turn { (seat.old.me.1 ≡ (0, None) ∷ [])
            × (seat.old.me.0.turn ≡ true) × (seat.old.me.0.count ≡ 1) }
        requires adds { (new : List X.Entry)
            × (X.entries value ≡ seat.old.me.0.held ++ new)
            × All (λ e. X.by e ≡ seat.old.me.0.from) new }
        requires same { seat.old.me.0.fixed ≡ Some (X.fixed value) }
        ensures { (seat.new.table_id ≡ seat.old.table_id) × (seat.new.id ≡ seat.old.id)
            × (seat.new.me ≡ (leaving seat.old.me.0 (X.entries value), [])) }
    {
        let None = self.table.shared.exchange(seat, 0, Some(value)) else {
            unreachable!()
        };
        self.table.shared.fetch_add::<Leave<X>>(seat, 0, 1);
        // All doors that wait park on the one word, and any of them may be next.
        self.table.shared.wake_all(0);
    }
}

/// A call that a door makes of the value at its turn. It is given the door's number. Other doors that ask wait until it
/// returns.
pub trait Call<X: Journaled> {
    /// What the call returns.
    type Answer;

    /// What must hold of the door's number, and of the part of the value that never changes.
    ghost needs: { Self → ℕ → X.Fixed → Type 0 };

    /// How the call is answered, and how it leaves the value: the call, the door's number, the value before, the answer, and the
    /// value after.
    ghost does: { Self → ℕ → X → Self.Answer → X → Type 0 };

    /// Works on the value and gives the answer. The value's journal keeps its entries and grows by entries of the door's number
    /// alone, and the part that never changes stays.
    fn call(self, by: u64, value: &mut X) -> Self::Answer
        requires needs { needs self by (X.fixed value.old) }
        ensures does { does self by value.old result value.new }
        ensures adds { Adds X.entries X.fixed X.by by value.old value.new };
}

impl<X: Journaled> LockDoor<X> {
    // The door of a seat that stands for this number alone, and holds no value.
    fn of(number: u64, seat: Seat<Option<X>, View<X::Entry, X::Fixed>>) -> LockDoor<X>
        requires idle { IsIdle seat.me }
        requires own { (seat.me.0.count ≡ 1) × (seat.me.0.from ≡ number) × IsSome seat.me.0.fixed }
        ensures { result ≡ record {
          lock = seat.table_id;
          number = number;
          seen = seat.me.0.seen;
          fixed = seat.me.0.fixed;
        } }
    {
        LockDoor { number, seat }
    }

    /// A note of what the door has seen. The door stays as it was. Never waits, never fails.
    pub fn note(&mut self, lock: &TicketLock<X>) -> Note<X>
    where
        X: Drop,
        requires { self.old.lock ≡ lock.now }
        ensures note { (result.lock ≡ self.old.lock) × (result.seen ≡ self.old.seen) }
        ensures door { self.new ≡ self.old }
    {
        let seat = lock.table.shared.split_seat::<SplitNote>(&mut self.seat);
        Note { seat }
    }

    /// Takes a note in. The door then has seen the longer of its own list and the note's, and the other begins it; so the
    /// value that it asks next follows both. Never waits, never fails.
    pub fn meet(&mut self, lock: &TicketLock<X>, note: Note<X>)
    where
        X: Drop,
        requires { (self.old.lock ≡ lock.now) × (note.lock ≡ lock.now) }
        ensures begins { IsPrefix self.old.seen self.new.seen × IsPrefix note.seen self.new.seen }
        ensures one { (self.new.seen ≡ self.old.seen) ⊎ (self.new.seen ≡ note.seen) }
        ensures own { entries_by X.by self.old.number self.new.seen
            ≡ entries_by X.by self.old.number self.old.seen }
        ensures door { self.new ≡ record self.old { seen = self.new.seen } }
    {
        let Note { seat } = note;
        lock.table
            .shared
            .join_seat::<JoinNote>(&mut self.seat, seat);
        // Joining only keeps both lists. That the longer begins with each is what the rule tells at the next step, whatever the
        // word is.
        lock.table.shared.load::<Look<X>>(&mut self.seat, 0);
    }

    /// Makes a call of the value at the door's turn, and returns what the call returns. The value that the call finds
    /// follows all that the door has seen, and has no other entry of its number; the door then has seen the journal that the
    /// call left. Waits while doors with earlier tickets have yet to leave; no contract says for how long. Never fails.
    pub fn ask<R: Wait, M: Call<X>>(&mut self, rt: &R, lock: &TicketLock<X>, call: M) -> M::Answer
    where
        X: Drop,
        requires lock { self.old.lock ≡ lock.now }
        requires needs { IfSome self.old.fixed (λ f. M.needs call self.old.number f) }
        ensures { (x : X) × (y : X)
            × Follows X.entries X.fixed X.by self.old x
            × M.does call self.old.number x result y
            × (self.new ≡ record self.old { seen = X.entries y })
            × Adds X.entries X.fixed X.by self.old.number x y }
    {
        let mut value = lock.enter(rt, &mut self.seat);
        let answer = call.call(self.number, &mut value);
        lock.leave(&mut self.seat, value);
        answer
    }
}
