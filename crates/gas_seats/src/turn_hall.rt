//! A laboratory under a ticket lock, with its seats, doors and notes. What a seat has seen of the journal begins all that it
//! sees later.

ghost use Rattle.std.specs.Prelude.{◌≡◌, ◌<◌, ◌≤◌, ◌⊎◌, ⊤, [], true, length, All, IfOk, IfErr, vec_len};
ghost use Rattle.gas_terms.specs.Cells.{extent};
ghost use Rattle.gas_terms.specs.Commands.{fits};
ghost use Rattle.gas_terms.specs.Laboratory.{most_entries, Applies, IsPrefix, IsSound, made_by};
ghost use Rattle.gas_lab.specs.Labs.{entry_of};
ghost use Rattle.gas_lab.specs.Copying.{Copies};
ghost use Rattle.gas_seats.specs.Seats.{AreNumbered, entries_told, most_hall_seats, most_number};
ghost use Rattle.gas_seats.specs.TurnSeats.{TurnSeatView, TurnNoteView, entries_made, opening_seat, AsksInTurn, CopiesInTurn};

use gas_lab::{Copied, Door, Lab, Stepper};
use gas_ledger::Gas;
use gas_terms::{Answer, Command, Entry, NoMemory, Refusal, Size};
use std::alloc::Global;
use std::marker::Model;
use std::sync::Wait;
use ticket_lock::rule::Journaled;
use ticket_lock::{Call, LockDoor, Note, TicketLock};

/// The laboratory that the lock moves from seat to seat. What never changes is the gas that it opened with, and how many
/// entries its journal may have.
#[derive(Drop)]
pub struct InTurn<S: Stepper> {
    lab: Lab<S>,
}

impl<S: Stepper> Journaled for InTurn<S> {
    type Entry = Entry;

    type Fixed = (Gas, u32);

    ghost entries = { λ x. x.lab.journal };

    ghost fixed = { λ x. (x.lab.start, x.lab.cap) };

    ghost by = { λ e. e.seat };
}

// A seat's command.
#[derive(Drop)]
struct Asked {
    command: Command,
}

impl<S: Stepper> Call<InTurn<S>> for Asked {
    type Answer = Result<Answer, Refusal>;

    ghost needs = { λ c by opened. (by ≤ most_number)
        × (fits (extent opened.0.particles) c.command ≡ true) };

    ghost does = { λ c by x reply y. IsSound x.lab × IsSound y.lab
        × (length y.lab.journal ≤ most_entries)
        × Applies x.lab (entry_of by c.command) reply y.lab };

    fn call(self, by: u64, value: &mut InTurn<S>) -> Result<Answer, Refusal> {
        value.lab.apply(by as u16, self.command)
    }
}

// A copy of the gas for a seat.
#[derive(Drop)]
struct CopyAsked;

impl<S: Stepper> Call<InTurn<S>> for CopyAsked {
    type Answer = Result<Copied, NoMemory>;

    ghost needs = { λ _ _ _. ⊤ };

    ghost does = { λ _ _ x copied y. IsSound x.lab × Copies x.lab copied y.lab × (y ≡ x) };

    fn call(self, _by: u64, value: &mut InTurn<S>) -> Result<Copied, NoMemory> {
        Copied::of(&value.lab)
    }
}

/// How many entries of the journal a reply tells of.
pub fn entries_of(reply: &Result<Answer, Refusal>) -> u32
    ensures { result ≡ entries_told reply.now }
{
    match reply {
        Ok(Answer::Taken(_)) => 1,
        _ => 0,
    }
}

/// A laboratory whose seats take turns. It can't be closed; a door's `copy_gas` clones its gas.
///
/// Whenever no seat has its turn, the laboratory has what its type keeps, and its journal goes on from all that the seats
/// have seen.
#[derive(Drop)]
pub struct TurnHall<S: Stepper> {
    lock: TicketLock<InTurn<S>>,
}

impl<S: Stepper> Model for TurnHall<S> {
    ghost use Rattle.atomic_table.specs.Seated.{TableId};

    ghost Value = { TableId };

    ghost view = { λ h. h.lock };
}

/// One seat of such a hall, with what it has seen of the journal.
#[derive(Drop)]
pub struct TurnSeat<S: Stepper> {
    number: u16,
    // How many entries the seat made.
    made: u32,
    size: Size,
    door: LockDoor<InTurn<S>>,
}

impl<S: Stepper> Model for TurnSeat<S> {
    ghost use Rattle.std.specs.Prelude.{◌≡◌, ◌≤◌, IfSome, length};
    ghost use Rattle.gas_terms.specs.Cells.{extent};
    ghost use Rattle.gas_seats.specs.TurnSeats.{TurnSeatView};
    ghost use Rattle.gas_terms.specs.Laboratory.{most_entries, made_by};

    ghost Value = { TurnSeatView };

    ghost view = { λ s. record {
      hall = s.door.lock;
      number = s.number;
      size = s.size;
      opened = s.door.fixed;
      seen = s.door.seen;
    } };

    ghost invariant = { λ s. (s.door.number ≡ s.number)
        × IfSome s.door.fixed (λ opened. extent opened.0.particles ≡ s.size)
        × (s.made ≡ length (made_by s.number s.door.seen)) × (s.made ≤ most_entries) };
}

impl<S: Stepper> TurnSeat<S> {
    /// The number that the seat's entries have in the journal.
    pub fn number(&self) -> u16
        ensures { result ≡ self.now.number }
    {
        self.number
    }

    /// How many entries of the journal the seat made.
    pub fn entries(&self) -> u32
        ensures entries { result ≡ entries_made self.now }
        ensures bound { result ≤ most_entries }
    {
        self.made
    }

    fn ask<R: Wait>(
        &mut self,
        rt: &R,
        lock: &TicketLock<InTurn<S>>,
        command: Command,
    ) -> Result<Answer, Refusal>
        requires own { self.old.hall ≡ lock.now }
        requires in_order { fits self.old.size command ≡ true }
        ensures { AsksInTurn self.old command result self.new }
    {
        let reply = self.door.ask(rt, lock, Asked { command });
        self.made += entries_of(&reply);
        reply
    }

    fn copy_gas<R: Wait>(
        &mut self,
        rt: &R,
        lock: &TicketLock<InTurn<S>>,
    ) -> Result<Copied, NoMemory>
        requires own { self.old.hall ≡ lock.now }
        ensures { CopiesInTurn self.old result self.new }
    {
        self.door.ask(rt, lock, CopyAsked)
    }
}

/// What a seat has seen of the journal.
#[derive(Drop)]
pub struct TurnNote<S: Stepper> {
    note: Note<InTurn<S>>,
}

impl<S: Stepper> Model for TurnNote<S> {
    ghost use Rattle.gas_seats.specs.TurnSeats.{TurnNoteView};

    ghost Value = { TurnNoteView };

    ghost view = { λ n. record { hall = n.note.lock; seen = n.note.seen } };
}

impl<S: Stepper> TurnHall<S> {
    /// A hall with seats 0, 1, .. that have seen nothing, over a laboratory whose journal is empty. If memory runs out, the
    /// laboratory comes back as it was.
    pub fn open(
        alloc: Global,
        lab: Lab<S>,
        seats: u16,
    ) -> Result<(TurnHall<S>, Vec<TurnSeat<S>>), Lab<S>>
        requires seats { (0 < seats) × (seats ≤ most_hall_seats) }
        requires lab { lab.journal ≡ [] }
        ensures count { IfOk result (λ r. vec_len r.1 ≡ seats) }
        ensures seats { IfOk result (λ r. AreNumbered seats (opening_seat r.0 lab) r.1.items) }
        ensures here { IfOk result (λ r. All (λ seat. seat.hall ≡ r.0) r.1.items) }
        ensures refused { IfErr result (λ back. back ≡ lab) }
    {
        let Ok(mut all) = Vec::with_capacity(alloc, seats as usize) else {
            return Err(lab);
        };
        let size = lab.size();
        match TicketLock::open(alloc, InTurn { lab }, seats as u64) {
            Ok((lock, doors)) => {
                for door in doors {
                    let number = all.len() as u16;
                    all.push_reserved(TurnSeat {
                        number,
                        made: 0,
                        size,
                        door,
                    });
                }
                Ok((TurnHall { lock }, all))
            }
            Err(InTurn { lab }) => Err(lab),
        }
    }

    /// The seat's way to the laboratory.
    pub fn door<'h, R>(&'h self, rt: &'h R, seat: TurnSeat<S>) -> TurnDoor<'h, S, R>
        requires { seat.hall ≡ self.now }
        ensures { result.seat ≡ seat }
    {
        TurnDoor {
            hall: self,
            rt,
            seat,
        }
    }
}

/// A seat's way to the laboratory. Each call waits for its turn.
#[derive(Drop)]
pub struct TurnDoor<'h, S: Stepper, R> {
    hall: &'h TurnHall<S>,
    rt: &'h R,
    seat: TurnSeat<S>,
    ghost here: { seat.hall ≡ hall.now },
}

impl<'h, S: Stepper, R> TurnDoor<'h, S, R> {
    /// A note of what the seat has seen, for another door.
    pub fn note(&mut self) -> TurnNote<S>
        ensures note { (result.hall ≡ self.old.seat.hall) × (result.seen ≡ self.old.seat.seen) }
        ensures door { self.new.seat ≡ self.old.seat }
    {
        let hall = self.hall;
        let note = self.seat.door.note(&hall.lock);
        TurnNote { note }
    }

    /// Takes a note in: what the seat had seen and what the note has both begin what the seat then has seen, which is one
    /// of the two.
    pub fn meet(&mut self, note: TurnNote<S>)
        requires { note.hall ≡ self.old.seat.hall }
        ensures begins { IsPrefix self.old.seat.seen self.new.seat.seen
            × IsPrefix note.seen self.new.seat.seen }
        ensures one { (self.new.seat.seen ≡ self.old.seat.seen) ⊎ (self.new.seat.seen ≡ note.seen) }
        ensures own { let number = self.old.seat.number in
            made_by number self.new.seat.seen ≡ made_by number self.old.seat.seen }
        ensures seat { self.new.seat ≡ record self.old.seat { seen = self.new.seat.seen } }
    {
        let TurnNote { note } = note;
        let hall = self.hall;
        self.seat.door.meet(&hall.lock, note);
    }

    /// The seat again, with what it has seen.
    pub fn end(self) -> TurnSeat<S>
        ensures { result ≡ self.entry.seat }
    {
        self.seat
    }
}

impl<'h, S: Stepper, R: Wait> Door for TurnDoor<'h, S, R> {
    ghost size_of = { λ d. d.seat.size };

    ghost asks = { λ d command reply e. AsksInTurn d.seat command reply e.seat };

    ghost copies = { λ d copied e. CopiesInTurn d.seat copied e.seat };

    fn size(&self) -> Size {
        self.seat.size
    }

    fn ask(&mut self, command: Command) -> Result<Answer, Refusal> {
        let hall = self.hall;
        self.seat.ask(self.rt, &hall.lock, command)
    }

    fn copy_gas(&mut self) -> Result<Copied, NoMemory> {
        let hall = self.hall;
        self.seat.copy_gas(self.rt, &hall.lock)
    }
}
