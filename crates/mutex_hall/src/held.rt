//! The value under a `Hall`'s lock: the laboratory, and the total of the entries.

ghost use Rattle.std.specs.Prelude.{◌≡◌, ◌≤◌, true, length};
ghost use Rattle.gas_terms.specs.Commands.{fits};
ghost use Rattle.gas_terms.specs.Laboratory.{Applies};
ghost use Rattle.gas_lab.specs.Labs.{entry_of};
ghost use Rattle.gas_lab.specs.Copying.{Copies};
ghost use Rattle.mutex_hall.specs.Seats.{counted};
ghost use Rattle.mutex_hall.specs.Halls.{IsNamed};

use crate::name::HallName;
use crate::seat::HallSeat;
use gas_lab::{Copied, Lab, Stepper};
use gas_seats::entries_of;
use gas_terms::{Answer, Command, NoMemory, Refusal};
use std::marker::Model;
use std::sync::ledger::Book;

/// What the lock keeps: the laboratory, and the book of the hall's ledger, whose total is the journal's length. The
/// laboratory keeps its invariant, and has the size and the capacity that the hall's name gives.
#[derive(Drop)]
pub struct Held<N: HallName, S: Stepper> {
    pub(crate) lab: Lab<S>,
    pub(crate) book: Book<N>,
}

impl<N: HallName, S: Stepper> Model for Held<N, S> {
    ghost use Rattle.std.specs.Prelude.{◌≡◌, length};
    ghost use Rattle.gas_terms.specs.Laboratory.{Laboratory};
    ghost use Rattle.mutex_hall.specs.Halls.{IsNamed};

    ghost Value = { Laboratory };

    ghost view = { λ h. h.lab };

    ghost invariant = { λ h. (h.book.total ≡ length h.lab.journal) × IsNamed N.size N.cap h.lab };
}

impl<N: HallName, S: Stepper> Held<N, S> {
    /// Does a command of the seat, which counts the entry that the journal gets.
    pub fn ask(&mut self, seat: &mut HallSeat<N>, command: Command) -> Result<Answer, Refusal>
        requires in_order { fits N.size command ≡ true }
        ensures applied { Applies self.old (entry_of seat.old.number command) result self.new }
        ensures before { IsNamed N.size N.cap self.old }
        ensures after { IsNamed N.size N.cap self.new }
        ensures seat { seat.new ≡ counted seat.old result }
        ensures covers { seat.old.entries ≤ length self.old.journal }
    {
        let reply = self.lab.apply(seat.number, command);
        self.book.audit(&mut seat.share);
        let made = entries_of(&reply);
        self.book.add(&mut seat.share, made as u64);
        self.book.audit(&mut seat.share);
        seat.entries += made;
        reply
    }

    /// A clone of the gas for the seat, with the length of the journal. Fails if memory runs out. Nothing changes.
    pub fn copy_gas(&mut self, seat: &mut HallSeat<N>) -> Result<Copied, NoMemory>
        ensures copied { Copies self.old result self.old }
        ensures named { IsNamed N.size N.cap self.old }
        ensures same { (self.new ≡ self.old) × (seat.new ≡ seat.old) }
        ensures covers { seat.old.entries ≤ length self.old.journal }
    {
        self.book.audit(&mut seat.share);
        Copied::of(&self.lab)
    }
}
