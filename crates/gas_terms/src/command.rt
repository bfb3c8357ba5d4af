//! The commands of the laboratory, and the entries of its journal.

ghost use Rattle.std.specs.Prelude.{◌≡◌, false, IfOk, IsOk};
ghost use Rattle.gas_terms.specs.Commands.{fits, is_change, is_row};

use crate::NoMemory;
use crate::limits::MOST_STEPS;
use crate::rect::Rect;
use crate::row_bits::RowBits;
use crate::size::Size;
use std::alloc::Global;

/// A command. A source has a period, a row its number and its cells, and an entry its index.
#[derive(Drop)]
pub enum Command {
    Put(Rect),
    Erase(Rect),
    Wall(Rect),
    Block(Rect),
    Unwall(Rect),
    Row(u16, RowBits),
    Source(Rect, u16),
    Drain(Rect),
    Unport,
    Step(u16),
    Back(u16),
    Probe(Rect),
    Tally,
    Ledger,
    Read(u16),
    Entry(u32),
}

/// A command of a seat.
#[derive(Drop)]
pub struct Entry {
    pub seat: u16,
    pub command: Command,
}

impl Command {
    /// Whether it changes the laboratory. Other commands only read.
    pub fn is_change(&self) -> bool
        ensures { result ≡ is_change self.now }
    {
        !matches!(
            self,
            Command::Probe(_)
                | Command::Tally
                | Command::Ledger
                | Command::Read(_)
                | Command::Entry(_)
        )
    }

    /// Whether the command is valid for a lattice of this size.
    pub fn fits(&self, size: Size) -> bool
        ensures { result ≡ fits size self.now }
    {
        match self {
            Command::Put(r)
            | Command::Erase(r)
            | Command::Wall(r)
            | Command::Block(r)
            | Command::Unwall(r)
            | Command::Drain(r)
            | Command::Probe(r) => r.fits(size),
            Command::Row(y, bits) => *y < size.height()
                && 8 * bits.bytes().len() == size.width() as usize,
            Command::Source(r, period) => r.fits(size) && 1 <= *period,
            Command::Step(n) | Command::Back(n) => 1 <= *n && *n <= MOST_STEPS,
            Command::Read(y) => *y < size.height(),
            Command::Unport | Command::Tally | Command::Ledger | Command::Entry(_) => true,
        }
    }

    /// A clone. Only a row allocates.
    pub fn copy(&self, alloc: Global) -> Result<Command, NoMemory>
        ensures same { IfOk result (λ command. command ≡ self.now) }
        ensures memory { is_row self.now ≡ false → IsOk result }
    {
        Ok(match self {
            Command::Put(r) => Command::Put(*r),
            Command::Erase(r) => Command::Erase(*r),
            Command::Wall(r) => Command::Wall(*r),
            Command::Block(r) => Command::Block(*r),
            Command::Unwall(r) => Command::Unwall(*r),
            Command::Row(y, bits) => Command::Row(*y, bits.copy(alloc)?),
            Command::Source(r, period) => Command::Source(*r, *period),
            Command::Drain(r) => Command::Drain(*r),
            Command::Unport => Command::Unport,
            Command::Step(n) => Command::Step(*n),
            Command::Back(n) => Command::Back(*n),
            Command::Probe(r) => Command::Probe(*r),
            Command::Tally => Command::Tally,
            Command::Ledger => Command::Ledger,
            Command::Read(y) => Command::Read(*y),
            Command::Entry(k) => Command::Entry(*k),
        })
    }
}
