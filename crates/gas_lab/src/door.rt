//! Doors: ways to a laboratory.

ghost use Rattle.std.specs.Prelude.{◌≡◌, true, Result};
ghost use Rattle.std.specs.declared.alloc.AllocError.{AllocError as NoMemory};
ghost use Rattle.gas_terms.specs.Cells.{Extent};
ghost use Rattle.gas_terms.specs.Commands.{fits};
ghost use Rattle.gas_terms.specs.Laboratory.{IsSound};
ghost use Rattle.gas_terms.specs.declared.command.Command.{Command};
ghost use Rattle.gas_terms.specs.declared.answer.Answer.{Answer};
ghost use Rattle.gas_terms.specs.declared.refusal.Refusal.{Refusal};
ghost use Rattle.gas_lab.specs.declared.door.Copied.{Copied};
ghost use Rattle.gas_lab.specs.Copying.{Copies};

use crate::lab::Lab;
use gas_ledger::Gas;
use gas_terms::{Answer, Command, NoMemory, Refusal, Size};
use phase_step::Stepper;

/// A clone of a laboratory's gas, with the length of the journal at that time.
#[derive(Drop)]
pub struct Copied {
    pub gas: Gas,
    pub entries: u32,
}

impl Copied {
    /// A clone of the laboratory's gas as it is now. Fails if memory runs out.
    pub fn of<S: Stepper>(lab: &Lab<S>) -> Result<Copied, NoMemory>
        ensures copied { Copies lab.now result lab.now }
        ensures sound { IsSound lab.now }
    {
        let entries = lab.journal().len() as u32;
        let gas = lab.copy_gas()?;
        Ok(Copied { gas, entries })
    }
}

/// A seat's way to a laboratory. Each type of door says what its calls may return and how they change it.
pub trait Door {
    // The width and height of the laboratory's lattice.
    ghost size_of: { Self → Extent };

    // How a command may be answered, and how it may change the door.
    ghost asks: { Self → Command → Result Answer Refusal → Self → Type 0 };

    // The same for a copy of the gas.
    ghost copies: { Self → Result Copied NoMemory → Self → Type 0 };

    /// The width and height of the lattice, which no call changes.
    fn size(&self) -> Size
        ensures { result ≡ size_of self.now };

    /// Asks a command, which must be valid for the size.
    fn ask(&mut self, command: Command) -> Result<Answer, Refusal>
        requires in_order { fits (size_of self.old) command ≡ true }
        ensures asked { asks self.old command result self.new }
        ensures size { size_of self.new ≡ size_of self.old };

    /// A clone of the gas with the length of the journal. Fails if memory runs out.
    fn copy_gas(&mut self) -> Result<Copied, NoMemory>
        ensures copied { copies self.old result self.new }
        ensures size { size_of self.new ≡ size_of self.old };
}
