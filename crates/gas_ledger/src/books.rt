//! A gas with its ledger, and what each change does to both.

ghost use Rattle.std.specs.Prelude.{◌≡◌, true, false, ◌+ℤ◌, ◌-ℤ◌, pos, IfOk};
ghost use Rattle.std.specs.Fn.{iterate};
ghost use Rattle.gas_terms.specs.Cells.{extent, IsEvenTorus};
ghost use Rattle.gas_terms.specs.Accounts.{FitsI64};
ghost use Rattle.gas_terms.specs.Commands.{fits, is_tick};
ghost use Rattle.gas_terms.specs.BookedGas.{opened, stepped, stepped_back, book};
ghost use Rattle.gas_terms.specs.Laboratory.{has_all_ports};
ghost use Rattle.gas_ledger.specs.Books.{books_of, TickHolds, Affords};

use crate::gas::Gas;
use crate::probes::tally;
use gas_plane::Plane;
use gas_terms::{Command, Ledger, Moved, NoMemory, Pair, Sums};
use phase_step::Stepper;
use std::alloc::Global;

/// A gas with its ledger.
#[derive(Drop)]
pub struct Books {
    pub gas: Gas,
    pub ledger: Ledger,
}

impl Books {
    /// A copy of the gas, and a ledger with its sums at the start and nothing else.
    pub fn open(alloc: Global, start: &Gas) -> Result<Books, NoMemory>
        ensures { IfOk result (λ books. books_of books ≡ opened start.now) }
    {
        let gas = start.copy(alloc)?;
        let ledger = Ledger {
            start: tally(start.particles(), start.tick()),
            injected: Sums::ZERO,
            drained: Sums::ZERO,
            walls: Pair::ZERO,
            obstacles: Pair::ZERO,
        };
        Ok(Books { gas, ledger })
    }

    // Steps forward in one run, and books what walls and obstacles take and what the ports bring in and take out.
    fn steps<S: Stepper>(&mut self, n: u16, stepper: &mut S)
        requires tick { is_tick (self.old.gas.tick +ℤ pos n) ≡ true }
        requires fits { FitsI64 (iterate stepped n (books_of self.old)).ledger }
        ensures booked { books_of self.new ≡ iterate stepped n (books_of self.old) }
    {
        let flow = self.gas.step_on(n, stepper);
        let taken = self.ledger.with_taken(flow.took);
        self.ledger = taken.with_moved(flow.moved);
    }

    // Steps back in one run: walls and obstacles give back what they took.
    fn steps_back<S: Stepper>(&mut self, n: u16, stepper: &mut S)
        requires torus { IsEvenTorus self.old.gas.particles }
        requires tick { is_tick (self.old.gas.tick -ℤ pos n) ≡ true }
        requires fits { FitsI64 (iterate stepped_back n (books_of self.old)).ledger }
        ensures booked { books_of self.new ≡ iterate stepped_back n (books_of self.old) }
    {
        let took = self.gas.run_back(n, stepper);
        self.ledger = self.ledger.with_given_back(took);
    }

    /// Does a command: steps, or an edit, which is booked as one change of the particles. A reading leaves gas and ledger.
    pub fn enact<S: Stepper>(&mut self, command: &Command, stepper: &mut S)
        requires in_order { fits (extent self.old.gas.particles) command.now ≡ true }
        requires place { has_all_ports self.old.gas command.now ≡ false }
        requires torus { IsEvenTorus self.old.gas.particles }
        requires tick { TickHolds self.old.gas.tick command.now }
        requires fits { Affords (books_of self.old) }
        ensures booked { books_of self.new ≡ book (books_of self.old) command.now }
    {
        match command {
            Command::Step(n) => self.steps(*n, stepper),
            Command::Back(n) => self.steps_back(*n, stepper),
            edit => {
                let moved = self.gas.edit(edit);
                self.ledger = self.ledger.with_moved(moved);
            }
        }
    }
}
