//! The door of a laboratory that nobody else uses, and a session over it.

ghost use Rattle.std.specs.Prelude.{◌≡◌};
ghost use Rattle.gas_terms.specs.Cells.{extent};
ghost use Rattle.gas_terms.specs.Laboratory.{Applies};
ghost use Rattle.gas_lab.specs.Copying.{Copies};
ghost use Rattle.gas_lab.specs.Labs.{entry_of};
ghost use Rattle.gas_talk.specs.Ends.{place};
ghost use Rattle.gas_talk.specs.LabTalk.{IsTalk};

use crate::end::SessionEnd;
use crate::session::serve_door;
use gas_lab::{Copied, Door, Lab, Stepper};
use gas_snapshot::Shelf;
use gas_terms::{Answer, Command, NoMemory, Refusal, Size};
use std::alloc::Global;
use std::io::{Read, Write};

/// The one seat of a laboratory.
#[derive(Drop)]
pub struct Alone<'a, S: Stepper> {
    pub lab: &'a mut Lab<S>,
    pub seat: u16,
}

impl<'a, S: Stepper> Door for Alone<'a, S> {
    ghost size_of = { λ d. extent d.lab.now.start.particles };

    ghost asks = { λ d command reply e. Applies d.lab.now (entry_of d.seat command) reply e.lab.now
        × (e.lab.ghost_name ≡ d.lab.ghost_name) × (e.seat ≡ d.seat) };

    ghost copies = { λ d copied e. Copies d.lab.now copied e.lab.now
        × (e.lab.ghost_name ≡ d.lab.ghost_name) × (e.seat ≡ d.seat) };

    fn size(&self) -> Size {
        self.lab.size()
    }

    fn ask(&mut self, command: Command) -> Result<Answer, Refusal> {
        self.lab.apply(self.seat, command)
    }

    fn copy_gas(&mut self) -> Result<Copied, NoMemory> {
        Copied::of(self.lab)
    }
}

/// Serves one session on a laboratory that nobody else uses.
pub fn serve_alone<R: Read, W: Write, S: Stepper, K: Shelf>(
    alloc: Global,
    reader: &mut R,
    writer: &mut W,
    lab: &mut Lab<S>,
    seat: u16,
    shelf: &mut K,
) -> SessionEnd
    ensures { IsTalk seat (R.remaining reader.old) (R.remaining reader.new)
        (place lab.old (W.contents writer.old) (K.failures shelf.old) (K.shelved shelf.old))
        result
        (place lab.new (W.contents writer.new) (K.failures shelf.new) (K.shelved shelf.new)) }
{
    let mut door = Alone { lab, seat };
    serve_door(alloc, reader, writer, &mut door, shelf)
}
