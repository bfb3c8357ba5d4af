//! A run: one session, of seat 0, on a laboratory that nobody else uses.

ghost use Rattle.std.specs.Prelude.{◌≡◌, IfOk};
ghost use Rattle.gas_terms.specs.Laboratory.{opening};
ghost use Rattle.gas_run.specs.Plans.{IsInRange};
ghost use Rattle.gas_run.specs.Running.{Runs, status_of, starting_gas, outside};
ghost use Rattle.gas_run.specs.Statuses.{status_number};

use crate::setup::Setup;
use crate::status::Status;
use gas_lab::Lab;
use gas_ledger::Gas;
use gas_snapshot::Shelf;
use gas_talk::{SessionEnd, serve_alone};
use gas_terms::NoMemory;
use phase_step::Stepper;
use phase_strips::StripTeam;
use std::alloc::Global;
use std::io::{Read, Write};
use std::thread::Threads;
use std::time::Clock;

/// The program's exit status after a session that ended so.
fn status_of(end: SessionEnd) -> Status
    ensures { status_number result ≡ status_of end }
{
    match end {
        SessionEnd::Quit | SessionEnd::InputEnd => Status::Done,
        SessionEnd::ReadFault | SessionEnd::WriteFault | SessionEnd::TooManyReads => Status::Failed,
        SessionEnd::Memory => Status::NoMemory,
        SessionEnd::BadLine => Status::BadLine,
    }
}

/// The laboratory of a setup. It opens with the given gas, or with the empty gas of the setup's size. Fails if memory runs
/// out.
pub fn opened<S: Stepper>(
    alloc: Global,
    setup: Setup,
    start: Option<Gas>,
    stepper: S,
) -> Result<Lab<S>, NoMemory>
    requires { IsInRange setup }
    ensures { IfOk result (λ lab. lab ≡ opening (starting_gas setup.size start) setup.cap) }
{
    let start = match start {
        Some(gas) => gas,
        None => Gas::empty(alloc, setup.size)?,
    };
    Lab::open(alloc, start, setup.cap, stepper)
}

/// Opens a laboratory with the given gas, or with the empty gas of the setup's size, and serves one session on it. Returns
/// the program's exit status. If memory runs out for the opening it is 4, and nothing is read or written. One worker is the
/// calling thread; more start threads through `rt`.
pub fn run_on<T: Threads + Clock + Drop, R: Read, W: Write, K: Shelf>(
    rt: T,
    alloc: Global,
    setup: Setup,
    start: Option<Gas>,
    reader: &mut R,
    writer: &mut W,
    shelf: &mut K,
) -> u8
    requires { IsInRange setup }
    ensures { Runs setup start
        (outside (R.remaining reader.old) (W.contents writer.old)
        (K.failures shelf.old) (K.shelved shelf.old))
        result
        (outside (R.remaining reader.new) (W.contents writer.new)
        (K.failures shelf.new) (K.shelved shelf.new)) }
{
    let team = StripTeam::new(rt, alloc, setup.workers);
    let Ok(mut lab) = opened(alloc, setup, start, team) else {
        return Status::NoMemory.number();
    };
    status_of(serve_alone(alloc, reader, writer, &mut lab, 0, shelf)).number()
}
