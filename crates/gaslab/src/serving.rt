//! A server: one session for each shelf, all on one laboratory.

ghost use Rattle.std.specs.Prelude.{◌<◌, ◌≤◌, IsTrue, vec_len};
ghost use Rattle.std.specs.Io.KnownBytes.{Appends};
ghost use Rattle.gas_run.specs.Plans.{most_sessions, IsInRange};
ghost use Rattle.gas_run.specs.Running.{starting_gas};
ghost use Rattle.gaslab.specs.Serving.{ServesHall, served_line};

use gas_hall::{Lobby, TurnServed, serve_lab};
use gas_ledger::Gas;
use gas_run::{Setup, Status, opened};
use gas_snapshot::Shelf;
use phase_step::Stepper;
use phase_strips::StripTeam;
use std::alloc::Global;
use std::fmt;
use std::io::Write;
use std::sync::Wait;
use std::thread::Threads;
use std::time::Clock;

/// What was served, as it is told at the end.
#[derive(Clone, Copy)]
struct Line {
    done: u32,
    failed: u32,
    entries: u32,
}

impl fmt::Display for Line {
    ghost use Rattle.std.specs.Prelude.{Some};
    ghost use Rattle.gaslab.specs.Serving.{served_text};

    ghost output = { λ l. Some (served_text l.done l.failed l.entries) };

    fn fmt<W: fmt::Write>(&self, f: &mut fmt::Formatter<W>) -> fmt::Result {
        let Line {
            done,
            failed,
            entries,
        } = *self;
        write!(f, "SERVED {done} {failed} {entries}")
    }
}

// Writes what was served.
fn tell<W: Write, S: Stepper>(writer: &mut W, served: &TurnServed<S>) -> bool
    ensures { let line = served_line served.now.done served.now.failed served.now.entries in
        IsTrue result → Appends (W.contents writer.old) (W.contents writer.new) line }
{
    let line = Line {
        done: served.done,
        failed: served.failed,
        entries: served.entries,
    };
    writeln!(writer, "{line}").is_ok() && writer.flush().is_ok()
}

/// Opens a laboratory with the given gas, or with the empty gas of the setup's size, and serves one session on it for each
/// shelf, 1 to 64 of them. Each seat has one accept of the lobby, in order, and each session that came has a thread and its
/// seat's shelf. When all have ended, it writes `SERVED` with the number of seats that were served, of those that were not,
/// and of the entries that all made. Returns the program's exit status: 0, or 1 if that line could not be written. If memory
/// runs out for the opening it is 4, and nothing is accepted or written.
pub fn serve_on<T: Threads + Clock + Wait + Sync, L: Lobby, K: Shelf + Drop + Send, W: Write>(
    rt: &T,
    alloc: Global,
    setup: Setup,
    start: Option<Gas>,
    lobby: &mut L,
    shelves: Vec<K>,
    writer: &mut W,
) -> u8
    requires setup { IsInRange setup }
    requires shelves { (0 < vec_len shelves) × (vec_len shelves ≤ most_sessions) }
    ensures { ServesHall setup (starting_gas setup.size start) (vec_len shelves)
        (W.contents writer.old) result (W.contents writer.new) }
{
    let team = StripTeam::new(rt, alloc, setup.workers);
    let Ok(lab) = opened(alloc, setup, start, team) else {
        return Status::NoMemory.number();
    };
    match serve_lab(rt, alloc, lab, lobby, shelves) {
        Some(served) if tell(writer, &served) => Status::Done.number(),
        Some(_) => Status::Failed.number(),
        None => Status::NoMemory.number(),
    }
}
