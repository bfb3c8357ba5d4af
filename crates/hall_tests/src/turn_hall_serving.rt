//! Serving a `TurnHall` to sessions in memory, some of which fail.

ghost use Rattle.std.specs.Prelude.{◌≡◌, ◌<◌, ◌≤◌, All, vec_len};

use crate::expected::expect_that;
use crate::small_labs::{counted, counters, no_puts, small_lab};
use gas_hall::{Lobby, Served, TurnHall, TurnSeat, serve_turn};
use gas_lab::Serial;
use std::process::Abort;
use std::sync::Wait;
use std::thread::Threads;
use std::time::Clock;
use test_types::faults::Counter;
use test_types::stage::{Speakers, Speech, Stage, Text, interleaved};

/// What became of the seats: how many were served and how many not, and the entries of all; the entries of each, and how
/// often each saved.
#[derive(Clone, Copy, PartialEq)]
struct TurnHallOutcome {
    counts: (u32, u32, u32),
    of_seats: [u32; 3],
    saved: [u32; 3],
}

fn counts_of(seats: &[TurnSeat<Serial>]) -> [u32; 3] {
    let mut counts = [0; 3];
    for (count, seat) in counts.iter_mut().zip(seats) {
        *count = seat.entries();
    }
    counts
}

/// A hall with so many seats over an empty laboratory of 64 by 64.
pub fn open_hall(
    rt: &(impl Abort + AllocGlobal),
    seats: u16,
) -> (TurnHall<Serial>, Vec<TurnSeat<Serial>>)
    requires { (0 < seats) × (seats ≤ 64) }
    ensures count { vec_len result.1 ≡ seats }
    ensures here { All (λ seat. seat.hall ≡ result.0) result.1.items }
{
    let lab = small_lab(rt.alloc()).expect(rt, "memory");
    match TurnHall::open(rt.alloc(), lab, seats) {
        Ok(opened) => opened,
        Err(_) => panic!(rt; "no memory"),
    }
}

/// Serves a session of the lobby for each shelf, three at most, on an empty laboratory of 64 by 64. Tells how many were
/// served and how many not, the entries of all, and those of each.
pub fn serve_in_turn<L: Lobby, R: Threads + Wait + Sync + Abort + AllocGlobal>(
    rt: &R,
    lobby: &mut L,
    shelves: Vec<Counter<'_>>,
) -> ((u32, u32, u32), [u32; 3]) {
    let count = shelves.len();
    expect_that(rt, count > 0);
    expect_that(rt, count <= 3);
    let (hall, seats) = open_hall(rt, count as u16);
    let Served {
        done,
        failed,
        entries,
        seats,
    } = serve_turn(rt, rt.alloc(), lobby, &hall, seats, shelves);
    ((done, failed, entries), counts_of(seats.as_slice()))
}

// Serves a session for each speech, each with a shelf that counts.
fn serve_speeches<R: Threads + Wait + Sync + Abort + Clock + Copy + Drop + Send + AllocGlobal>(
    rt: &R,
    stage: &Stage,
    speeches: &[Option<Speech<'_>>],
) -> TurnHallOutcome {
    let saved = no_puts();
    let shelves = counters(rt.alloc(), &saved, speeches.len()).expect(rt, "memory");
    let mut lobby = Speakers::new(*rt, stage, speeches);
    let (counts, of_seats) = serve_in_turn(rt, &mut lobby, shelves);
    TurnHallOutcome {
        counts,
        of_seats,
        saved: counted(&saved),
    }
}

fn without_saves(counts: (u32, u32, u32), of_seats: [u32; 3]) -> TurnHallOutcome {
    TurnHallOutcome {
        counts,
        of_seats,
        saved: [0, 0, 0],
    }
}

/// Seat 1 speaks between the two lines of seat 0: sessions that run one after the other meet the limit.
#[test]
fn turn_sessions_interleave(rt: HostRuntime) {
    let stage = Stage::new();
    let found = serve_speeches(&rt, &stage, &interleaved());
    expect_that(&rt, found == without_saves((2, 0, 3), [2, 1, 0]));
    expect_that(&rt, !stage.met_limit());
    expect_that(&rt, stage.shows(0, b"OK 0\nOK 2\n"));
    expect_that(&rt, stage.shows(1, b"OK 1\n"));
}

#[test]
fn turn_failed_accept(rt: HostRuntime) {
    let stage = Stage::new();
    let second = Speech::of(b"put 0 0 1 1\nquit\n");
    let found = serve_speeches(&rt, &stage, &[None, Some(second)]);
    expect_that(&rt, found == without_saves((1, 1, 1), [0, 1, 0]));
    expect_that(&rt, stage.shows(0, b""));
    expect_that(&rt, stage.shows(1, b"OK 0\nBYE\n"));
}

const FIRST_TOLD: &[u8] = b"OK 1\nTALLY 0 2 2 2\nENTRY 1 put 2 0 1 1\nENTRY 0 put 0 0 1 1\n";

/// One session's reader fails in the middle of a line, another's page takes nothing, and the first goes on after the one
/// was told its reply.
#[test]
fn turn_faults_beside_others(rt: HostRuntime) {
    let stage = Stage::with_full_page();
    let first = Speech {
        first: Text {
            after: Some(1),
            text: b"put 0 0 1 1\ntally\nentry 0\nentry 1\n",
        },
        told: FIRST_TOLD,
        ..Speech::of(b"")
    };
    let failing = Speech {
        fails: true,
        told: b"OK 0\n",
        ..Speech::of(b"put 2 0 1 1\nput 6 0 1")
    };
    let unheard = Speech {
        first: Text {
            after: Some(0),
            text: b"put 4 0 1 1\nput 8 0 1 1\n",
        },
        ..Speech::of(b"")
    };
    let found = serve_speeches(&rt, &stage, &[Some(first), Some(failing), Some(unheard)]);
    expect_that(&rt, found.counts == (3, 0, 3));
    expect_that(&rt, found.of_seats == [1, 1, 1]);
    expect_that(&rt, stage.shows(0, FIRST_TOLD));
    expect_that(&rt, stage.shows(1, b"OK 0\n"));
    expect_that(&rt, stage.shows(2, b""));
}

#[test]
fn turn_sessions_save_on_their_own_shelves(rt: HostRuntime) {
    let stage = Stage::new();
    let speeches = [
        Some(Speech::of(b"save\nsave\nquit\n")),
        Some(Speech::of(b"save\nquit\n")),
        Some(Speech::of(b"quit\n")),
    ];
    let found = serve_speeches(&rt, &stage, &speeches);
    expect_that(&rt, found.counts == (3, 0, 0));
    expect_that(&rt, found.saved == [2, 1, 0]);
    expect_that(&rt, stage.shows(0, b"SAVED 0 1558\nSAVED 0 1558\nBYE\n"));
    expect_that(&rt, stage.shows(1, b"SAVED 0 1558\nBYE\n"));
}
