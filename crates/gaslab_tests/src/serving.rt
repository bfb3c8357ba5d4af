//! Servers over sessions in memory.

use crate::expected::{expect_same, expect_that};
use crate::files::{Files, file_holds, file_of, new_folder};
use crate::script::{LARGE, LabShape, SMALL, opened_by_strips, setup_of};
use crate::snapshots::snapshot;
use gas_hall::serve_lab;
use gas_ledger::Gas;
use gas_snapshot::{MaybeShelf, NoShelf, Shelf, decode};
use gaslab::serve_on;
use std::process::Abort;
use std::rt::Files as HasFiles;
use std::sync::Wait;
use std::thread::Threads;
use std::time::Clock;
use std::{fs, process};
use test_types::pages::OutputPage;
use test_types::stage::{Speakers, Speech, Stage, Text, interleaved};

// No shelf for each of so many sessions.
fn no_shelves<R: HasFiles + AllocGlobal + Drop>(rt: &R, count: usize) -> Option<Vec<Files<R>>> {
    let mut shelves = Vec::with_capacity(rt.alloc(), 4).ok()?;
    for _ in 0..count {
        shelves.push(MaybeShelf::Nothing(NoShelf::new())).ok()?;
    }
    Some(shelves)
}

// The status of a server with a session for each speech.
fn status_of<
    R: Abort + Threads + Wait + Sync + Clock + Copy + Drop + Send + AllocGlobal,
    K: Shelf + Drop + Send,
>(
    rt: &R,
    shape: LabShape,
    start: Option<Gas>,
    shelves: Vec<K>,
    stage: &Stage,
    speeches: &[Option<Speech<'_>>],
    said: &mut OutputPage,
) -> u8 {
    let setup = setup_of(rt, shape);
    assert!(rt; 1 <= shelves.len() && shelves.len() <= 64);
    let mut lobby = Speakers::new(*rt, stage, speeches);
    serve_on(rt, rt.alloc(), setup, start, &mut lobby, shelves, said)
}

/// The server's sessions are served, and what they write and the server says is this.
pub fn serves<
    R: Abort + Threads + Wait + Sync + Clock + Copy + Drop + Send + AllocGlobal,
    K: Shelf + Drop + Send,
>(
    rt: &R,
    shape: LabShape,
    start: Option<Gas>,
    shelves: Vec<K>,
    speeches: &[Option<Speech<'_>>],
    shown: [&[u8]; 2],
    served: &[u8],
) {
    let stage = Stage::new();
    let mut said = OutputPage::new();
    let status = status_of(rt, shape, start, shelves, &stage, speeches, &mut said);
    expect_same(&rt, (status, said.text()), (0, served));
    expect_that(rt, !stage.met_limit());
    expect_that(rt, stage.shows(0, shown[0]));
    expect_that(rt, stage.shows(1, shown[1]));
}

const ONE_PUT: &[u8] = b"put 0 0 1 1\nquit\n";

#[test]
fn serve_on_a_lobby(rt: HostRuntime) {
    let shelves = no_shelves(&rt, 2).expect(&rt, "memory");
    let speeches = [None, Some(Speech::of(ONE_PUT))];
    serves(
        &rt,
        SMALL,
        None,
        shelves,
        &speeches,
        [b"", b"OK 0\nBYE\n"],
        b"SERVED 1 1 1\n",
    );
}

/// Seat 1 speaks between the two lines of seat 0: sessions that run one after the other meet the limit.
#[test]
fn served_sessions_take_turns(rt: HostRuntime) {
    let shelves = no_shelves(&rt, 2).expect(&rt, "memory");
    serves(
        &rt,
        SMALL,
        None,
        shelves,
        &interleaved(),
        [b"OK 0\nOK 2\n", b"OK 1\n"],
        b"SERVED 2 0 3\n",
    );
}

/// The sessions are served, and the status says that the last line was not written.
#[test]
fn served_line_that_fails(rt: HostRuntime) {
    let stage = Stage::new();
    let speeches = [Some(Speech::of(ONE_PUT))];
    let status = status_of(
        &rt,
        SMALL,
        None,
        no_shelves(&rt, 1).expect(&rt, "memory"),
        &stage,
        &speeches,
        &mut OutputPage::full(),
    );
    expect_same(&rt, status, 1);
    expect_that(&rt, stage.shows(0, b"OK 0\nBYE\n"));
}

// What two sessions on a laboratory of this shape, whose workers make every run by strips, have done.
fn counts_by_strips<
    R: Abort + Threads + Wait + Sync + Clock + Copy + Drop + Send + AllocGlobal,
    K: Shelf + Drop + Send,
>(
    rt: &R,
    shape: LabShape,
    shelves: Vec<K>,
    stage: &Stage,
    speeches: &[Option<Speech<'_>>],
) -> (u32, u32, u32) {
    expect_that(rt, shelves.len() == 2);
    let mut lobby = Speakers::new(*rt, stage, speeches);
    let lab = opened_by_strips(rt, setup_of(rt, shape), None).expect(rt, "memory");
    let served = serve_lab(rt, rt.alloc(), lab, &mut lobby, shelves).expect(rt, "memory");
    (served.done, served.failed, served.entries)
}

/// One session steps and undoes a channel with three workers in its turns, and another asks all the while for a row that
/// no particle reaches. The replies are those of `tools/channel_gas.py`.
#[test]
fn workers_under_the_lock(rt: HostRuntime) {
    let stage = Stage::new();
    let speeches = [
        Some(Speech::of(
            b"wall 0 50 128 1\nwall 0 80 128 1\nblock 40 62 4 4\nput 28 60 8 8\nstep 100\nprobe 40 51 30 29\nledger\nback 100\nledger\nquit\n",
        )),
        Some(Speech::of(
            b"probe 0 20 128 1\nprobe 0 20 128 1\nprobe 0 20 128 1\nprobe 0 20 128 1\nprobe 0 20 128 1\nquit\n",
        )),
    ];
    // A laboratory of four tiles.
    let shape = LabShape {
        workers: 3,
        by_strips: true,
        ..LARGE
    };
    let shelves = no_shelves(&rt, 2).expect(&rt, "memory");
    let counts = counts_by_strips(&rt, shape, shelves, &stage, &speeches);
    expect_same(&rt, counts, (2, 0, 6));
    expect_that(
        &rt,
        stage.shows(
            0,
            b"OK 0\nOK 1\nOK 2\nOK 3\nOK 4\nPROBE 25 -19 -13\nLEDGER 0 64 0 0 0 0 0 6 0 0 0 32 -2\nOK 5\nLEDGER 0 64 0 0 0 0 0 0 0 0 0 0 0\nBYE\n",
        ),
    );
    expect_that(
        &rt,
        stage.shows(
            1,
            b"PROBE 0 0 0\nPROBE 0 0 0\nPROBE 0 0 0\nPROBE 0 0 0\nPROBE 0 0 0\nBYE\n",
        ),
    );
}

/// The particle of the snapshot is there.
#[test]
fn server_from_a_snapshot(rt: HostRuntime) {
    let gas = decode(rt.alloc(), snapshot(&rt, 22, 0x80).as_slice()).expect(&rt, "a gas");
    let speeches = [Some(Speech::of(b"tally\nread 0\nquit\n"))];
    serves(
        &rt,
        LARGE,
        Some(gas),
        no_shelves(&rt, 1).expect(&rt, "memory"),
        &speeches,
        [b"TALLY 0 1 1 1\nROW 8000000000000000\nBYE\n", b""],
        b"SERVED 1 0 0\n",
    );
}

// Shelves of two seats, each a file of this folder with the seat's number.
fn two_files<R: Abort + HasFiles + AllocGlobal + Copy + Drop>(
    rt: &R,
    folder: &str,
) -> Vec<Files<R>> {
    let mut shelves = Vec::new(rt.alloc());
    for seat in 0..2 {
        shelves.push(file_of(rt, folder, seat)).expect(rt, "memory");
    }
    shelves
}

// Seat 0 saves the empty gas, and then puts a particle, which seat 1 saves.
fn saves_of_two() -> [Option<Speech<'static>>; 2] {
    let first = Speech {
        told: b"SAVED 0 1558\nOK 0\n",
        ..Speech::of(b"save\nput 0 0 1 1\n")
    };
    let second = Speech {
        first: Text {
            after: Some(0),
            text: b"save\nquit\n",
        },
        ..Speech::of(b"")
    };
    [Some(first), Some(second)]
}

#[test]
fn each_session_saves_in_its_own_file(rt: HostRuntime) {
    let folder = new_folder(&rt, "served", process::id(rt.process()));
    serves(
        &rt,
        SMALL,
        None,
        two_files(&rt, folder.as_str()),
        &saves_of_two(),
        [b"SAVED 0 1558\nOK 0\n", b"SAVED 1 1558\nBYE\n"],
        b"SERVED 2 0 1\n",
    );
    for (seat, first) in [(0, 0), (1, 0x80)] {
        file_holds(
            &rt,
            folder.as_str(),
            seat,
            snapshot(&rt, 22, first).as_slice(),
        );
    }
    fs::remove_dir_all(&rt, folder.as_str()).expect(&rt, "no folder");
}

// Whether seat 1 has written what fits to what the server says, in one of two ways.
fn fits_to(said: &[u8], stage: &Stage) -> bool {
    if said == b"SERVED 1 1 1\n".as_slice() {
        return stage.shows(1, b"OK 0\nBYE\n") || stage.shows(1, b"OK 0\nERR 14 memory\n");
    }
    if said == b"SERVED 1 1 0\n".as_slice() {
        return stage.shows(1, b"ERR 14 memory\nBYE\n") || stage.shows(1, b"ERR 14 memory\n");
    }
    (said == b"SERVED 0 2 0\n".as_slice() || said.is_empty()) && stage.shows(1, b"")
}

/// Whichever allocation is refused: nothing begins, or the seat's thread isn't started, or the session goes on or ends
/// with `ERR 14 memory`, and the last line counts what was made.
#[test]
fn refused_serve_on(rt: HostRuntime) {
    let Some(shelves) = no_shelves(&rt, 2) else {
        return;
    };
    let stage = Stage::new();
    let mut said = OutputPage::new();
    let speeches = [None, Some(Speech::of(ONE_PUT))];
    let status = status_of(&rt, SMALL, None, shelves, &stage, &speeches, &mut said);
    expect_that(&rt, status == 0 || status == 4);
    expect_that(&rt, status == 0 || said.text().is_empty());
    expect_that(&rt, stage.shows(0, b""));
    expect_that(&rt, fits_to(said.text(), &stage));
}
