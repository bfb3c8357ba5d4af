//! Serving a `Hall` to sessions in memory, some of which fail.

use crate::expected::{expect_same, expect_that};
use crate::gates::TestGate;
use crate::open_and_serve::{Left, serve_sessions};
use crate::small_labs::{counted, no_puts};
use std::array;
use std::process::Abort;
use std::sync::{Mutex, Wait};
use std::thread::Threads;
use std::time::Clock;
use test_types::pages::{Guests, OutputPage, shows};

// What is left of a hall: seats that were served and were not, and the entries of all; the entries of each seat; who put
// into which column; count and momentum of the gas; how often each seat saved; what is on each page.
#[derive(Clone, Copy)]
struct HallOutcome<'a> {
    counts: (u32, u32, u32),
    of_seats: [u32; 4],
    puts: &'a [(u16, u16)],
    tally: (i64, i64, i64),
    saved: [u32; 3],
    told: &'a [&'a [u8]],
}

// Serves a session over each page on an empty laboratory of 64 by 64. Tells what is left, and how often each seat saved.
fn serve_guests<R: Threads + Wait + Clock + Sync + Abort + AllocGlobal>(
    rt: &R,
    gate: &TestGate<R>,
    inputs: &[Option<&[u8]>],
    pages: &[Mutex<OutputPage>],
    puts: &[(u16, u16)],
) -> (Left, [u32; 3]) {
    let mut lobby = Guests::new(inputs, pages);
    let saved = no_puts();
    let left = serve_sessions(rt, 64, gate, &mut lobby, &saved, pages.len(), puts);
    (left.expect(rt, "memory"), counted(&saved))
}

fn serves<R: Threads + Wait + Clock + Sync + Abort + AllocGlobal>(
    rt: &R,
    gate: &TestGate<R>,
    inputs: &[Option<&[u8]>],
    pages: &[Mutex<OutputPage>],
    wanted: HallOutcome<'_>,
) {
    let (left, saved) = serve_guests(rt, gate, inputs, pages, wanted.puts);
    expect_same(rt, left.counts, wanted.counts);
    expect_same(rt, left.of_seats, wanted.of_seats);
    expect_same(rt, left.lab.tally, wanted.tally);
    expect_same(rt, saved, wanted.saved);
    expect_that(rt, left.lab.are_puts);
    show(rt, pages, wanted.told);
}

// There is as much on each page as is wanted.
fn show(rt: &impl Abort, pages: &[Mutex<OutputPage>], wanted: &[&[u8]]) {
    expect_same(rt, pages.len(), wanted.len());
    for (page, text) in pages.iter().zip(wanted) {
        expect_that(rt, shows(page, *text));
    }
}

fn empty_pages() -> [Mutex<OutputPage>; 3] {
    array::from_fn(|_| Mutex::new(OutputPage::new()))
}

/// Two sessions take turns by a gate that a server of one after the other can't pass, nor one that holds the lock for a
/// session.
#[test]
fn two_served_sessions_take_turns(rt: HostRuntime) {
    let turns = TestGate::turns(rt);
    let pages = empty_pages();
    let inputs: [Option<&[u8]>; 2] = [Some(b"put 0 0 1 1\nput 2 0 1 1\n"), Some(b"put 4 0 1 1\n")];
    let wanted = HallOutcome {
        counts: (2, 0, 3),
        of_seats: [2, 1, 0, 0],
        puts: &[(0, 0), (1, 4), (0, 2)],
        tally: (3, 3, 3),
        saved: [0, 0, 0],
        told: &[b"OK 0\nOK 2\n", b"OK 1\n"],
    };
    serves(&rt, &turns, &inputs, &pages[..2], wanted);
    expect_that(&rt, !turns.met_limit());
}

#[test]
fn failed_accept_is_counted(rt: HostRuntime) {
    let pages = empty_pages();
    let inputs: [Option<&[u8]>; 2] = [None, Some(b"put 0 0 1 1\nquit\n")];
    let wanted = HallOutcome {
        counts: (1, 1, 1),
        of_seats: [0, 1, 0, 0],
        puts: &[(1, 0)],
        tally: (1, 1, 1),
        saved: [0, 0, 0],
        told: &[b"", b"OK 0\nBYE\n"],
    };
    serves(&rt, &TestGate::open(rt), &inputs, &pages[..2], wanted);
}

/// Seat 1's page takes nothing. Its change is made and counted, as those of the others are.
#[test]
fn failed_writer_beside_others(rt: HostRuntime) {
    let pages = [
        Mutex::new(OutputPage::new()),
        Mutex::new(OutputPage::full()),
        Mutex::new(OutputPage::new()),
    ];
    let inputs: [Option<&[u8]>; 3] = [
        Some(b"put 0 0 1 1\n"),
        Some(b"put 2 0 1 1\n"),
        Some(b"put 4 0 1 1\n"),
    ];
    let (left, _) = serve_guests(&rt, &TestGate::open(rt), &inputs, &pages, &[]);
    expect_same(&rt, left.counts, (3, 0, 3));
    expect_same(&rt, left.of_seats, [1, 1, 1, 0]);
    expect_same(&rt, left.lab.tally, (3, 3, 3));
    expect_that(&rt, shows(&pages[1], b""));
    for page in [&pages[0], &pages[2]] {
        let told = shows(page, b"OK 0\n") || shows(page, b"OK 1\n") || shows(page, b"OK 2\n");
        expect_that(&rt, told);
    }
}

// 3,000 bytes in one line, and a change after it.
fn long_input(rt: &(impl Abort + AllocGlobal)) -> Vec<u8> {
    let mut long = vec![in rt.alloc(); b'x'; 3000].expect(rt, "memory");
    long.extend_from_slice(b"\nput 2 0 1 1\n")
        .expect(rt, "memory");
    long
}

/// One client hangs up in the middle of a line, and one sends a line of 3,000 bytes.
#[test]
fn torn_and_long_lines_beside_others(rt: HostRuntime) {
    let pages = empty_pages();
    let long = long_input(&rt);
    let inputs: [Option<&[u8]>; 3] = [
        Some(b"put 0 0 1 1"),
        Some(long.as_slice()),
        Some(b"put 4 0 1 1\ntally\nquit\n"),
    ];
    let wanted = HallOutcome {
        counts: (3, 0, 1),
        of_seats: [0, 0, 1, 0],
        puts: &[(2, 4)],
        tally: (1, 1, 1),
        saved: [0, 0, 0],
        told: &[b"", b"ERR 1 line\n", b"OK 0\nTALLY 0 1 1 1\nBYE\n"],
    };
    serves(&rt, &TestGate::open(rt), &inputs, &pages, wanted);
}

#[test]
fn each_session_saves_on_its_own_shelf(rt: HostRuntime) {
    let pages = empty_pages();
    let inputs: [Option<&[u8]>; 3] = [
        Some(b"save\nsave\nquit\n"),
        Some(b"save\nquit\n"),
        Some(b"quit\n"),
    ];
    let wanted = HallOutcome {
        counts: (3, 0, 0),
        of_seats: [0, 0, 0, 0],
        puts: &[],
        tally: (0, 0, 0),
        saved: [2, 1, 0],
        told: &[
            b"SAVED 0 1558\nSAVED 0 1558\nBYE\n",
            b"SAVED 0 1558\nBYE\n",
            b"BYE\n",
        ],
    };
    serves(&rt, &TestGate::open(rt), &inputs, &pages, wanted);
}
