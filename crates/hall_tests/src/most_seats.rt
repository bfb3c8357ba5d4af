//! A hall with as many seats as it may have.

use crate::expected::{expect_same, expect_that};
use crate::gates::TestGate;
use crate::open_and_serve::serve_sessions;
use crate::small_labs::no_puts;
use std::process::Abort;
use std::sync::{Mutex, Wait};
use std::thread::Threads;
use std::time::Clock;
use test_types::pages::{Guests, OutputPage};

const SEATS: usize = 64;

fn pages(rt: &(impl Abort + AllocGlobal)) -> Vec<Mutex<OutputPage>> {
    let mut pages = Vec::new(rt.alloc());
    for _ in 0..SEATS {
        pages
            .push(Mutex::new(OutputPage::new()))
            .expect(rt, "memory");
    }
    pages
}

// The counts of a hall whose sessions each put into one cell, and of its first four seats, and the sums of its gas.
fn serve_all<R: Threads + Wait + Clock + Sync + Abort + AllocGlobal>(
    rt: &R,
    gate: &TestGate<R>,
    pages: &[Mutex<OutputPage>],
) -> ((u32, u32, u32), [u32; 4], (i64, i64, i64)) {
    let line: &[u8] = b"put 6 0 1 1\n";
    let inputs = [Some(line); SEATS];
    let mut lobby = Guests::new(&inputs, pages);
    let saved = no_puts();
    let left = serve_sessions(rt, 64, gate, &mut lobby, &saved, SEATS, &[]).expect(rt, "memory");
    let of_seats = left.of_seats;
    (left.counts, of_seats, left.lab.tally)
}

/// Sixty-four sessions run at once: each makes its change only when all have come to theirs.
#[test]
fn sixty_four_seats_are_served(rt: HostRuntime) {
    let meeting = TestGate::meeting(rt, 64);
    let pages = pages(&rt);
    let found = serve_all(&rt, &meeting, pages.as_slice());
    expect_that(&rt, !meeting.met_limit());
    expect_same(&rt, found, ((64, 0, 64), [1, 1, 1, 1], (1, 1, 1)));
}
