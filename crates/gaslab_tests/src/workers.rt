//! One gas that looks random, stepped by different numbers of workers.

use crate::expected::{expect_same, expect_that};
use crate::failing::are_same;
use crate::script::{ALL, LabShape, SMALL, gives_on, status_on};
use crate::serving::serves;
use gas_snapshot::NoShelf;
use std::io::Write;
use std::process::Abort;
use std::rt::Files;
use std::sync::Wait;
use std::sync::atomic::{AtomicBool, Ordering};
use std::thread::Threads;
use std::time::Clock;
use std::{fs, thread};
use test_types::faults::{FaultAt, Feed, Sink, Store};
use test_types::stage::Speech;

// The next of a sequence of words that look random.
fn next(state: &mut u64) -> u64 {
    let mut bits = *state;
    bits ^= bits << 13;
    bits ^= bits >> 7;
    bits ^= bits << 17;
    *state = bits;
    bits
}

// A line that lays row y with the next two words of the sequence.
fn lay(rt: &impl Abort, script: &mut Vec<u8>, y: u32, state: &mut u64) {
    let (left, right) = (next(state), next(state));
    writeln!(script, "row {y} {left:016x}{right:016x}").expect(rt, "memory");
}

// Walls and obstacles among the cells; steps and back; steps with ports, more than are listed at once; then back without them.
const RUNS: &[u8] =
    b"wall 0 50 128 1\nwall 127 100 1 700\nblock 60 60 9 7\nblock 30 500 20 129\nsave\nstep 30\nsave\ntally\nledger\nback 30\nsave\ntally\nledger\nsource 10 60 40 9 7\nsource 50 1080 60 8 2\ndrain 100 0 3 1088\ndrain 20 640 60 2\nstep 270\nsave\ntally\nledger\nunport\nback 40\nsave\ntally\nledger\n";

// The replies from the first snapshot on. The sums are those of `tools/channel_gas.py` for the same script.
const TOLD: &[u8] =
    b"SAVED 548 52246\nOK 548\nSAVED 549 52246\nTALLY 30 34636 126 -130\nLEDGER 0 34636 0 0 38 0 -24 -64 0 -42 0 100 -12\nOK 549\nSAVED 550 52246\nTALLY 0 34636 38 -42\nLEDGER 0 34636 0 0 38 0 0 0 0 -42 0 0 0\nOK 550\nOK 551\nOK 552\nOK 553\nOK 554\nSAVED 555 52282\nTALLY 270 8733 -569 137\nLEDGER 0 62969 54236 0 -755 11970 -17214 5058 0 -2403 -492 -3470 1422\nOK 555\nOK 556\nSAVED 557 52246\nTALLY 230 8733 -867 -837\nLEDGER 0 62969 54236 0 -755 11970 -16392 4534 0 -2403 -492 -2364 1290\n";

// Seventeen rows of tiles: one of 16 workers has two of them, and the strip of one worker is its own neighbor.
const HIGH: LabShape = LabShape {
    width: 128,
    height: 1088,
    ..SMALL
};

// Lays every other pair of rows, and runs them.
fn script(rt: &(impl Abort + AllocGlobal)) -> Vec<u8> {
    let mut script = Vec::new(rt.alloc());
    let mut state = 1;
    for pair in 0..272u32 {
        lay(rt, &mut script, 4 * pair, &mut state);
        lay(rt, &mut script, 4 * pair + 1, &mut state);
    }
    script.extend_from_slice(RUNS).expect(rt, "memory");
    script
}

// What a run wrote, and what its shelf took.
#[derive(Drop)]
struct Told {
    sink: Sink,
    store: Store,
}

fn told_by(
    rt: &(impl Abort + AllocGlobal + Threads + Clock),
    script: &[u8],
    shape: LabShape,
) -> Told {
    let mut feed = Feed::new(script, ALL, FaultAt::never());
    let mut sink = Sink::new(rt.alloc(), ALL, ALL, FaultAt::never());
    let mut store = Store::new(rt.alloc(), FaultAt::never());
    let status = status_on(rt, shape, None, &mut feed, &mut sink, &mut store);
    expect_same(&rt, status, 0);
    Told { sink, store }
}

// Five snapshots were taken, and the third, after the steps back, is the first.
fn is_back(rt: &impl Abort, kept: &[Vec<u8>]) {
    let [start, _, back, _, _] = kept else {
        panic!(rt; "five snapshots")
    };
    expect_same(&rt, back.as_slice(), start.as_slice());
}

#[test]
fn random_gas_by_any_number_of_workers(rt: HostRuntime) {
    let script = script(&rt);
    let alone = told_by(&rt, script.as_slice(), HIGH);
    expect_that(&rt, alone.sink.taken().ends_with(TOLD));
    is_back(&rt, alone.store.kept());
    for workers in 1..17u8 {
        let shape = LabShape {
            workers,
            by_strips: true,
            ..HIGH
        };
        let by_team = told_by(&rt, script.as_slice(), shape);
        expect_same(&rt, by_team.sink.taken(), alone.sink.taken());
        are_same(&rt, by_team.store.kept(), alone.store.kept());
    }
}

/// The shortest run of a lattice of this size that the program itself makes by strips, with 16 workers. By hand: on 9 by 64
/// tiles each of them turns 9 * 60 * 243 = 131,220 fewer in it than one thread would, in 242 steps 130,680, and 131,072 are enough.
/// What is there lies across the edges of strips. The replies are those of `tools/channel_gas.py`.
#[test]
fn run_that_is_worth_strips(rt: HostRuntime) {
    let shape = LabShape {
        width: 576,
        height: 4096,
        workers: 16,
        ..SMALL
    };
    gives_on(
        &rt,
        shape,
        "put 30 250 200 12; put 300 4090 100 6; put 100 2040 60 20; wall 0 240 576 1; wall 0 270 576 1; block 240 250 8 12; source 0 244 4 20 2; drain 280 241 8 29; step 243; tally; ledger; probe 0 255 576 1; probe 0 256 576 1; probe 232 241 24 29; unport; back 243; tally; ledger; probe 0 255 576 1; probe 0 256 576 1",
        "OK 0; OK 1; OK 2; OK 3; OK 4; OK 5; OK 6; OK 7; OK 8; TALLY 243 8261 -1985 -7; LEDGER 0 8641 380 0 919 380 1492 1032 0 -37 -34 4 0; PROBE 176 -60 176; PROBE 182 -66 -182; PROBE 55 3 -1; OK 9; OK 10; TALLY 0 8261 549 -233; LEDGER 0 8641 380 0 919 380 -234 224 0 -37 -34 262 -32; PROBE 275 23 -275; PROBE 270 12 270",
    );
}

// How many threads this process has, as the system tells.
fn threads_now(rt: &(impl Files + AllocGlobal)) -> u32 {
    let Ok(told) = fs::read_to_string(rt, "/proc/self/status") else {
        return 0;
    };
    for line in told.lines() {
        if let Some(count) = line.strip_prefix("Threads:") {
            return count.trim().parse().unwrap_or(0);
        }
    }
    0
}

// Looks until no thread is there but this one: one that has ended may still be counted for an instant.
fn settle(rt: &(impl Files + AllocGlobal)) {
    for _ in 0..1_000_000u32 {
        if threads_now(rt) == 1 {
            return;
        }
    }
}

// The most threads that were there at once, looked at again and again until the flag is set.
fn most_until(rt: &(impl Files + AllocGlobal), is_over: &AtomicBool) -> u32 {
    let mut most = 0;
    for _ in 0..1_000_000u32 {
        most = most.max(threads_now(rt));
        if is_over.load(Ordering::SeqCst) {
            return most;
        }
    }
    most
}

// More steps than one look takes, by two workers.
const LONG_STEPS: LabShape = LabShape {
    width: 4096,
    height: 2048,
    workers: 2,
    ..SMALL
};

// A run of them, and then the flag is set.
fn step_by_two(rt: &(impl Abort + AllocGlobal + Threads + Clock), is_over: &AtomicBool) {
    gives_on(rt, LONG_STEPS, "step 512", "OK 0");
    is_over.store(true, Ordering::SeqCst);
}

// The same for a server.
fn serve_by_two<R: Abort + Threads + Wait + Sync + Clock + Copy + Drop + Send + AllocGlobal>(
    rt: &R,
    is_over: &AtomicBool,
) {
    let mut shelves = Vec::new(rt.alloc());
    shelves.push(NoShelf::new()).expect(rt, "memory");
    serves(
        rt,
        LONG_STEPS,
        None,
        shelves,
        &[Some(Speech::of(b"step 512\nquit\n"))],
        [b"OK 0\nBYE\n", b""],
        b"SERVED 1 0 1\n",
    );
    is_over.store(true, Ordering::SeqCst);
}

/// Runs are looked at while they go on, since one may be over before anybody looks. There are this thread, which works too,
/// the one that looks, and that of the second worker; by one worker there would be two, never more.
#[test]
fn workers_are_threads(rt: HostRuntime) {
    let mut most = 0;
    for _ in 0..10u32 {
        settle(&rt);
        let is_over = AtomicBool::new(false);
        let (seen, ()) = thread::join(
            &rt,
            || most_until(&rt, &is_over),
            || step_by_two(&rt, &is_over),
        );
        most = most.max(seen);
    }
    expect_that(&rt, most >= 3);
}

/// The same for a server, whose session has a thread too: by one worker there would be three, never more.
#[test]
fn server_workers_are_threads(rt: HostRuntime) {
    let mut most = 0;
    for _ in 0..10u32 {
        settle(&rt);
        let is_over = AtomicBool::new(false);
        let (seen, ()) = thread::join(
            &rt,
            || most_until(&rt, &is_over),
            || serve_by_two(&rt, &is_over),
        );
        most = most.max(seen);
    }
    expect_that(&rt, most >= 4);
}
