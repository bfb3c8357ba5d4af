//! Allocations that fail one by one: one line is refused with `ERR 14 memory`, or the session ends there, or nothing begins.

use crate::expected::{expect_same, expect_that};
use crate::loads::{Padded, WITH_PORTS};
use crate::script::{LabShape, SMALL, status_on};
use gas_snapshot::{Shelf, ShelfFault, SnapFault};
use gaslab::{LoadFault, PlanFault, load_from, plan};
use std::process::Abort;
use std::thread::Threads;
use std::time::Clock;
use test_types::faults::FaultAt;
use test_types::pages::OutputPage;

// Counts the snapshots of an empty gas, and of one with a particle in its first cell.
#[derive(Drop)]
struct CountedShelf {
    empty: u64,
    filled: u64,
}

impl Shelf for CountedShelf {
    ghost failures = { λ _. 0 };

    fn put(&mut self, bytes: &[u8]) -> Result<(), ShelfFault> {
        if bytes.get(22) == Some(&0x80) {
            self.filled = self.filled.saturating_add(1);
        } else {
            self.empty = self.empty.saturating_add(1);
        }
        Ok(())
    }

    fn failures(&self) -> u64 {
        0
    }
}

const MEMORY: &[u8] = b"ERR 14 memory\n";

fn is_one_of(found: &[u8], texts: &[&[u8]]) -> bool {
    for text in texts {
        if *text == found {
            return true;
        }
    }
    false
}

// Nothing, or whole lines of the known output and then want of memory.
fn stops_for_memory(found: &[u8], known: &[u8]) -> bool {
    if found.is_empty() {
        return true;
    }
    match found.strip_suffix(MEMORY) {
        Some(front) => known.starts_with(front) && (front.is_empty() || front.ends_with(b"\n")),
        None => false,
    }
}

// Runs over an input. What is written is the known output, or one of those where one line has found no memory; or the run
// stops for want of memory.
fn runs_with(
    rt: &(impl Abort + AllocGlobal + Threads + Clock),
    shape: LabShape,
    input: &[u8],
    known: &[u8],
    others: &[&[u8]],
    shelf: &mut CountedShelf,
) -> u8 {
    let mut reader = input;
    let mut writer = OutputPage::new();
    let status = status_on(rt, shape, None, &mut reader, &mut writer, shelf);
    let found = writer.text();
    if status == 0 {
        expect_that(&rt, found == known || is_one_of(found, others));
    } else {
        expect_same(&rt, status, 4);
        expect_that(&rt, stops_for_memory(found, known));
    }
    status
}

fn no_snapshots() -> CountedShelf {
    CountedShelf {
        empty: 0,
        filled: 0,
    }
}

// The same over an input that saves nothing: the run is done, or stops for want of memory.
fn runs(
    rt: &(impl Abort + AllocGlobal + Threads + Clock),
    shape: LabShape,
    input: &[u8],
    known: &[u8],
    others: &[&[u8]],
) {
    let mut shelf = no_snapshots();
    let status = runs_with(rt, shape, input, known, others, &mut shelf);
    expect_that(&rt, status == 0 || status == 4);
    expect_that(&rt, shelf.empty == 0);
    expect_that(&rt, shelf.filled == 0);
}

#[test]
fn refused_one_particle_steps(rt: HostRuntime) {
    runs(
        &rt,
        SMALL,
        b"put 0 0 1 1\nstep 1\nprobe 1 1 1 1\ntally\n",
        b"OK 0\nOK 1\nPROBE 1 1 1\nTALLY 1 1 1 1\n",
        &[
            b"ERR 14 memory\nOK 0\nPROBE 0 0 0\nTALLY 1 0 0 0\n",
            b"OK 0\nERR 14 memory\nPROBE 0 0 0\nTALLY 0 1 1 1\n",
        ],
    );
}

#[test]
fn refused_rows_and_hex(rt: HostRuntime) {
    runs(
        &rt,
        SMALL,
        b"row 0 8000000000000001\nrow 0 C000000000000000\nerase 0 0 1 1\nread 0\nentry 1\nledger\n",
        b"OK 0\nOK 1\nOK 2\nROW 4000000000000000\nENTRY 0 row 0 c000000000000000\nLEDGER 0 3 2 0 -1 0 0 0 0 3 2 0 0\n",
        &[
            b"ERR 14 memory\nOK 0\nOK 1\nROW 4000000000000000\nENTRY 0 erase 0 0 1 1\nLEDGER 0 2 1 0 0 1 0 0 0 2 1 0 0\n",
            b"OK 0\nERR 14 memory\nOK 1\nROW 0000000000000001\nENTRY 0 erase 0 0 1 1\nLEDGER 0 2 1 0 0 1 0 0 0 2 1 0 0\n",
            b"OK 0\nOK 1\nERR 14 memory\nROW c000000000000000\nENTRY 0 row 0 c000000000000000\nLEDGER 0 3 1 0 -1 -1 0 0 0 3 1 0 0\n",
            b"OK 0\nOK 1\nOK 2\nERR 14 memory\nENTRY 0 row 0 c000000000000000\nLEDGER 0 3 2 0 -1 0 0 0 0 3 2 0 0\n",
            b"OK 0\nOK 1\nOK 2\nROW 4000000000000000\nERR 14 memory\nLEDGER 0 3 2 0 -1 0 0 0 0 3 2 0 0\n",
        ],
    );
}

#[test]
fn refused_save_to_a_shelf(rt: HostRuntime) {
    let mut shelf = no_snapshots();
    let status = runs_with(
        &rt,
        SMALL,
        b"put 0 0 1 1\nsave\ntally\n",
        b"OK 0\nSAVED 1 1558\nTALLY 0 1 1 1\n",
        &[
            b"ERR 14 memory\nSAVED 0 1558\nTALLY 0 0 0 0\n",
            b"OK 0\nERR 14 memory\nTALLY 0 1 1 1\n",
        ],
        &mut shelf,
    );
    expect_that(&rt, shelf.empty.saturating_add(shelf.filled) <= 1);
    expect_that(&rt, shelf.empty == 0 || status == 0);
}

#[test]
fn refused_load(rt: HostRuntime) {
    let mut reader = Padded::new(&WITH_PORTS, 1064, 100, FaultAt::never());
    match load_from(rt.alloc(), &mut reader) {
        Ok(gas) => expect_same(&rt, gas.ports().drains().len(), 1),
        Err(fault) => expect_same(&rt, fault, LoadFault::Snap(SnapFault::Memory)),
    }
    // Want of memory comes before what the bytes are.
    let mut reader = Padded::new(&WITH_PORTS, 1063, 100, FaultAt::never());
    match load_from(rt.alloc(), &mut reader) {
        Ok(_) => panic!(rt; "a gas of bytes that are cut short"),
        Err(fault) => expect_that(
            &rt,
            fault == LoadFault::Snap(SnapFault::Memory)
                || fault == LoadFault::Snap(SnapFault::Short),
        ),
    }
}

// Whether the words are understood, or memory was refused.
fn is_planned(rt: &(impl Abort + AllocGlobal + Threads + Clock), words: &[&str]) -> bool {
    match plan(rt.alloc(), words) {
        Ok(found) => {
            expect_same(&rt, found.setup.cap, 5000);
            expect_that(&rt, found.save == Some("tunnel.gas"));
            expect_that(&rt, found.load.is_none());
            true
        }
        Err(PlanFault::Memory) => true,
        Err(PlanFault::Line(_)) => false,
    }
}

#[test]
fn refused_plan(rt: HostRuntime) {
    let words = [
        "gaslab",
        "run",
        "--cap",
        "5000",
        "--width",
        "128",
        "--save",
        "tunnel.gas",
    ];
    expect_that(&rt, is_planned(&rt, &words));
}

// The fault is one of the line, or want of memory.
#[test]
fn refused_plan_of_a_bad_line(rt: HostRuntime) {
    for words in [
        ["gaslab", "run", "--cap", "0"],
        ["gaslab", "run", "--speed", "3"],
        ["gaslab", "run", "--width", "x"],
    ] {
        match plan(rt.alloc(), &words) {
            Ok(_) => panic!(rt; "a bad line was understood"),
            Err(PlanFault::Line(text)) => expect_that(&rt, !text.is_empty()),
            Err(PlanFault::Memory) => {}
        }
    }
}

// The channel between two walls, stepped by two strips: it lies in the first, and the other is empty. If these find no memory
// or no thread, the run is made without.
const CHANNEL: &[u8] =
    b"wall 0 20 64 1\nwall 0 29 64 1\nput 28 21 8 8\nstep 100\nback 100\ntally\nledger\nread 21\nread 28\nread 29\n";

const CHANNEL_UNDONE: &[u8] =
    b"OK 0\nOK 1\nOK 2\nOK 3\nOK 4\nTALLY 0 64 0 0\nLEDGER 0 64 0 0 0 0 0 0 0 0 0 0 0\nROW 0000000ff0000000\nROW 0000000ff0000000\nROW 0000000000000000\n";

#[test]
fn refused_channel_with_a_team(rt: HostRuntime) {
    let shape = LabShape {
        height: 128,
        workers: 2,
        by_strips: true,
        ..SMALL
    };
    runs(
        &rt,
        shape,
        CHANNEL,
        CHANNEL_UNDONE,
        &[
            b"ERR 14 memory\nOK 0\nOK 1\nOK 2\nOK 3\nTALLY 0 64 0 0\nLEDGER 0 64 0 0 0 0 0 0 0 0 0 0 0\nROW 0000000ff0000000\nROW 0000000ff0000000\nROW 0000000000000000\n",
            b"OK 0\nERR 14 memory\nOK 1\nOK 2\nOK 3\nTALLY 0 64 0 0\nLEDGER 0 64 0 0 0 0 0 0 0 0 0 0 0\nROW 0000000ff0000000\nROW 0000000ff0000000\nROW 0000000000000000\n",
            b"OK 0\nOK 1\nERR 14 memory\nOK 2\nOK 3\nTALLY 0 0 0 0\nLEDGER 0 0 0 0 0 0 0 0 0 0 0 0 0\nROW 0000000000000000\nROW 0000000000000000\nROW 0000000000000000\n",
            b"OK 0\nOK 1\nOK 2\nERR 14 memory\nOK 3\nTALLY -100 64 0 0\nLEDGER 0 64 0 0 0 0 0 0 0 0 0 0 0\nROW 0400220180440020\nROW 0400220180440020\nROW 0000000000000000\n",
            b"OK 0\nOK 1\nOK 2\nOK 3\nERR 14 memory\nTALLY 100 64 0 0\nLEDGER 0 64 0 0 0 0 0 0 0 0 0 0 0\nROW 0400220180440020\nROW 0400220180440020\nROW 0000000000000000\n",
            b"OK 0\nOK 1\nOK 2\nOK 3\nOK 4\nTALLY 0 64 0 0\nLEDGER 0 64 0 0 0 0 0 0 0 0 0 0 0\nERR 14 memory\nROW 0000000ff0000000\nROW 0000000000000000\n",
            b"OK 0\nOK 1\nOK 2\nOK 3\nOK 4\nTALLY 0 64 0 0\nLEDGER 0 64 0 0 0 0 0 0 0 0 0 0 0\nROW 0000000ff0000000\nERR 14 memory\nROW 0000000000000000\n",
            b"OK 0\nOK 1\nOK 2\nOK 3\nOK 4\nTALLY 0 64 0 0\nLEDGER 0 64 0 0 0 0 0 0 0 0 0 0 0\nROW 0000000ff0000000\nROW 0000000ff0000000\nERR 14 memory\n",
        ],
    );
}

/// A run that the program itself makes by strips: on 9 by 64 tiles each of 16 workers turns 9 * 60 * 243 = 131,220 fewer in
/// it than one thread would, and 131,072 are enough. If the strips find no memory, the run is made without.
#[test]
fn refused_run_that_is_worth_strips(rt: HostRuntime) {
    let shape = LabShape {
        width: 576,
        height: 4096,
        workers: 16,
        ..SMALL
    };
    runs(
        &rt,
        shape,
        b"put 40 250 200 12\nstep 243\nprobe 0 10 576 246\ntally\n",
        b"OK 0\nOK 1\nPROBE 1000 0 -1000\nTALLY 243 2400 0 0\n",
        &[
            b"ERR 14 memory\nOK 0\nPROBE 0 0 0\nTALLY 243 0 0 0\n",
            b"OK 0\nERR 14 memory\nPROBE 1200 0 0\nTALLY 0 2400 0 0\n",
        ],
    );
}
