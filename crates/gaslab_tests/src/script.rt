//! Runs a script and compares the output with the expected text.

ghost use Rattle.std.specs.Prelude.{◌≡◌, [], IfSome};
ghost use Rattle.gas_run.specs.Plans.{IsInRange};

use crate::expected::{expect_same, expect_that};
use gas_lab::Lab;
use gas_ledger::Gas;
use gas_run::opened;
use gas_snapshot::Shelf;
use gas_talk::{SessionEnd, serve_alone};
use gas_terms::Size;
use gaslab::{Setup, Status, run_on};
use phase_strips::{LeastRun, StripTeam};
use std::io::{Read, Write};
use std::process::Abort;
use std::thread::Threads;
use std::time::Clock;
use test_types::faults::{FaultAt, Feed, Sink, Store};

/// No limit of what is read or written at once.
pub const ALL: usize = usize::MAX;

/// A lattice's width and height, how many workers step it, whether they make every run by strips, and the journal's capacity.
#[derive(Clone, Copy)]
pub struct LabShape {
    pub width: u32,
    pub height: u32,
    pub workers: u8,
    pub by_strips: bool,
    pub cap: u32,
}

/// The setup of a run whose command line says nothing.
pub const SMALL: LabShape = LabShape {
    width: 64,
    height: 64,
    workers: 1,
    by_strips: false,
    cap: 1024,
};

/// Four tiles.
pub const LARGE: LabShape = LabShape {
    width: 128,
    height: 128,
    workers: 1,
    by_strips: false,
    cap: 1024,
};

/// Lines, written with `; ` between them. No text has no line.
pub fn lines(rt: &(impl Abort + AllocGlobal + Threads + Clock), text: &str) -> Vec<u8> {
    let mut bytes = Vec::new(rt.alloc());
    let mut is_parted = false;
    for byte in text.as_bytes() {
        if *byte == b';' {
            bytes.push(b'\n').expect(rt, "memory");
        } else if *byte != b' ' || !is_parted {
            bytes.push(*byte).expect(rt, "memory");
        }
        is_parted = *byte == b';';
    }
    if !text.is_empty() {
        bytes.push(b'\n').expect(rt, "memory");
    }
    bytes
}

/// The setup of a laboratory of this shape.
pub fn setup_of(rt: &impl Abort, shape: LabShape) -> Setup
    ensures { IsInRange result }
{
    let LabShape {
        width,
        height,
        workers,
        cap,
        ..
    } = shape;
    let size = Size::new(width, height).expect(rt, "a size");
    expect_that(rt, 1 <= cap);
    expect_that(rt, cap <= 65536);
    expect_that(rt, 1 <= workers);
    expect_that(rt, workers <= 16);
    Setup { size, workers, cap }
}

/// A laboratory whose team makes every run by strips, on a busy machine too. `None` if memory runs out.
pub fn opened_by_strips<R: AllocGlobal + Threads + Clock>(
    rt: &R,
    setup: Setup,
    start: Option<Gas>,
) -> Option<Lab<StripTeam<&R>>>
    requires { IsInRange setup }
    ensures { IfSome result (λ lab. lab.journal ≡ []) }
{
    let least = LeastRun {
        phases: 0,
        tiles: 0,
        patience: 60_000,
    };
    let team = StripTeam::with_least_run(rt, rt.alloc(), setup.workers, least);
    opened(rt.alloc(), setup, start, team).ok()
}

fn status_after(end: SessionEnd) -> u8 {
    match end {
        SessionEnd::Quit | SessionEnd::InputEnd => Status::Done.number(),
        SessionEnd::Memory => Status::NoMemory.number(),
        _ => Status::Failed.number(),
    }
}

/// The status of a run. The program itself makes no small run by strips, so a shape `by_strips` gets a laboratory of the
/// test's own.
pub fn status_on<R: Read, W: Write, K: Shelf>(
    rt: &(impl Abort + AllocGlobal + Threads + Clock),
    shape: LabShape,
    start: Option<Gas>,
    reader: &mut R,
    writer: &mut W,
    shelf: &mut K,
) -> u8 {
    let setup = setup_of(rt, shape);
    if !shape.by_strips {
        return run_on(rt, rt.alloc(), setup, start, reader, writer, shelf);
    }
    match opened_by_strips(rt, setup, start) {
        Some(mut lab) => {
            status_after(serve_alone(rt.alloc(), reader, writer, &mut lab, 0, shelf))
        }
        None => Status::NoMemory.number(),
    }
}

/// The run over this feed writes these bytes, and has this status.
pub fn writes<K: Shelf>(
    rt: &(impl Abort + AllocGlobal + Threads + Clock),
    shape: LabShape,
    start: Option<Gas>,
    feed: &mut Feed<'_>,
    shelf: &mut K,
    output: &[u8],
    status: u8,
) {
    let mut sink = Sink::new(rt.alloc(), ALL, ALL, FaultAt::never());
    let found = status_on(rt, shape, start, feed, &mut sink, shelf);
    expect_same(&rt, sink.taken(), output);
    expect_same(&rt, found, status);
}

/// The same for these bytes, which are read at most `step` at once, on a lattice without anything.
pub fn answers(
    rt: &(impl Abort + AllocGlobal + Threads + Clock),
    shape: LabShape,
    input: &[u8],
    step: usize,
    output: &[u8],
    status: u8,
) {
    let mut feed = Feed::new(input, step, FaultAt::never());
    let mut store = Store::new(rt.alloc(), FaultAt::never());
    writes(rt, shape, None, &mut feed, &mut store, output, status);
}

/// The script gives this output, from this gas or on a lattice without anything, with this shelf.
pub fn gives_with<K: Shelf>(
    rt: &(impl Abort + AllocGlobal + Threads + Clock),
    shape: LabShape,
    start: Option<Gas>,
    shelf: &mut K,
    script: &str,
    output: &str,
) {
    let input = lines(rt, script);
    let output = lines(rt, output);
    let mut feed = Feed::new(input.as_slice(), ALL, FaultAt::never());
    writes(rt, shape, start, &mut feed, shelf, output.as_slice(), 0);
}

/// The script gives this output, on a lattice without anything.
pub fn gives_on(
    rt: &(impl Abort + AllocGlobal + Threads + Clock),
    shape: LabShape,
    script: &str,
    output: &str,
) {
    let mut store = Store::new(rt.alloc(), FaultAt::never());
    gives_with(rt, shape, None, &mut store, script, output);
}

/// The same on one thread, and by two, three and seven workers: as the program runs it, and all by strips.
pub fn gives_by_teams(
    rt: &(impl Abort + AllocGlobal + Threads + Clock),
    shape: LabShape,
    script: &str,
    output: &str,
) {
    gives_on(rt, shape, script, output);
    for workers in [2, 3, 7] {
        let as_program = LabShape { workers, ..shape };
        gives_on(rt, as_program, script, output);
        let by_strips = LabShape {
            by_strips: true,
            ..as_program
        };
        gives_on(rt, by_strips, script, output);
    }
}

/// The script gives this output on a lattice of 64 by 64 with room for 1,024 changes.
pub fn gives(rt: &(impl Abort + AllocGlobal + Threads + Clock), script: &str, output: &str) {
    gives_on(rt, SMALL, script, output);
}
