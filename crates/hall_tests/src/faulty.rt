//! A session that fails at each of its calls in turn, beside one that speaks when the first is over.

use crate::expected::{expect_same, expect_that};
use crate::gates::TestGate;
use crate::open_and_serve::serve_sessions;
use crate::small_labs::{counters, no_puts};
use crate::turn_hall_serving::serve_in_turn;
use gas_hall::{AcceptFault, Lobby};
use std::io;
use std::io::{Read, Write};
use std::process::Abort;
use std::sync::atomic::{AtomicBool, Ordering};
use std::sync::{Mutex, Wait};
use std::thread::Threads;
use std::time::Clock;
use test_types::faults::{FaultAt, Feed};
use test_types::pages::{OutputPage, PageWriter, shows};
use test_types::waiting::wait_for;

const FIRST: &[u8] = b"put 2 0 1 1\nput 6 0 1 1\n";

const FIRST_TOLD: &[u8] = b"OK 0\nOK 1\n";

const SECOND: &[u8] = b"put 4 0 1 1\nentry 0\nentry 1\nentry 2\n";

// The second session's replies, by how many entries the first made.
const SECOND_TOLD: [&[u8]; 3] = [
    b"OK 0\nENTRY 1 put 4 0 1 1\nERR 9 entry\nERR 9 entry\n",
    b"OK 1\nENTRY 0 put 2 0 1 1\nENTRY 1 put 4 0 1 1\nERR 9 entry\n",
    b"OK 2\nENTRY 0 put 2 0 1 1\nENTRY 0 put 6 0 1 1\nENTRY 1 put 4 0 1 1\n",
];

// At which call the first session's reader fails, and at which its writer; what both sessions write; whether the first has
// failed, whether it is over, and whether the second waited too long for that.
#[derive(Drop)]
struct Scene {
    reads: FaultAt,
    writes: FaultAt,
    pages: [Mutex<OutputPage>; 2],
    failed: AtomicBool,
    is_over: AtomicBool,
    met_limit: AtomicBool,
}

impl Scene {
    fn new(reads: FaultAt, writes: FaultAt) -> Scene {
        Scene {
            reads,
            writes,
            pages: [Mutex::new(OutputPage::new()), Mutex::new(OutputPage::new())],
            failed: AtomicBool::new(false),
            is_over: AtomicBool::new(false),
            met_limit: AtomicBool::new(false),
        }
    }

    // A session makes no other call after one that failed.
    fn fail(&self) {
        self.failed.store(true, Ordering::SeqCst);
        self.is_over.store(true, Ordering::SeqCst);
    }
}

// Reads of at most nine bytes, so that some end within a line.
#[derive(Drop)]
struct FaultySpeaker<'a, C: Clock> {
    clock: C,
    scene: &'a Scene,
    feed: Feed<'a>,
    waits: bool,
}

impl<'a, C: Clock> Read for FaultySpeaker<'a, C> {
    fn read(&mut self, buf: &mut [u8]) -> io::Result<usize> {
        if self.waits {
            wait_for(&self.clock, &self.scene.is_over, &self.scene.met_limit);
        }
        match self.feed.read(buf) {
            Ok(0) => {
                self.scene.is_over.store(true, Ordering::SeqCst);
                Ok(0)
            }
            Ok(n) => Ok(n),
            Err(fault) => {
                self.scene.fail();
                Err(fault)
            }
        }
    }
}

// Writes to a page, until a write or a flush fails.
#[derive(Drop)]
struct Writer<'a> {
    scene: &'a Scene,
    page: PageWriter<'a>,
    fault: FaultAt,
}

impl<'a> Writer<'a> {
    // How many bytes the next call moves, of so many.
    fn room(&mut self, most: usize) -> io::Result<usize> {
        match self.fault.room(most) {
            Ok(n) => Ok(n.min(most)),
            Err(fault) => {
                self.scene.fail();
                Err(fault)
            }
        }
    }
}

impl<'a> Write for Writer<'a> {
    fn write(&mut self, buf: &[u8]) -> io::Result<usize> {
        let n = self.room(buf.len())?.min(buf.len());
        self.page.write(&buf[..n])
    }

    fn flush(&mut self) -> io::Result<()> {
        self.room(0)?;
        Ok(())
    }
}

#[derive(Drop)]
struct Two<'a, C: Clock> {
    clock: C,
    scene: &'a Scene,
    next: usize,
}

impl<'a, C: Clock + Copy + Drop + Send> Lobby for Two<'a, C> {
    type R = FaultySpeaker<'a, C>;

    type W = Writer<'a>;

    fn accept(&mut self) -> Result<(FaultySpeaker<'a, C>, Writer<'a>), AcceptFault> {
        let Two { clock, scene, next } = self;
        let at = *next;
        *next = at.saturating_add(1);
        let Some(page) = scene.pages.get(at) else {
            return Err(AcceptFault);
        };
        let waits = at == 1;
        let (text, reads, writes) = if waits {
            (SECOND, FaultAt::never(), FaultAt::never())
        } else {
            (FIRST, scene.reads, scene.writes)
        };
        let speaker = FaultySpeaker {
            clock: *clock,
            scene: *scene,
            feed: Feed::new(text, 9, reads),
            waits,
        };
        let writer = Writer {
            scene: *scene,
            page: PageWriter::new(page),
            fault: writes,
        };
        Ok((speaker, writer))
    }
}

#[derive(Clone, Copy, PartialEq, Eq)]
enum Server {
    Ledgered,
    InTurn,
}

// How many seats were served and how many not, and the entries of all; then the entries of the first two seats.
type ServedCounts = ((u32, u32, u32), [u32; 2]);

// Serves the scene on an empty laboratory of 64 by 64.
fn served<R: Threads + Wait + Sync + Abort + Clock + Copy + Drop + Send + AllocGlobal>(
    rt: &R,
    server: Server,
    scene: &Scene,
) -> ServedCounts {
    let mut lobby = Two {
        clock: *rt,
        scene,
        next: 0,
    };
    let saved = no_puts();
    if server == Server::InTurn {
        let shelves = counters(rt.alloc(), &saved, 2).expect(rt, "memory");
        let (counts, [first, second, _]) = serve_in_turn(rt, &mut lobby, shelves);
        return (counts, [first, second]);
    }
    let gate = TestGate::open(*rt);
    let left = serve_sessions(rt, 64, &gate, &mut lobby, &saved, 2, &[]).expect(rt, "memory");
    let [first, second, _, _] = left.of_seats;
    (left.counts, [first, second])
}

// How many bytes of its replies are written to the first session, and how many entries it makes.
type Wanted = (usize, u32);

// Both sessions' replies and entries are as wanted. Tells whether the first failed.
fn fails<R: Threads + Wait + Sync + Abort + Clock + Copy + Drop + Send + AllocGlobal>(
    rt: &R,
    server: Server,
    scene: Scene,
    wanted: Wanted,
) -> bool {
    let (written, made) = wanted;
    let counts = served(rt, server, &scene);
    expect_same(rt, counts, ((2, 0, made.saturating_add(1)), [made, 1]));
    let Some((told, beside)) = FIRST_TOLD
        .get(..written)
        .zip(SECOND_TOLD.get(made as usize))
    else {
        panic!(rt; "too much is wanted");
    };
    expect_that(rt, shows(&scene.pages[0], told));
    expect_that(rt, shows(&scene.pages[1], *beside));
    expect_that(rt, !scene.met_limit.load(Ordering::SeqCst));
    scene.failed.load(Ordering::SeqCst)
}

// Two reads come before the first whole line, and a third before the second. The fourth is the end.
const READS: [Wanted; 5] = [(0, 0), (0, 0), (5, 1), (10, 2), (10, 2)];

// Each reply is a write and a flush.
const WRITES: [Wanted; 5] = [(0, 1), (5, 1), (5, 2), (10, 2), (10, 2)];

// The first read fails, then the second, and so on, until a run has no fault; and then so do the writes and flushes.
fn fails_at_each<R: Threads + Wait + Sync + Abort + Clock + Copy + Drop + Send + AllocGlobal>(
    rt: &R,
    server: Server,
) {
    let mut calls = 0u64;
    for (reads, writes) in READS.iter().zip(&WRITES) {
        let is_fault = calls < 4;
        let reader_fails = Scene::new(FaultAt::after(calls), FaultAt::never());
        expect_same(rt, fails(rt, server, reader_fails, *reads), is_fault);
        let writer_fails = Scene::new(FaultAt::never(), FaultAt::after(calls));
        expect_same(rt, fails(rt, server, writer_fails, *writes), is_fault);
        calls = calls.saturating_add(1);
    }
}

#[test]
fn each_call_fails_under_serve(rt: HostRuntime) {
    fails_at_each(&rt, Server::Ledgered);
}

#[test]
fn each_call_fails_under_serve_turn(rt: HostRuntime) {
    fails_at_each(&rt, Server::InTurn);
}
