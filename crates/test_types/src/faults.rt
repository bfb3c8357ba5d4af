//! Readers, writers and shelves in memory that fail at a chosen call.

ghost use Rattle.std.specs.Prelude.{◌≡◌, ◌++◌, ◌∷◌, [], OnOk, OnErr};
ghost use Rattle.test_types.specs.Stores.{kept_by};

use gas_snapshot::{Shelf, ShelfFault};
use std::alloc::Global;
use std::io;
use std::io::{Read, Write};
use std::sync::atomic::{AtomicU32, Ordering};

/// What becomes of a call.
#[derive(Clone, Copy, Debug, PartialEq, Eq)]
enum CallResult {
    Succeeds,
    Fails,
    MovesNothing,
}

/// At which of its calls something fails, once.
#[derive(Clone, Copy, Debug)]
pub struct FaultAt {
    calls: u64,
    then: CallResult,
}

impl FaultAt {
    /// No call fails.
    pub fn never() -> FaultAt {
        FaultAt {
            calls: u64::MAX,
            then: CallResult::Succeeds,
        }
    }

    /// The call after so many fails.
    pub fn after(calls: u64) -> FaultAt {
        FaultAt {
            calls,
            then: CallResult::Fails,
        }
    }

    /// The call after so many gives or takes no bytes: a reader is at its end there.
    pub fn nothing_after(calls: u64) -> FaultAt {
        FaultAt {
            calls,
            then: CallResult::MovesNothing,
        }
    }

    fn next(&mut self) -> CallResult {
        if self.calls == 0 {
            self.calls = u64::MAX;
            return self.then;
        }
        self.calls -= 1;
        CallResult::Succeeds
    }

    /// How many bytes the next call moves, of so many.
    pub fn room(&mut self, most: usize) -> io::Result<usize> {
        match self.next() {
            CallResult::Succeeds => Ok(most),
            CallResult::Fails => Err(failure()),
            CallResult::MovesNothing => Ok(0),
        }
    }
}

fn failure() -> io::Error {
    io::Error::from(io::ErrorKind::Other)
}

/// Gives its bytes, at most `step` of them a read, and then the same bytes again if it is told to.
#[derive(Drop)]
pub struct Feed<'a> {
    bytes: &'a [u8],
    rest: &'a [u8],
    step: usize,
    repeats: u64,
    fault: FaultAt,
    reads: u64,
    asked: usize,
}

impl<'a> Feed<'a> {
    pub fn new(bytes: &'a [u8], step: usize, fault: FaultAt) -> Feed<'a> {
        Feed {
            bytes,
            rest: bytes,
            step,
            repeats: 0,
            fault,
            reads: 0,
            asked: 0,
        }
    }

    /// Gives its bytes again and again, without an end in sight.
    pub fn endless(bytes: &'a [u8], step: usize) -> Feed<'a> {
        Feed {
            repeats: u64::MAX,
            ..Feed::new(bytes, step, FaultAt::never())
        }
    }

    /// How many reads there were.
    pub fn reads(&self) -> u64 {
        self.reads
    }

    /// How many bytes a read has asked for at most.
    pub fn asked(&self) -> usize {
        self.asked
    }
}

impl<'a> Read for Feed<'a> {
    fn read(&mut self, buf: &mut [u8]) -> io::Result<usize> {
        self.reads = self.reads.saturating_add(1);
        self.asked = self.asked.max(buf.len());
        if self.rest.is_empty() && self.repeats > 0 {
            self.repeats -= 1;
            self.rest = self.bytes;
        }
        let n = self
            .fault
            .room(self.step)?
            .min(self.rest.len())
            .min(buf.len());
        buf[..n].copy_from_slice(&self.rest[..n]);
        self.rest = &self.rest[n..];
        Ok(n)
    }
}

/// Takes bytes, at most `step` of them a write and `room` of them in all: a write that finds no room fails.
#[derive(Drop)]
pub struct Sink {
    taken: Vec<u8>,
    step: usize,
    room: usize,
    // Over writes and flushes.
    fault: FaultAt,
    flushes: u64,
}

impl Sink {
    pub fn new(alloc: Global, step: usize, room: usize, fault: FaultAt) -> Sink {
        Sink {
            taken: Vec::new(alloc),
            step,
            room,
            fault,
            flushes: 0,
        }
    }

    /// What it took.
    pub fn taken(&self) -> &[u8] {
        self.taken.as_slice()
    }

    /// How many flushes succeeded.
    pub fn flushes(&self) -> u64 {
        self.flushes
    }
}

impl Write for Sink {
    fn write(&mut self, buf: &[u8]) -> io::Result<usize> {
        match self.fault.next() {
            CallResult::Succeeds => {}
            CallResult::Fails => return Err(failure()),
            CallResult::MovesNothing => return Ok(0),
        }
        if self.room == 0 {
            return Err(failure());
        }
        let n = buf.len().min(self.step).min(self.room);
        self.taken.extend_from_slice(&buf[..n])?;
        self.room -= n;
        Ok(n)
    }

    fn flush(&mut self) -> io::Result<()> {
        if self.fault.next() != CallResult::Succeeds {
            return Err(failure());
        }
        self.flushes = self.flushes.saturating_add(1);
        Ok(())
    }
}

/// Keeps what was put.
#[derive(Drop)]
pub struct Store {
    kept: Vec<Vec<u8>>,
    failures: u64,
    fault: FaultAt,
}

impl Store {
    pub fn new(alloc: Global, fault: FaultAt) -> Store {
        Store {
            kept: Vec::new(alloc),
            failures: 0,
            fault,
        }
    }

    /// The snapshots that it took, in order.
    pub fn kept(&self) -> &[Vec<u8>] {
        self.kept.as_slice()
    }

    fn keep(&mut self, bytes: &[u8]) -> Result<(), ShelfFault>
        ensures failures { self.new.failures ≡ self.old.failures }
        ensures ok { OnOk result (kept_by self.new ≡ kept_by self.old ++ bytes.now ∷ []) }
        ensures err { OnErr result (kept_by self.new ≡ kept_by self.old) }
    {
        if self.fault.next() != CallResult::Succeeds {
            return Err(ShelfFault);
        }
        let Ok(copy) = Vec::from_slice(*self.kept.allocator(), bytes) else {
            return Err(ShelfFault);
        };
        match self.kept.push(copy) {
            Ok(()) => Ok(()),
            Err(_) => Err(ShelfFault),
        }
    }
}

impl Shelf for Store {
    ghost use Rattle.std.specs.Prelude.{Some};
    ghost use Rattle.test_types.specs.Stores.{kept_by};

    ghost failures = { λ s. s.failures };

    ghost shelved = { λ s. Some (kept_by s) };

    fn put(&mut self, bytes: &[u8]) -> Result<(), ShelfFault> {
        if self.keep(bytes).is_err() {
            self.failures = self.failures.saturating_add(1);
            return Err(ShelfFault);
        }
        Ok(())
    }

    fn failures(&self) -> u64 {
        self.failures
    }
}

/// Takes all that is put, and counts it where the test can see it.
#[derive(Drop)]
pub struct Counter<'a> {
    puts: &'a AtomicU32,
}

impl<'a> Counter<'a> {
    pub fn new(puts: &'a AtomicU32) -> Counter<'a> {
        Counter { puts }
    }
}

impl<'a> Shelf for Counter<'a> {
    ghost failures = { λ _. 0 };

    fn put(&mut self, bytes: &[u8]) -> Result<(), ShelfFault> {
        let _ = bytes;
        self.puts.fetch_add(1, Ordering::SeqCst);
        Ok(())
    }

    fn failures(&self) -> u64 {
        0
    }
}
