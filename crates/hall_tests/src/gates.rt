//! A gate for a `Hall`: it lets all calls pass, makes two sessions take turns, or holds each session's first call until all
//! have come.

use mutex_hall::HallGate;
use std::sync::atomic::{AtomicBool, AtomicU32, Ordering};
use std::time::Clock;
use test_types::waiting::{wait_for, wait_for_count};

/// Which calls wait.
#[derive(Clone, Copy, Debug, PartialEq, Eq)]
enum Waiting {
    Nobody,
    ByTurns,
    UntilAllHaveCome(u32),
}

/// A gate of tests.
#[derive(Drop)]
pub struct TestGate<C: Clock> {
    clock: C,
    waiting: Waiting,
    first_made: AtomicBool,
    second_made: AtomicBool,
    come: AtomicU32,
    last_call: AtomicU32,
    met_limit: AtomicBool,
}

impl<C: Clock> TestGate<C> {
    fn new(clock: C, waiting: Waiting) -> TestGate<C> {
        TestGate {
            clock,
            waiting,
            first_made: AtomicBool::new(false),
            second_made: AtomicBool::new(false),
            come: AtomicU32::new(0),
            last_call: AtomicU32::new(0),
            met_limit: AtomicBool::new(false),
        }
    }

    /// Holds nobody.
    pub fn open(clock: C) -> TestGate<C> {
        TestGate::new(clock, Waiting::Nobody)
    }

    /// Holds seat 1's first call until seat 0 has made its first. Holds seat 0 after its first call until seat 1 has made its
    /// first, which it can only if the lock is free by then.
    pub fn turns(clock: C) -> TestGate<C> {
        TestGate::new(clock, Waiting::ByTurns)
    }

    /// Holds each seat's first call until so many seats have come to theirs.
    pub fn meeting(clock: C, seats: u32) -> TestGate<C> {
        TestGate::new(clock, Waiting::UntilAllHaveCome(seats))
    }

    pub fn met_limit(&self) -> bool {
        self.met_limit.load(Ordering::SeqCst)
    }

    /// The number of seat 0's last call.
    pub fn last_call(&self) -> u32 {
        self.last_call.load(Ordering::SeqCst)
    }

    fn hold(&self, until: &AtomicBool) {
        wait_for(&self.clock, until, &self.met_limit);
    }

    fn come_and_wait(&self, seats: u32) {
        self.come.fetch_add(1, Ordering::SeqCst);
        wait_for_count(&self.clock, &self.come, seats, &self.met_limit);
    }
}

impl<C: Clock> HallGate for &TestGate<C> {
    fn before(&self, seat: u16, call: u32) {
        match (self.waiting, seat, call) {
            (Waiting::ByTurns, 1, 0) => self.hold(&self.first_made),
            (Waiting::UntilAllHaveCome(seats), _, 0) => self.come_and_wait(seats),
            _ => {}
        }
    }

    fn after(&self, seat: u16, call: u32) {
        if seat == 0 {
            self.last_call.store(call, Ordering::SeqCst);
        }
        match (self.waiting, seat, call) {
            (Waiting::ByTurns, 0, 0) => {
                self.first_made.store(true, Ordering::SeqCst);
                self.hold(&self.second_made);
            }
            (Waiting::ByTurns, 1, 0) => self.second_made.store(true, Ordering::SeqCst),
            _ => {}
        }
    }
}
