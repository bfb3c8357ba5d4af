//! Phases by teams of several workers: which worker turns a tile, a random gas, and refused memory. The worked examples of
//! `phases` are made by teams too.

use crate::expected::{expect_same, expect_that};
use crate::lattices::{are_same, fit, plane, scattered};
use crate::steppers::{step, team};
use gas_plane::Plane;
use gas_terms::{Pair, Took};
use phase_step::Serial;
use phase_team::{Gate, NoGate, Team};
use std::process::Abort;
use std::sync::atomic::{AtomicBool, AtomicU64, Ordering};
use std::thread::Threads;
use std::time::{Clock, Duration};
use std::{array, thread};

// A phase with any gate.
fn phase<R: Threads + Drop, G: Gate + Drop>(
    rt: &impl Abort,
    team: &mut Team<R, G>,
    old: &Plane,
    walls: &Plane,
    obstacles: &Plane,
    parity: u8,
    out: &mut Plane,
) -> Took {
    expect_that(&rt, parity < 2);
    fit(rt, old, walls, obstacles, out);
    team.phase(old, walls, obstacles, parity, out)
}

// Holds the first call until another has begun, for at most ten seconds and what the sleeps take longer. Counts the calls of
// each of two workers.
#[derive(Drop)]
struct TwoAtOnce<C: Clock> {
    clock: C,
    calls: AtomicU64,
    of_first: AtomicU64,
    of_second: AtomicU64,
    met_limit: AtomicBool,
}

impl<C: Clock> TwoAtOnce<C> {
    fn new(clock: C) -> TwoAtOnce<C> {
        TwoAtOnce {
            clock,
            calls: AtomicU64::new(0),
            of_first: AtomicU64::new(0),
            of_second: AtomicU64::new(0),
            met_limit: AtomicBool::new(false),
        }
    }

    fn hold(&self) {
        for _ in 0..100000u32 {
            if self.calls.load(Ordering::SeqCst) > 1 {
                return;
            }
            thread::sleep(&self.clock, Duration::from_micros(100));
        }
        self.met_limit.store(true, Ordering::SeqCst);
    }
}

impl<C: Clock + Sync> Gate for &TwoAtOnce<C> {
    fn at_tile(&self, worker: u8, _tile: u32) {
        match worker {
            0 => self.of_first.fetch_add(1, Ordering::SeqCst),
            1 => self.of_second.fetch_add(1, Ordering::SeqCst),
            _ => 0,
        };
        if self.calls.fetch_add(1, Ordering::SeqCst) == 0 {
            self.hold();
        }
    }
}

#[test]
fn two_workers_at_once(rt: HostRuntime) {
    let old = plane(&rt, 128, 128, &[(63, 63), (64, 64)]);
    let none = plane(&rt, 128, 128, &[]);
    let want = plane(&rt, 128, 128, &[(64, 63), (63, 64)]);
    let mut out = plane(&rt, 128, 128, &[]);
    let gate = TwoAtOnce::new(rt);
    let mut team = team(&rt, rt, rt.alloc(), 2, &gate);
    phase(&rt, &mut team, &old, &none, &none, 1, &mut out);
    expect_that(&rt, !gate.met_limit.load(Ordering::SeqCst));
    // Each of the four tiles was drawn, and each worker called by its own number.
    expect_same(&rt, gate.calls.load(Ordering::SeqCst), 4);
    let first = gate.of_first.load(Ordering::SeqCst);
    let second = gate.of_second.load(Ordering::SeqCst);
    expect_that(&rt, 0 < first && 0 < second);
    expect_same(&rt, first.wrapping_add(second), 4);
    expect_that(&rt, are_same(&out, &want, 128, 128));
}

// Counts the calls for each of 12 tiles, by one of 3 workers, and any others.
#[derive(Drop)]
struct Counts {
    tiles: [AtomicU64; 12],
    others: AtomicU64,
}

impl Counts {
    fn new() -> Counts {
        Counts {
            tiles: array::from_fn(|_| AtomicU64::new(0)),
            others: AtomicU64::new(0),
        }
    }
}

impl Gate for &Counts {
    fn at_tile(&self, worker: u8, tile: u32) {
        let calls = match self.tiles.get(tile as usize) {
            Some(calls) if worker < 3 => calls,
            _ => &self.others,
        };
        calls.fetch_add(1, Ordering::SeqCst);
    }
}

#[test]
fn random_gas_by_any_number_of_workers(rt: HostRuntime) {
    let walls = scattered(&rt, 256, 192, 2, 400);
    let obstacles = scattered(&rt, 256, 192, 3, 700);
    for workers in [1, 2, 5, 16] {
        let mut team = team(&rt, rt, rt.alloc(), workers, NoGate);
        let mut serial = Serial;
        let mut now = scattered(&rt, 256, 192, 1, 3);
        let mut next = scattered(&rt, 256, 192, 4, 2);
        let mut alone = scattered(&rt, 256, 192, 1, 3);
        let mut alone_next = scattered(&rt, 256, 192, 5, 2);
        for t in 0..40u8 {
            let took = step(&rt, &mut team, &now, &walls, &obstacles, t % 2, &mut next);
            let by_one = step(
                &rt,
                &mut serial,
                &alone,
                &walls,
                &obstacles,
                t % 2,
                &mut alone_next,
            );
            expect_that(&rt, took == by_one);
            std::mem::swap(&mut now, &mut next);
            std::mem::swap(&mut alone, &mut alone_next);
        }
        expect_that(&rt, are_same(&now, &alone, 256, 192));
    }
}

#[test]
fn each_tile_is_drawn_once(rt: HostRuntime) {
    let old = scattered(&rt, 256, 192, 1, 3);
    let none = scattered(&rt, 256, 192, 1, 0);
    let mut out = scattered(&rt, 256, 192, 1, 0);
    let counts = Counts::new();
    let mut team = team(&rt, rt, rt.alloc(), 3, &counts);
    for _ in 0..5 {
        phase(&rt, &mut team, &old, &none, &none, 0, &mut out);
    }
    expect_same(&rt, counts.others.load(Ordering::SeqCst), 0);
    expect_that(
        &rt,
        counts
            .tiles
            .iter()
            .all(|calls| calls.load(Ordering::SeqCst) == 5),
    );
}

#[test]
fn refused_team_without_memory(rt: HostRuntime) {
    let old = plane(&rt, 128, 128, &[(63, 63), (64, 64), (10, 10)]);
    let none = plane(&rt, 128, 128, &[]);
    // At an odd tick a particle at (10, 10) goes to the left and up.
    let walls = plane(&rt, 128, 128, &[(9, 9)]);
    let want = plane(&rt, 128, 128, &[(64, 63), (63, 64), (10, 10)]);
    let mut team = team(&rt, rt, rt.alloc(), 7, NoGate);
    let mut out = plane(&rt, 128, 128, &[(5, 5)]);
    let took = step(&rt, &mut team, &old, &walls, &none, 1, &mut out);
    expect_that(&rt, are_same(&out, &want, 128, 128));
    expect_that(
        &rt,
        took.walls == Pair { x: -2, y: -2 } && took.obstacles == Pair::ZERO,
    );
    let mut alone = plane(&rt, 128, 128, &[]);
    let by_one = step(&rt, &mut Serial, &old, &walls, &none, 1, &mut alone);
    expect_that(&rt, are_same(&out, &alone, 128, 128) && took == by_one);
}
