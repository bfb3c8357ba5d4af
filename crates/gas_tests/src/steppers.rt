//! Single phases by anything that makes them, and teams for tests.

use crate::expected::expect_that;
use crate::lattices::fit;
use gas_plane::Plane;
use gas_terms::{Pair, Took};
use phase_team::{Gate, Team};
use single_phase::Phases;
use std::alloc::Global;
use std::process::Abort;
use std::thread::Threads;

/// A single phase.
pub fn step<S: Phases>(
    rt: &impl Abort,
    stepper: &mut S,
    old: &Plane,
    walls: &Plane,
    obstacles: &Plane,
    parity: u8,
    out: &mut Plane,
) -> Took {
    expect_that(&rt, parity < 2);
    fit(rt, old, walls, obstacles, out);
    stepper.phase(old, walls, obstacles, parity, out)
}

/// A team of so many workers.
pub fn team<R: Threads + Drop, G: Gate + Drop>(
    abort: &impl Abort,
    rt: R,
    alloc: Global,
    workers: u8,
    gate: G,
) -> Team<R, G> {
    expect_that(&abort, 0 < workers && workers <= 16);
    Team::new(rt, alloc, workers, gate)
}

fn add(total: &mut Pair, more: Pair) {
    total.x = total.x.wrapping_add(more.x);
    total.y = total.y.wrapping_add(more.y);
}

/// Adds what a phase took to a sum.
pub fn add_taken(total: &mut Took, more: Took) {
    add(&mut total.walls, more.walls);
    add(&mut total.obstacles, more.obstacles);
}
