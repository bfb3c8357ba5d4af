//! Lattices for tests, and whether they hold the same cells.

ghost use Rattle.std.specs.Prelude.{◌≡◌, IfOk};
ghost use Rattle.gas_terms.specs.Cells.{HasSidesOf};

use crate::expected::{expect_same, expect_that};
use gas_plane::{Plane, Tile};
use gas_terms::{NoMemory, Rect, Size};
use phase_step::Solids;
use std::alloc::Global;
use std::process::Abort;

/// A lattice with these cells.
pub fn plane(
    rt: &(impl Abort + AllocGlobal),
    width: u32,
    height: u32,
    cells: &[(u32, u32)],
) -> Plane {
    let size = Size::new(width, height).expect(rt, "a size");
    let mut plane = match Plane::empty(rt.alloc(), size) {
        Ok(plane) => plane,
        // An allocation that a test refuses is refused once.
        Err(_) => Plane::empty(rt.alloc(), size).expect(rt, "memory"),
    };
    for (x, y) in cells {
        plane.fill(Rect::within(size, *x, *y, 1, 1).expect(rt, "a cell"));
    }
    plane
}

/// Whether a cell is full.
pub fn holds(plane: &Plane, x: u32, y: u32) -> bool {
    let size = plane.size();
    x < size.width() as u32 && y < size.height() as u32 && plane.get(x, y)
}

/// Stops a test if one of these cells is not full or empty as told.
pub fn expect_cells(rt: &impl Abort, plane: &Plane, cells: &[(u32, u32, bool)]) {
    for (x, y, held) in cells {
        expect_same(&rt, (*x, *y, holds(plane, *x, *y)), (*x, *y, *held));
    }
}

/// Whether two tiles have the same cells.
pub fn same_cells(some: &Tile, others: &Tile) -> bool {
    (0..64usize).all(|y| some.row(y) == others.row(y))
}

/// Whether two planes hold the same cells.
pub fn are_same(some: &Plane, others: &Plane, width: u32, height: u32) -> bool {
    (0..height).all(|y| (0..width).all(|x| holds(some, x, y) == holds(others, x, y)))
}

fn solids_of(alloc: Global, walls: &Plane, obstacles: &Plane) -> Result<Solids, NoMemory>
    requires { HasSidesOf obstacles.now walls.now }
    ensures { IfOk result (λ s. (s.walls ≡ walls.now) × (s.obstacles ≡ obstacles.now)) }
{
    let walls = walls.copy(alloc)?;
    let obstacles = obstacles.copy(alloc)?;
    Solids::of(alloc, walls, obstacles)
}

/// Walls and obstacles that have the cells of these planes.
pub fn solids(rt: &(impl Abort + AllocGlobal), walls: &Plane, obstacles: &Plane) -> Solids
    requires { HasSidesOf obstacles.now walls.now }
    ensures { (result.walls ≡ walls.now) × (result.obstacles ≡ obstacles.now) }
{
    match solids_of(rt.alloc(), walls, obstacles) {
        Ok(solids) => solids,
        // An allocation that a test refuses is refused once.
        Err(_) => solids_of(rt.alloc(), walls, obstacles).expect(rt, "memory"),
    }
}

/// Stops a test if the planes of a phase are not of one size.
pub fn fit(rt: &impl Abort, old: &Plane, walls: &Plane, obstacles: &Plane, out: &Plane)
    ensures walls { HasSidesOf walls.now old.now }
    ensures obstacles { HasSidesOf obstacles.now old.now }
    ensures out { HasSidesOf out.now old.now }
{
    let size = old.size();
    expect_that(&rt, walls.size() == size);
    expect_that(&rt, obstacles.size() == size);
    expect_that(&rt, out.size() == size);
}

/// Cells by a linear congruence, about one in `every`.
pub fn scattered(
    rt: &(impl Abort + AllocGlobal),
    width: u32,
    height: u32,
    seed: u32,
    every: u32,
) -> Plane {
    let size = Size::new(width, height).expect(rt, "a size");
    let mut plane = Plane::empty(rt.alloc(), size).expect(rt, "memory");
    let mut state = seed;
    for y in 0..height {
        for x in 0..width {
            state = state.wrapping_mul(1664525).wrapping_add(1013904223);
            if every > 0 && (state / 65536) % every == 0 {
                plane.fill(Rect::within(size, x, y, 1, 1).expect(rt, "a cell"));
            }
        }
    }
    plane
}
