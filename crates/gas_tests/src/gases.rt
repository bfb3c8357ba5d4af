//! Gases of four tiles for tests, and short runs of them.

ghost use Rattle.std.specs.Prelude.{◌≡◌, true};
ghost use Rattle.gas_terms.specs.Cells.{lies_within, extent};

use crate::expected::{expect_same, expect_that};
use crate::lattices::expect_cells;
use gas_ledger::{Flow, Gas, Port, Ports, Sums, tally};
use gas_plane::Plane;
use gas_terms::{Moved, Pair, Rect, Size, Tick, Took};
use phase_step::Serial;
use std::process::Abort;

pub fn sums(count: i64, px: i64, py: i64) -> Sums
    ensures { result ≡ record { count = count; px = px; py = py } }
{
    Sums { count, px, py }
}

pub fn pair(x: i64, y: i64) -> Pair
    ensures { result ≡ record { x = x; y = y } }
{
    Pair { x, y }
}

pub fn took(walls: Pair, obstacles: Pair) -> Took
    ensures { result ≡ record { walls = walls; obstacles = obstacles } }
{
    Took { walls, obstacles }
}

pub fn moves(injected: Sums, drained: Sums) -> Moved
    ensures { result ≡ record { injected = injected; drained = drained } }
{
    Moved { injected, drained }
}

pub fn flow(took: Took, injected: Sums, drained: Sums) -> Flow
    ensures took { result.took ≡ took }
    ensures moved { result.moved ≡ record { injected = injected; drained = drained } }
{
    let moved = moves(injected, drained);
    Flow { took, moved }
}

pub fn tick(rt: &impl Abort, number: i64) -> Tick {
    Tick::new(number).expect(rt, "a tick")
}

/// A gas of four tiles without cells and ports.
pub fn gas_at(rt: &(impl Abort + AllocGlobal), number: i64) -> Gas {
    let size = Size::new(128, 128).expect(rt, "a size");
    let particles = Plane::empty(rt.alloc(), size).expect(rt, "memory");
    let walls = Plane::empty(rt.alloc(), size).expect(rt, "memory");
    let obstacles = Plane::empty(rt.alloc(), size).expect(rt, "memory");
    let tick = tick(rt, number);
    Gas::new(rt.alloc(), tick, particles, walls, obstacles, Ports::none()).expect(rt, "memory")
}

pub fn area(rt: &impl Abort, gas: &Gas, x: u32, y: u32, w: u32, h: u32) -> Rect
    ensures { lies_within (extent gas.now.particles) result ≡ true }
{
    let area = Rect::within(gas.size(), x, y, w, h).expect(rt, "a rectangle");
    expect_that(&rt, area.fits(gas.size()));
    area
}

/// What a rectangle of a gas is for. A source has a period.
#[derive(Clone, Copy)]
pub enum Piece {
    Particles,
    Wall,
    Obstacle,
    Drain,
    Source(u16),
}

/// Adds a piece to a gas. Particles are put where none are.
pub fn add(rt: &impl Abort, gas: &mut Gas, piece: Piece, x: u32, y: u32, w: u32, h: u32) {
    let area = area(rt, gas, x, y, w, h);
    match piece {
        Piece::Particles => {
            let count = gas.fill_particles(area).injected.count;
            expect_same(&rt, count, i64::from(w.wrapping_mul(h)));
        }
        Piece::Wall => gas.add_walls(area),
        Piece::Obstacle => gas.add_obstacles(area),
        Piece::Drain => {
            expect_that(&rt, !gas.ports().has_all(&Port::Drain(area)));
            gas.add_port(Port::Drain(area));
        }
        Piece::Source(period) => {
            assert!(rt; 1 <= period);
            expect_that(&rt, !gas.ports().has_all(&Port::Source(area, period)));
            gas.add_port(Port::Source(area, period));
        }
    }
}

pub fn step_on(rt: &impl Abort, gas: &mut Gas, n: u16) -> Flow {
    expect_that(&rt, gas.tick().ahead(n).is_some());
    gas.step_on(n, &mut Serial)
}

/// A rectangle, and what it is for.
pub type Placed = (Piece, u32, u32, u32, u32);

pub fn add_all(rt: &impl Abort, gas: &mut Gas, pieces: &[Placed]) {
    for (piece, x, y, w, h) in pieces {
        add(rt, gas, *piece, *x, *y, *w, *h);
    }
}

/// Runs a gas with these pieces for n phases. It then has these cells, so many in all.
pub fn run(
    rt: &(impl Abort + AllocGlobal),
    number: i64,
    pieces: &[Placed],
    n: u16,
    cells: &[(u32, u32, bool)],
    count: i64,
) -> Flow {
    let mut gas = gas_at(rt, number);
    add_all(rt, &mut gas, pieces);
    let flow = step_on(rt, &mut gas, n);
    let end = number.wrapping_add(i64::from(n));
    expect_stepped(rt, &gas, end, cells, count);
    flow
}

fn expect_stepped(rt: &impl Abort, gas: &Gas, end: i64, cells: &[(u32, u32, bool)], count: i64) {
    expect_cells(rt, gas.particles(), cells);
    let all = tally(gas.particles(), gas.tick());
    expect_same(&rt, (gas.tick().get(), all.count), (end, count));
}
