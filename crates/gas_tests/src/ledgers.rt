//! Worked examples of gases, ports and sums, with values found by hand.

use crate::expected::{expect_same, expect_that};
use crate::gases::{Piece, add, add_all, area, gas_at, moves, run, step_on, sums, tick};
use crate::lattices::expect_cells;
use gas_ledger::{Full, Gas, Port, Ports, Sums, apply_ports, probe, tally};
use gas_plane::Plane;
use gas_terms::{Moved, Rect, Size};
use std::process::Abort;

// How many drains and sources there are, and the column and period of the first source.
fn kinds(ports: &Ports) -> (usize, usize, Option<(u16, u16)>) {
    let first = ports.sources().first().copied();
    (
        ports.drains().len(),
        ports.sources().len(),
        first.map(|s| (s.area.x(), s.period)),
    )
}

#[test]
fn seventeen_drains(rt: HostRuntime) {
    let size = Size::new(64, 64).expect(&rt, "a size");
    let area = Rect::within(size, 3, 4, 5, 6).expect(&rt, "a rectangle");
    let mut ports = Ports::none();
    expect_that(&rt, !ports.any());
    for k in 0..16 {
        expect_same(&rt, (k, ports.add(Port::Drain(area))), (k, Ok(())));
    }
    expect_same(&rt, ports.add(Port::Drain(area)), Err(Full));
    expect_same(&rt, ports.add(Port::Source(area, 1)), Ok(()));
    expect_that(&rt, ports.any());
    expect_same(&rt, kinds(&ports), (16, 1, Some((3, 1))));
    ports.clear();
    expect_that(&rt, !ports.any());
    expect_same(&rt, ports.add(Port::Drain(area)), Ok(()));
}

// Sixteen sources, in columns 1 to 16 of row 0, and one drain.
fn sixteen_sources(rt: &(impl Abort + AllocGlobal)) -> Gas {
    let mut gas = gas_at(rt, -1);
    for k in 1..17 {
        add(rt, &mut gas, Piece::Source(1), k, 0, 1, 1);
    }
    add(rt, &mut gas, Piece::Drain, 0, 0, 1, 1);
    gas
}

#[test]
fn seventeen_sources(rt: HostRuntime) {
    let mut gas = sixteen_sources(&rt);
    let area = area(&rt, &gas, 0, 0, 1, 1);
    expect_that(&rt, gas.ports().has_all(&Port::Source(area, 1)));
    expect_same(&rt, kinds(gas.ports()), (1, 16, Some((1, 1))));
    let moved = step_on(&rt, &mut gas, 1).moved;
    expect_same(&rt, moved.injected, sums(16, 0, 16));
    gas.remove_ports();
    expect_that(&rt, !gas.ports().any());
}

#[test]
fn full_says_which(rt: HostRuntime) {
    let text = format!(in rt.alloc(); "{Full}").expect(&rt, "memory");
    expect_same(
        &rt,
        text.as_str(),
        "there are 16 ports of that kind already",
    );
}

// A source of this period acts in the step from this tick on, or does nothing.
fn acts_after(rt: &(impl Abort + AllocGlobal), number: i64, period: u16, is_due: bool) {
    let count = if is_due { 1 } else { 0 };
    let source = [(Piece::Source(period), 10, 10, 1, 1)];
    let moved = run(rt, number, &source, 1, &[(10, 10, is_due)], count).moved;
    expect_same(
        &rt,
        (moved.injected.count, moved.drained),
        (count, sums(0, 0, 0)),
    );
}

#[test]
fn source_on_its_period(rt: HostRuntime) {
    for (number, period, is_due) in [
        (-1, 2, true),
        (-1, 65535, true),
        (0, 1, true),
        (0, 2, false),
        (1, 2, true),
        (2, 2, false),
        (-2, 2, false),
        (-3, 2, true),
        (-7, 3, true),
        (-8, 3, false),
        (1_099_511_627_775, 2, true),
    ] {
        acts_after(&rt, number, period, is_due);
    }
}

#[test]
fn source_refills_a_drain(rt: HostRuntime) {
    let ports = [(Piece::Source(1), 5, 6, 1, 1), (Piece::Drain, 5, 6, 1, 1)];
    // An empty cell is filled.
    let moved = run(&rt, 2, &ports, 1, &[(5, 6, true)], 1).moved;
    expect_same(&rt, moved, moves(sums(1, 1, -1), sums(0, 0, 0)));
}

#[test]
fn drained_and_refilled_cancels(rt: HostRuntime) {
    let parts = [
        // It goes to (5, 6).
        (Piece::Particles, 4, 7, 1, 1),
        (Piece::Source(1), 5, 6, 1, 1),
        (Piece::Drain, 5, 6, 1, 1),
    ];
    let moved = run(&rt, 2, &parts, 1, &[(5, 6, true)], 1).moved;
    expect_same(&rt, moved, moves(sums(0, 0, 0), sums(0, 0, 0)));
}

#[test]
fn ports_act_on_a_plane(rt: HostRuntime) {
    let size = Size::new(64, 64).expect(&rt, "a size");
    let drained = Rect::within(size, 0, 0, 2, 1).expect(&rt, "a rectangle");
    let filled = Rect::within(size, 1, 0, 2, 1).expect(&rt, "a rectangle");
    let mut ports = Ports::none();
    expect_same(&rt, ports.add(Port::Drain(drained)), Ok(()));
    expect_same(&rt, ports.add(Port::Source(filled, 2)), Ok(()));
    let mut plane = Plane::empty(rt.alloc(), size).expect(&rt, "memory");
    plane.fill(drained);
    // The second cell is drained and filled again.
    let moved = apply_ports(&mut plane, &ports, tick(&rt, 4));
    expect_same(&rt, moved, moves(sums(1, 1, 1), sums(1, 1, 1)));
    expect_cells(&rt, &plane, &[(0, 0, false), (1, 0, true), (2, 0, true)]);
    // The source is not due.
    let moved = apply_ports(&mut plane, &ports, tick(&rt, 5));
    expect_same(&rt, moved, moves(sums(0, 0, 0), sums(1, 1, -1)));
    expect_cells(&rt, &plane, &[(1, 0, false), (2, 0, true)]);
}

// Two drains and two sources, each over an edge of a tile or at the lattice's end. The particles go to (63, 10) and (64, 10), and
// to (99, 127) and (100, 127).
#[test]
fn ports_across_tiles(rt: HostRuntime) {
    let parts = [
        (Piece::Drain, 63, 10, 2, 1),
        (Piece::Drain, 100, 0, 1, 128),
        (Piece::Source(7), 64, 10, 2, 1),
        (Piece::Source(5), 0, 127, 1, 1),
        (Piece::Particles, 63, 9, 2, 1),
        (Piece::Particles, 99, 0, 2, 1),
    ];
    // (63, 10) and (100, 127) are gone, (64, 10) has stayed, (65, 10) and (0, 127) are new.
    let cells = [
        (63, 10, false),
        (64, 10, true),
        (65, 10, true),
        (66, 10, false),
        (0, 127, true),
        (99, 127, true),
        (100, 127, false),
    ];
    let moved = run(&rt, -1, &parts, 1, &cells, 4).moved;
    expect_same(&rt, moved, moves(sums(2, 0, 0), sums(2, 0, 0)));
}

// The sums of the whole gas at a tick, of row 0 and of the tile at (64, 64).
fn sums_are(rt: &impl Abort, gas: &Gas, number: i64, all: Sums, row: Sums, far: Sums) {
    let at = tick(rt, number);
    expect_same(&rt, tally(gas.particles(), at), all);
    let area_of_row = area(rt, gas, 0, 0, 128, 1);
    expect_same(&rt, probe(gas.particles(), area_of_row, at), row);
    let area_of_far = area(rt, gas, 64, 64, 64, 64);
    expect_same(&rt, probe(gas.particles(), area_of_far, at), far);
}

// The cells (0, 0), (1, 0), (0, 1) and (65, 67).
fn four_cells(rt: &(impl Abort + AllocGlobal)) -> Gas {
    let mut gas = gas_at(rt, 0);
    let cells = [
        (Piece::Particles, 0, 0, 2, 1),
        (Piece::Particles, 0, 1, 1, 1),
        (Piece::Particles, 65, 67, 1, 1),
    ];
    add_all(rt, &mut gas, &cells);
    gas
}

#[test]
fn probe_and_tally_by_parities(rt: HostRuntime) {
    let mut gas = four_cells(&rt);
    for (number, row, far) in [
        (0, sums(2, 0, 2), sums(1, -1, -1)),
        (-2, sums(2, 0, 2), sums(1, -1, -1)),
        (1, sums(2, 0, -2), sums(1, 1, 1)),
        (-1, sums(2, 0, -2), sums(1, 1, 1)),
    ] {
        sums_are(&rt, &gas, number, sums(4, 0, 0), row, far);
    }
    let last = area(&rt, &gas, 65, 67, 1, 1);
    expect_same(&rt, gas.clear_particles(last).drained.count, 1);
    expect_same(&rt, tally(gas.particles(), tick(&rt, 0)), sums(3, 1, 1));
    expect_same(&rt, tally(gas.particles(), tick(&rt, -7)), sums(3, -1, -1));
}

// What comes in and goes out if the first so many cells of row 0 are filled.
fn put(rt: &impl Abort, gas: &mut Gas, w: u32) -> Moved {
    let cells = area(rt, gas, 0, 0, w, 1);
    gas.fill_particles(cells)
}

#[test]
fn full_cells_are_not_injected(rt: HostRuntime) {
    let mut gas = gas_at(&rt, 0);
    let nothing = sums(0, 0, 0);
    for (w, injected) in [(1, sums(1, 1, 1)), (1, nothing), (2, sums(1, -1, 1))] {
        expect_same(&rt, put(&rt, &mut gas, w), moves(injected, nothing));
    }
    let all = area(&rt, &gas, 0, 0, 2, 2);
    let out = gas.clear_particles(all);
    expect_same(&rt, out, moves(nothing, sums(2, 0, 2)));
}

// What comes in and goes out if row 0 becomes one with these first and eighth bytes.
fn replace_row_0(rt: &impl Abort, gas: &mut Gas, first: u8, eighth: u8) -> Moved {
    let row = [first, 0, 0, 0, 0, 0, 0, eighth, 0, 0, 0, 0, 0, 0, 0, 0];
    expect_that(&rt, gas.size().width() == 128);
    expect_that(&rt, gas.size().height() == 128);
    gas.replace_row(0, &row)
}

#[test]
fn rows_are_replaced(rt: HostRuntime) {
    let mut gas = gas_at(&rt, 0);
    // (0, 0) and (63, 0).
    let moved = replace_row_0(&rt, &mut gas, 0x80, 0x01);
    expect_same(&rt, moved, moves(sums(2, 0, 2), sums(0, 0, 0)));
    // (1, 0) comes in and (63, 0) goes out.
    let moved = replace_row_0(&rt, &mut gas, 0xc0, 0x00);
    expect_same(&rt, moved, moves(sums(1, -1, 1), sums(1, -1, 1)));
    let cells = [(0, 0, true), (1, 0, true), (63, 0, false)];
    expect_cells(&rt, gas.particles(), &cells);
}

fn expect_solids(
    rt: &impl Abort,
    gas: &Gas,
    walls: &[(u32, u32, bool)],
    obstacles: &[(u32, u32, bool)],
) {
    expect_cells(rt, gas.walls(), walls);
    expect_cells(rt, gas.obstacles(), obstacles);
}

#[test]
fn wall_removed_again(rt: HostRuntime) {
    let mut gas = gas_at(&rt, 0);
    let both = [(Piece::Wall, 1, 1, 3, 1), (Piece::Obstacle, 1, 1, 3, 1)];
    add_all(&rt, &mut gas, &both);
    expect_solids(&rt, &gas, &[(1, 1, true), (1, 2, false)], &[(3, 1, true)]);
    let part = area(&rt, &gas, 1, 1, 2, 2);
    gas.remove_walls_and_obstacles(part);
    let walls = [(1, 1, false), (3, 1, true)];
    let obstacles = [(2, 1, false), (3, 1, true)];
    expect_solids(&rt, &gas, &walls, &obstacles);
}

// A gas with a particle, a wall, an obstacle and a source.
fn fill_in(rt: &impl Abort, gas: &mut Gas) {
    let parts = [
        (Piece::Particles, 2, 3, 1, 1),
        (Piece::Wall, 4, 5, 1, 1),
        (Piece::Obstacle, 6, 70, 1, 1),
        (Piece::Source(10), 8, 9, 1, 1),
    ];
    add_all(rt, gas, &parts);
}

fn expect_filled_in(rt: &impl Abort, gas: &Gas) {
    expect_cells(rt, gas.particles(), &[(2, 3, true)]);
    expect_cells(rt, gas.walls(), &[(4, 5, true)]);
    expect_cells(rt, gas.obstacles(), &[(6, 70, true)]);
    expect_same(&rt, gas.ports().sources().len(), 1);
}

fn expect_copied(rt: &impl Abort, copy: &Gas, gas: &Gas) {
    expect_that(&rt, copy.size() == gas.size());
    expect_that(&rt, copy.tick().get() == 0);
    expect_same(&rt, tally(copy.particles(), copy.tick()), sums(1, 1, -1));
    expect_filled_in(rt, copy);
    expect_same(&rt, copy.ports().sources(), gas.ports().sources());
}

// Passes too if any one of its allocations is refused.
#[test]
fn refused_memory_leaves_the_gas(rt: HostRuntime) {
    let size = Size::new(64, 128).expect(&rt, "a size");
    let Ok(mut gas) = Gas::empty(rt.alloc(), size) else {
        return;
    };
    expect_that(&rt, gas.size() == size);
    fill_in(&rt, &mut gas);
    if let Ok(copy) = gas.copy(rt.alloc()) {
        expect_copied(&rt, &copy, &gas);
    }
    expect_filled_in(&rt, &gas);
}
