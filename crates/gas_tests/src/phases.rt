//! Worked examples of phases, on one thread and by teams, with values found by hand.

ghost use Rattle.std.specs.Prelude.{◌≡◌, ◌<◌, true};
ghost use Rattle.gas_terms.specs.Cells.{Extent, extent, lies_within, is_inside};

use crate::expected::{expect_same, expect_that};
use crate::gases::{pair, took};
use crate::lattices::{are_same, fit, plane, scattered, solids};
use crate::steppers::{add_taken, step, team};
use gas_plane::{Plane, Tile};
use gas_terms::{Pair, Rect, Size, Took};
use phase_step::{Serial, Solids};
use phase_team::NoGate;
use single_phase::turn_tile_at;
use std::process::Abort;
use std::thread::Threads;
use std::time::Clock;

const WIDE: u32 = 192;

const HIGH: u32 = 128;

// A phase on one thread. Teams of 1, 2 and 7 workers make the same of it, whatever was there before.
fn phase<R: Threads + Clock + Abort + AllocGlobal + Copy + Drop>(
    rt: &R,
    old: &Plane,
    walls: &Plane,
    obstacles: &Plane,
    parity: u8,
    out: &mut Plane,
) -> Took {
    let (width, height) = (old.size().width() as u32, old.size().height() as u32);
    let took = step(rt, &mut Serial, old, walls, obstacles, parity, out);
    for workers in [1, 2, 7] {
        let mut team = team(rt, *rt, rt.alloc(), workers, NoGate);
        let mut by_team = plane(rt, width, height, &[(63, 63), (5, 5)]);
        let by_all = step(rt, &mut team, old, walls, obstacles, parity, &mut by_team);
        expect_that(rt, by_all == took && are_same(&by_team, out, width, height));
    }
    took
}

// A phase leaves these cells, whatever was there before, and walls and obstacles take this. Gives the particles.
fn comes_to<R: Threads + Clock + Abort + AllocGlobal + Copy + Drop>(
    rt: &R,
    old: &Plane,
    walls: &Plane,
    obstacles: &Plane,
    parity: u8,
    cells: &[(u32, u32)],
    taken: Took,
) -> Plane {
    let (width, height) = (old.size().width() as u32, old.size().height() as u32);
    let mut out = plane(rt, width, height, &[(63, 63), (5, 5)]);
    let found = phase(rt, old, walls, obstacles, parity, &mut out);
    let want = plane(rt, width, height, cells);
    expect_that(rt, are_same(&out, &want, width, height));
    expect_same(rt, found, taken);
    out
}

// The first tile alone, at an odd tick.
fn first_tile(
    rt: &impl Abort,
    old: &Plane,
    walls: &Plane,
    obstacles: &Plane,
    out: &mut gas_plane::Tile,
) -> Took {
    let size = old.size();
    expect_that(&rt, walls.size() == size);
    expect_that(&rt, obstacles.size() == size);
    expect_that(&rt, size.tiles() > 0);
    turn_tile_at(old, walls, obstacles, 1, old.position(0), out)
}

#[test]
fn head_on_pair_across_tiles(rt: HostRuntime) {
    let old = plane(&rt, 128, 128, &[(63, 63), (64, 64)]);
    let none = plane(&rt, 128, 128, &[]);
    let turned = [(64, 63), (63, 64)];
    comes_to(&rt, &old, &none, &none, 1, &turned, Took::ZERO);
}

// At an odd tick a particle at (63, 63) goes to the right and down. A wall at (64, 64) holds it back.
#[test]
fn wall_that_was_cleared_holds_nothing_back(rt: HostRuntime) {
    let old = plane(&rt, 128, 128, &[(63, 63)]);
    let none = plane(&rt, 128, 128, &[]);
    let mut walls = plane(&rt, 128, 128, &[(64, 64)]);
    let back = took(pair(2, 2), Pair::ZERO);
    comes_to(&rt, &old, &walls, &none, 1, &[(63, 63)], back);
    walls.clear(Rect::within(walls.size(), 64, 64, 1, 1).expect(&rt, "a cell"));
    comes_to(&rt, &old, &walls, &none, 1, &[(64, 64)], Took::ZERO);
}

// Which blocks of a tile are named, by three words of it: for even parity, and for odd parity those that begin in it and end in it.
fn named(solids: &Solids, tile: u32, row: usize) -> (u32, u32, u32) {
    if tile >= solids.walls.size().tiles() || row >= 32 {
        return (0, 0, 0);
    }
    match solids.walled_in(tile) {
        Some(set) => {
            let blocks = set.blocks;
            (blocks.even[row], blocks.odd.begin[row], blocks.odd.end[row])
        }
        None => (0, 0, 0),
    }
}

// At even ticks the wall at (0, 0) is in the block of (0, 0) to (1, 1), at odd ones in that of (127, 127), across the seam. The one
// at (21, 20) is in those of (20, 20) and of (21, 19). Bit i of a word is columns 2i and 2i + 1, or for blocks that begin at odd
// columns 2i + 1 and 2i + 2.
#[test]
fn words_name_the_blocks_of_walls(rt: HostRuntime) {
    let cells = plane(&rt, 128, 128, &[(0, 0), (21, 20)]);
    let none = plane(&rt, 128, 128, &[]);
    fit(&rt, &cells, &cells, &none, &cells);
    let mut walls = solids(&rt, &cells, &none);
    expect_that(&rt, !walls.are_none());
    expect_that(&rt, named(&walls, 0, 0) == (1, 0, 1));
    expect_that(&rt, named(&walls, 0, 10) == (1024, 1024, 2048));
    expect_that(&rt, named(&walls, 0, 11) == (0, 0, 0));
    expect_that(&rt, named(&walls, 1, 0) == (0, 2147483648, 0));
    expect_that(&rt, named(&walls, 3, 0) == (0, 0, 0));
    // Without the first they are those of the second, and with a wall or an obstacle there again as before.
    let size = cells.size();
    let first = Rect::within(size, 0, 0, 1, 1).expect(&rt, "a cell");
    expect_that(&rt, first.fits(size));
    walls.remove(first);
    expect_that(&rt, !walls.are_none());
    expect_that(&rt, named(&walls, 0, 0) == (0, 0, 0));
    expect_that(&rt, named(&walls, 0, 10) == (1024, 1024, 2048));
    expect_that(&rt, named(&walls, 1, 0) == (0, 0, 0));
    walls.add_walls(first);
    expect_that(&rt, named(&walls, 0, 0) == (1, 0, 1));
    expect_that(&rt, named(&walls, 1, 0) == (0, 2147483648, 0));
    walls.remove(first);
    walls.add_obstacles(first);
    expect_that(&rt, named(&walls, 0, 0) == (1, 0, 1));
    expect_that(&rt, named(&walls, 0, 10) == (1024, 1024, 2048));
    expect_that(&rt, named(&walls, 1, 0) == (0, 2147483648, 0));
    // Without both there are none again.
    let all = Rect::within(size, 0, 0, 128, 128).expect(&rt, "the lattice");
    expect_that(&rt, all.fits(size));
    walls.remove(all);
    expect_that(&rt, walls.are_none());
}

#[test]
fn wall_across_tiles_books_once(rt: HostRuntime) {
    let nothing = Pair::ZERO;
    // At an odd tick a particle at (63, 63) goes to the right and down.
    let twice = Pair { x: 2, y: 2 };
    let old = plane(&rt, 128, 128, &[(63, 63)]);
    let none = plane(&rt, 128, 128, &[]);
    let corner = plane(&rt, 128, 128, &[(64, 64)]);
    let beside = plane(&rt, 128, 128, &[(64, 63)]);
    for (walls, obstacles, by_walls, by_obstacles) in [
        (&corner, &none, twice, nothing),
        (&none, &corner, nothing, twice),
        (&beside, &corner, nothing, twice),
        (&corner, &beside, nothing, twice),
    ] {
        let taken = took(by_walls, by_obstacles);
        comes_to(&rt, &old, walls, obstacles, 1, &[(63, 63)], taken);
    }
}

#[test]
fn first_tile_by_itself(rt: HostRuntime) {
    let nothing = Pair::ZERO;
    // At an odd tick a particle at (63, 63) goes to the right and down.
    let twice = Pair { x: 2, y: 2 };
    let old = plane(&rt, 128, 128, &[(63, 63)]);
    let none = plane(&rt, 128, 128, &[]);
    let corner = plane(&rt, 128, 128, &[(64, 64)]);
    let apart = plane(&rt, 128, 128, &[(5, 5)]);
    for (walls, by_walls, stays) in [(&corner, twice, true), (&apart, nothing, false)] {
        let mut out = gas_plane::Tile::rect(0, 0, 64, 64);
        let took = first_tile(&rt, &old, walls, &none, &mut out);
        expect_that(&rt, out.get(63, 63) == stays);
        expect_that(&rt, !out.get(5, 5));
        expect_that(&rt, took.walls == by_walls);
        expect_that(&rt, took.obstacles == nothing);
    }
}

#[test]
fn wall_in_a_tile_at_an_even_tick(rt: HostRuntime) {
    // (63, 62) goes to the left and down, and meets the wall of its block at (62, 63).
    let old = plane(&rt, 128, 64, &[(63, 62), (10, 10)]);
    let none = plane(&rt, 128, 64, &[]);
    let walls = plane(&rt, 128, 64, &[(62, 63)]);
    let back = took(pair(-2, 2), Pair::ZERO);
    comes_to(&rt, &old, &walls, &none, 0, &[(63, 62), (11, 11)], back);
}

#[test]
fn wall_in_the_last_row_holds_in_the_tile_below(rt: HostRuntime) {
    // At an odd tick (10, 64) goes to the left and up, into the block of the wall in the last row of the tile above.
    let old = plane(&rt, 128, 128, &[(10, 64), (12, 64)]);
    let none = plane(&rt, 128, 128, &[]);
    let nothing = Pair::ZERO;
    let back = Pair { x: -2, y: -2 };
    let edge = plane(&rt, 128, 128, &[(9, 63)]);
    for (walls, obstacles, by_walls, by_obstacles) in [
        (&edge, &none, back, nothing),
        (&none, &edge, nothing, back),
    ] {
        let (cells, taken) = ([(10, 64), (11, 63)], took(by_walls, by_obstacles));
        comes_to(&rt, &old, walls, obstacles, 1, &cells, taken);
    }
}

// Where a particle at place k goes in its block, round a circle of 128 places.
fn across(k: u32, parity: u8) -> u32 {
    if k % 2 == u32::from(parity) {
        k.wrapping_add(1) % 128
    } else {
        k.wrapping_add(127) % 128
    }
}

// What it gives if it is turned back.
fn given(k: u32, parity: u8) -> i64 {
    if k % 2 == u32::from(parity) { 2 } else { -2 }
}

#[test]
fn one_wall_in_each_row(rt: HostRuntime) {
    let none = plane(&rt, 128, 128, &[]);
    for parity in 0..2u8 {
        for y in 0..64u32 {
            let walls = plane(&rt, 128, 128, &[(5, y)]);
            let old = plane(&rt, 128, 128, &[(5, y), (41, y)]);
            let free = (across(41, parity), across(y, parity));
            let back = took(pair(given(5, parity), given(y, parity)), Pair::ZERO);
            comes_to(&rt, &old, &walls, &none, parity, &[(5, y), free], back);
        }
    }
}

// A particle in each of the four corners steps over the seams to the corner across, and back.
fn cross_the_seams<R: Threads + Clock + Abort + AllocGlobal + Copy + Drop>(
    rt: &R,
    width: u32,
    height: u32,
) {
    expect_that(&rt, width > 0);
    expect_that(&rt, height > 0);
    let none = plane(rt, width, height, &[]);
    let (right, bottom) = (width - 1, height - 1);
    for (from, to) in [
        ((right, bottom), (0, 0)),
        ((0, bottom), (right, 0)),
        ((right, 0), (0, bottom)),
        ((0, 0), (right, bottom)),
    ] {
        let old = plane(rt, width, height, &[from]);
        let out = comes_to(rt, &old, &none, &none, 1, &[to], Took::ZERO);
        comes_to(rt, &out, &none, &none, 1, &[from], Took::ZERO);
    }
}

#[test]
fn steps_over_the_seam_and_back(rt: HostRuntime) {
    for (width, height) in [(128, 64), (4096, 64), (64, 4096)] {
        cross_the_seams(&rt, width, height);
    }
}

#[test]
fn fifty_steps_and_back(rt: HostRuntime) {
    let start = scattered(&rt, WIDE, HIGH, 1, 3);
    let walls = scattered(&rt, WIDE, HIGH, 2, 400);
    let obstacles = scattered(&rt, WIDE, HIGH, 3, 700);
    let mut now = scattered(&rt, WIDE, HIGH, 1, 3);
    let mut next = scattered(&rt, WIDE, HIGH, 4, 2);
    let mut taken = Took::ZERO;
    for t in 0..50u8 {
        let took = phase(&rt, &now, &walls, &obstacles, t % 2, &mut next);
        add_taken(&mut taken, took);
        std::mem::swap(&mut now, &mut next);
    }
    expect_that(&rt, !are_same(&now, &start, WIDE, HIGH));
    let mut taken_back = Took::ZERO;
    for t in (0..50u8).rev() {
        let took = phase(&rt, &now, &walls, &obstacles, t % 2, &mut next);
        add_taken(&mut taken_back, took);
        std::mem::swap(&mut now, &mut next);
    }
    expect_that(&rt, are_same(&now, &start, WIDE, HIGH));
    expect_same(&rt, taken, taken_back);
}
