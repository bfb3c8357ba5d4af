//! Worked examples of borders, with values found by hand.

use crate::expected::{expect_same, expect_that};
use bit_tile::Tile;
use std::process::Abort;
use tile_border::{Border, Round};

/// A side of a tile. Along it, -1 and 64 are the corners.
#[derive(Clone, Copy)]
pub enum Side {
    Above,
    Below,
    Left,
    Right,
}

fn cell_at(rt: &impl Abort, border: &Border, side: Side, k: i32) -> bool {
    expect_that(&rt, -1 <= k);
    expect_that(&rt, k <= 64);
    match side {
        Side::Above => border.cell(k, -1),
        Side::Below => border.cell(k, 64),
        Side::Left => border.cell(-1, k),
        Side::Right => border.cell(64, k),
    }
}

/// Stops a test if one of these cells of a border is not full or empty as told.
pub fn expect_ring(rt: &impl Abort, border: &Border, cells: &[(Side, i32, bool)]) {
    for (side, k, held) in cells {
        expect_same(&rt, (*k, cell_at(rt, border, *side, *k)), (*k, *held));
    }
}

#[test]
fn the_ring_is_what_the_neighbors_touch(rt: HostRuntime) {
    let mut above = Tile::empty();
    let mut below = Tile::empty();
    let mut left = Tile::empty();
    let mut right = Tile::empty();
    above.set(5, 63, true);
    above.set(9, 0, true);
    below.set(6, 0, true);
    below.set(10, 63, true);
    left.set(63, 7, true);
    left.set(0, 11, true);
    right.set(0, 8, true);
    right.set(63, 12, true);
    let none = Tile::empty();
    let border = Border::of(&above, &below, &left, &right, &none, &none, &none, &none);

    let cells = [
        (Side::Above, 5, true),
        (Side::Below, 6, true),
        (Side::Left, 7, true),
        (Side::Right, 8, true),
        // Each of these on the other side.
        (Side::Below, 5, false),
        (Side::Above, 6, false),
        (Side::Right, 7, false),
        (Side::Left, 8, false),
        // Cells that do not touch the tile.
        (Side::Above, 9, false),
        (Side::Below, 10, false),
        (Side::Left, 11, false),
        (Side::Right, 12, false),
    ];
    expect_ring(&rt, &border, &cells);
}

// The neighbors' cells that touch the tile's corners.
#[test]
fn each_corner_is_a_corner_of_its_tile(rt: HostRuntime) {
    let none = Tile::empty();
    let touching = Border::of(
        &none,
        &none,
        &none,
        &none,
        &Tile::rect(63, 63, 1, 1),
        &Tile::rect(0, 63, 1, 1),
        &Tile::rect(63, 0, 1, 1),
        &Tile::rect(0, 0, 1, 1),
    );
    expect_corners(&rt, &touching, true);
}

// The cells at the corners are full or empty as told, and one beside each is not.
fn expect_corners(rt: &impl Abort, border: &Border, held: bool) {
    let cells = [
        (Side::Above, -1, held),
        (Side::Above, 64, held),
        (Side::Below, -1, held),
        (Side::Below, 64, held),
        (Side::Above, 0, !held),
        (Side::Left, 0, !held),
        (Side::Below, 63, !held),
        (Side::Right, 63, !held),
    ];
    expect_ring(rt, border, &cells);
}

// The neighbors at the sides are full, and those at the corners have cells that do not touch the tile.
#[test]
fn sides_end_at_the_corners(rt: HostRuntime) {
    let all = Tile::rect(0, 0, 64, 64);
    let apart = Border::of(
        &all,
        &all,
        &all,
        &all,
        &Tile::rect(0, 0, 1, 1),
        &Tile::rect(63, 0, 1, 1),
        &Tile::rect(0, 63, 1, 1),
        &Tile::rect(63, 63, 1, 1),
    );
    expect_corners(&rt, &apart, false);
}

#[test]
fn what_stood_in_a_border_is_overwritten(rt: HostRuntime) {
    let none = Tile::empty();
    let all = Tile::rect(0, 0, 64, 64);
    let mut border = Border::of(&all, &all, &all, &all, &all, &all, &all, &all);

    // Each of these touches the tile at one place.
    let above = Tile::rect(5, 63, 1, 1);
    let left = Tile::rect(63, 7, 1, 1);
    let below_right = Tile::rect(0, 0, 1, 1);
    border.surround(&Round {
        above: &above,
        below: &none,
        left: &left,
        right: &none,
        above_left: &none,
        above_right: &none,
        below_left: &none,
        below_right: &below_right,
    });
    let cells = [
        (Side::Above, 5, true),
        (Side::Left, 7, true),
        (Side::Below, 64, true),
        (Side::Below, 5, false),
        (Side::Right, 7, false),
        (Side::Above, -1, false),
        (Side::Above, 6, false),
        (Side::Left, 8, false),
        (Side::Above, 64, false),
    ];
    expect_ring(&rt, &border, &cells);
}

#[test]
fn a_border_has_neighbors(rt: HostRuntime) {
    let none = Tile::empty();
    let above = Tile::rect(5, 60, 2, 4);
    let left = Tile::rect(60, 7, 4, 3);
    let right = Tile::rect(0, 8, 1, 2);
    let below_left = Tile::rect(60, 0, 4, 4);
    let border = Border::of(
        &above,
        &none,
        &left,
        &right,
        &none,
        &none,
        &below_left,
        &none,
    );
    let neighbors = border.neighbors();
    let round = neighbors.round();

    // What touches the tile is there.
    expect_that(&rt, round.above.get(5, 63));
    expect_that(&rt, round.above.get(6, 63));
    expect_that(&rt, round.left.get(63, 7));
    expect_that(&rt, round.left.get(63, 8));
    expect_that(&rt, round.left.get(63, 9));
    expect_that(&rt, round.right.get(0, 8));
    expect_that(&rt, round.right.get(0, 9));
    expect_that(&rt, round.below_left.get(63, 0));
    // And nothing else.
    expect_that(&rt, round.above.count() == 2);
    expect_that(&rt, round.left.count() == 3);
    expect_that(&rt, round.right.count() == 2);
    expect_that(&rt, round.below_left.count() == 1);
    expect_that(&rt, round.below.is_empty());
    expect_that(&rt, round.above_left.is_empty());
    expect_that(&rt, round.above_right.is_empty());
    expect_that(&rt, round.below_right.is_empty());
}

#[test]
fn each_neighbor_has_its_own_cells(rt: HostRuntime) {
    let none = Tile::empty();
    let below = Tile::rect(9, 0, 1, 1);
    let upper_left = Tile::rect(0, 0, 1, 1);
    let lower_left = Tile::rect(0, 63, 1, 1);
    let lower_right = Tile::rect(63, 63, 1, 1);
    let border = Border::of(
        &none,
        &below,
        &none,
        &none,
        &lower_right,
        &lower_left,
        &none,
        &upper_left,
    );
    let neighbors = border.neighbors();
    let round = neighbors.round();
    expect_that(&rt, round.below.get(9, 0));
    expect_that(&rt, round.below.count() == 1);
    expect_that(&rt, round.above_left.get(63, 63));
    expect_that(&rt, round.above_left.count() == 1);
    expect_that(&rt, round.above_right.get(0, 63));
    expect_that(&rt, round.above_right.count() == 1);
    expect_that(&rt, round.below_right.get(0, 0));
    expect_that(&rt, round.below_right.count() == 1);
    expect_that(&rt, round.above.is_empty());
    expect_that(&rt, round.below_left.is_empty());
    expect_that(&rt, round.left.is_empty());
    expect_that(&rt, round.right.is_empty());
}
