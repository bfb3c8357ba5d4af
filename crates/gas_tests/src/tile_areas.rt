//! Worked examples of the tiles that a rectangle meets, and of its part in each, with values found by hand.

use crate::expected::{expect_same, expect_that};
use gas_plane::{Tile, is_apart, is_covered, part_of, set_part, tiles_met};
use gas_terms::{Rect, Size};
use std::process::Abort;

// The first row and the number of cells of the rectangle's part in the tile from (left, top) on.
fn part(area: Rect, left: u32, top: u32) -> (u64, u32) {
    match part_of(area, left, top) {
        Some(part) => (part.row(0), part.count()),
        None => (0, 0),
    }
}

#[test]
fn a_span_meets_tiles(rt: HostRuntime) {
    expect_same(&rt, tiles_met(60, 70, 3), (0, 3));
    expect_same(&rt, tiles_met(64, 64, 2), (1, 2));
    // No tile after the last one.
    expect_same(&rt, tiles_met(60, 70, 2), (0, 2));
}

#[test]
fn a_rectangle_has_a_part_in_each_tile(rt: HostRuntime) {
    let size = Size::new(192, 128).expect(&rt, "a size");
    // Columns 60 to 129, rows 64 to 127.
    let area = Rect::within(size, 60, 64, 70, 64).expect(&rt, "a rectangle");
    expect_same(&rt, part(area, 0, 64), (0xf000_0000_0000_0000, 4 * 64));
    expect_same(&rt, part(area, 64, 64), (u64::MAX, 64 * 64));
    expect_same(&rt, part(area, 128, 64), (3, 2 * 64));
    expect_same(&rt, part(area, 64, 0), (0, 0));
    expect_that(&rt, is_apart(area, 64, 0) && !is_apart(area, 128, 64));
    expect_that(&rt, is_covered(area, 64, 64));
    expect_that(&rt, !is_covered(area, 0, 64));
    expect_that(&rt, !is_covered(area, 64, 0));
}

#[test]
fn a_part_of_a_tile_is_filled_and_emptied(rt: HostRuntime) {
    let size = Size::new(192, 128).expect(&rt, "a size");
    let area = Rect::within(size, 60, 64, 70, 64).expect(&rt, "a rectangle");
    // Columns 0 and 1 of the third tile, of which column 1 was filled.
    let mut tile = Tile::rect(1, 0, 1, 64);
    let filled = set_part(&mut tile, area, 128, 64, true);
    expect_same(&rt, filled.as_slice(), [32, 0, 32, 0].as_slice());
    let emptied = set_part(&mut tile, area, 128, 64, false);
    expect_same(&rt, emptied.as_slice(), [32, 32, 32, 32].as_slice());
    expect_that(&rt, tile.is_empty());
}
