//! Worked examples of tiles, with values found by hand.

use crate::expected::{expect_same, expect_that};
use crate::lattices::same_cells;
use bit_tile::{Tile, counts_in_row, span};
use std::process::Abort;

fn holds(tile: &Tile, x: u32, y: u32) -> bool {
    x < 64 && y < 64 && tile.get(x, y)
}

fn expect_cells(rt: &impl Abort, tile: &Tile, cells: &[(u32, u32, bool)]) {
    for (x, y, held) in cells {
        expect_same(&rt, (*x, *y, holds(tile, *x, *y)), (*x, *y, *held));
    }
}

#[test]
fn cells_are_put_in_and_taken_out(rt: HostRuntime) {
    let mut tile = Tile::empty();
    expect_same(&rt, tile.count(), 0);
    tile.set(3, 5, true);
    tile.set(63, 63, true);
    tile.set(63, 63, true);
    expect_that(&rt, tile.get(3, 5));
    expect_that(&rt, tile.get(63, 63));
    expect_that(&rt, !tile.get(5, 3));
    expect_that(&rt, !tile.get(4, 5));
    expect_that(&rt, !tile.get(3, 4));
    expect_same(&rt, tile.count(), 2);
    tile.set(3, 5, false);
    tile.set(0, 0, false);
    expect_that(&rt, !tile.get(3, 5));
    expect_that(&rt, tile.get(63, 63));
    expect_same(&rt, tile.count(), 1);
}

#[test]
fn rectangles_end_at_their_edges(rt: HostRuntime) {
    // Columns 62 and 63, rows 1 to 3.
    let mask = Tile::rect(62, 1, 2, 3);
    let cells = [
        (62, 1, true),
        (63, 1, true),
        (62, 3, true),
        (63, 3, true),
        (61, 1, false),
        (62, 0, false),
        (63, 4, false),
        (0, 2, false),
    ];
    expect_cells(&rt, &mask, &cells);
    expect_same(&rt, mask.count(), 6);
    // By columns and rows: even and even, odd and even, even and odd, odd and odd.
    expect_same(
        &rt,
        mask.count_by_parity().as_slice(),
        [1, 1, 2, 2].as_slice(),
    );

    let all = Tile::rect(0, 0, 64, 64);
    expect_same(&rt, all.count(), 4096);
    expect_same(&rt, all.count_by_parity().as_slice(), [1024; 4].as_slice());
    expect_same(&rt, Tile::rect(64, 64, 0, 0).count(), 0);
    // Columns 4 to 9: the even ones are 4, 6 and 8, bits 2 to 4 of a class's word.
    expect_same(&rt, span(2, 5), 0b1_1100);
    expect_same(&rt, span(0, 32), u32::MAX);
    expect_same(&rt, span(7, 7), 0);
    expect_same(&rt, Tile::rect(5, 5, 0, 9).count(), 0);
}

#[test]
fn rectangles_are_filled_and_emptied(rt: HostRuntime) {
    // Two squares of 16 cells, 4 of each class, that have one cell of each class in common.
    let mut tile = Tile::empty();
    let filled = tile.set_rect(0, 0, 4, 4, true);
    expect_same(&rt, filled.as_slice(), [4, 4, 4, 4].as_slice());
    let more = tile.set_rect(2, 2, 4, 4, true);
    expect_same(&rt, more.as_slice(), [3, 3, 3, 3].as_slice());
    expect_same(&rt, tile.count(), 28);

    // Column 0 has cells in rows 0 to 3.
    let emptied = tile.set_rect(0, 0, 1, 64, false);
    expect_same(&rt, emptied.as_slice(), [2, 0, 2, 0].as_slice());
    let cells = [(0, 0, false), (1, 3, true), (5, 5, true), (0, 3, false)];
    expect_cells(&rt, &tile, &cells);
}

#[test]
fn tiles_are_joined_cut_and_met(rt: HostRuntime) {
    // Two squares of 16 cells that have the 4 cells (2, 2), (3, 2), (2, 3) and (3, 3) in common.
    let some = Tile::rect(0, 0, 4, 4);
    let others = Tile::rect(2, 2, 4, 4);
    let both = some.meet(&others);
    expect_same(&rt, both.count(), 4);
    expect_cells(&rt, &both, &[(2, 3, true), (1, 3, false), (4, 3, false)]);
    expect_same(
        &rt,
        both.count_by_parity().as_slice(),
        [1, 1, 1, 1].as_slice(),
    );

    let mut joined = some;
    joined.join(&others);
    expect_same(&rt, joined.count(), 28);
    expect_cells(&rt, &joined, &[(0, 0, true), (5, 5, true), (5, 0, false)]);

    let mut cut = some;
    cut.cut(&others);
    expect_same(&rt, cut.count(), 12);
    let cells = [(0, 0, true), (1, 3, true), (2, 2, false), (5, 5, false)];
    expect_cells(&rt, &cut, &cells);
}

#[test]
fn knows_whether_it_is_empty(rt: HostRuntime) {
    expect_that(&rt, Tile::empty().is_empty());
    for (x, y) in [(0, 0), (63, 0), (5, 31), (0, 63), (63, 63)] {
        let mut tile = Tile::empty();
        tile.set(x, y, true);
        expect_same(&rt, (x, y, tile.is_empty()), (x, y, false));
        tile.set(x, y, false);
        expect_same(&rt, (x, y, tile.is_empty()), (x, y, true));
    }
}

#[test]
fn rows_are_words(rt: HostRuntime) {
    let mut tile = Tile::rect(62, 1, 2, 3);
    expect_same(&rt, tile.row(0), 0);
    expect_same(&rt, tile.row(1), 0xc000_0000_0000_0000);
    // Columns 0, 2 and 63.
    tile.set_row(1, 0x8000_0000_0000_0005);
    expect_that(&rt, tile.get(0, 1));
    expect_that(&rt, tile.get(2, 1));
    expect_that(&rt, tile.get(63, 1));
    expect_that(&rt, !tile.get(1, 1));
    expect_that(&rt, !tile.get(62, 1));
    expect_that(&rt, tile.get(62, 2));
    expect_same(&rt, tile.row(1), 0x8000_0000_0000_0005);
    expect_same(&rt, tile.count(), 7);
    tile.set_row(63, 1);
    expect_that(&rt, tile.get(0, 63));
    expect_that(&rt, !tile.get(63, 63));
    expect_that(&rt, !tile.get(0, 62));
}

#[test]
fn rows_are_put_and_read_back(rt: HostRuntime) {
    // The ends, even and odd columns, two of every four, and the columns from 32 on: two that are there and two that are not.
    let rows = [
        (0x8000_0000_0000_0001, [0, 63], [1, 62], 2),
        (0x5555_5555_5555_5555, [0, 62], [1, 63], 32),
        (0xaaaa_aaaa_aaaa_aaaa, [1, 63], [0, 62], 32),
        (0x3333_3333_3333_3333, [1, 32], [2, 31], 32),
        (0xffff_ffff_0000_0000, [32, 63], [0, 31], 32),
    ];
    for y in [0usize, 1, 30, 31, 62, 63] {
        let mut tile = Tile::full();
        let at = y as u32;
        for (row, [some, another], [none, nor], count) in rows {
            tile.set_row(y, row);
            expect_same(&rt, (y, tile.row(y), tile.count()), (y, row, 4032 + count));
            let cells = [
                (some, at, true),
                (another, at, true),
                (none, at, false),
                (nor, at, false),
            ];
            expect_cells(&rt, &tile, &cells);
        }
    }
}

#[test]
fn cells_are_kept_by_class(rt: HostRuntime) {
    // Column 5 of row 8: column 2 of row 4 of the odd columns of the even rows.
    let mut tile = Tile::empty();
    tile.set(5, 8, true);
    expect_same(&rt, tile.odd_even[4], 4);
    // Columns 2 and 5 of row 9.
    tile.set_row(9, 0x24);
    expect_same(&rt, tile.even_odd[4], 2);
    expect_same(&rt, tile.odd_odd[4], 4);
    // By columns and rows: even and even, odd and even, even and odd, odd and odd.
    expect_same(
        &rt,
        tile.count_by_parity().as_slice(),
        [0, 1, 1, 1].as_slice(),
    );
}

#[test]
fn cells_of_a_row_are_counted_by_class(rt: HostRuntime) {
    // Columns 0, 2 and 62, and column 63.
    let row = 0xc000_0000_0000_0005;
    // By columns and rows: even and even, odd and even, even and odd, odd and odd.
    let rows = [
        (row, 8, [3, 1, 0, 0]),
        (row, 9, [0, 0, 3, 1]),
        (u64::MAX, 4094, [32, 32, 0, 0]),
        (0, 1, [0; 4]),
    ];
    for (word, y, counts) in rows {
        expect_same(&rt, (y, counts_in_row(word, y)), (y, counts));
    }
}

#[test]
fn whole_and_empty_tiles(rt: HostRuntime) {
    expect_same(&rt, Tile::full().count(), 4096);
    expect_same(&rt, Tile::empty().count(), 0);
    expect_that(&rt, same_cells(&Tile::full(), &Tile::rect(0, 0, 64, 64)));
    for (x, y) in [(0, 0), (63, 0), (5, 31), (0, 63), (63, 63)] {
        let mut tile = Tile::full();
        tile.set(x, y, false);
        let is_full = same_cells(&tile, &Tile::full());
        expect_same(&rt, (x, y, is_full), (x, y, false));
    }
}
