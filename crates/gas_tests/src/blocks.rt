//! Worked examples of the block rule, with values found by hand.

use crate::expected::{expect_same, expect_that};
use crate::gases::pair;
use crate::lattices::same_cells;
use bit_tile::Tile;
use block_rule::{
    Beside, Carry, Counted, SetBlocks, TileBlocks, Window, put_bottom, put_first_column, put_top,
    seam_row, taken_among, turn_inner, turn_tile_even, turned_seam,
};
use gas_terms::Took;
use single_phase::{tile_blocks, turn_block, turn_tile, turn_tile_odd};
use std::process::Abort;
use tile_border::{Border, Neighbors};

// The cells in the order upper left, upper right, lower left, lower right: old and new.
const TABLE: [(u8, u8); 16] = [
    (0b0000, 0b0000),
    (0b0001, 0b1000),
    (0b0010, 0b0100),
    (0b0011, 0b1100),
    (0b0100, 0b0010),
    (0b0101, 0b1010),
    (0b0110, 0b1001),
    (0b0111, 0b1110),
    (0b1000, 0b0001),
    (0b1001, 0b0110),
    (0b1010, 0b0101),
    (0b1011, 0b1101),
    (0b1100, 0b0011),
    (0b1101, 0b1011),
    (0b1110, 0b0111),
    (0b1111, 0b1111),
];

fn block(cells: u8) -> [bool; 4] {
    [
        cells & 0b1000 != 0,
        cells & 0b0100 != 0,
        cells & 0b0010 != 0,
        cells & 0b0001 != 0,
    ]
}

#[test]
fn blocks_turn_as_the_table_says(rt: HostRuntime) {
    for (old, new) in TABLE {
        expect_same(&rt, (old, turn_block(block(old), false)), (old, block(new)));
        expect_same(&rt, (old, turn_block(block(old), true)), (old, block(old)));
        expect_same(
            &rt,
            (old, turn_block(turn_block(block(old), false), false)),
            (old, block(old)),
        );
    }
}

fn tile_of(cells: &[(u32, u32)]) -> Tile {
    let mut tile = Tile::empty();
    for (x, y) in cells {
        if *x < 64 && *y < 64 {
            tile.set(*x, *y, true);
        }
    }
    tile
}

// The border of a tile whose neighbors above, to the left, above to the left and below to the right have these cells.
fn border_of(above: &Tile, left: &Tile, above_left: &Tile, below_right: &Tile) -> Border {
    let none = Tile::empty();
    Border::of(
        above,
        &none,
        left,
        &none,
        above_left,
        &none,
        &none,
        below_right,
    )
}

fn no_border() -> Border {
    let none = Tile::empty();
    border_of(&none, &none, &none, &none)
}

fn has_just(tile: &Tile, cells: &[(u32, u32)]) -> bool {
    same_cells(tile, &tile_of(cells))
}

fn window<'a>(tile: &'a Tile, near: &'a Neighbors) -> Window<'a> {
    let round = near.round();
    Window { tile, round }
}

// The blocks that have a cell of a tile without neighbors.
fn blocks_of(cells: &Tile) -> (u32, TileBlocks) {
    let near = no_border().neighbors();
    tile_blocks(&window(cells, &near), SetBlocks::NONE)
}

fn given(named: &(u32, TileBlocks)) -> Option<SetBlocks<'_>> {
    let (rows, blocks) = named;
    Some(SetBlocks {
        rows: *rows,
        blocks,
    })
}

// Those with a cell of the tile, and the others.
fn blocks_with(cells: &Tile, others: &(u32, TileBlocks)) -> (u32, TileBlocks) {
    let near = no_border().neighbors();
    let (rows, blocks) = others;
    let others = SetBlocks {
        rows: *rows,
        blocks,
    };
    tile_blocks(&window(cells, &near), others)
}

// The tile with this border after the rule at an odd tick, without walls.
fn turned_odd(old: &Tile, border: &Border) -> Tile {
    let near = border.neighbors();
    let mut out = Tile::full();
    turn_tile_odd(&window(old, &near), None, &mut out);
    out
}

#[test]
fn particles_cross_their_blocks(rt: HostRuntime) {
    let none = Tile::empty();
    let old = tile_of([(0, 0), (10, 10), (11, 11), (63, 62)].as_slice());
    // A lone particle crosses its block, and a pair that meets head on turns.
    let even = [(1, 1), (11, 10), (10, 11), (62, 63)].as_slice();
    let mut free = old;
    turn_tile_even(&mut free, None);
    expect_that(&rt, has_just(&free, even));
    let mut among_none = old;
    let named = blocks_of(&none);
    let blocks = given(&named);
    let took = taken_among(&old, blocks, blocks, 0, Counted::BOTH);
    expect_same(&rt, took, Took::ZERO);
    turn_tile_even(&mut among_none, blocks);
    expect_that(&rt, has_just(&among_none, even));

    // At odd parity (10, 10) and (11, 11) are in blocks of their own, and (0, 0) and (63, 62) leave the tile.
    let odd = [(9, 9), (12, 12)].as_slice();
    expect_that(&rt, has_just(&turned_odd(&old, &no_border()), odd));
    let border = no_border();
    let (again, took) = turn_tile(&old, &border, &none, &border, &none, &border, 1);
    expect_that(&rt, has_just(&again, odd));
    expect_same(&rt, took, Took::ZERO);
}

#[test]
fn particles_of_named_blocks_stay(rt: HostRuntime) {
    let walled = tile_of([(10, 10), (11, 10), (10, 11), (11, 11)].as_slice());
    let mut tile = tile_of([(0, 0), (10, 10)].as_slice());
    let named = blocks_of(&walled);
    // Blocks at even places have them in rows 10 and 11, those at odd places in rows 9 to 12: a bit for each pair of rows.
    expect_same(&rt, named.0, 1 << 4 | 1 << 5 | 1 << 6);
    expect_same(&rt, named.1.even[5], 1 << 5);
    let took = taken_among(&tile, given(&named), None, 0, Counted::BOTH);
    expect_same(&rt, (took.walls, took.obstacles), (pair(2, 2), pair(0, 0)));
    turn_tile_even(&mut tile, given(&named));
    expect_that(&rt, has_just(&tile, [(1, 1), (10, 10)].as_slice()));

    // Without those cells, in rows 11 and 12 of the window, no block is walled.
    let none = Tile::empty();
    let near = no_border().neighbors();
    let (rows, mut blocks) = named;
    expect_same(
        &rt,
        blocks.renew(rows, &window(&none, &near), SetBlocks::NONE, 5, 7),
        0,
    );
    expect_same(&rt, blocks.even[5], 0);
}

/// A particle of a walled block and one of an obstructed block stay, whatever is counted. At an even tick they were on their way
/// right and down, and right and up; at an odd tick left and up, and left and down.
#[test]
fn accounts_that_are_not_kept_are_zero(rt: HostRuntime) {
    let old = tile_of([(10, 10), (20, 21)].as_slice());
    let near = no_border().neighbors();
    let even_obstacles = blocks_of(&cells_at(0b1111, 20, 20));
    let even = blocks_with(&cells_at(0b1111, 10, 10), &even_obstacles);
    let odd_obstacles = blocks_of(&cells_at(0b1111, 19, 21));
    let odd = blocks_with(&cells_at(0b1111, 9, 9), &odd_obstacles);
    for (walls, obstacles) in [(true, false), (false, true), (true, true), (false, false)] {
        let counted = Counted { walls, obstacles };

        let mut tile = old;
        let walled = given(&even);
        let obstructed = given(&even_obstacles);
        let took = taken_among(&tile, walled, obstructed, 0, counted);
        turn_tile_even(&mut tile, walled);
        expect_that(&rt, same_cells(&tile, &old));
        let of_walls = if walls { pair(2, 2) } else { pair(0, 0) };
        let of_obstacles = if obstacles { pair(2, -2) } else { pair(0, 0) };
        expect_same(&rt, (took.walls, took.obstacles), (of_walls, of_obstacles));

        let mut tile = Tile::full();
        let walled = given(&odd);
        let obstructed = given(&odd_obstacles);
        let particles = window(&old, &near);
        let took = taken_among(&old, walled, obstructed, 1, counted);
        turn_tile_odd(&particles, walled, &mut tile);
        expect_that(&rt, same_cells(&tile, &old));
        let of_walls = if walls { pair(-2, -2) } else { pair(0, 0) };
        let of_obstacles = if obstacles { pair(-2, 2) } else { pair(0, 0) };
        expect_same(&rt, (took.walls, took.obstacles), (of_walls, of_obstacles));
    }
}

#[test]
fn particles_come_in_over_the_corners(rt: HostRuntime) {
    let none = Tile::empty();
    let corner = tile_of([(63, 63)].as_slice());
    let first = tile_of([(0, 0)].as_slice());
    let last = tile_of([(63, 63)].as_slice());

    // From the tile above to the left, and from the tile below to the right.
    let out = turned_odd(&none, &border_of(&none, &none, &corner, &first));
    expect_that(&rt, has_just(&out, [(0, 0), (63, 63)].as_slice()));

    // A head-on pair across the corner goes to the tiles above and to the left.
    let out = turned_odd(&first, &border_of(&none, &none, &corner, &none));
    expect_that(&rt, has_just(&out, [].as_slice()));

    // And a pair of those tiles comes to the corner.
    let above = tile_of([(0, 63)].as_slice());
    let left = tile_of([(63, 0)].as_slice());
    let out = turned_odd(&last, &border_of(&above, &left, &none, &none));
    expect_that(&rt, has_just(&out, [(0, 0)].as_slice()));
}

fn cells_at(cells: u8, x: u32, y: u32) -> Tile {
    let [upper_left, upper_right, lower_left, lower_right] = block(cells);
    let mut tile = Tile::empty();
    if x < 63 && y < 63 {
        tile.set(x, y, upper_left);
        tile.set(x + 1, y, upper_right);
        tile.set(x, y + 1, lower_left);
        tile.set(x + 1, y + 1, lower_right);
    }
    tile
}

/// All 16 states of a block, in the first, an inner and the last row of blocks and in the first, an inner and the last
/// place of a row, with a wall in each of the block's corners and without.
#[test]
fn sixteen_states_walled_and_not(rt: HostRuntime) {
    let border = no_border();
    let none = Tile::empty();
    for (parity, x, y) in [
        (0u8, 0u32, 0u32),
        (0, 62, 0),
        (0, 30, 32),
        (0, 62, 62),
        (1, 1, 1),
        (1, 61, 1),
        (1, 31, 33),
        (1, 61, 61),
    ] {
        for (old, new) in TABLE {
            let tile = cells_at(old, x, y);
            let (out, took) = turn_tile(&tile, &border, &none, &border, &none, &border, parity);
            expect_that(&rt, same_cells(&out, &cells_at(new, x, y)));
            expect_same(&rt, took, Took::ZERO);
            for wall in [0b1000, 0b0100, 0b0010, 0b0001] {
                let walls = cells_at(wall, x, y);
                let (out, _) = turn_tile(&tile, &border, &walls, &border, &none, &border, parity);
                expect_that(&rt, same_cells(&out, &tile));
                let (out, _) = turn_tile(&tile, &border, &none, &border, &walls, &border, parity);
                expect_that(&rt, same_cells(&out, &tile));
            }
        }
    }
}

// What is taken of a particle at (0, 0), with another at (-1, -1), at odd parity: the cell (-1, 0) of the left tile is
// in both their blocks.
fn taken_at_corner(walls: &Border, obstacles: &Border) -> (Tile, Took) {
    let none = Tile::empty();
    let border = border_of(&none, &none, &tile_of([(63, 63)].as_slice()), &none);
    let old = tile_of([(0, 0)].as_slice());
    turn_tile(&old, &border, &none, walls, &none, obstacles, 1)
}

#[test]
fn a_tile_books_its_own_particles(rt: HostRuntime) {
    let none = Tile::empty();
    let free = no_border();
    let beside = border_of(&none, &tile_of([(63, 0)].as_slice()), &none, &none);
    let above = border_of(&tile_of([(0, 63)].as_slice()), &none, &none, &none);

    // The particle at (0, 0) is on its way up and left: turned back, it gives twice its momentum.
    for (walls, obstacles, of_walls, of_obstacles) in [
        (&beside, &free, pair(-2, -2), pair(0, 0)),
        (&free, &beside, pair(0, 0), pair(-2, -2)),
        // With a wall and an obstacle in its block it counts for the obstacle.
        (&above, &beside, pair(0, 0), pair(-2, -2)),
    ] {
        let (out, took) = taken_at_corner(walls, obstacles);
        expect_that(&rt, has_just(&out, [(0, 0)].as_slice()));
        expect_same(&rt, took.walls, of_walls);
        expect_same(&rt, took.obstacles, of_obstacles);
    }

    // With neither it meets the other head on.
    let (out, took) = taken_at_corner(&free, &free);
    expect_that(&rt, has_just(&out, [].as_slice()));
    expect_same(&rt, took, Took::ZERO);
}

#[test]
fn walls_and_obstacles_turn_particles_back(rt: HostRuntime) {
    let none = Tile::empty();
    let border = no_border();
    // Three blocks with one particle each: to the right and down, to the left and down, to the right and up.
    let old = tile_of([(0, 0), (5, 8), (20, 31)].as_slice());
    let walls = tile_of([(1, 1), (4, 8)].as_slice());
    let obstacles = tile_of([(21, 30)].as_slice());
    let (out, took) = turn_tile(&old, &border, &walls, &border, &obstacles, &border, 0);
    expect_that(&rt, has_just(&out, [(0, 0), (5, 8), (20, 31)].as_slice()));
    expect_same(&rt, took.walls, pair(0, 4));
    expect_same(&rt, took.obstacles, pair(2, -2));

    // At odd parity they are in other blocks, none of them walled: (0, 0) leaves the tile.
    let (out, took) = turn_tile(&old, &border, &walls, &border, &obstacles, &border, 1);
    expect_that(&rt, has_just(&out, [(6, 7), (19, 32)].as_slice()));
    expect_same(&rt, took, Took::ZERO);
    // An obstacle on a particle's own cell takes as well.
    let (out, took) = turn_tile(&old, &border, &none, &border, &old, &border, 1);
    expect_that(&rt, has_just(&out, [(0, 0), (5, 8), (20, 31)].as_slice()));
    expect_same(&rt, took.walls, pair(0, 0));
    expect_same(&rt, took.obstacles, pair(-2, -2));
}

/// At an odd tick blocks begin in odd columns and rows. Those of the last column end in the tile to the right: a particle from (63, 5)
/// goes to its (0, 6), and one from its (0, 10) comes to (63, 9). What the tile to the left carries on arrives in column 0.
#[test]
fn particles_are_carried_on_along_a_row_of_tiles(rt: HostRuntime) {
    let mut tile = tile_of([(1, 1), (63, 5), (20, 0), (20, 63)].as_slice());
    let right = tile_of([(0, 10)].as_slice());
    let mut left = tile_of([(63, 3), (63, 49)].as_slice());
    let mut carry = Carry::ZERO;
    turn_inner(None, &mut left, &tile, &mut carry);
    turn_inner(None, &mut tile, &right, &mut carry);
    // Rows 0 and 63 stay for the rows of tiles above and below.
    let cells = [(2, 2), (63, 9), (0, 4), (0, 50), (20, 0), (20, 63)].as_slice();
    expect_that(&rt, has_just(&tile, cells));
    // The tile to the right gets the particle, and its own (0, 10) has left.
    let mut next = right;
    turn_inner(None, &mut next, &Tile::empty(), &mut carry);
    expect_that(&rt, has_just(&next, [(0, 6)].as_slice()));

    // A walled block keeps its particles on both sides of the seam.
    let mut tile = tile_of([(63, 5)].as_slice());
    let named = blocks_of(&tile_of([(63, 5)].as_slice()));
    let mut carry = Carry::ZERO;
    turn_inner(given(&named), &mut tile, &right, &mut carry);
    expect_that(&rt, has_just(&tile, [(63, 5), (63, 9)].as_slice()));
}

/// A row of tiles is closed when its last tile has turned. A particle from (63, 3) goes to (0, 4) of the first one, and one from its
/// (0, 9) comes to (63, 10). Other columns stay, and so do rows 0 and 63.
#[test]
fn the_first_column_gets_what_the_last_tile_carries_on(rt: HostRuntime) {
    let mut first = tile_of([(0, 9), (5, 5), (0, 0)].as_slice());
    let mut last = tile_of([(63, 3)].as_slice());
    let mut carry = Carry::ZERO;
    turn_inner(None, &mut last, &first, &mut carry);
    expect_that(&rt, has_just(&last, [(63, 10)].as_slice()));
    put_first_column(&mut first, &carry);
    expect_that(&rt, has_just(&first, [(0, 4), (5, 5), (0, 0)].as_slice()));
}

/// The blocks that begin in row 63 end in the tile below. A particle from (7, 63) goes to (8, 0) there, one from (12, 0) there to
/// (11, 63), and one from (63, 63) is carried on.
#[test]
fn particles_cross_the_seam_below_a_tile(rt: HostRuntime) {
    let mut tile = tile_of([(7, 63), (63, 63), (30, 30)].as_slice());
    let mut below = tile_of([(12, 0), (31, 31)].as_slice());
    let none = Tile::empty();
    let row = seam_row(&tile, &none, &below, &none);
    let coming = Beside {
        upper: 1 << 31,
        lower: 0,
    };
    let turned = turned_seam(None, row, coming);
    put_bottom(&mut tile, &turned.own);
    put_top(&mut below, &turned.own);
    expect_that(
        &rt,
        has_just(&tile, [(0, 63), (11, 63), (30, 30)].as_slice()),
    );
    expect_that(&rt, has_just(&below, [(8, 0), (31, 31)].as_slice()));
    let Beside { upper, lower } = turned.leaving;
    expect_same(&rt, (upper >> 31, lower >> 31), (0, 1));
}
