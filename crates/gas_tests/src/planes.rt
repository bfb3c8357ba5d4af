//! Worked examples of planes, with values found by hand.

ghost use Rattle.std.specs.Prelude.{◌≡◌, true, ◌||◌, ⊤};
ghost use Rattle.bit_tile.specs.Tile.{has, HasCells};
ghost use Rattle.gas_terms.specs.Cells.{lies_within, extent};

use crate::borders::{Side, expect_ring};
use crate::expected::{expect_same, expect_that};
use crate::gases::sums;
use crate::lattices::{are_same, expect_cells, holds, plane};
use gas_plane::{Plane, Tile, Turner, word_of};
use gas_terms::{Rect, Size};
use single_phase::border;
use std::process::Abort;
use tile_border::Round;

fn four_tiles(rt: &(impl Abort + AllocGlobal)) -> Plane {
    plane(rt, 128, 128, &[])
}

fn area(rt: &impl Abort, plane: &Plane, x: u32, y: u32, w: u32, h: u32) -> Rect
    ensures { lies_within (extent plane.now) result ≡ true }
{
    let area = Rect::within(plane.size(), x, y, w, h).expect(rt, "a rectangle");
    expect_that(&rt, area.fits(plane.size()));
    area
}

fn write_row(rt: &impl Abort, plane: &mut Plane, y: u32, row: &[u8]) {
    let size = plane.size();
    expect_that(&rt, y < u32::from(size.height()));
    expect_that(&rt, row.len() == usize::from(size.width()) / 8);
    plane.set_row(y, row);
}

fn read_row(rt: &impl Abort, plane: &Plane, y: u32, row: &mut [u8]) {
    let size = plane.size();
    expect_that(&rt, y < u32::from(size.height()));
    expect_that(&rt, row.len() == usize::from(size.width()) / 8);
    plane.row_bytes(y, row);
}

// Puts a cell into a tile that is lent, or takes it out.
fn lend(rt: &impl Abort, plane: &mut Plane, i: u32, x: u32, y: u32, held: bool) {
    expect_that(&rt, i < plane.size().tiles());
    assert!(rt; x < 64 && y < 64);
    plane.tile_mut(i).set(x, y, held);
}

fn empty_tile(rt: &impl Abort, plane: &mut Plane, i: u32) {
    expect_that(&rt, i < plane.size().tiles());
    plane.set_tile(i, Tile::empty());
}

fn expect_border(rt: &impl Abort, plane: &Plane, i: u32, cells: &[(Side, i32, bool)]) {
    expect_that(&rt, i < plane.size().tiles());
    expect_ring(rt, &border(plane, i), cells);
}

#[test]
fn fills_and_clears_over_the_seams(rt: HostRuntime) {
    let mut plane = four_tiles(&rt);
    plane.fill(area(&rt, &plane, 62, 63, 4, 3));
    plane.clear(area(&rt, &plane, 64, 64, 1, 1));
    let cells = [
        (61, 63, false),
        (62, 63, true),
        (65, 63, true),
        (66, 63, false),
        (63, 62, false),
        (63, 65, true),
        (63, 66, false),
        (64, 64, false),
        (65, 65, true),
    ];
    expect_cells(&rt, &plane, &cells);
}

#[test]
fn counts_by_parities(rt: HostRuntime) {
    let mut plane = four_tiles(&rt);
    plane.fill(area(&rt, &plane, 62, 63, 4, 3));
    // Columns 62 to 65 and rows 63 to 65.
    let all = plane.counts_in(area(&rt, &plane, 0, 0, 128, 128));
    expect_same(&rt, all.as_slice(), [2, 2, 4, 4].as_slice());
    // Columns 63 and 64, rows 64 and 65.
    let part = plane.counts_in(area(&rt, &plane, 63, 64, 2, 9));
    expect_same(&rt, part.as_slice(), [1, 1, 1, 1].as_slice());
}

#[test]
fn reads_and_writes_rows(rt: HostRuntime) {
    let mut plane = four_tiles(&rt);
    let row = [0xc0, 0, 0, 0, 0, 0, 0, 0x01, 0x90, 0, 0, 0, 0, 0, 0, 0];
    write_row(&rt, &mut plane, 70, &row);
    let cells = [
        (0, 70, true),
        (1, 70, true),
        (2, 70, false),
        (62, 70, false),
        (63, 70, true),
        (64, 70, true),
        (67, 70, true),
        (127, 70, false),
        (0, 69, false),
        (0, 71, false),
    ];
    expect_cells(&rt, &plane, &cells);
    let mut read = [1; 16];
    read_row(&rt, &plane, 70, &mut read);
    expect_same(&rt, read.as_slice(), row.as_slice());
    // Columns 0, 1 and 63, and 64 and 67.
    let words = (0x8000_0000_0000_0003, 9);
    expect_same(&rt, words_of_row_70(&rt, &plane), words);
    expect_same(&rt, (word_of(&row[..8]), word_of(&row[8..])), words);
}

fn words_of_row_70(rt: &impl Abort, plane: &Plane) -> (u64, u64) {
    let size = plane.size();
    expect_that(&rt, size.width() == 128);
    expect_that(&rt, size.height() == 128);
    (plane.word(0, 70), plane.word(1, 70))
}

#[test]
fn has_borders_round_the_torus(rt: HostRuntime) {
    let mut plane = four_tiles(&rt);
    plane.fill(area(&rt, &plane, 127, 127, 1, 1));
    plane.fill(area(&rt, &plane, 64, 5, 1, 1));
    let first = [
        (Side::Above, -1, true),
        (Side::Right, 5, true),
        (Side::Left, 5, false),
        (Side::Below, 64, false),
    ];
    expect_border(&rt, &plane, 0, &first);
    let second = [
        (Side::Above, 63, true),
        (Side::Right, 5, false),
        (Side::Above, -1, false),
    ];
    expect_border(&rt, &plane, 1, &second);
}

#[test]
fn replaces_a_tile(rt: HostRuntime) {
    let mut plane = four_tiles(&rt);
    plane.fill(area(&rt, &plane, 0, 0, 128, 128));
    let was = plane.copy(rt.alloc()).expect(&rt, "memory");
    expect_that(&rt, plane.size().tiles() == 4);
    plane.set_tile(2, Tile::rect(1, 2, 3, 4));
    let counts = plane.counts_in(area(&rt, &plane, 0, 64, 64, 64));
    // Columns 1 to 3 and rows 66 to 69.
    expect_same(&rt, counts.as_slice(), [2, 4, 2, 4].as_slice());
    expect_cells(&rt, &plane, &[(64, 64, true), (0, 63, true)]);
    expect_that(&rt, holds(&was, 0, 64));
    expect_that(&rt, was.size().tiles() == 4);
    expect_that(&rt, was.tile(2).get(0, 0));
}

// A row with these columns has these bytes, and they make that row again: for each of two ranges, its first column and width.
fn row_is(rt: &(impl Abort + AllocGlobal), ranges: [(u32, u32); 2], bytes: &[u8; 8]) {
    let mut row = plane(rt, 64, 64, &[]);
    for (x, w) in ranges {
        row.fill(area(rt, &row, x, 5, w, 1));
    }
    let mut read = [1; 8];
    read_row(rt, &row, 5, &mut read);
    expect_same(&rt, read.as_slice(), bytes.as_slice());
    let mut again = plane(rt, 64, 64, &[]);
    write_row(rt, &mut again, 5, bytes);
    expect_that(&rt, are_same(&again, &row, 64, 64));
}

#[test]
fn writes_rows_from_the_highest_bit(rt: HostRuntime) {
    for (ranges, bytes) in [
        ([(0, 1), (0, 1)], [0x80, 0, 0, 0, 0, 0, 0, 0]),
        ([(63, 1), (63, 1)], [0, 0, 0, 0, 0, 0, 0, 0x01]),
        ([(0, 1), (63, 1)], [0x80, 0, 0, 0, 0, 0, 0, 0x01]),
        ([(28, 4), (32, 4)], [0, 0, 0, 0x0f, 0xf0, 0, 0, 0]),
    ] {
        row_is(&rt, ranges, &bytes);
    }
}

fn bit_of(row: &[u8], x: u32) -> bool {
    match row.get((x / 8) as usize) {
        Some(byte) => (*byte >> (7 - x % 8)) & 1 == 1,
        None => false,
    }
}

// Puts the first bytes of a row into row 37, reads them again, and asks for each of their cells.
fn put_and_read(rt: &impl Abort, plane: &mut Plane, row: &[u8]) {
    let width = plane.size().width();
    let n = usize::from(width) / 8;
    expect_that(&rt, n <= row.len());
    expect_that(&rt, n <= 512);
    write_row(rt, plane, 37, &row[..n]);
    let mut room = [1; 512];
    let read = &mut room[..n];
    read_row(rt, plane, 37, read);
    expect_that(&rt, &*read == &row[..n]);
    for x in 0..u32::from(width) {
        expect_that(&rt, holds(plane, x, 37) == bit_of(row, x));
    }
}

#[test]
fn rows_are_read_back_at_every_width(rt: HostRuntime) {
    // Bytes that look random.
    let mut row = [0; 512];
    for k in 0..512usize {
        row[k] = ((k * 167 + 41) % 251) as u8;
    }
    for across in 1..65u32 {
        put_and_read(&rt, &mut plane(&rt, 64 * across, 64, &[]), &row);
    }
}

#[test]
fn is_as_wide_as_a_lattice_may_be(rt: HostRuntime) {
    let mut plane = plane(&rt, 4096, 64, &[]);
    plane.fill(area(&rt, &plane, 4030, 10, 66, 2));
    plane.clear(area(&rt, &plane, 4095, 11, 1, 1));
    // Columns 4030 to 4095 in row 10, and to 4094 in row 11.
    let counts = plane.counts_in(area(&rt, &plane, 0, 0, 4096, 64));
    expect_same(&rt, counts.as_slice(), [33, 33, 33, 32].as_slice());
    expect_wide_borders(&rt, &plane);
    let mut row = [0; 512];
    read_row(&rt, &plane, 11, &mut row);
    expect_same(
        &rt,
        (row[502], row[503], row[504], row[511]),
        (0, 0x03, 0xff, 0xfe),
    );
}

fn expect_wide_borders(rt: &impl Abort, plane: &Plane) {
    expect_same(&rt, plane.size().tiles(), 64);
    let first = [
        (Side::Left, 10, true),
        (Side::Left, 11, false),
        (Side::Right, 10, false),
    ];
    expect_border(rt, plane, 0, &first);
    // One row of tiles is above and below itself.
    let last = [
        (Side::Left, 10, true),
        (Side::Right, 10, false),
        (Side::Above, 0, false),
        (Side::Below, 0, false),
    ];
    expect_border(rt, plane, 63, &last);
}

fn is_bare(plane: &Plane, i: u32) -> bool {
    i < plane.size().tiles() && plane.tile(i).is_empty()
}

// A plane of five by five tiles with a cell in tile 0.
fn five_by_five(rt: &(impl Abort + AllocGlobal)) -> Plane {
    plane(rt, 320, 320, &[(5, 5)])
}

fn assert_only_first_held(rt: &impl Abort, plane: &Plane, name: &str) {
    for i in 0..25u32 {
        expect_same(&rt, (name, i, is_bare(plane, i)), (name, i, i > 0));
    }
}

fn assert_bare(rt: &impl Abort, plane: &Plane, name: &str) {
    for i in 0..25u32 {
        expect_same(&rt, (name, i, is_bare(plane, i)), (name, i, true));
    }
}

// Round tile i, one place has the tile with the cell (5, 5), and the others have no cells.
fn expect_first_in(rt: &impl Abort, i: u32, round: &Round<'_>) {
    for (tile, at) in [
        (round.above, 5),
        (round.below, 20),
        (round.left, 1),
        (round.right, 4),
        (round.above_left, 6),
        (round.above_right, 9),
        (round.below_left, 21),
        (round.below_right, 24),
    ] {
        let found = (tile.get(5, 5), tile.is_empty());
        expect_same(&rt, (i, found), (i, (i == at, i != at)));
    }
}

#[test]
fn reads_what_is_round_a_tile(rt: HostRuntime) {
    let mut plane = five_by_five(&rt);
    expect_that(&rt, plane.size().tiles() == 25);
    // The tile that has tile 0 in each of the eight places.
    for i in 0..25u32 {
        expect_that(&rt, plane.size().tiles() == 25);
        expect_first_in(&rt, i, &plane.round(i));
    }
    lend(&rt, &mut plane, 12, 63, 0, true);
    expect_that(&rt, plane.size().tiles() == 25);
    expect_that(&rt, plane.round(13).left.get(63, 0));
    expect_border(&rt, &plane, 13, &[(Side::Left, 0, true)]);
}

#[test]
fn knows_where_it_has_no_cells(rt: HostRuntime) {
    assert_bare(&rt, &plane(&rt, 320, 320, &[]), "empty");
    let plane = five_by_five(&rt);
    assert_only_first_held(&rt, &plane, "with a cell");
    let copy = plane.copy(rt.alloc()).expect(&rt, "memory");
    assert_only_first_held(&rt, &copy, "its copy");
    expect_that(&rt, holds(&copy, 5, 5));
}

#[test]
fn knows_again_what_was_cleared(rt: HostRuntime) {
    let mut plane = five_by_five(&rt);
    plane.clear(area(&rt, &plane, 64, 0, 256, 320));
    plane.clear(area(&rt, &plane, 0, 6, 320, 20));
    assert_only_first_held(&rt, &plane, "cleared elsewhere");
    plane.clear(area(&rt, &plane, 5, 5, 1, 1));
    assert_bare(&rt, &plane, "cleared there");
    plane.fill(area(&rt, &plane, 0, 0, 320, 320));
    plane.clear(area(&rt, &plane, 0, 0, 320, 320));
    assert_bare(&rt, &plane, "filled and cleared");
}

#[test]
fn knows_what_rows_leave(rt: HostRuntime) {
    let mut plane = five_by_five(&rt);
    for y in 0..320u32 {
        let mut row = [0; 40];
        read_row(&rt, &plane, y, &mut row);
        write_row(&rt, &mut plane, y, &row);
        assert_only_first_held(&rt, &plane, "rows as they were");
    }
    let mut row = [0; 40];
    write_row(&rt, &mut plane, 5, &row);
    assert_bare(&rt, &plane, "a row of zeros");
    row[0] = 0x01;
    write_row(&rt, &mut plane, 63, &row);
    assert_only_first_held(&rt, &plane, "a row with a cell");
}

#[test]
fn knows_what_tiles_leave(rt: HostRuntime) {
    let mut plane = five_by_five(&rt);
    for i in 1..25u32 {
        empty_tile(&rt, &mut plane, i);
    }
    assert_only_first_held(&rt, &plane, "tiles without cells");
    lend(&rt, &mut plane, 12, 63, 0, true);
    for (i, bare) in [(0, false), (11, true), (12, false)] {
        expect_same(&rt, (i, is_bare(&plane, i)), (i, bare));
    }
    lend(&rt, &mut plane, 12, 63, 0, false);
    assert_only_first_held(&rt, &plane, "a tile that was lent");
    empty_tile(&rt, &mut plane, 0);
    assert_bare(&rt, &plane, "the last one's tile");
}

#[test]
fn knows_whether_it_has_cells(rt: HostRuntime) {
    let mut plane = four_tiles(&rt);
    expect_that(&rt, plane.is_empty());
    plane.fill(area(&rt, &plane, 100, 70, 1, 1));
    expect_that(&rt, !plane.is_empty());
    plane.clear(area(&rt, &plane, 100, 70, 1, 1));
    expect_that(&rt, plane.is_empty());
    lend(&rt, &mut plane, 1, 63, 63, true);
    expect_that(&rt, !plane.is_empty());
    lend(&rt, &mut plane, 1, 63, 63, false);
    expect_that(&rt, plane.is_empty());
}

// Whether the tile above tile i and to the left has the cell (5, 5).
fn is_upper_left(rt: &impl Abort, plane: &Plane, i: u32) -> bool {
    expect_that(&rt, i < plane.size().tiles());
    plane.round_at(plane.position(i)).above_left.get(5, 5)
}

// Whether the tile in this column and row of tiles has the cell (5, 5), and whether the one below it to the left has.
fn in_rows(rt: &impl Abort, plane: &Plane, column: u32, row: u32) -> (bool, bool) {
    let size = plane.size();
    expect_that(&rt, column < u32::from(size.width()) / 64);
    expect_that(&rt, row < u32::from(size.height()) / 64);
    let rows = plane.rows_round(row);
    let below_left = rows.round(column).below_left;
    (rows.tile(column).get(5, 5), below_left.get(5, 5))
}

// 5 tiles in a row.
#[test]
fn positions_follow_one_another(rt: HostRuntime) {
    let plane = five_by_five(&rt);
    let across = plane.across();
    expect_same(&rt, across, 5);
    for (tile, column, row) in [(0, 0, 0), (4, 4, 0), (5, 0, 1), (23, 3, 4)] {
        let at = plane.position(tile);
        expect_same(&rt, (tile, at.column, at.row), (tile, column, row));
        let next = at.next(across);
        expect_that(&rt, next == plane.position(tile + 1));
    }
    // Tile 6 has tile 0 above it and to the left.
    expect_that(&rt, is_upper_left(&rt, &plane, 6));
    expect_that(&rt, !is_upper_left(&rt, &plane, 7));
    // Which is the first of its row, and below the last row.
    expect_that(&rt, in_rows(&rt, &plane, 0, 0) == (true, false));
    expect_that(&rt, in_rows(&rt, &plane, 1, 4) == (false, true));
}

#[test]
fn lends_a_tile(rt: HostRuntime) {
    let mut plane = four_tiles(&rt);
    lend(&rt, &mut plane, 3, 1, 2, true);
    expect_cells(&rt, &plane, &[(65, 66, true), (1, 2, false)]);
    lend(&rt, &mut plane, 3, 1, 2, false);
    expect_that(&rt, !holds(&plane, 65, 66));
}

// Adds the cells of the tile to the right. Carries on the column.
#[derive(Clone, Copy)]
struct AddRight;

impl Turner for AddRight {
    type Carried = u32;

    ghost turns = { λ _ column _ t right made after.
        HasCells made (λ x y. has t x y || has right x y) × (after ≡ column) };

    ghost can_turn = { λ _ _. ⊤ };

    fn turn(self, column: u32, tile: &mut Tile, right: &Tile, carried: &mut u32) {
        tile.join(right);
        *carried = column;
    }
}

#[test]
fn turns_a_row_of_tiles(rt: HostRuntime) {
    let mut plane = plane(&rt, 192, 64, &[(3, 4), (70, 5), (140, 7)]);
    expect_same(&rt, (plane.across(), plane.down()), (3, 1));
    let mut last = 0;
    plane.turn_row(0, AddRight, &mut last);
    expect_same(&rt, last, 2);
    // The last tile stands beside the first one as it was.
    let cells = [
        (3, 4, true),
        (6, 5, true),
        (76, 7, true),
        (131, 4, true),
        (134, 5, false),
        (12, 7, false),
    ];
    expect_cells(&rt, &plane, &cells);
}

#[test]
fn keeps_its_total_until_a_write(rt: HostRuntime) {
    let mut plane = four_tiles(&rt);
    lend(&rt, &mut plane, 3, 1, 2, true);
    expect_same(&rt, plane.keep_total(0), sums(1, -1, 1));
    expect_same(&rt, plane.total(1), sums(1, 1, -1));
    empty_tile(&rt, &mut plane, 3);
    expect_same(&rt, plane.keep_total(0), sums(0, 0, 0));
    lend(&rt, &mut plane, 0, 0, 0, true);
    expect_same(&rt, plane.total(0), sums(1, 1, 1));
}

// One allocation may be refused here: rt try --test --fail-alloc N, with N from 1 to 6.
#[test]
fn refused_memory_leaves_planes(rt: HostRuntime) {
    let size = Size::new(128, 64).expect(&rt, "a size");
    let mut plane = match Plane::empty(rt.alloc(), size) {
        Ok(plane) => plane,
        Err(_) => Plane::empty(rt.alloc(), size).expect(&rt, "memory"),
    };
    plane.fill(area(&rt, &plane, 63, 0, 2, 1));
    let copy = match plane.copy(rt.alloc()) {
        Ok(copy) => copy,
        Err(_) => plane.copy(rt.alloc()).expect(&rt, "memory"),
    };
    let cells = [(63, 0, true), (64, 0, true), (65, 0, false)];
    expect_cells(&rt, &copy, &cells);
    expect_cells(&rt, &plane, &cells);
}
