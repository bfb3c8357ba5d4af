//! The ring of cells round a tile. The program does not use it: it is for callers who step single tiles.

ghost use Rattle.std.specs.Prelude.{◌≡◌, ℕ, ◌+◌, ◌<◌, ◌≤◌, slice_index, pos, negsuc, ◌≤ℤ◌};
ghost use Rattle.bit_tile.specs.Bit.{bit};
ghost use Rattle.bit_tile.specs.Tile.{has};

use crate::Round;
use bit_tile::Tile;

/// The ring of cells that touch a tile: cells of the eight tiles round it.
#[derive(Clone, Copy)]
pub struct Border {
    // The row above the tile and the row below it.
    above: u64,
    below: u64,
    // For each row from the one above to the one below: the cell to the left of the tile's columns is the lowest bit,
    // the cell to their right is the highest.
    sides: [u64; 66],
}

impl Border {
    ghost use Rattle.tile_border.specs.Ring.{ring, IsOnRing, IsBorderOf, IsBorderOfRound, numbered};

    /// A border without cells.
    pub const EMPTY: Border = Border {
        above: 0,
        below: 0,
        sides: [0; 66],
    };

    /// The border of a tile with these neighbors.
    pub fn of(
        above: &Tile,
        below: &Tile,
        left: &Tile,
        right: &Tile,
        above_left: &Tile,
        above_right: &Tile,
        below_left: &Tile,
        below_right: &Tile,
    ) -> Border
        ensures { IsBorderOf result (record {
          above = above.now;
          below = below.now;
          left = left.now;
          right = right.now;
          above_left = above_left.now;
          above_right = above_right.now;
          below_left = below_left.now;
          below_right = below_right.now;
        }) }
    {
        let mut border = Border::EMPTY;
        border.surround(&Round {
            above,
            below,
            left,
            right,
            above_left,
            above_right,
            below_left,
            below_right,
        });
        border
    }

    /// Makes it the border of a tile with these neighbors. Reusing one border is faster than making one for each tile.
    pub fn surround(&mut self, round: &Round)
        ensures { IsBorderOfRound self.new round.now }
    {
        // The references are read once.
        let near = *round;
        let sides = &mut self.sides;
        for y in 0..64usize {
            sides[y + 1] = side(near.left.row(y), near.right.row(y));
        }
        sides[0] = side(near.above_left.row(63), near.above_right.row(63));
        sides[65] = side(near.below_left.row(0), near.below_right.row(0));
        self.above = near.above.row(63);
        self.below = near.below.row(0);
    }

    /// Eight neighbors that give this border. They have its cells and no others.
    pub fn neighbors(&self) -> Neighbors
        ensures { IsBorderOf self.now result }
    {
        let mut above = Tile::empty();
        above.set_row(63, self.above);
        let mut below = Tile::empty();
        below.set_row(0, self.below);
        let (left, right) = self.beside();
        Neighbors {
            above,
            below,
            left,
            right,
            above_left: one_cell(63, 63, self.at(0, 0)),
            above_right: one_cell(0, 63, self.at(65, 0)),
            below_left: one_cell(63, 0, self.at(0, 65)),
            below_right: one_cell(0, 0, self.at(65, 65)),
        }
    }

    // The tile on the left and the one on the right.
    fn beside(&self) -> (Tile, Tile)
        ensures left { (y : ℕ) → y < 64 → ring self.now 0 (y + 1) ≡ has result.0 63 y }
        ensures right { (y : ℕ) → y < 64 → ring self.now 65 (y + 1) ≡ has result.1 0 y }
    {
        let mut left = Tile::empty();
        let mut right = Tile::empty();
        for y in 0..64usize {
            let side = self.sides[y + 1];
            left.set_row(y, side << 63);
            right.set_row(y, side >> 63);
        }
        (left, right)
    }

    /// Whether the border has the cell dx columns and dy rows from the tile's upper left cell.
    pub fn cell(&self, dx: i32, dy: i32) -> bool
        requires x_low { negsuc 0 ≤ℤ dx }
        requires y_low { negsuc 0 ≤ℤ dy }
        requires ring { IsOnRing (numbered dx) (numbered dy) }
        ensures { result ≡ ring self.now (numbered dx) (numbered dy) }
    {
        self.at((dx + 1) as u32, (dy + 1) as u32)
    }

    fn at(&self, i: u32, j: u32) -> bool
        requires { IsOnRing i j }
        ensures { result ≡ ring self.now i j }
    {
        if i == 0 {
            self.sides[j as usize] & 1 == 1
        } else if i == 65 {
            (self.sides[j as usize] >> 63) & 1 == 1
        } else if j == 0 {
            (self.above >> (i - 1)) & 1 == 1
        } else {
            (self.below >> (i - 1)) & 1 == 1
        }
    }
}

/// The eight tiles that `Border::neighbors` makes.
#[derive(Clone, Copy)]
pub struct Neighbors {
    above: Tile,
    below: Tile,
    left: Tile,
    right: Tile,
    above_left: Tile,
    above_right: Tile,
    below_left: Tile,
    below_right: Tile,
}

impl Neighbors {
    ghost use Rattle.tile_border.specs.Ring.{near_tiles};

    /// References to the eight tiles.
    pub fn round(&self) -> Round<'_>
        ensures { near_tiles result ≡ self.now }
    {
        Round {
            above: &self.above,
            below: &self.below,
            left: &self.left,
            right: &self.right,
            above_left: &self.above_left,
            above_right: &self.above_right,
            below_left: &self.below_left,
            below_right: &self.below_right,
        }
    }
}

// A tile with the cell in column x of row y, or without cells.
fn one_cell(x: u32, y: u32, held: bool) -> Tile
    requires x { x < 64 }
    requires y { y < 64 }
    ensures { held ≡ has result x y }
{
    let mut tile = Tile::empty();
    tile.set(x, y, held);
    tile
}

// The last cell of one row and the first of another, as the lowest and the highest bit.
fn side(left: u64, right: u64) -> u64
    ensures low { bit result 0 ≡ bit left 63 }
    ensures high { bit result 63 ≡ bit right 0 }
{
    (left >> 63) | (right << 63)
}
