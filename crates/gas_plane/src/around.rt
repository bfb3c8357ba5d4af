//! The tiles round a tile of a plane.

ghost use Rattle.std.specs.Prelude.{◌≡◌, ℕ, ◌+◌, ◌*◌, ◌/◌, ◌<◌};
ghost use Rattle.gas_terms.specs.Cells.{Cells, tile_count, tile_rectangle};
ghost use Rattle.gas_plane.specs.Planes.{IsLattice, IsTileFrom, AreTilesRound, IsRingRound, IsPosition};
ghost use Rattle.gas_plane.specs.Tiles.{AreRowsRound, AreFullRows, IsColumnOf};
ghost use Rattle.tile_border.specs.Ring.{IsBorderOfRound};
ghost use Rattle.tile_border.specs.declared.border.Border.{Border as RingCells};

use crate::Plane;
use crate::aligned_tile::AlignedTile;
use crate::circle::{after, before};
use bit_tile::Tile;
use tile_border::Round;

/// A tile's number, and the column and the row of tiles that it is in.
#[derive(Clone, Copy, Debug, PartialEq, Eq)]
pub struct Position {
    pub tile: u32,
    pub column: u32,
    pub row: u32,
}

impl Position {
    /// The position of the next tile, on a plane that is `across` tiles wide. It takes no division.
    #[inline]
    pub fn next(self, across: u32) -> Position
        requires across { 0 < across }
        requires few { self.tile < 65536 }
        requires position { IsPosition across self }
        ensures tile { result.tile ≡ self.tile + 1 }
        ensures position { IsPosition across result }
    {
        let Position { tile, column, row } = self;
        if column + 1 == across {
            Position {
                tile: tile + 1,
                column: 0,
                row: row + 1,
            }
        } else {
            Position {
                tile: tile + 1,
                column: column + 1,
                row,
            }
        }
    }
}

/// A row of a plane's tiles, with the row above and the row below it: the lattice is a torus. Whoever goes along a row looks it
/// up once.
#[derive(Clone, Copy)]
pub struct TileRows<'a> {
    pub across: u32,
    above: &'a [AlignedTile],
    here: &'a [AlignedTile],
    below: &'a [AlignedTile],
}

impl<'a> TileRows<'a> {
    /// The tile in this column.
    #[inline]
    pub fn tile(self, column: u32) -> &'a Tile
        requires full { AreFullRows self }
        requires column { column < self.across }
        ensures { (cells : Cells) (row : ℕ) → AreRowsRound self.entry cells row →
            IsTileFrom result.now cells (column * 64) (row * 64) }
    {
        &self.here[column as usize].tile
    }

    /// The eight tiles round it.
    #[inline]
    pub fn round(self, column: u32) -> Round<'a>
        requires full { AreFullRows self }
        requires column { column < self.across }
        ensures tiles { (cells : Cells) (i : ℕ) → IsColumnOf self.entry column cells i →
            AreTilesRound result cells i }
        ensures ring { (cells : Cells) (i : ℕ) (b : RingCells) →
            IsColumnOf self.entry column cells i → IsBorderOfRound b result →
            let r = tile_rectangle cells i in IsRingRound b cells r.x r.y }
    {
        let TileRows {
            across,
            above,
            here,
            below,
        } = self;
        let left = before(column, across) as usize;
        let right = after(column, across) as usize;
        let column = column as usize;
        Round {
            above: &above[column].tile,
            below: &below[column].tile,
            left: &here[left].tile,
            right: &here[right].tile,
            above_left: &above[left].tile,
            above_right: &above[right].tile,
            below_left: &below[left].tile,
            below_right: &below[right].tile,
        }
    }
}

impl Plane {
    /// The eight tiles round tile i: the lattice is a torus.
    #[inline]
    pub fn round(&self, i: u32) -> Round<'_>
        requires { i < tile_count self.now }
        ensures tiles { AreTilesRound result self.now i }
        ensures ring { let r = tile_rectangle self.now i in (b : RingCells) →
            IsBorderOfRound b result → IsRingRound b self.now r.x r.y }
    {
        self.round_at(self.position(i))
    }

    /// The eight tiles round the tile at this position.
    #[inline]
    pub fn round_at(&self, at: Position) -> Round<'_>
        requires tile { at.tile < tile_count self.now }
        requires position { IsPosition (self.now.width / 64) at }
        ensures tiles { AreTilesRound result self.now at.tile }
        ensures ring { let r = tile_rectangle self.now at.tile in (b : RingCells) →
            IsBorderOfRound b result → IsRingRound b self.now r.x r.y }
    {
        self.rows_round(at.row).round(at.column)
    }

    /// A row of tiles, with the row above and the row below it.
    #[inline]
    pub fn rows_round(&self, row: u32) -> TileRows<'_>
        requires { row < self.now.height / 64 }
        ensures rows { AreRowsRound result self.now row }
        ensures full { AreFullRows result }
        ensures lattice { IsLattice self.now }
    {
        let down = self.down();
        TileRows {
            across: self.across(),
            above: self.rooms_from(before(row, down)),
            here: self.rooms_from(row),
            below: self.rooms_from(after(row, down)),
        }
    }

    /// The position of tile i.
    #[inline]
    pub fn position(&self, i: u32) -> Position
        ensures tile { result.tile ≡ i }
        ensures position { IsPosition (self.now.width / 64) result }
    {
        let across = self.across();
        Position {
            tile: i,
            column: i % across,
            row: i / across,
        }
    }
}
