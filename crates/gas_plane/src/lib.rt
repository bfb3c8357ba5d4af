//! A plane: a set of cells of a lattice, stored as tiles. The lattice is a torus.
//!
//! The program uses all of it but `Plane::get`, which is for callers of the library, and `TileRows::tile`, which serves single
//! phases.
#![tactic(auto)]

ghost use Rattle.std.specs.Borrow.{sem};
ghost use Rattle.std.specs.Prelude.{◌↔◌, ◌≡◌, IsTrue, ◌*◌, ◌/◌, ◌<◌, ◌≤◌, length, false, IfOk};
ghost use Rattle.gas_terms.specs.Cells.{has, cells_where, extent, tile_count, tile_rectangle};
ghost use Rattle.gas_plane.specs.Planes.{IsLattice, IsTileFrom, IsBare, HasNone, with_tile};
ghost use Rattle.gas_plane.specs.Lending.{LendsTile};
ghost use Rattle.gas_plane.specs.Tiles.{AreTilesInRow};

mod aligned_tile;
mod around;
mod circle;
mod counts;
pub mod laws;
mod paint;
mod rows;
mod tile_areas;
mod totals;
mod turning;

use aligned_tile::{AlignedTile, copied, rooms};
pub use around::{Position, TileRows};
pub use bit_tile::Tile;
pub use circle::{after, before};
pub use counts::add_counts;
use gas_terms::{NoMemory, Size};
pub use rows::word_of;
use std::alloc::Global;
use std::marker::Model;
pub use tile_areas::{is_apart, is_covered, part_of, set_part, tiles_met};
pub use turning::Turner;

/// A set of cells of a lattice, which is a torus. Contracts see its width, its height and its cells. Only `empty` and `copy`
/// allocate.
#[derive(Drop)]
pub struct Plane {
    size: Size,
    // Row by row.
    tiles: Vec<AlignedTile>,
    // How many cells there are of each class, if they were counted after the last write. Apart from an `Option`, since a write then
    // clears one byte.
    is_counted: bool,
    counts: [u64; 4],
}

impl Model for Plane {
    ghost use Rattle.gas_terms.specs.Cells.{Cells};
    ghost use Rattle.gas_plane.specs.Counts.{AreOfAll};
    ghost use Rattle.gas_plane.specs.Tiles.{tiled, tiles_of, Cover};

    ghost Value = { Cells };

    ghost view = { λ p. tiled (tiles_of p.tiles.items) p.size };

    ghost invariant = { λ p. Cover (tiles_of p.tiles.items) p.size
        × AreOfAll p.is_counted p.counts (tiled (tiles_of p.tiles.items) p.size) };
}

impl Plane {
    /// A lattice of this size without cells. Fails if memory runs out, and then keeps none.
    pub fn empty(alloc: Global, size: Size) -> Result<Plane, NoMemory>
        ensures { IfOk result (λ plane. plane ≡ cells_where size.width size.height (λ _ _. false)) }
    {
        let tiles = rooms(alloc, Tile::empty(), size.tiles() as usize)?;
        Ok(Plane {
            size,
            tiles,
            is_counted: false,
            counts: [0; 4],
        })
    }

    /// A clone. Fails if memory runs out, and then keeps none.
    pub fn copy(&self, alloc: Global) -> Result<Plane, NoMemory>
        ensures { IfOk result (λ plane. plane ≡ self.now) }
    {
        let tiles = copied(alloc, self.tiles.as_slice())?;
        Ok(Plane {
            size: self.size,
            tiles,
            is_counted: self.is_counted,
            counts: self.counts,
        })
    }

    /// The width and height of the lattice.
    pub fn size(&self) -> Size
        ensures extent { result ≡ extent self.now }
        ensures lattice { IsLattice self.now }
    {
        let Plane { size, .. } = self;
        *size
    }

    /// Shows the prover that it is a lattice, as its type keeps. Does nothing.
    #[inline(always)]
    pub fn shows_lattice(&self)
        ensures { IsLattice self.now }
    {
        self.size();
    }

    /// Whether it has the cell in column x of row y.
    pub fn get(&self, x: u32, y: u32) -> bool
        requires x { x < self.now.width }
        requires y { y < self.now.height }
        ensures { result ≡ has self.now x y }
    {
        let across = self.across();
        self.tile(y / 64 * across + x / 64).get(x % 64, y % 64)
    }

    /// Tile i. Tiles are numbered row by row.
    #[inline]
    pub fn tile(&self, i: u32) -> &Tile
        requires { i < tile_count self.now }
        ensures { let r = tile_rectangle self.now i in IsTileFrom result.now self.now r.x r.y }
    {
        &self.tiles[i as usize].tile
    }

    /// Replaces tile i.
    pub fn set_tile(&mut self, i: u32, tile: Tile)
        requires { i < tile_count self.old }
        ensures { self.new ≡ with_tile self.old i tile }
    {
        self.is_counted = false;
        self.tiles[i as usize].tile = tile;
    }

    /// Tile i, for writing.
    #[inline]
    pub fn tile_mut(&mut self, i: u32) -> &mut Tile
        requires { i < tile_count self.old }
        ensures* writes_back { sem 𝓛 (LendsTile self.entry i result) }
        ensures tile { let r = tile_rectangle self.old i in IsTileFrom result.now self.old r.x r.y }
    {
        self.is_counted = false;
        &mut self.tiles[i as usize].tile
    }

    /// Whether no tile has a cell. It reads the tiles up to the first one that has some.
    pub fn is_empty(&self) -> bool
        ensures { IsTrue result ↔ HasNone self.now }
    {
        for i in 0..self.size().tiles() {
            if !self.tile(i).is_empty() {
                return false;
            }
        }
        true
    }

    /// How many tiles a row has.
    #[inline]
    pub fn across(&self) -> u32
        ensures across { result ≡ self.now.width / 64 }
        ensures lattice { IsLattice self.now }
        ensures positive { 0 < self.now.width / 64 }
    {
        (self.size.width() / 64) as u32
    }

    /// How many rows of tiles there are.
    pub fn down(&self) -> u32
        ensures down { result ≡ self.now.height / 64 }
        ensures lattice { IsLattice self.now }
        ensures positive { 0 < self.now.height / 64 }
    {
        (self.size.height() / 64) as u32
    }

    // The rooms from the one that has the first tile of this row of tiles.
    #[inline]
    fn rooms_from(&self, row: u32) -> &[AlignedTile]
        requires { row < self.now.height / 64 }
        ensures length { self.now.width / 64 ≤ length result.now }
        ensures tiles { AreTilesInRow result.now self.now row }
    {
        let across = self.size.width() as usize / 64;
        &self.tiles[row as usize * across..]
    }
}
