//! Exchanges: rectangles that are emptied, and others that are then filled.

ghost use Rattle.std.specs.Prelude.{◌↔◌, ◌≡◌, ℕ, ◌<◌, ◌≤◌, ◌+◌, ◌||◌, ◌&&◌, not, IsTrue};
ghost use Rattle.bit_tile.specs.Tile.{HasCells};
ghost use Rattle.bit_tile.specs.Tile as in_tile;
ghost use Rattle.phase_step.specs.Actions.{IsTileCorner, IsLeftOf};
ghost use Rattle.phase_step.specs.Counts.{AreTileCounts};
ghost use Rattle.phase_step.specs.Exchanges.{is_among, is_met, leaves_of, meets_tile, nowhere, HasAllOf, HasTilesOf};

use crate::exchanges::PortArray;
use crate::exchanges::set_cells::{is_settled, set_areas};
use crate::sums::CellCounts;
use gas_plane::{Tile, tiles_met};
use gas_terms::{Rect, Size};
use std::marker::Model;

/// Drains that empty their cells, and sources that fill theirs then. What is drained and filled again has stayed.
#[derive(Drop)]
pub struct Exchange {
    drains: PortArray<Rect>,
    sources: PortArray<Rect>,
    // The tiles that they meet: a cell here stands for a tile.
    met: Tile,
}

impl Model for Exchange {
    ghost use Rattle.phase_step.specs.Exchanges.{Areas, HasTilesOf};

    ghost Value = { Areas };

    ghost view = { λ e. record { drains = e.drains; sources = e.sources } };

    ghost invariant = { λ e. HasTilesOf e.met e.drains × HasTilesOf e.met e.sources };
}

impl Exchange {
    /// The exchange by these drains and sources.
    pub fn new(drains: PortArray<Rect>, sources: PortArray<Rect>) -> Exchange
        ensures { result ≡ record { drains = drains; sources = sources } }
    {
        let mut met = Tile::empty();
        add_tiles_of_all(&mut met, drains.as_slice());
        add_tiles_of_all(&mut met, sources.as_slice());
        Exchange::among(drains, sources, met)
    }

    /// The exchange by these drains and sources, all of whose cells are in the tiles of `met`: its cell in column c and row r stands
    /// for the tile in column c and row r of tiles. Whoever makes many exchanges of the same ports finds these once.
    pub fn among(drains: PortArray<Rect>, sources: PortArray<Rect>, met: Tile) -> Exchange
        requires drains { HasTilesOf met drains }
        requires sources { HasTilesOf met sources }
        ensures { result ≡ record { drains = drains; sources = sources } }
    {
        Exchange {
            drains,
            sources,
            met,
        }
    }

    /// Without drains and sources: every cell stays.
    pub fn none() -> Exchange
        ensures { result ≡ nowhere }
    {
        let area = any_area();
        Exchange::among(PortArray::none(area), PortArray::none(area), Tile::empty())
    }

    /// A clone.
    pub fn copy(&self) -> Exchange
        ensures { result ≡ self.now }
    {
        Exchange::among(self.drains.copy(), self.sources.copy(), self.met)
    }

    /// Whether it has neither drains nor sources.
    pub fn is_still(&self) -> bool
        ensures { IsTrue result ↔ (self.now ≡ nowhere) }
    {
        self.drains.len() == 0 && self.sources.len() == 0
    }

    /// True only if it leaves the tile that begins at (left, top) as it is.
    #[inline]
    pub fn keeps(&self, left: u32, top: u32, tile: &Tile) -> bool
        requires { IsTileCorner left top }
        ensures { IsTrue result → IsLeftOf (leaves_of self.now) left top tile.now tile.now }
    {
        if !self.met.get(left / 64, top / 64) {
            return true;
        }
        is_settled(
            tile,
            self.drains.as_slice(),
            self.sources.as_slice(),
            left,
            top,
        )
    }

    /// Acts on the tile that begins at (left, top). Returns how many cells came and went.
    pub fn on_tile(&self, left: u32, top: u32, tile: &mut Tile) -> CellCounts
        requires { IsTileCorner left top }
        ensures left { IsLeftOf (leaves_of self.now) left top tile.old tile.new }
        ensures gained { AreTileCounts result.gained
            (λ x y. in_tile.has tile.new x y && not (in_tile.has tile.old x y)) }
        ensures lost { AreTileCounts result.lost
            (λ x y. in_tile.has tile.old x y && not (in_tile.has tile.new x y)) }
    {
        let drains = self.drains.as_slice();
        let sources = self.sources.as_slice();
        let lost = set_areas(tile, drains, sources, left, top, false);
        let gained = set_areas(tile, sources, &[], left, top, true);
        CellCounts { gained, lost }
    }
}

/// The first cell of a lattice, as a rectangle that stands for none.
pub fn any_area() -> Rect
    ensures { result ≡ record { x = 0; y = 0; w = 1; h = 1 } }
{
    let size = Size::new(64, 64).unwrap();
    Rect::within(size, 0, 0, 1, 1).unwrap()
}

/// Adds the tiles in which a rectangle has cells to those of `met`: its cell in column c and row r stands for the tile in column c
/// and row r of tiles.
pub fn add_tiles_of(met: &mut Tile, area: Rect)
    ensures { HasCells met.new (λ column row.
        in_tile.has met.old column row || meets_tile area column row) }
{
    let (x, w) = tiles_along(area.x(), area.w());
    let (y, h) = tiles_along(area.y(), area.h());
    met.set_rect(x, y, w, h, true);
}

fn add_tiles_of_all(met: &mut Tile, areas: &[Rect])
    ensures added { HasTilesOf met.new areas.now }
    ensures kept { HasAllOf met.old met.new }
{
    for area in areas {
        add_tiles_of(met, *area);
    }
}

// Of the first 64 tiles along an axis, the first that has one of the `len` places from `start` on, and how many have.
fn tiles_along(start: u16, len: u16) -> (u32, u32)
    ensures within { result.0 + result.1 ≤ 64 }
    ensures met { (k : ℕ) → k < 64 → is_among result.0 result.1 k ≡ is_met start len k }
{
    let (first, end) = tiles_met(u32::from(start), u32::from(len), 64);
    (first, end - first)
}
