//! Fills and clears rectangles of cells.

ghost use Rattle.std.specs.Prelude.{◌≡◌, ◌/◌, ◌%◌, ◌<◌, ◌==◌, ◌&&◌};
ghost use Rattle.gas_terms.specs.Cells.{tile_count, is_inside, filled, cleared};
ghost use Rattle.gas_plane.specs.Planes.{IsLattice, tile_of, painted_where};
ghost use Rattle.bit_tile.specs.Tile as in_tile;

use crate::Plane;
use crate::tile_areas::{is_covered, part_of, tiles_met};
use bit_tile::Tile;
use gas_terms::Rect;

impl Plane {
    /// Adds the cells of the rectangle.
    pub fn fill(&mut self, area: Rect)
        ensures { self.new ≡ filled self.old area }
    {
        self.paint(area, true);
    }

    /// Removes the cells of the rectangle.
    pub fn clear(&mut self, area: Rect)
        ensures { self.new ≡ cleared self.old area }
    {
        self.paint(area, false);
    }

    fn paint(&mut self, area: Rect, held: bool)
        ensures { self.new ≡ painted_where self.old (is_inside area) held }
    {
        let (first, end) = tiles_met(area.y() as u32, area.h() as u32, self.down());
        for row in first..end {
            self.paint_row(row, area, held);
        }
    }

    // The same in one row of tiles.
    fn paint_row(&mut self, row: u32, area: Rect, held: bool)
        requires { row < self.old.height / 64 }
        ensures { self.new ≡
            painted_where self.old (λ x y. (y / 64 == row) && is_inside area x y) held }
    {
        let across = self.across();
        let (first, end) = tiles_met(area.x() as u32, area.w() as u32, across);
        for column in first..end {
            let i = row * across + column;
            if is_covered(area, column * 64, row * 64) {
                self.paint_whole_tile(i, held);
            } else if let Some(part) = part_of(area, column * 64, row * 64) {
                self.paint_tile(i, &part, held);
            }
        }
    }

    // Puts all cells into tile i, or takes them out.
    fn paint_whole_tile(&mut self, i: u32, held: bool)
        requires { i < tile_count self.old }
        ensures { self.new ≡ painted_where self.old (λ x y. tile_of self.old x y == i) held }
    {
        let tile = if held { Tile::full() } else { Tile::empty() };
        self.set_tile(i, tile);
    }

    // Puts the part's cells into tile i, or takes them out.
    fn paint_tile(&mut self, i: u32, part: &Tile, held: bool)
        requires lattice { IsLattice self.old }
        requires i { i < tile_count self.old }
        ensures { self.new ≡ painted_where self.old
            (λ x y. (tile_of self.old x y == i) && in_tile.has part.now (x % 64) (y % 64)) held }
    {
        let mut tile = *self.tile(i);
        if held {
            tile.join(part);
        } else {
            tile.cut(part);
        }
        self.set_tile(i, tile);
    }
}
