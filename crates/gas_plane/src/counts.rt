//! Counts of the cells of rectangles, by the parities of column and row.

ghost use Rattle.std.specs.Prelude.{◌≡◌, ℕ, ◌+◌, ◌*◌, ◌%◌, ◌<◌, ◌≤◌, ◌^◌, ◌==◌, ◌&&◌, true, slice_index};
ghost use Rattle.gas_terms.specs.Cells.{extent, is_inside, lies_within};
ghost use Rattle.gas_terms.specs.Accounts.{parity_count};
ghost use Rattle.bit_tile.specs.Tile.{count_cells};
ghost use Rattle.bit_tile.specs.Tile as in_tile;

use crate::Plane;
use crate::tile_areas::{is_covered, part_of, tiles_met};
use bit_tile::Tile;
use gas_terms::Rect;

impl Plane {
    /// How many cells the rectangle has in each class of columns and rows: even column and even row, odd and even,
    /// even and odd, odd and odd.
    pub fn counts_in(&self, area: Rect) -> [u64; 4]
        requires { lies_within (extent self.now) area ≡ true }
        ensures { (a b : ℕ) → a < 2 → b < 2 →
            slice_index result (2 * b + a) ≡ parity_count self.now area a b }
    {
        let across = self.across();
        let (left, right) = tiles_met(area.x() as u32, area.w() as u32, across);
        let (top, bottom) = tiles_met(area.y() as u32, area.h() as u32, self.down());
        let mut counts = [0; 4];
        for row in top..bottom {
            for column in left..right {
                let tile = self.tile(row * across + column);
                let here = counts_of(tile, area, column * 64, row * 64);
                let more = add_counts(counts, here);
                counts = more;
            }
        }
        counts
    }
}

// How many cells of the tile that begins at (left, top) the rectangle has in each class.
fn counts_of(tile: &Tile, area: Rect, left: u32, top: u32) -> [u32; 4]
    ensures counts { (a b : ℕ) → a < 2 → b < 2 → slice_index result (2 * b + a) ≡
        count_cells (λ x y. (in_tile.has tile.now x y && is_inside area (left + x) (top + y))
        && x % 2 == a && y % 2 == b) }
    ensures bound { (k : ℕ) → slice_index result k ≤ 2048 }
{
    if is_covered(area, left, top) {
        return tile.count_by_parity();
    }
    match part_of(area, left, top) {
        Some(part) => tile.meet(&part).count_by_parity(),
        None => [0; 4],
    }
}

/// Adds the counts of four classes.
pub fn add_counts(counts: [u64; 4], more: [u32; 4]) -> [u64; 4]
    requires { (k : ℕ) → k < 4 → slice_index counts k + slice_index more k < 2 ^ 63 }
    ensures { (k : ℕ) → k < 4 → slice_index result k ≡ slice_index counts k + slice_index more k }
{
    [
        counts[0] + more[0] as u64,
        counts[1] + more[1] as u64,
        counts[2] + more[2] as u64,
        counts[3] + more[3] as u64,
    ]
}
