//! Fills or empties the cells that rectangles have of a tile, and counts those that change.

ghost use Rattle.std.specs.Prelude.{◌≡◌, ℕ, ◌+◌, ◌-◌, ◌<◌, ◌&&◌, true, false, if◌then◌else◌, IsTrue, slice_index};
ghost use Rattle.bit_tile.specs.Tile.{HasCells, cell_changes};
ghost use Rattle.bit_tile.specs.Tile as in_tile;
ghost use Rattle.phase_step.specs.Counts.{AreTileCounts};
ghost use Rattle.phase_step.specs.Exchanges.{is_in_any, is_left, is_set};

use gas_plane::{Tile, add_counts, is_apart, is_covered, set_part};
use gas_terms::Rect;

// The four numbers.
#[inline(always)]
fn widened(counts: [u32; 4]) -> [u64; 4]
    ensures { (k : ℕ) → slice_index result k ≡ slice_index counts k }
{
    [
        counts[0] as u64,
        counts[1] as u64,
        counts[2] as u64,
        counts[3] as u64,
    ]
}

// How many cells the classes of a tile lack.
#[inline(always)]
fn lacking(counts: [u32; 4]) -> [u64; 4]
    ensures { (k : ℕ) → k < 4 → slice_index result k ≡ 1024 - slice_index counts k }
{
    let [a, b, c, d] = widened(counts);
    [
        1024u64.saturating_sub(a),
        1024u64.saturating_sub(b),
        1024u64.saturating_sub(c),
        1024u64.saturating_sub(d),
    ]
}

// Fills or empties a whole tile. Returns how many cells change, by their classes.
fn set_all(tile: &mut Tile, held: bool) -> [u64; 4]
    ensures cells { HasCells tile.new (λ _ _. held) }
    ensures count { AreTileCounts result (λ x y. cell_changes held (in_tile.has tile.old x y)) }
{
    let counts = tile.count_by_parity();
    if held {
        *tile = Tile::full();
        lacking(counts)
    } else {
        *tile = Tile::empty();
        widened(counts)
    }
}

// Fills or empties those cells of a tile. Returns how many change, by their classes.
#[inline(always)]
fn set_cells(tile: &mut Tile, cells: &Tile, held: bool) -> [u64; 4]
    ensures cells { HasCells tile.new (λ x y.
        if in_tile.has cells.now x y then held else in_tile.has tile.old x y) }
    ensures count { AreTileCounts result (λ x y.
        in_tile.has cells.now x y && cell_changes held (in_tile.has tile.old x y)) }
{
    if held {
        let mut changed = *cells;
        changed.cut(tile);
        tile.join(&changed);
        widened(changed.count_by_parity())
    } else {
        let changed = tile.meet(cells);
        tile.cut(&changed);
        widened(changed.count_by_parity())
    }
}

// Whether one of the rectangles has all of the tile that begins at (left, top).
fn one_covers(areas: &[Rect], left: u32, top: u32) -> bool
    ensures { IsTrue result → (x y : ℕ) → x < 64 → y < 64 →
        is_in_any areas.now (left + x) (top + y) ≡ true }
{
    for area in areas {
        if is_covered(*area, left, top) {
            return true;
        }
    }
    false
}

// True only if no rectangle has a cell of the tile that begins at (left, top).
fn are_apart(areas: &[Rect], left: u32, top: u32) -> bool
    ensures { IsTrue result → (x y : ℕ) → x < 64 → y < 64 →
        is_in_any areas.now (left + x) (top + y) ≡ false }
{
    for area in areas {
        if !is_apart(*area, left, top) {
            return false;
        }
    }
    true
}

// Whether a tile has all cells, or none. It looks at all words, since the compiler then makes vectors of them.
#[inline(always)]
fn is_all(tile: &Tile, held: bool) -> bool
    ensures { IsTrue result → HasCells tile.now (λ _ _. held) }
{
    let word = if held { u32::MAX } else { 0 };
    let mut others = 0;
    for j in 0..32usize {
        let even = (tile.even_even[j] ^ word) | (tile.odd_even[j] ^ word);
        let odd = (tile.even_odd[j] ^ word) | (tile.odd_odd[j] ^ word);
        others |= even | odd;
    }
    others == 0
}

/// True only if the tile that begins at (left, top) stays as it is when drains empty their cells and sources then fill theirs: one
/// source has all of it and it is full, or one drain and it is empty. So is the middle of a large port after its first step.
pub fn is_settled(tile: &Tile, drains: &[Rect], sources: &[Rect], left: u32, top: u32) -> bool
    ensures { IsTrue result → HasCells tile.now (λ x y.
        is_left (in_tile.has tile.now x y) drains.now sources.now (left + x) (top + y)) }
{
    if one_covers(sources, left, top) {
        return is_all(tile, true);
    }
    one_covers(drains, left, top) && are_apart(sources, left, top) && is_all(tile, false)
}

// Fills or empties the cells that rectangles have of the tile, one rectangle after another. Returns how many change, by their
// classes.
fn set_each(tile: &mut Tile, areas: &[Rect], left: u32, top: u32, held: bool) -> [u64; 4]
    ensures cells { HasCells tile.new (λ x y.
        if is_in_any areas.now (left + x) (top + y) then held else in_tile.has tile.old x y) }
    ensures count { AreTileCounts result (λ x y.
        is_in_any areas.now (left + x) (top + y) && cell_changes held (in_tile.has tile.old x y)) }
{
    let mut changed = [0; 4];
    for area in areas {
        let here = set_part(tile, *area, left, top, held);
        let sum = add_counts(changed, here);
        changed = sum;
    }
    changed
}

// The cells that the rectangles have of the tile that begins at (left, top), but for those of other rectangles.
fn cells_but(areas: &[Rect], kept: &[Rect], left: u32, top: u32) -> Tile
    ensures { HasCells result (λ x y. is_set areas.now kept.now (left + x) (top + y)) }
{
    let mut cells = Tile::empty();
    set_each(&mut cells, areas, left, top, true);
    set_each(&mut cells, kept, left, top, false);
    cells
}

/// Fills or empties the cells that the rectangles have of the tile that begins at (left, top), but keeps those of other rectangles.
/// Returns how many change, by their classes.
pub fn set_areas(
    tile: &mut Tile,
    areas: &[Rect],
    kept: &[Rect],
    left: u32,
    top: u32,
    held: bool,
) -> [u64; 4]
    ensures cells { HasCells tile.new (λ x y.
        if is_set areas.now kept.now (left + x) (top + y) then held else in_tile.has tile.old x y) }
    ensures count { AreTileCounts result (λ x y.
        is_set areas.now kept.now (left + x) (top + y) &&
        cell_changes held (in_tile.has tile.old x y)) }
{
    if one_covers(kept, left, top) {
        return [0; 4];
    }
    if one_covers(areas, left, top) && are_apart(kept, left, top) {
        return set_all(tile, held);
    }
    if are_apart(areas, left, top) {
        return [0; 4];
    }
    if are_apart(kept, left, top) {
        return set_each(tile, areas, left, top, held);
    }
    let cells = cells_but(areas, kept, left, top);
    set_cells(tile, &cells, held)
}
