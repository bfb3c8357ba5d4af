//! Which tiles a rectangle meets, and the part of it in each.

ghost use Rattle.std.specs.Prelude.{◌≡◌, ◌↔◌, IsTrue, ℕ, ◌+◌, ◌*◌, ◌/◌, ◌%◌, ◌<◌, ◌≤◌, ◌^◌, ◌&&◌, ◌==◌, slice_index, if◌then◌else◌, nat_le, nat_lt, false, MatchOption, true};
ghost use Rattle.gas_terms.specs.Cells.{is_inside};
ghost use Rattle.bit_tile.specs.Tile as in_tile;
ghost use Rattle.bit_tile.specs.Tile.{HasCells, count_cells, cell_changes};

use bit_tile::Tile;
use gas_terms::Rect;

/// Of n places of 64 cells each, the first that `len` cells from `start` on meet, and the first after them.
pub fn tiles_met(start: u32, len: u32, n: u32) -> (u32, u32)
    requires { start + len < 2 ^ 31 }
    ensures ordered { result.0 ≤ result.1 }
    ensures within { result.1 ≤ n }
    ensures before { (x : ℕ) → x / 64 < result.0 →
        (nat_le start x && nat_lt x (start + len)) ≡ false }
    ensures after { (x : ℕ) → x / 64 < n → result.1 ≤ x / 64 →
        (nat_le start x && nat_lt x (start + len)) ≡ false }
    ensures met { (k : ℕ) → k < n → (nat_le result.0 k && nat_lt k result.1) ≡
        (nat_lt start (64 * (k + 1)) && nat_lt (64 * k) (start + len)) }
{
    let end = ((start + len + 63) / 64).min(n);
    ((start / 64).min(end), end)
}

/// The rectangle's cells among the 64 by 64 from the place (left, top) on, if there are any.
pub fn part_of(area: Rect, left: u32, top: u32) -> Option<Tile>
    ensures { MatchOption result
        ((x y : ℕ) → x < 64 → y < 64 → is_inside area (left + x) (top + y) ≡ false)
        (λ part. HasCells part (λ x y. is_inside area (left + x) (top + y))) }
{
    let (x, w) = overlap(area.x() as u32, area.w() as u32, left);
    let (y, h) = overlap(area.y() as u32, area.h() as u32, top);
    if w == 0 || h == 0 {
        return None;
    }
    Some(Tile::rect(x, y, w, h))
}

/// Fills or empties the rectangle's cells among the 64 by 64 from the place (left, top) on, which are the tile's. Returns how many
/// change in each class of columns and rows: even column and even row, odd and even, even and odd, odd and odd.
pub fn set_part(tile: &mut Tile, area: Rect, left: u32, top: u32, held: bool) -> [u32; 4]
    ensures cells { HasCells tile.new (λ x y.
        if is_inside area (left + x) (top + y) then held else in_tile.has tile.old x y) }
    ensures changed { (a b : ℕ) → a < 2 → b < 2 → slice_index result (2 * b + a) ≡
        count_cells (λ x y. is_inside area (left + x) (top + y) &&
        cell_changes held (in_tile.has tile.old x y) && x % 2 == a && y % 2 == b) }
    ensures bound { (k : ℕ) → slice_index result k ≤ 2048 }
{
    let (x, w) = overlap(area.x() as u32, area.w() as u32, left);
    let (y, h) = overlap(area.y() as u32, area.h() as u32, top);
    tile.set_rect(x, y, w, h, held)
}

/// Whether the rectangle has none of the 64 by 64 cells from the place (left, top) on.
#[inline]
pub fn is_apart(area: Rect, left: u32, top: u32) -> bool
    ensures { IsTrue result ↔
        ((x y : ℕ) → x < 64 → y < 64 → is_inside area (left + x) (top + y) ≡ false) }
{
    let (_, w) = overlap(area.x() as u32, area.w() as u32, left);
    let (_, h) = overlap(area.y() as u32, area.h() as u32, top);
    h == 0 || w == 0
}

/// Whether the rectangle has all of the 64 by 64 cells from the place (left, top) on.
pub fn is_covered(area: Rect, left: u32, top: u32) -> bool
    ensures { IsTrue result ↔
        ((x y : ℕ) → x < 64 → y < 64 → is_inside area (left + x) (top + y) ≡ true) }
{
    spans(area.x(), area.w(), left) && spans(area.y(), area.h(), top)
}

// Whether the `len` places from `start` on have all 64 from `from` on.
fn spans(start: u16, len: u16, from: u32) -> bool
    ensures { IsTrue result ↔ (start ≤ from) × (from + 64 ≤ start + len) }
{
    let start = u32::from(start);
    start <= from && 64 <= (start + u32::from(len)).saturating_sub(from)
}

// What `len` places from `start` on have in common with the 64 from `from` on: where that begins there, and how many.
pub fn overlap(start: u32, len: u32, from: u32) -> (u32, u32)
    requires { start + len < 2 ^ 32 }
    ensures within { result.0 + result.1 ≤ 64 }
    ensures same { (k : ℕ) → k < 64 → (nat_le result.0 k && nat_lt k (result.0 + result.1)) ≡
        (nat_le start (from + k) && nat_lt (from + k) (start + len)) }
{
    let low = start.saturating_sub(from).min(64);
    let high = (start + len).saturating_sub(from).min(64);
    (low, high - low)
}
