//! The collision at even parity, among no walled blocks and among some.

ghost use Rattle.std.specs.Prelude.{◌≡◌, ℕ, ◌+◌, ◌<◌, ◌≤◌, ◌⊎◌, Bool};
ghost use Rattle.bit_tile.specs.Bit.{bit};
ghost use Rattle.bit_tile.specs.Tile.{HasCells};
ghost use Rattle.block_rule.specs.Around.{is_walled_at, turned_window};
ghost use Rattle.block_rule.specs.Cell.{made, turned_cell};
ghost use Rattle.block_rule.specs.NamedBlocks.{AreCollidedEven, NameEvenBlocks};
ghost use Rattle.block_rule.specs.Rows.{ShowsTile, IsMade, even_row, eight_row};
ghost use Rattle.block_rule.specs.Shown.{TellsRows};

use crate::blocks::{Blocks, EightRows, Rule, collided};
use crate::walled::{NoBlocks, Walled, bits_from};
use bit_tile::Tile;

/// Applies a rule to all blocks of even parity of a tile, in place: each lies in the tile.
#[inline]
pub fn make_even<R: Rule>(rule: R, tile: &mut Tile)
    ensures { (window : ℕ → ℕ → Bool) → ShowsTile window tile.old →
        HasCells tile.new (made (R.cell rule) 0 window) }
{
    for j in 0..32usize {
        let new = rule.made(Blocks {
            upper_left: tile.even_even[j],
            upper_right: tile.odd_even[j],
            lower_left: tile.even_odd[j],
            lower_right: tile.odd_odd[j],
        });
        tile.even_even[j] = new.upper_left;
        tile.odd_even[j] = new.upper_right;
        tile.even_odd[j] = new.lower_left;
        tile.odd_odd[j] = new.lower_right;
    }
}

// The eight rows of even blocks from row `from` on, after the collision.
#[inline(always)]
fn collided_eight<W: Walled>(walled: W, from: usize, tile: &Tile) -> EightRows
    requires { from + 8 ≤ 32 }
    ensures { (k : ℕ) → k < 8 →
        IsMade (λ i. turned_cell (bit (W.evens walled (from + k)) i))
        (even_row tile.now (from + k)) (eight_row result k) }
{
    let mut rows = EightRows::ZERO;
    for k in 0..8usize {
        let j = from + k;
        // Read first, so that the compiler shares no read of cells with rows of no walled block.
        let kept = walled.even(j);
        let old = Blocks {
            upper_left: tile.even_even[j],
            upper_right: tile.odd_even[j],
            lower_left: tile.even_odd[j],
            lower_right: tile.odd_odd[j],
        };
        let new = collided(old, kept);
        rows.upper_left[k] = new.upper_left;
        rows.upper_right[k] = new.upper_right;
        rows.lower_left[k] = new.lower_left;
        rows.lower_right[k] = new.lower_right;
    }
    rows
}

// Writes these eight rows to `out`.
#[inline(always)]
fn write_eight(rows: &EightRows, from: usize, out: &mut Tile)
    requires { from + 8 ≤ 32 }
    ensures rows { (k : ℕ) → k < 8 → even_row out.new (from + k) ≡ eight_row rows.now k }
    ensures rest { (j : ℕ) → (j < from) ⊎ (from + 8 ≤ j) →
        even_row out.new j ≡ even_row out.old j }
{
    for k in 0..8usize {
        let j = from + k;
        out.even_even[j] = rows.upper_left[k];
        out.odd_even[j] = rows.upper_right[k];
        out.even_odd[j] = rows.lower_left[k];
        out.odd_odd[j] = rows.lower_right[k];
    }
}

// Turns eight rows of even blocks.
#[inline(always)]
fn collide_eight<W: Walled>(walled: W, from: usize, tile: &mut Tile)
    requires { from + 8 ≤ 32 }
    ensures { (solid : ℕ → ℕ → Bool) → NameEvenBlocks (W.evens walled) solid →
        TellsRows (W.row_pairs walled) (is_walled_at 0 solid) →
        AreCollidedEven from (from + 8) solid tile.old tile.new }
{
    let rows = if bits_from(walled.rows(), from, 8) == 0 {
        collided_eight(NoBlocks, from, tile)
    } else {
        collided_eight(walled, from, tile)
    };
    write_eight(&rows, from, tile);
}

/// Turns the blocks of even parity of a tile, in place.
#[inline(never)]
pub fn collide_even<W: Walled>(walled: W, tile: &mut Tile)
    ensures { (window solid : ℕ → ℕ → Bool) → ShowsTile window tile.old →
        NameEvenBlocks (W.evens walled) solid →
        TellsRows (W.row_pairs walled) (is_walled_at 0 solid) →
        HasCells tile.new (turned_window 0 window solid) }
{
    collide_eight(walled, 0, tile);
    collide_eight(walled, 8, tile);
    collide_eight(walled, 16, tile);
    collide_eight(walled, 24, tile);
}
