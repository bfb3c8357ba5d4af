//! The blocks of a tile that have a cell of a set.

ghost use Rattle.std.specs.Prelude.{◌≡◌, ℕ, ◌*◌, ◌<◌, ◌≤◌, Bool, ◌||◌, slice_index};
ghost use Rattle.bit_tile.specs.Bit.{bit};
ghost use Rattle.block_rule.specs.Around.{either, is_walled_at};
ghost use Rattle.block_rule.specs.Rows.{ShowsTile, ShowsOddRow};
ghost use Rattle.block_rule.specs.Shown.{IsSeenIn, TellsRows};
ghost use Rattle.block_rule.specs.NamedBlocks.{AreEvenBlocksOf, AreOddBlocksOf};
ghost use Rattle.block_rule.specs.TileBlocks.{NamesBlocks, DifferInRows, walled_by};

use crate::Window;
use crate::blocks::{AnyCorner, Blocks, Rule};
use crate::odd_rows::{OddRow, bottom_row, inner_row, made_odd, top_row};
use bit_tile::Tile;

/// Blocks of a tile at odd parity: words for the row of blocks at its top, those that begin in its odd rows 0 to 30, and the one at
/// its bottom. Bit i of a word stands for the block that begins in odd column i, or that ends in even column i.
#[derive(Clone, Copy)]
pub struct OddBlocks {
    pub begin: [u32; 33],
    pub end: [u32; 33],
}

/// Words that name blocks of a tile, of both parities. Bit i of word k of `even` stands for the block at its columns 2 * i and
/// 2 * i + 1 and its rows 2 * k and 2 * k + 1.
#[derive(Clone, Copy)]
pub struct TileBlocks {
    pub even: [u32; 32],
    pub odd: OddBlocks,
}

/// A reference to such words, and a word with a bit for each pair of the tile's rows: bit j is 0 only if no block of either parity
/// lies in rows 2 * j and 2 * j + 1.
#[derive(Clone, Copy)]
pub struct SetBlocks<'a> {
    pub rows: u32,
    pub blocks: &'a TileBlocks,
}

impl SetBlocks<'static> {
    /// No blocks.
    pub const NONE: SetBlocks<'static> = SetBlocks {
        rows: 0,
        blocks: &TileBlocks::NONE,
    };
}

// The row of odd blocks that begins at the window's row 2 * k.
#[inline]
fn odd_row(set: &Window, k: usize) -> OddRow
    requires { k < 33 }
    ensures { (window : ℕ → ℕ → Bool) → IsSeenIn set.now window →
        ShowsOddRow window (2 * k) result }
{
    let near = &set.round;
    match k {
        0 => top_row(set.tile, near),
        32 => bottom_row(set.tile, near),
        _ => inner_row(set.tile, near.left, near.right, k - 1),
    }
}

// Those of odd parity become the blocks with a cell of the set, and those that others name.
fn renew_odd(words: &mut OddBlocks, set: &Window, others: &OddBlocks, from: usize, end: usize)
    requires { end ≤ 33 }
    ensures { (before some other : ℕ → ℕ → Bool) → IsSeenIn set.now some →
        AreOddBlocksOf others.now (is_walled_at 1 other) →
        DifferInRows from end before (either some other) →
        AreOddBlocksOf words.old (is_walled_at 1 before) →
        AreOddBlocksOf words.new (is_walled_at 1 (either some other)) }
{
    for k in from..end {
        let named = made_odd(AnyCorner, odd_row(set, k));
        words.begin[k] = named.upper_left | others.begin[k];
        words.end[k] = named.upper_right | others.end[k];
    }
}

// And those of even parity.
fn renew_even(words: &mut [u32; 32], set: &Tile, others: &[u32; 32], from: usize, end: usize)
    requires { end ≤ 33 }
    ensures { (before some other : ℕ → ℕ → Bool) → ShowsTile some set.now →
        AreEvenBlocksOf others.now (is_walled_at 0 other) →
        DifferInRows from end before (either some other) →
        AreEvenBlocksOf words.old (is_walled_at 0 before) →
        AreEvenBlocksOf words.new (is_walled_at 0 (either some other)) }
{
    for j in from.saturating_sub(1)..end.min(32) {
        let named = AnyCorner.made(Blocks {
            upper_left: set.even_even[j],
            upper_right: set.odd_even[j],
            lower_left: set.even_odd[j],
            lower_right: set.odd_odd[j],
        });
        words[j] = named.upper_left | others[j];
    }
}

// A word that tells in which of the tile's rows the blocks lie, if `rows` did before.
fn renew_rows(rows: u32, blocks: &TileBlocks, from: usize, end: usize) -> u32
    requires { end ≤ 33 }
    ensures { (before now : ℕ → ℕ → Bool) → DifferInRows from end before now →
        AreEvenBlocksOf blocks.now.even (is_walled_at 0 now) →
        AreOddBlocksOf blocks.now.odd (is_walled_at 1 now) →
        ((p : ℕ) → p < 2 → TellsRows rows (walled_by before p)) →
        (p : ℕ) → p < 2 → TellsRows result (walled_by now p) }
{
    let TileBlocks { even, odd } = blocks;
    let mut row_pairs = rows;
    for j in from.saturating_sub(1)..end.min(32) {
        let above = odd.begin[j] | odd.end[j];
        let below = odd.begin[j + 1] | odd.end[j + 1];
        if even[j] | above | below != 0 {
            row_pairs |= 1 << j;
        } else {
            row_pairs &= !(1 << j);
        }
    }
    row_pairs
}

impl TileBlocks {
    /// No block.
    pub const NONE: TileBlocks = TileBlocks {
        even: [0; 32],
        odd: OddBlocks {
            begin: [0; 33],
            end: [0; 33],
        },
    };

    /// They become the blocks with a cell of the set, and those of the others. If they were those of a set, that set differs from
    /// both together in rows 2 * from to 2 * end - 1 of the window alone. `rows` tells in which of the tile's rows they lay;
    /// returns the word that tells it now.
    pub fn renew(
        &mut self,
        rows: u32,
        set: &Window,
        others: SetBlocks<'_>,
        from: usize,
        end: usize,
    ) -> u32
        requires { end ≤ 33 }
        ensures { (before some other : ℕ → ℕ → Bool) → IsSeenIn set.now some →
            NamesBlocks others.entry.rows others.entry.blocks.now (walled_by other) →
            DifferInRows from end before (either some other) →
            NamesBlocks rows self.old (walled_by before) →
            NamesBlocks result self.new (walled_by (either some other)) }
    {
        let TileBlocks { even, odd } = others.blocks;
        renew_even(&mut self.even, set.tile, even, from, end);
        renew_odd(&mut self.odd, set, odd, from, end);
        renew_rows(rows, self, from, end)
    }
}
