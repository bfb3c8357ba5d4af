//! The blocks of a tile that have a cell of a set, for a caller that keeps no words of them.

ghost use Rattle.std.specs.Prelude.{ℕ, Bool};
ghost use Rattle.block_rule.specs.Around.{either};
ghost use Rattle.block_rule.specs.Shown.{IsSeenIn};
ghost use Rattle.block_rule.specs.TileBlocks.{NamesBlocks, walled_by};

use block_rule::{SetBlocks, TileBlocks, Window};

/// The blocks of a tile with a cell of the set, and those of the others, with a word that tells in which of the tile's rows they
/// lie, of either parity.
pub fn tile_blocks(set: &Window, others: SetBlocks<'_>) -> (u32, TileBlocks)
    ensures { (some other : ℕ → ℕ → Bool) → IsSeenIn set.now some →
        NamesBlocks others.entry.rows others.entry.blocks.now (walled_by other) →
        NamesBlocks result.0 result.1 (walled_by (either some other)) }
{
    let mut blocks = TileBlocks::NONE;
    let rows = blocks.renew(0, set, others, 0, 33);
    (rows, blocks)
}
