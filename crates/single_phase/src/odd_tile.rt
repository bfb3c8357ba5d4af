//! The phase of one tile at odd parity, from one tile into another. Its blocks reach into the eight tiles round it.

ghost use Rattle.std.specs.Prelude.{ℕ, Bool};
ghost use Rattle.bit_tile.specs.Tile.{HasCells};
ghost use Rattle.block_rule.specs.Around.{turned_window, is_walled_at};
ghost use Rattle.block_rule.specs.NamedBlocks.{AreOddBlocksOf};
ghost use Rattle.block_rule.specs.Rows.{ShowsTile, ShowsAllRound, ShowsOddRow};
ghost use Rattle.block_rule.specs.Shown.{IsSeenIn};
ghost use Rattle.block_rule.specs.TileBlocks.{AreGivenBlocks, walled_by};
ghost use Rattle.single_phase.specs.OddTiles.{IsCollidedOdd};

use bit_tile::Tile;
use block_rule::{
    Blocks, OddBlocks, OddRow, SetBlocks, Window, bottom_row, collided, inner_row, next, previous,
    top_row,
};
use tile_border::Round;

// A row of odd blocks. Bit i of `begin` and `end` is set if the block is walled that begins in odd column i, or that ends in even
// column i.
#[inline]
fn collided_odd(row: OddRow, begin: u32, end: u32) -> Blocks
    ensures { (window : ℕ → ℕ → Bool) (y : ℕ) → ShowsOddRow window y row →
        IsCollidedOdd begin end window y result }
{
    let OddRow { own, left, right } = row;
    let begin = collided(
        Blocks {
            upper_left: own.upper_left,
            upper_right: next(own.upper_right, right.upper),
            lower_left: own.lower_left,
            lower_right: next(own.lower_right, right.lower),
        },
        begin,
    );
    let end = collided(
        Blocks {
            upper_left: previous(own.upper_left, left.upper),
            upper_right: own.upper_right,
            lower_left: previous(own.lower_left, left.lower),
            lower_right: own.lower_right,
        },
        end,
    );
    Blocks {
        upper_left: begin.upper_left,
        upper_right: end.upper_right,
        lower_left: begin.lower_left,
        lower_right: end.lower_right,
    }
}

// The tile after the blocks of odd parity have turned. The words name the walled ones.
fn turned_rows(tile: &Tile, near: &Round, walled: &OddBlocks) -> Tile
    ensures { (window solid : ℕ → ℕ → Bool) → ShowsTile window tile.now →
        ShowsAllRound window near.now → AreOddBlocksOf walled.now (is_walled_at 1 solid) →
        HasCells result (turned_window 1 window solid) }
{
    let mut out = Tile::empty();
    let top = collided_odd(top_row(tile, near), walled.begin[0], walled.end[0]);
    out.odd_even[0] = top.lower_left;
    out.even_even[0] = top.lower_right;
    for j in 0..31usize {
        let row = inner_row(tile, near.left, near.right, j);
        let made = collided_odd(row, walled.begin[j + 1], walled.end[j + 1]);
        out.odd_odd[j] = made.upper_left;
        out.even_odd[j] = made.upper_right;
        out.odd_even[j + 1] = made.lower_left;
        out.even_even[j + 1] = made.lower_right;
    }
    let bottom = collided_odd(bottom_row(tile, near), walled.begin[32], walled.end[32]);
    out.odd_odd[31] = bottom.upper_left;
    out.even_odd[31] = bottom.upper_right;
    out
}

/// Puts a tile into `out` as it is after its blocks have turned at odd parity, where they reach into the eight tiles round it.
pub fn turn_tile_odd(particles: &Window, walled: Option<SetBlocks<'_>>, out: &mut Tile)
    ensures { (window solid : ℕ → ℕ → Bool) → IsSeenIn particles.now window →
        AreGivenBlocks walled.entry (walled_by solid) →
        HasCells out.new (turned_window 1 window solid) }
{
    let Window { tile, round } = particles;
    let named = match walled {
        Some(set) => set,
        None => SetBlocks::NONE,
    };
    *out = turned_rows(tile, round, &named.blocks.odd);
}
