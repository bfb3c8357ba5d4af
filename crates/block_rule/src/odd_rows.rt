//! The rows of odd blocks of a tile: what is seen of them in the tile and in those round it, and what a rule makes of one.

ghost use Rattle.std.specs.Prelude.{ℕ, ◌+◌, ◌*◌, ◌<◌, Bool};
ghost use Rattle.block_rule.specs.Rows.{ShowsTile, ShowsAllRound, ShowsInnerRows, ShowsOddRow, IsMadeOdd};

use crate::blocks::{Beside, Blocks, Rule, next, previous};
use bit_tile::Tile;
use tile_border::Round;

/// A row of odd blocks. The tile has the left corners of those that begin in its columns, and the right corners of those that
/// end in them. The other corners of the last and the first are in the tiles beside it.
#[derive(Clone, Copy)]
pub struct OddRow {
    pub own: Blocks,
    pub left: Beside,
    pub right: Beside,
}

/// The row that begins in the tile's odd row j, and ends in the tile.
#[inline]
pub fn inner_row(tile: &Tile, left: &Tile, right: &Tile, j: usize) -> OddRow
    requires { j < 31 }
    ensures { (window : ℕ → ℕ → Bool) → ShowsInnerRows window tile.now left.now right.now →
        ShowsOddRow window (2 * j + 2) result }
{
    let own = Blocks {
        upper_left: tile.odd_odd[j],
        upper_right: tile.even_odd[j],
        lower_left: tile.odd_even[j + 1],
        lower_right: tile.even_even[j + 1],
    };
    let left = Beside {
        upper: left.odd_odd[j],
        lower: left.odd_even[j + 1],
    };
    let right = Beside {
        upper: right.even_odd[j],
        lower: right.even_even[j + 1],
    };
    OddRow { own, left, right }
}

/// The row at the tile's top, whose upper corners are in the tiles above.
#[inline]
pub fn top_row(tile: &Tile, near: &Round) -> OddRow
    ensures { (window : ℕ → ℕ → Bool) → ShowsTile window tile.now → ShowsAllRound window near.now →
        ShowsOddRow window 0 result }
{
    let own = Blocks {
        upper_left: near.above.odd_odd[31],
        upper_right: near.above.even_odd[31],
        lower_left: tile.odd_even[0],
        lower_right: tile.even_even[0],
    };
    let left = Beside {
        upper: near.above_left.odd_odd[31],
        lower: near.left.odd_even[0],
    };
    let right = Beside {
        upper: near.above_right.even_odd[31],
        lower: near.right.even_even[0],
    };
    OddRow { own, left, right }
}

/// The row at its bottom, whose lower corners are in the tiles below.
#[inline]
pub fn bottom_row(tile: &Tile, near: &Round) -> OddRow
    ensures { (window : ℕ → ℕ → Bool) → ShowsTile window tile.now → ShowsAllRound window near.now →
        ShowsOddRow window 64 result }
{
    let own = Blocks {
        upper_left: tile.odd_odd[31],
        upper_right: tile.even_odd[31],
        lower_left: near.below.odd_even[0],
        lower_right: near.below.even_even[0],
    };
    let left = Beside {
        upper: near.left.odd_odd[31],
        lower: near.below_left.odd_even[0],
    };
    let right = Beside {
        upper: near.right.even_odd[31],
        lower: near.below_right.even_even[0],
    };
    OddRow { own, left, right }
}

/// Applies a rule to such a row.
#[inline]
pub fn made_odd<R: Rule>(rule: R, row: OddRow) -> Blocks
    ensures { (window : ℕ → ℕ → Bool) (y : ℕ) → ShowsOddRow window y row →
        IsMadeOdd (R.cell rule) window y result }
{
    let OddRow { own, left, right } = row;
    let begin = rule.made(Blocks {
        upper_left: own.upper_left,
        upper_right: next(own.upper_right, right.upper),
        lower_left: own.lower_left,
        lower_right: next(own.lower_right, right.lower),
    });
    let end = rule.made(Blocks {
        upper_left: previous(own.upper_left, left.upper),
        upper_right: own.upper_right,
        lower_left: previous(own.lower_left, left.lower),
        lower_right: own.lower_right,
    });
    Blocks {
        upper_left: begin.upper_left,
        upper_right: end.upper_right,
        lower_left: begin.lower_left,
        lower_right: end.lower_right,
    }
}
