//! The collision at odd parity in place. A tile turns the blocks that begin in it. Their right corners lie in the next column of
//! their class, those of the last blocks in the tile to the right. So what becomes of the right corners goes to the next column,
//! and is carried on from tile to tile.

ghost use Rattle.std.specs.Prelude.{◌≡◌, ℕ, ◌+◌, ◌*◌, ◌<◌, ◌≤◌, ◌⊎◌, Bool, slice_index};
ghost use Rattle.bit_tile.specs.Tile.{has};
ghost use Rattle.block_rule.specs.Around.{turned_window};
ghost use Rattle.block_rule.specs.TileBlocks.{AreGivenBlocks, NamesBlocks, walled_by};
ghost use Rattle.block_rule.specs.Rows.{odd_row, eight_row, beside_right};
ghost use Rattle.block_rule.specs.InPlace.{ShowsBegun, NamesRow, TurnsInto, IsRowTurned, IsLeaving, IsInnerSeen, IsSeamSeen, AreRowsSeen, AreNamed, AreCarried, AreEightCarried, AreOthersCarried, AreOthersKept, IsCarried, carried_row, eight_leaving, HaveTurned, AreEndsKept, HasOtherCells};

use crate::blocks::{Beside, Blocks, EightRows, collided, next, previous, with_first};
use crate::blocks_in_tile::SetBlocks;
use crate::walled::{NoBlocks, OfSet, Walled, bits_from};
use bit_tile::Tile;

/// What the blocks that begin in a tile carry on to the tile to the right: of each word the last bit is for its first column. The
/// places 0 to 23 are those of the rows of blocks 0 to 23, and the places 24 to 31 those of the rows 23 to 30. Row 23 is there
/// twice.
#[derive(Clone, Copy)]
pub struct Carry {
    pub upper: [u32; 32],
    pub lower: [u32; 32],
}

impl Carry {
    /// Nothing is carried on.
    pub const ZERO: Carry = Carry {
        upper: [0; 32],
        lower: [0; 32],
    };
}

/// A row of blocks that has turned: its words in the tile in which it begins, and what it carries on.
#[derive(Clone, Copy)]
pub struct TurnedRow {
    pub own: Blocks,
    pub leaving: Beside,
}

/// Turns the row of blocks that begin in a tile's row 2 * j + 1. `own` has the tile's words, and `right` those of the tile to the
/// right. Bit i of `walled` is set if the block is walled that begins in odd column i. `coming` is what the row of blocks in the
/// tile to the left carries on.
#[inline(always)]
pub fn turned_row(own: Blocks, right: Beside, walled: u32, coming: Beside) -> TurnedRow
    ensures own { (window solid after : ℕ → ℕ → Bool) (j : ℕ) → TurnsInto window solid after →
        ShowsBegun window j own right → NamesRow walled solid j → IsLeaving coming (after 0) j →
        IsRowTurned result.own after j }
    ensures leaving { (window solid : ℕ → ℕ → Bool) (j : ℕ) → ShowsBegun window j own right →
        NamesRow walled solid j → IsLeaving result.leaving (turned_window 1 window solid 64) j }
{
    let made = collided(
        Blocks {
            upper_left: own.upper_left,
            upper_right: next(own.upper_right, right.upper),
            lower_left: own.lower_left,
            lower_right: next(own.lower_right, right.lower),
        },
        walled,
    );
    TurnedRow {
        own: Blocks {
            upper_left: made.upper_left,
            upper_right: previous(made.upper_right, coming.upper),
            lower_left: made.lower_left,
            lower_right: previous(made.lower_right, coming.lower),
        },
        leaving: Beside {
            upper: made.upper_right,
            lower: made.lower_right,
        },
    }
}

// The words of a row of blocks that begin in a tile.
#[inline(always)]
fn begun_row(tile: &Tile, j: usize) -> Blocks
    requires { j < 31 }
    ensures { result ≡ odd_row tile.now j }
{
    Blocks {
        upper_left: tile.odd_odd[j],
        upper_right: tile.even_odd[j],
        lower_left: tile.odd_even[j + 1],
        lower_right: tile.even_even[j + 1],
    }
}

// And those of the tile to its right.
#[inline(always)]
fn right_row(right: &Tile, j: usize) -> Beside
    requires { j < 31 }
    ensures { result ≡ beside_right right.now j }
{
    Beside {
        upper: right.even_odd[j],
        lower: right.even_even[j + 1],
    }
}

// Eight rows of blocks that have turned, and what they carry on.
#[derive(Clone, Copy)]
struct TurnedEight {
    own: EightRows,
    upper: [u32; 8],
    lower: [u32; 8],
}

// The rows of blocks from `from` on. The carry has what comes into them from place `at` on.
#[inline(always)]
fn turned_eight<W: Walled>(
    walled: W,
    from: usize,
    at: usize,
    tile: &Tile,
    right: &Tile,
    carry: &Carry,
) -> TurnedEight
    requires { (from + 8 ≤ 31) × (at + 8 ≤ 32) }
    ensures turned { (window solid after : ℕ → ℕ → Bool) → TurnsInto window solid after →
        AreRowsSeen from (from + 8) window tile.now right.now →
        AreNamed from (from + 8) (W.begins walled) solid →
        AreEightCarried from at carry.now (after 0) →
        (k : ℕ) → k < 8 → IsRowTurned (eight_row result.own k) after (from + k) }
    ensures leaving { (window solid : ℕ → ℕ → Bool) →
        AreRowsSeen from (from + 8) window tile.now right.now →
        AreNamed from (from + 8) (W.begins walled) solid →
        (k : ℕ) → k < 8 →
        IsLeaving (eight_leaving result.upper result.lower k) (turned_window 1 window solid 64)
        (from + k) }
{
    let mut eight = TurnedEight {
        own: EightRows::ZERO,
        upper: [0; 8],
        lower: [0; 8],
    };
    for k in 0..8usize {
        let j = from + k;
        let coming = Beside {
            upper: carry.upper[at + k],
            lower: carry.lower[at + k],
        };
        let own = begun_row(tile, j);
        let beside = right_row(right, j);
        let row = turned_row(own, beside, walled.begin(j + 1), coming);
        eight.own.upper_left[k] = row.own.upper_left;
        eight.own.upper_right[k] = row.own.upper_right;
        eight.own.lower_left[k] = row.own.lower_left;
        eight.own.lower_right[k] = row.own.lower_right;
        eight.upper[k] = row.leaving.upper;
        eight.lower[k] = row.leaving.lower;
    }
    eight
}

// Puts what they carry on into the carry.
#[inline(always)]
fn carry_eight(eight: &TurnedEight, at: usize, carry: &mut Carry)
    requires { at + 8 ≤ 32 }
    ensures carried { (k : ℕ) → k < 8 →
        carried_row carry.new (at + k) ≡ eight_leaving eight.now.upper eight.now.lower k }
    ensures others { AreOthersCarried at (at + 8) carry.old carry.new }
{
    for k in 0..8usize {
        carry.upper[at + k] = eight.upper[k];
        carry.lower[at + k] = eight.lower[k];
    }
}

// Eight rows of blocks after they have turned. What they carry on is in the carry before any of them is written: the compiler
// then keeps both as vectors.
#[inline(always)]
fn turned_on<W: Walled>(
    walled: W,
    from: usize,
    at: usize,
    tile: &Tile,
    right: &Tile,
    carry: &mut Carry,
) -> EightRows
    requires { (from + 8 ≤ 31) × (at + 8 ≤ 32) }
    ensures turned { (window solid after : ℕ → ℕ → Bool) → TurnsInto window solid after →
        AreRowsSeen from (from + 8) window tile.now right.now →
        AreNamed from (from + 8) (W.begins walled) solid →
        AreEightCarried from at carry.old (after 0) →
        (k : ℕ) → k < 8 → IsRowTurned (eight_row result k) after (from + k) }
    ensures leaving { (window solid : ℕ → ℕ → Bool) →
        AreRowsSeen from (from + 8) window tile.now right.now →
        AreNamed from (from + 8) (W.begins walled) solid →
        AreEightCarried from at carry.new (turned_window 1 window solid 64) }
    ensures others { AreOthersCarried at (at + 8) carry.old carry.new }
{
    let eight = turned_eight(walled, from, at, tile, right, carry);
    carry_eight(&eight, at, carry);
    eight.own
}

// Writes them. All are made before the first is written, so that the compiler makes them as vectors, wherever `out` is.
#[inline(always)]
fn write_eight(rows: &EightRows, from: usize, out: &mut Tile)
    requires { from + 8 < 32 }
    ensures rows { (k : ℕ) → k < 8 → odd_row out.new (from + k) ≡ eight_row rows.now k }
    ensures upper_rest { (j : ℕ) → (j < from) ⊎ (from + 8 ≤ j) →
        (slice_index out.new.odd_odd j ≡ slice_index out.old.odd_odd j) ×
        (slice_index out.new.even_odd j ≡ slice_index out.old.even_odd j) }
    ensures lower_rest { (j : ℕ) → (j ≤ from) ⊎ (from + 8 < j) →
        (slice_index out.new.odd_even j ≡ slice_index out.old.odd_even j) ×
        (slice_index out.new.even_even j ≡ slice_index out.old.even_even j) }
{
    for k in 0..8usize {
        let j = from + k;
        out.odd_odd[j] = rows.upper_left[k];
        out.even_odd[j] = rows.upper_right[k];
        out.odd_even[j + 1] = rows.lower_left[k];
        out.even_even[j + 1] = rows.lower_right[k];
    }
}

// The rows of blocks 0 to 23 among no walled blocks, in one loop that the compiler makes vectors of.
#[inline(always)]
fn turn_rows(tile: &mut Tile, right: &Tile, carry: &mut Carry)
    ensures turned { (window solid after : ℕ → ℕ → Bool) → TurnsInto window solid after →
        AreRowsSeen 0 24 window tile.old right.now →
        AreNamed 0 24 (λ _. 0) solid → AreCarried 0 24 carry.old (after 0) →
        HaveTurned 0 24 tile.new after }
    ensures leaving { (window solid : ℕ → ℕ → Bool) → AreRowsSeen 0 24 window tile.old right.now →
        AreNamed 0 24 (λ _. 0) solid → AreCarried 0 24 carry.new (turned_window 1 window solid 64) }
    ensures ends { AreEndsKept tile.old tile.new }
    ensures others { AreOthersKept 0 24 tile.old tile.new carry.old carry.new }
{
    for j in 0..24usize {
        let coming = Beside {
            upper: carry.upper[j],
            lower: carry.lower[j],
        };
        let own = begun_row(tile, j);
        let beside = right_row(right, j);
        let row = turned_row(own, beside, 0, coming);
        tile.odd_odd[j] = row.own.upper_left;
        tile.even_odd[j] = row.own.upper_right;
        tile.odd_even[j + 1] = row.own.lower_left;
        tile.even_even[j + 1] = row.own.lower_right;
        carry.upper[j] = row.leaving.upper;
        carry.lower[j] = row.leaving.lower;
    }
}

// The rows of blocks that begin in a tile and lie in its row of tiles, if none of them is walled. Row 23 is turned twice, so that
// all are whole vectors. It is made before its words are written.
#[inline(always)]
fn turn_free(tile: &mut Tile, right: &Tile, carry: &mut Carry)
    ensures turned { (window solid after : ℕ → ℕ → Bool) → TurnsInto window solid after →
        IsInnerSeen window tile.old right.now →
        AreNamed 0 31 (λ _. 0) solid → IsCarried carry.old (after 0) →
        (x y : ℕ) → x < 64 → 1 ≤ y → y < 63 → has tile.new x y ≡ after x y }
    ensures leaving { (window solid : ℕ → ℕ → Bool) → IsInnerSeen window tile.old right.now →
        AreNamed 0 31 (λ _. 0) solid → IsCarried carry.new (turned_window 1 window solid 64) }
    ensures top { (x : ℕ) → x < 64 → has tile.new x 0 ≡ has tile.old x 0 }
    ensures bottom { (x : ℕ) → x < 64 → has tile.new x 63 ≡ has tile.old x 63 }
{
    let last = turned_on(NoBlocks, 23, 24, tile, right, carry);
    turn_rows(tile, right, carry);
    write_eight(&last, 23, tile);
}

// Turns eight of the rows of blocks 0 to 23.
#[inline(always)]
fn turn_eight<W: Walled>(walled: W, from: usize, tile: &mut Tile, right: &Tile, carry: &mut Carry)
    requires { from + 8 ≤ 24 }
    ensures turned { (window solid after : ℕ → ℕ → Bool) → TurnsInto window solid after →
        AreRowsSeen from (from + 8) window tile.old right.now →
        AreNamed from (from + 8) (W.begins walled) solid →
        AreCarried from (from + 8) carry.old (after 0) →
        HaveTurned from (from + 8) tile.new after }
    ensures leaving { (window solid : ℕ → ℕ → Bool) →
        AreRowsSeen from (from + 8) window tile.old right.now →
        AreNamed from (from + 8) (W.begins walled) solid →
        AreCarried from (from + 8) carry.new (turned_window 1 window solid 64) }
    ensures ends { AreEndsKept tile.old tile.new }
    ensures others { AreOthersKept from (from + 8) tile.old tile.new carry.old carry.new }
{
    let rows = turned_on(walled, from, from, tile, right, carry);
    write_eight(&rows, from, tile);
}

// The same among walled blocks, without a look at them if none begins in these rows.
#[inline(always)]
fn turn_eight_among(
    set: SetBlocks<'_>,
    from: usize,
    tile: &mut Tile,
    right: &Tile,
    carry: &mut Carry,
)
    requires { from + 8 ≤ 24 }
    ensures turned { (window solid after : ℕ → ℕ → Bool) → TurnsInto window solid after →
        AreRowsSeen from (from + 8) window tile.old right.now →
        NamesBlocks set.entry.rows set.entry.blocks.now (walled_by solid) →
        AreCarried from (from + 8) carry.old (after 0) →
        HaveTurned from (from + 8) tile.new after }
    ensures leaving { (window solid : ℕ → ℕ → Bool) →
        AreRowsSeen from (from + 8) window tile.old right.now →
        NamesBlocks set.entry.rows set.entry.blocks.now (walled_by solid) →
        AreCarried from (from + 8) carry.new (turned_window 1 window solid 64) }
    ensures ends { AreEndsKept tile.old tile.new }
    ensures others { AreOthersKept from (from + 8) tile.old tile.new carry.old carry.new }
{
    if bits_from(set.rows, from, 8) == 0 {
        turn_eight(NoBlocks, from, tile, right, carry);
    } else {
        turn_eight(OfSet { set }, from, tile, right, carry);
    }
}

// All of them.
#[inline(always)]
fn turn_first(set: SetBlocks<'_>, tile: &mut Tile, right: &Tile, carry: &mut Carry)
    ensures turned { (window solid after : ℕ → ℕ → Bool) → TurnsInto window solid after →
        AreRowsSeen 0 24 window tile.old right.now →
        NamesBlocks set.entry.rows set.entry.blocks.now (walled_by solid) →
        AreCarried 0 24 carry.old (after 0) →
        HaveTurned 0 24 tile.new after }
    ensures leaving { (window solid : ℕ → ℕ → Bool) → AreRowsSeen 0 24 window tile.old right.now →
        NamesBlocks set.entry.rows set.entry.blocks.now (walled_by solid) →
        AreCarried 0 24 carry.new (turned_window 1 window solid 64) }
    ensures ends { AreEndsKept tile.old tile.new }
    ensures others { AreOthersKept 0 24 tile.old tile.new carry.old carry.new }
{
    turn_eight_among(set, 0, tile, right, carry);
    turn_eight_among(set, 8, tile, right, carry);
    turn_eight_among(set, 16, tile, right, carry);
}

// The rows of blocks 23 to 30 after they have turned.
#[inline(always)]
fn turned_last(set: SetBlocks<'_>, tile: &Tile, right: &Tile, carry: &mut Carry) -> EightRows
    ensures turned { (window solid after : ℕ → ℕ → Bool) → TurnsInto window solid after →
        AreRowsSeen 23 31 window tile.now right.now →
        NamesBlocks set.entry.rows set.entry.blocks.now (walled_by solid) →
        AreEightCarried 23 24 carry.old (after 0) →
        (k : ℕ) → k < 8 → IsRowTurned (eight_row result k) after (23 + k) }
    ensures leaving { (window solid : ℕ → ℕ → Bool) → AreRowsSeen 23 31 window tile.now right.now →
        NamesBlocks set.entry.rows set.entry.blocks.now (walled_by solid) →
        AreEightCarried 23 24 carry.new (turned_window 1 window solid 64) }
    ensures others { AreOthersCarried 24 32 carry.old carry.new }
{
    if bits_from(set.rows, 23, 8) == 0 {
        turned_on(NoBlocks, 23, 24, tile, right, carry)
    } else {
        turned_on(OfSet { set }, 23, 24, tile, right, carry)
    }
}

// Among walled blocks as one call, which the loops without walls don't hold.
#[inline(never)]
fn turn_apart(set: SetBlocks<'_>, tile: &mut Tile, right: &Tile, carry: &mut Carry)
    ensures turned { (window solid after : ℕ → ℕ → Bool) → TurnsInto window solid after →
        IsInnerSeen window tile.old right.now →
        NamesBlocks set.entry.rows set.entry.blocks.now (walled_by solid) →
        IsCarried carry.old (after 0) →
        (x y : ℕ) → x < 64 → 1 ≤ y → y < 63 → has tile.new x y ≡ after x y }
    ensures leaving { (window solid : ℕ → ℕ → Bool) → IsInnerSeen window tile.old right.now →
        NamesBlocks set.entry.rows set.entry.blocks.now (walled_by solid) →
        IsCarried carry.new (turned_window 1 window solid 64) }
    ensures top { (x : ℕ) → x < 64 → has tile.new x 0 ≡ has tile.old x 0 }
    ensures bottom { (x : ℕ) → x < 64 → has tile.new x 63 ≡ has tile.old x 63 }
{
    let last = turned_last(set, tile, right, carry);
    turn_first(set, tile, right, carry);
    write_eight(&last, 23, tile);
}

/// The row of blocks that begin in a tile's last row and end in the tiles below.
#[derive(Clone, Copy)]
pub struct SeamRow {
    pub own: Blocks,
    pub right: Beside,
}

/// Its words, of a tile, the one to the right, and those below both.
#[inline(always)]
pub fn seam_row(tile: &Tile, right: &Tile, below: &Tile, below_right: &Tile) -> SeamRow
    ensures { (window : ℕ → ℕ → Bool) →
        IsSeamSeen window tile.now right.now below.now below_right.now →
        ShowsBegun window 31 result.own result.right }
{
    SeamRow {
        own: Blocks {
            upper_left: tile.odd_odd[31],
            upper_right: tile.even_odd[31],
            lower_left: below.odd_even[0],
            lower_right: below.even_even[0],
        },
        right: Beside {
            upper: right.even_odd[31],
            lower: below_right.even_even[0],
        },
    }
}

/// Writes the upper words of such a row, after it has turned.
#[inline(always)]
pub fn put_bottom(tile: &mut Tile, row: &Blocks)
    ensures row { (test : ℕ → ℕ → Bool) → IsRowTurned row.now test 31 →
        (x : ℕ) → x < 64 → has tile.new x 63 ≡ test x 63 }
    ensures rest { (x y : ℕ) → x < 64 → y < 63 → has tile.new x y ≡ has tile.old x y }
{
    tile.odd_odd[31] = row.upper_left;
    tile.even_odd[31] = row.upper_right;
}

/// Writes the lower words, into the tile below.
#[inline(always)]
pub fn put_top(tile: &mut Tile, row: &Blocks)
    ensures row { (test : ℕ → ℕ → Bool) → IsRowTurned row.now test 31 →
        (x : ℕ) → x < 64 → has tile.new x 0 ≡ test x 64 }
    ensures rest { (x y : ℕ) → x < 64 → 1 ≤ y → y < 64 → has tile.new x y ≡ has tile.old x y }
{
    tile.odd_even[0] = row.lower_left;
    tile.even_even[0] = row.lower_right;
}

/// Turns, in place, the rows of odd blocks that begin in a tile and end in its row of tiles: its rows 1 to 62. `walled` names the
/// walled blocks, and `right` is the tile to the right as it was before the phase. `carry` has what the tile to the left carries
/// on, and gets what this one does.
#[inline(always)]
pub fn turn_inner(walled: Option<SetBlocks<'_>>, tile: &mut Tile, right: &Tile, carry: &mut Carry)
    ensures turned { (window solid after : ℕ → ℕ → Bool) → TurnsInto window solid after →
        IsInnerSeen window tile.old right.now →
        AreGivenBlocks walled.entry (walled_by solid) →
        IsCarried carry.old (after 0) →
        (x y : ℕ) → x < 64 → 1 ≤ y → y < 63 → has tile.new x y ≡ after x y }
    ensures leaving { (window solid : ℕ → ℕ → Bool) → IsInnerSeen window tile.old right.now →
        AreGivenBlocks walled.entry (walled_by solid) →
        IsCarried carry.new (turned_window 1 window solid 64) }
    ensures top { (x : ℕ) → x < 64 → has tile.new x 0 ≡ has tile.old x 0 }
    ensures bottom { (x : ℕ) → x < 64 → has tile.new x 63 ≡ has tile.old x 63 }
{
    match walled {
        None => turn_free(tile, right, carry),
        Some(set) => turn_apart(set, tile, right, carry),
    }
}

// Puts what comes from the left into the first column, in some rows of blocks from row `from` on. The carry has it from place `at`
// on.
#[inline(always)]
fn put_rows(tile: &mut Tile, carry: &Carry, from: usize, at: usize, rows: usize)
    requires { (from + rows ≤ 31) × (at + rows ≤ 32) }
    ensures column { (column : ℕ → Bool) →
        ((k : ℕ) → k < rows → IsLeaving (carried_row carry.now (at + k)) column (from + k)) →
        (y : ℕ) → 2 * from < y → y ≤ 2 * (from + rows) → has tile.new 0 y ≡ column y }
    ensures others { HasOtherCells (2 * from) (2 * (from + rows)) tile.old tile.new }
{
    for k in 0..rows {
        let j = from + k;
        let upper = with_first(tile.even_odd[j], carry.upper[at + k]);
        let lower = with_first(tile.even_even[j + 1], carry.lower[at + k]);
        tile.even_odd[j] = upper;
        tile.even_even[j + 1] = lower;
    }
}

/// Puts what the last tile of a row carries on into the first column of the first one, in its rows 1 to 62.
#[inline(always)]
pub fn put_first_column(tile: &mut Tile, carry: &Carry)
    ensures column { (column : ℕ → Bool) → IsCarried carry.now column →
        (y : ℕ) → 1 ≤ y → y < 63 → has tile.new 0 y ≡ column y }
    ensures others { HasOtherCells 0 62 tile.old tile.new }
{
    put_rows(tile, carry, 0, 0, 24);
    put_rows(tile, carry, 23, 24, 8);
}

/// Turns the row of blocks that begin in a tile's last row. `coming` is what the row of blocks in the tile to the left carries on.
#[inline(always)]
pub fn turned_seam(walled: Option<SetBlocks<'_>>, row: SeamRow, coming: Beside) -> TurnedRow
    ensures own { (window solid : ℕ → ℕ → Bool) → ShowsBegun window 31 row.own row.right →
        AreGivenBlocks walled.entry (walled_by solid) →
        IsLeaving coming (turned_window 1 window solid 0) 31 →
        IsRowTurned result.own (turned_window 1 window solid) 31 }
    ensures leaving { (window solid : ℕ → ℕ → Bool) → ShowsBegun window 31 row.own row.right →
        AreGivenBlocks walled.entry (walled_by solid) →
        IsLeaving result.leaving (turned_window 1 window solid 64) 31 }
{
    let SeamRow { own, right } = row;
    turned_row(own, right, seam_word(walled), coming)
}

// Its walled blocks.
#[inline(always)]
fn seam_word(walled: Option<SetBlocks<'_>>) -> u32
    ensures { (solid : ℕ → ℕ → Bool) → AreGivenBlocks walled.entry (walled_by solid) →
        NamesRow result solid 31 }
{
    match walled {
        None => 0,
        Some(set) => OfSet { set }.begin(32),
    }
}
