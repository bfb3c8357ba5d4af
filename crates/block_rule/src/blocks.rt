//! A row of 32 blocks in four words, and the rules that make its new cells.

ghost use Rattle.std.specs.Prelude.{◌≡◌, ℕ, ◌+◌, ◌-◌, ◌<◌, ◌==◌, ◌||◌, Bool, false, if◌then◌else◌};
ghost use Rattle.bit_tile.specs.Bit.{bit};
ghost use Rattle.block_rule.specs.Cell.{turned_cell};
ghost use Rattle.block_rule.specs.Rows.{IsMade};

/// A row of blocks, 32 side by side. Bit i of each word is a corner of block i.
#[derive(Clone, Copy)]
pub struct Blocks {
    pub upper_left: u32,
    pub upper_right: u32,
    pub lower_left: u32,
    pub lower_right: u32,
}

/// Eight rows of blocks.
#[derive(Clone, Copy)]
pub struct EightRows {
    pub upper_left: [u32; 8],
    pub upper_right: [u32; 8],
    pub lower_left: [u32; 8],
    pub lower_right: [u32; 8],
}

impl EightRows {
    /// Rows without cells.
    pub const ZERO: EightRows = EightRows {
        upper_left: [0; 8],
        upper_right: [0; 8],
        lower_left: [0; 8],
        lower_right: [0; 8],
    };
}

/// The corners that a row of blocks has in the tile beside its own: in its upper and in its lower row.
#[derive(Clone, Copy)]
pub struct Beside {
    pub upper: u32,
    pub lower: u32,
}

/// A rule for the cells of a block. A cell's new value is a function of its own value and of those of the cell beside it in its
/// row, the cell that faces it in its column, and the cell across.
pub trait Rule: Copy {
    ghost cell: { Self → Bool → Bool → Bool → Bool → Bool };

    fn made(self, old: Blocks) -> Blocks
        ensures { IsMade (λ _. cell self) old result };
}

/// The collision of HPP's four channels in a row of blocks. Blocks whose bit is set in `walled` keep their cells.
#[inline]
pub fn collided(old: Blocks, walled: u32) -> Blocks
    ensures { IsMade (λ i. turned_cell (bit walled i)) old result }
{
    let one_diagonal = (old.upper_left ^ old.upper_right)
        & !((old.upper_left ^ old.lower_right) | (old.upper_right ^ old.lower_left));
    // Each particle crosses its block. Two that meet head on, alone in the block, leave at right angles. So the two corners of a
    // diagonal change together.
    let falling = (old.upper_left ^ old.lower_right ^ one_diagonal) & !walled;
    let rising = (old.upper_right ^ old.lower_left ^ one_diagonal) & !walled;
    Blocks {
        upper_left: old.upper_left ^ falling,
        upper_right: old.upper_right ^ rising,
        lower_left: old.lower_left ^ rising,
        lower_right: old.lower_right ^ falling,
    }
}

/// The collision if no block is walled.
#[derive(Clone, Copy)]
pub struct Collision;

impl Rule for Collision {
    ghost cell = { λ _. turned_cell false };

    #[inline]
    fn made(self, old: Blocks) -> Blocks {
        collided(old, 0)
    }
}

/// All cells of the blocks that have one.
#[derive(Clone, Copy)]
pub struct AnyCorner;

impl Rule for AnyCorner {
    ghost cell = { λ _ own beside facing across. (own || facing) || (beside || across) };

    #[inline]
    fn made(self, old: Blocks) -> Blocks {
        let left = old.upper_left | old.lower_left;
        let right = old.upper_right | old.lower_right;
        let any = left | right;
        Blocks {
            upper_left: any,
            upper_right: any,
            lower_left: any,
            lower_right: any,
        }
    }
}

/// The cells to the right of these cells of one parity class (`bit_tile::Tile`): the last comes from the tile to the right.
#[inline]
pub fn next(row: u32, right: u32) -> u32
    ensures { (i : ℕ) → i < 32 → bit result i ≡ (if i == 31 then bit right 0 else bit row (i + 1)) }
{
    (row >> 1) | (right << 31)
}

/// The cells to the left of a class's cells: the first comes from the tile to the left.
#[inline]
pub fn previous(row: u32, left: u32) -> u32
    ensures { (i : ℕ) → i < 32 → bit result i ≡ (if i == 0 then bit left 31 else bit row (i - 1)) }
{
    (row << 1) | (left >> 31)
}

/// A class's cells, of which the first comes from the tile to the left.
#[inline]
pub fn with_first(row: u32, left: u32) -> u32
    ensures { (i : ℕ) → i < 32 → bit result i ≡ (if i == 0 then bit left 31 else bit row i) }
{
    previous(next(row, 0), left)
}
