//! The walled blocks of a tile, and which accounts are kept of what they take.

ghost use Rattle.std.specs.Prelude.{◌≡◌, ℕ, ◌+◌, ◌<◌, ◌≤◌, false, slice_index};
ghost use Rattle.bit_tile.specs.Bit.{bit};

use crate::blocks_in_tile::SetBlocks;

/// Bits from..from+n of `rows`. 0 means that those rows are empty.
#[inline(always)]
pub fn bits_from(rows: u32, from: usize, n: u32) -> u32
    requires from { from < 32 }
    requires n { n < 32 }
    ensures { result ≡ 0 → (j : ℕ) → from ≤ j → j < from + n → bit rows j ≡ false }
{
    (rows >> from) % (1 << n)
}

/// The walled blocks of a tile, as words like those of `TileBlocks`: of no set, or of one. Bit j of `rows` is 0 only if no
/// walled block lies in the tile's rows 2 * j and 2 * j + 1.
pub trait Walled: Copy {
    ghost row_pairs: { Self → ℕ };

    ghost evens: { Self → ℕ → ℕ };

    ghost begins: { Self → ℕ → ℕ };

    fn rows(self) -> u32
        ensures { result ≡ row_pairs self };

    fn even(self, k: usize) -> u32
        requires { k < 32 }
        ensures { result ≡ evens self k };

    fn begin(self, k: usize) -> u32
        requires { k < 33 }
        ensures { result ≡ begins self k };
}

/// No block is walled.
#[derive(Clone, Copy)]
pub struct NoBlocks;

impl Walled for NoBlocks {
    ghost row_pairs = { λ _. 0 };

    ghost evens = { λ _ _. 0 };

    ghost begins = { λ _ _. 0 };

    #[inline]
    fn rows(self) -> u32 {
        0
    }

    #[inline]
    fn even(self, _k: usize) -> u32 {
        0
    }

    #[inline]
    fn begin(self, _k: usize) -> u32 {
        0
    }
}

/// The blocks of one set are walled.
#[derive(Clone, Copy)]
pub struct OfSet<'a> {
    pub set: SetBlocks<'a>,
}

impl<'a> Walled for OfSet<'a> {
    ghost row_pairs = { λ b. b.set.rows };

    ghost evens = { λ b k. slice_index b.set.blocks.now.even k };

    ghost begins = { λ b k. slice_index b.set.blocks.now.odd.begin k };

    #[inline]
    fn rows(self) -> u32 {
        self.set.rows
    }

    #[inline]
    fn even(self, k: usize) -> u32 {
        self.set.blocks.even[k]
    }

    #[inline]
    fn begin(self, k: usize) -> u32 {
        self.set.blocks.odd.begin[k]
    }
}

/// Which of two accounts are kept: of what the walls take, and of what the obstacles take.
#[derive(Clone, Copy)]
pub struct Counted {
    pub walls: bool,
    pub obstacles: bool,
}

impl Counted {
    /// Both of them.
    pub const BOTH: Counted = Counted {
        walls: true,
        obstacles: true,
    };
}
