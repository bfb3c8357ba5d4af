//! Words that name the blocks with a cell of a set that particles do not pass.

ghost use Rattle.std.specs.Prelude.{◌≡◌, ℕ, ◌+◌, ◌*◌, ◌/◌, ◌<◌, ◌≤◌, ◌^◌, IfOk, length, replicate, option_copied};
ghost use Rattle.gas_terms.specs.Cells.{Cells, HasSidesOf, joined, tile_count, tile_rectangle};
ghost use Rattle.gas_plane.specs.Planes.{IsLattice};
ghost use Rattle.block_rule.specs.TileBlocks.{AreGivenBlocks, DifferInRows, NamesBlocks};
ghost use Rattle.phase_step.specs.Turns.{IsWindowFrom};
ghost use Rattle.phase_step.specs.SolidBlocks.{zero_words, is_walled_in, window_of, HaveAllTiles, AreBlocksOf, DifferIn, IsFar, IsNearIn, AreRenewedUpTo};
ghost use Rattle.phase_step.specs.Others.{DoOthersReach, HaveOthers, AreOthers};

use block_rule::{SetBlocks, TileBlocks, Window};
use gas_plane::Plane;
use gas_terms::{NoMemory, Rect};
use std::alloc::Global;

/// For each tile and both parities, words that name the blocks with a cell of a set, and a word that tells in which rows these lie.
#[derive(Drop)]
pub struct SetWords {
    pub rows: Vec<u32>,
    pub blocks: Vec<TileBlocks>,
}

impl SetWords {
    /// Those of no cells, for so many tiles. Fails if memory runs out.
    pub fn none(alloc: Global, tiles: u32) -> Result<SetWords, NoMemory>
        ensures { IfOk result (λ words. (words.rows.items ≡ replicate tiles 0)
            × (words.blocks.items ≡ replicate tiles zero_words)) }
    {
        let rows = vec![in alloc; 0; tiles as usize]?;
        let blocks = vec![in alloc; TileBlocks::NONE; tiles as usize]?;
        Ok(SetWords { rows, blocks })
    }

    /// Those of the set, with what others name. Fails if memory runs out.
    pub fn of(alloc: Global, set: &Plane, others: Option<&SetWords>) -> Result<SetWords, NoMemory>
        requires { HaveOthers set.now (option_copied others) }
        ensures { IfOk result (λ words. (other : Cells) →
            AreOthers set.now (option_copied others.entry) other →
            AreBlocksOf (joined set.now other) words.rows.items words.blocks.items) }
    {
        let tiles = set.size().tiles();
        let mut words = SetWords::none(alloc, tiles)?;
        for i in 0..tiles {
            renew_tile(set, others, i, (0, 33), &mut words);
        }
        Ok(words)
    }

    /// Those of the set alone. Fails if memory runs out.
    pub fn alone(alloc: Global, set: &Plane) -> Result<SetWords, NoMemory>
        ensures { IfOk result (λ words. AreBlocksOf set.now words.rows.items words.blocks.items) }
    {
        set.shows_lattice();
        let words = SetWords::of(alloc, set, None)?;
        Ok(words)
    }

    /// A clone. Fails if memory runs out.
    pub fn copy(&self, alloc: Global) -> Result<SetWords, NoMemory>
        ensures { IfOk result (λ words. (words.rows.items ≡ self.now.rows.items)
            × (words.blocks.items ≡ self.now.blocks.items)) }
    {
        let rows = Vec::from_slice(alloc, self.rows.as_slice())?;
        let blocks = Vec::from_slice(alloc, self.blocks.as_slice())?;
        Ok(SetWords { rows, blocks })
    }

    /// The words of tile i.
    #[inline(always)]
    pub fn of_tile(&self, i: u32) -> SetBlocks<'_>
        requires { (i < length self.now.rows.items) × (i < length self.now.blocks.items) }
        ensures { (set : Cells) → i < tile_count set →
            AreBlocksOf set self.now.rows.items self.now.blocks.items →
            NamesBlocks result.rows result.blocks.now (is_walled_in set i) }
    {
        SetBlocks {
            rows: self.rows[i as usize],
            blocks: &self.blocks[i as usize],
        }
    }

    /// The blocks of tile i that have a cell of the set, if there are any.
    #[inline(always)]
    pub fn in_tile(&self, i: u32) -> Option<SetBlocks<'_>>
        requires { (i < length self.now.rows.items) × (i < length self.now.blocks.items) }
        ensures { (set : Cells) → i < tile_count set →
            AreBlocksOf set self.now.rows.items self.now.blocks.items →
            AreGivenBlocks result (is_walled_in set i) }
    {
        let words = self.of_tile(i);
        if words.rows == 0 {
            return None;
        }
        Some(words)
    }
}

// Of n places of 64 cells on a circle, the first from place k on that `len` cells from `start` on may be near, or n. A place's blocks
// reach its own cells, the one before them and the one after them.
#[inline]
fn next_near(start: u32, len: u32, k: u32, n: u32) -> u32
    requires start { start + len < 2 ^ 31 }
    requires k { (k ≤ n) × (n ≤ 64) }
    ensures order { (k ≤ result) × (result ≤ n) }
    ensures far { (j : ℕ) → k ≤ j → j < result → IsFar start len n j }
{
    let end = start + len;
    // The first place and the last have each other for a neighbor.
    let near_first = (start <= 64) | (n * 64 <= end);
    if (k == 0) & near_first {
        return 0;
    }
    let first = ((start + 63) / 64).saturating_sub(1);
    let near = k.max(first);
    if (near < n) & (near <= end / 64) {
        near
    } else if (start == 0) & (k < n) {
        n - 1
    } else {
        n
    }
}

// Of a window of place k, the rows of odd blocks that those cells reach: from the first up to the second.
#[inline]
fn rows_near(start: u32, len: u32, k: u32, n: u32) -> (usize, usize)
    requires start { start + len < 2 ^ 31 }
    requires k { (k < n) × (n ≤ 64) }
    ensures { IsNearIn result.0 result.1 start len n k }
{
    let end = start + len;
    let before = 64 * k;
    let first = if (k == 0) & (n * 64 <= end) {
        0
    } else {
        (start + 1).saturating_sub(before) / 2
    };
    let last = if (k + 1 == n) & (start == 0) {
        33
    } else {
        ((end + 2).saturating_sub(before) / 2).min(33)
    };
    (first as usize, last as usize)
}

// What others name in tile i.
#[inline]
fn others_at(others: Option<&SetWords>, i: u32) -> SetBlocks<'_>
    requires { DoOthersReach i (option_copied others) }
    ensures { (set other : Cells) → IsLattice set → i < tile_count set →
        AreOthers set (option_copied others.entry) other →
        NamesBlocks result.rows result.blocks.now (is_walled_in other i) }
{
    match others {
        Some(words) => words.of_tile(i),
        None => SetBlocks::NONE,
    }
}

// The words of tile i are renewed, in these rows of blocks.
fn renew_tile(
    set: &Plane,
    others: Option<&SetWords>,
    i: u32,
    near: (usize, usize),
    words: &mut SetWords,
)
    requires tile { i < tile_count set.now }
    requires near { near.1 ≤ 33 }
    requires others { HaveOthers set.now (option_copied others) }
    requires all { HaveAllTiles set.now words.old.rows.items words.old.blocks.items }
    ensures all { HaveAllTiles set.now words.new.rows.items words.new.blocks.items }
    ensures words { (before other : Cells) → AreOthers set.now (option_copied others.entry) other →
        HasSidesOf before set.now →
        let now = joined set.now other in
        DifferInRows near.0 near.1 (window_of before i) (window_of now i) →
        AreRenewedUpTo i before now words.old.rows.items words.old.blocks.items →
        AreRenewedUpTo (i + 1) before now words.new.rows.items words.new.blocks.items }
{
    set.shows_lattice();
    let window = window_in(set, i);
    let beside = others_at(others, i);
    let (from, end) = near;
    let i = i as usize;
    words.rows[i] = words.blocks[i].renew(words.rows[i], &window, beside, from, end);
}

// The words of those tiles of a row whose blocks reach the rectangle.
fn renew_row(
    set: &Plane,
    others: Option<&SetWords>,
    area: Rect,
    row: u32,
    near: (usize, usize),
    words: &mut SetWords,
)
    requires row { row < set.now.height / 64 }
    requires near { IsNearIn near.0 near.1 area.y area.h (set.now.height / 64) row }
    requires others { HaveOthers set.now (option_copied others) }
    requires all { HaveAllTiles set.now words.old.rows.items words.old.blocks.items }
    ensures all { HaveAllTiles set.now words.new.rows.items words.new.blocks.items }
    ensures words { (before other : Cells) → AreOthers set.now (option_copied others.entry) other →
        let now = joined set.now other in
        DifferIn area before now →
        AreRenewedUpTo (row * (set.now.width / 64)) before now
        words.old.rows.items words.old.blocks.items →
        AreRenewedUpTo ((row + 1) * (set.now.width / 64)) before now
        words.new.rows.items words.new.blocks.items }
{
    let across = set.across();
    let x = area.x() as u32;
    let w = area.w() as u32;
    let mut column = next_near(x, w, 0, across);
    while column < across {
        renew_tile(set, others, row * across + column, near, words);
        column = next_near(x, w, column + 1, across);
    }
}

/// The words become those of the set, with what others name, if they were those of cells that differ from these in the
/// rectangle alone.
pub fn renew(set: &Plane, others: Option<&SetWords>, area: Rect, words: &mut SetWords)
    requires others { HaveOthers set.now (option_copied others) }
    requires all { HaveAllTiles set.now words.old.rows.items words.old.blocks.items }
    ensures { (before other : Cells) → AreOthers set.now (option_copied others.entry) other →
        DifferIn area before (joined set.now other) →
        AreBlocksOf before words.old.rows.items words.old.blocks.items →
        AreBlocksOf (joined set.now other) words.new.rows.items words.new.blocks.items }
{
    let down = set.size().height() as u32 / 64;
    let y = area.y() as u32;
    let h = area.h() as u32;
    let mut row = next_near(y, h, 0, down);
    while row < down {
        let near = rows_near(y, h, row, down);
        renew_row(set, others, area, row, near, words);
        row = next_near(y, h, row + 1, down);
    }
}

/// The same of the set alone.
pub fn renew_alone(set: &Plane, area: Rect, words: &mut SetWords)
    requires { HaveAllTiles set.now words.old.rows.items words.old.blocks.items }
    ensures { (before : Cells) → DifferIn area before set.now →
        AreBlocksOf before words.old.rows.items words.old.blocks.items →
        AreBlocksOf set.now words.new.rows.items words.new.blocks.items }
{
    set.shows_lattice();
    renew(set, None, area, words);
}

/// A set's tile with those round it.
pub fn window_in(set: &Plane, i: u32) -> Window<'_>
    requires { i < tile_count set.now }
    ensures { let r = tile_rectangle set.now i in IsWindowFrom result set.now r.x r.y }
{
    Window {
        tile: set.tile(i),
        round: set.round(i),
    }
}
