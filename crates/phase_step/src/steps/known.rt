//! What particles meet in a run, and whether it is known to be nothing.

ghost use Rattle.std.specs.Prelude.{◌≡◌, ◌<◌, IsTrue};
ghost use Rattle.gas_terms.specs.Cells.{tile_count};
ghost use Rattle.block_rule.specs.TileBlocks.{AreGivenBlocks};
ghost use Rattle.phase_step.specs.SolidBlocks.{is_walled_in, HasNoBlocks};
ghost use Rattle.phase_step.specs.Solid.{all_of};

use crate::steps::solids::Solids;
use block_rule::SetBlocks;

/// Cells that particles do not pass. If they are known to be none, a loop that is compiled for none asks no tile for them.
#[derive(Clone, Copy)]
pub struct KnownSolid<'a> {
    pub solids: &'a Solids,
    pub free: bool,
    pub ghost none: { IsTrue free → HasNoBlocks (all_of solids.now) },
}

impl<'a> KnownSolid<'a> {
    /// What is known of these cells.
    pub fn of(solids: &'a Solids) -> KnownSolid<'a>
        ensures { result.solids.now ≡ solids.now }
    {
        KnownSolid {
            solids,
            free: solids.are_none(),
        }
    }

    /// The walled blocks of tile i.
    #[inline(always)]
    pub fn in_tile(self, i: u32) -> Option<SetBlocks<'a>>
        requires { i < tile_count (all_of self.solids.now) }
        ensures { AreGivenBlocks result (is_walled_in (all_of self.entry.solids.now) i) }
    {
        if self.free {
            None
        } else {
            self.solids.walled_in(i)
        }
    }

    /// The same, without a look whether there are any. For one of their words that look takes longer than the word.
    #[inline(always)]
    pub fn words_in(self, i: u32) -> Option<SetBlocks<'a>>
        requires { i < tile_count (all_of self.solids.now) }
        ensures { AreGivenBlocks result (is_walled_in (all_of self.entry.solids.now) i) }
    {
        if self.free {
            None
        } else {
            Some(self.solids.words_in(i))
        }
    }
}
