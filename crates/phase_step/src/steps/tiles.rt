//! One tile of a lattice: its step at even parity, and what is taken of its particles.

ghost use Rattle.std.specs.Prelude.{◌≡◌, ℕ, ◌<◌, true, pos};
ghost use Rattle.gas_terms.specs.Cells.{Cells, extent, is_size, tile_count, tile_rectangle, HasSidesOf};
ghost use Rattle.gas_plane.specs.Planes.{IsLattice, IsTileFrom};
ghost use Rattle.block_rule.specs.Accounts.{counted_of};
ghost use Rattle.block_rule.specs.TileBlocks.{AreGivenBlocks};
ghost use Rattle.block_rule.specs.Windows.{taken_in};
ghost use Rattle.phase_step.specs.SolidBlocks.{is_walled_in, AreTileSolids};
ghost use Rattle.phase_step.specs.Turns.{IsTileAfter};

use crate::steps::solids::TileSolids;
use block_rule::{Counted, SetBlocks, taken_among, turn_tile_even};
use gas_plane::Tile;
use gas_terms::Took;

/// Turns tile i of a lattice at even parity, in place, among its walled blocks.
#[inline(always)]
pub fn turn_even_tile(walled: Option<SetBlocks<'_>>, tile: &mut Tile)
    ensures { (lattice solid : Cells) (i : ℕ) → is_size (extent lattice) ≡ true →
        i < tile_count lattice → HasSidesOf solid lattice →
        AreGivenBlocks walled.entry (is_walled_in solid i) →
        IsTileFrom tile.old lattice (tile_rectangle lattice i).x (tile_rectangle lattice i).y →
        IsTileAfter 0 lattice solid i tile.new }
{
    turn_tile_even(tile, walled);
}

/// What is taken of the particles of tile i of a lattice in a phase of this parity, in the accounts that are kept.
#[inline(always)]
pub fn count_tile(tile: &Tile, tile_solids: TileSolids<'_>, parity: u8, counted: Counted) -> Took
    requires { parity < 2 }
    ensures { (lattice walls obstacles : Cells) (i : ℕ) → IsLattice lattice →
        i < tile_count lattice → HasSidesOf walls lattice → HasSidesOf obstacles lattice →
        AreTileSolids walls obstacles i tile_solids.entry →
        IsTileFrom tile.now lattice (tile_rectangle lattice i).x (tile_rectangle lattice i).y →
        result ≡ counted_of counted
        (taken_in (pos parity) lattice walls obstacles (tile_rectangle lattice i)) }
{
    taken_among(
        tile,
        tile_solids.all,
        tile_solids.obstacles,
        parity,
        counted,
    )
}
