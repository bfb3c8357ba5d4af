//! Laws of a tile and its border. A law is a function with an empty body; its contract is the law.

ghost use Rattle.std.specs.Prelude.{ℕ, ◌+◌, ◌≤◌};
ghost use Rattle.bit_tile.specs.declared.Tile.{Tile as TileRows};
ghost use Rattle.tile_border.specs.Ring.{IsBorderOf};
ghost use Rattle.tile_border.specs.declared.border.Border.{Border as RingCells};
ghost use Rattle.tile_border.specs.declared.border.Neighbors.{Neighbors as EightTiles};
ghost use Rattle.gas_terms.specs.Cells.{Cells};
ghost use Rattle.gas_plane.specs.Planes.{IsTileFrom, IsRingRound};
ghost use Rattle.block_rule.specs.Around.{around};
ghost use Rattle.block_rule.specs.Rows.{ShowsTile, ShowsRound};
ghost use Rattle.block_rule.specs.Windows.{IsWindow};

/// A tile with its border is a window on the tiles round it.
pub fn borders_are_windows()
    ensures tile { (t : TileRows) (b : RingCells) → ShowsTile (around t b) t }
    ensures round { (t : TileRows) (near : EightTiles) (b : RingCells) →
        IsBorderOf b near → ShowsRound (around t b) near }
{}

/// A plane's tile and its border are a window of the torus.
pub fn tile_and_border_are_a_window()
    ensures { (t : TileRows) (b : RingCells) (cells : Cells) (x0 y0 : ℕ) →
        IsTileFrom t cells x0 y0 → IsRingRound b cells x0 y0 →
        x0 + 64 ≤ cells.width → y0 + 64 ≤ cells.height → IsWindow (around t b) cells x0 y0 }
{}
