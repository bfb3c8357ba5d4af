//! A law of borders. A law is a function with an empty body; its contract is the law.

ghost use Rattle.tile_border.specs.Ring.{IsBorderOf};
ghost use Rattle.tile_border.specs.declared.border.Border.{Border as RingCells};
ghost use Rattle.tile_border.specs.declared.border.Neighbors.{Neighbors as EightTiles};

/// Any eight tiles have a border.
pub fn tiles_have_a_border()
    ensures { (near : EightTiles) → (b : RingCells) × IsBorderOf b near }
{}
