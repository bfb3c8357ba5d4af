//! A law of planes. A law is a function with an empty body; its contract is the law.

ghost use Rattle.std.specs.Prelude.{◌≡◌, ℕ, ◌+◌, Bool};
ghost use Rattle.bit_tile.specs.Tile.{HasCells};
ghost use Rattle.bit_tile.specs.declared.Tile.{Tile};
ghost use Rattle.gas_terms.specs.Cells.{Cells, cells_where, tile_count, tile_rectangle};
ghost use Rattle.gas_plane.specs.Planes.{IsLattice, with_tile, swept};

/// Tiles that are replaced one after another replace the whole set.
pub fn tiles_are_swept()
    ensures starts { (cells : Cells) (test : ℕ → ℕ → Bool) → IsLattice cells →
        swept cells test 0 ≡ cells }
    ensures next { (cells : Cells) (test : ℕ → ℕ → Bool) (i : ℕ) (t : Tile) →
        let r = tile_rectangle cells i in
        IsLattice cells →
        HasCells t (λ x y. test (r.x + x) (r.y + y)) →
        with_tile (swept cells test i) i t ≡ swept cells test (i + 1) }
    ensures ends { (cells : Cells) (test : ℕ → ℕ → Bool) → IsLattice cells →
        swept cells test (tile_count cells) ≡ cells_where cells.width cells.height test }
{}
