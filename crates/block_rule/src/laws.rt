//! Laws that join the rule on a tile to the step of the torus. A law is a function with an empty body; its contract is the
//! law.

ghost use Rattle.std.specs.Prelude.{◌≡◌, ℕ, ◌+◌, ◌<◌, ◌≤◌, Bool, ℤ, pos};
ghost use Rattle.bit_tile.specs.Tile.{HasCells};
ghost use Rattle.bit_tile.specs.declared.Tile.{Tile as TileRows};
ghost use Rattle.tile_border.specs.declared.border.Border.{Border as RingCells};
ghost use Rattle.gas_terms.specs.Velocity.{parity};
ghost use Rattle.gas_terms.specs.Cells.{Cells, joined};
ghost use Rattle.gas_terms.specs.Cells as plane;
ghost use Rattle.gas_terms.specs.Gas.{streamed};
ghost use Rattle.gas_terms.specs.declared.accounts.Pair.{Pair};
ghost use Rattle.gas_terms.specs.declared.accounts.Took.{Took};
ghost use Rattle.block_rule.specs.Around.{around, turned_window, either, none, taken_in_tile};
ghost use Rattle.block_rule.specs.Windows.{IsWindow, IsView, IsTilePlace, IsAround, square, taken_in};

/// A tile and its border have all cells of the torus that the tile's blocks need. At even parity the tile alone has them.
pub fn tiles_see_the_torus()
    ensures window { (p : ℕ) (window : ℕ → ℕ → Bool) (cells : Cells) (x0 y0 : ℕ) → p < 2 →
        IsWindow window cells x0 y0 → IsView p window cells x0 y0 }
    ensures inside { (t : TileRows) (b : RingCells) (cells : Cells) (x0 y0 : ℕ) →
        x0 + 64 ≤ cells.width → y0 + 64 ≤ cells.height →
        HasCells t (λ x y. plane.has cells (x0 + x) (y0 + y)) → IsView 0 (around t b) cells x0 y0 }
{}

/// The block rule on a tile is the step of the torus.
pub fn tiles_turn_as_the_torus()
    ensures { (p : ℕ) (particles walls obstacles : Cells) (x0 y0 : ℕ)
        (near near_walls near_obstacles : ℕ → ℕ → Bool) → p < 2 →
        IsTilePlace particles walls obstacles x0 y0 →
        IsView p near particles x0 y0 → IsView p near_walls walls x0 y0 →
        IsView p near_obstacles obstacles x0 y0 →
        (x y : ℕ) → x < 64 → y < 64 →
        turned_window p near (either near_walls near_obstacles) x y ≡
        plane.has (streamed p particles (joined walls obstacles)) (x0 + x) (y0 + y) }
{}

/// What a tile's walled blocks take is what walls and obstacles of the torus take of the tile's own particles.
pub fn tiles_take_as_the_torus()
    ensures taken { (tick : ℤ) (tile : TileRows) (particles walls obstacles : Cells) (x0 y0 : ℕ)
        (near_walls near_obstacles : ℕ → ℕ → Bool) →
        IsTilePlace particles walls obstacles x0 y0 →
        HasCells tile (λ x y. plane.has particles (x0 + x) (y0 + y)) →
        IsView (parity tick) near_walls walls x0 y0 →
        IsView (parity tick) near_obstacles obstacles x0 y0 →
        taken_in_tile (parity tick) tile near_walls near_obstacles ≡
        taken_in tick particles walls obstacles (square x0 y0) }
    ensures nothing { (p : ℕ) (tile : TileRows) →
        let zero : Pair = record { x = pos 0; y = pos 0 } in
        taken_in_tile p tile none none ≡ record { walls = zero; obstacles = zero } }
{}

/// The blocks of odd parity that begin in a tile reach one column and one row beyond it. There too the block rule on the tile is the
/// step of the torus.
pub fn odd_blocks_reach_beyond()
    ensures { (particles walls obstacles : Cells) (x0 y0 : ℕ)
        (near near_walls near_obstacles : ℕ → ℕ → Bool) →
        IsTilePlace particles walls obstacles x0 y0 →
        IsView 1 near particles x0 y0 → IsView 1 near_walls walls x0 y0 →
        IsView 1 near_obstacles obstacles x0 y0 →
        (x y column row : ℕ) → x ≤ 64 → y ≤ 64 →
        IsAround particles.width (x0 + x) column → IsAround particles.height (y0 + y) row →
        turned_window 1 near (either near_walls near_obstacles) x y ≡
        plane.has (streamed 1 particles (joined walls obstacles)) column row }
{}
