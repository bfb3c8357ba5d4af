//! One block, and one tile with its border.

ghost use Rattle.std.specs.Prelude.{◌≡◌, ℕ, ◌<◌, Bool, not, ◌&&◌};
ghost use Rattle.bit_tile.specs.Tile.{has, HasCells};
ghost use Rattle.gas_terms.specs.Velocity.{Velocity, opposite, outcome};
ghost use Rattle.single_phase.specs.Block.{channels_of};
ghost use Rattle.block_rule.specs.Around.{around, turned_window, either, is_walled_at, twice_momentum_in, taken_in_tile};
ghost use Rattle.block_rule.specs.Shown.{IsSeenIn};
ghost use Rattle.tile_border.specs.Ring.{IsBorderOf};
ghost use Rattle.tile_border.specs.declared.border.Border.{Border as BorderValue};
ghost use Rattle.gas_terms.specs.Accounts.{pair_plus};

use crate::odd_tile::turn_tile_odd;
use crate::walled_blocks::tile_blocks;
use bit_tile::Tile;
use block_rule::{Counted, SetBlocks, Window, taken_among, turn_tile_even};
use gas_terms::Took;
use tile_border::{Border, Neighbors};

/// The cells of a block after the rule, in the order upper left, upper right, lower left, lower right.
pub fn turn_block(cells: [bool; 4], walled: bool) -> [bool; 4]
    ensures outcome { (v : Velocity) →
        channels_of result (opposite v) ≡ outcome walled (channels_of cells) v }
    ensures undone { (v : Velocity) →
        channels_of cells (opposite v) ≡ outcome walled (channels_of result) v }
{
    let [a, b, c, d] = cells;
    if walled {
        cells
    } else if a == d && b == c && a != b {
        [b, a, a, b]
    } else {
        [d, c, b, a]
    }
}

// A tile with neighbors that were made from its border.
fn window_of<'a>(tile: &'a Tile, near: &'a Neighbors) -> Window<'a>
    ensures tile { result.tile.now ≡ tile.now }
    ensures seen { (b : BorderValue) →
        IsBorderOf b near.now → IsSeenIn result (around tile.now b) }
{
    let round = near.round();
    Window { tile, round }
}

/// The tile after the rule, and the momentum that walls and obstacles take of its own particles: twice that of the particles in
/// walled blocks.
pub fn turn_tile(
    tile: &Tile,
    border: &Border,
    walls: &Tile,
    wall_border: &Border,
    obstacles: &Tile,
    obstacle_border: &Border,
    parity: u8,
) -> (Tile, Took)
    requires { parity < 2 }
    ensures cells { HasCells result.0 (turned_window parity (around tile.now border.now)
        (either (around walls.now wall_border.now) (around obstacles.now obstacle_border.now))) }
    ensures took { result.1 ≡ taken_in_tile parity tile.now
        (around walls.now wall_border.now) (around obstacles.now obstacle_border.now) }
    ensures together { pair_plus result.1.walls result.1.obstacles ≡
        twice_momentum_in parity (λ x y. has tile.now x y &&
        is_walled_at parity (either (around walls.now wall_border.now)
        (around obstacles.now obstacle_border.now)) x y) }
{
    let near_obstacles = obstacle_border.neighbors();
    let (rows, with_obstacle) = tile_blocks(
        &window_of(obstacles, &near_obstacles),
        SetBlocks::NONE,
    );
    let obstacles = SetBlocks {
        rows,
        blocks: &with_obstacle,
    };
    let near_walls = wall_border.neighbors();
    let (rows, blocks) = tile_blocks(&window_of(walls, &near_walls), obstacles);
    let walled = Some(SetBlocks {
        rows,
        blocks: &blocks,
    });
    let took = taken_among(tile, walled, Some(obstacles), parity, Counted::BOTH);
    let mut out = *tile;
    if parity == 0 {
        turn_tile_even(&mut out, walled);
    } else {
        let near = border.neighbors();
        turn_tile_odd(&window_of(tile, &near), walled, &mut out);
    }
    (out, took)
}
