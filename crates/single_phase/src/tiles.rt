//! The phase of one tile of a lattice.

ghost use Rattle.std.specs.Prelude.{◌≡◌, ℕ, ◌/◌, ◌<◌, pos};
ghost use Rattle.gas_terms.specs.Cells.{Cells, joined, tile_count, tile_rectangle, HasSidesOf};
ghost use Rattle.gas_plane.specs.Planes.{IsLattice, IsPosition};
ghost use Rattle.gas_plane.specs.Tiles.{AreFullRows, IsColumnOf};
ghost use Rattle.block_rule.specs.TileBlocks.{AreGivenBlocks};
ghost use Rattle.block_rule.specs.Windows.{taken_in};
ghost use Rattle.phase_step.specs.SolidBlocks.{is_walled_in};
ghost use Rattle.phase_step.specs.Turns.{IsTileAfter};

use crate::odd_tile::turn_tile_odd;
use crate::walled_blocks::tile_blocks;
use block_rule::{Counted, SetBlocks, Window};
use gas_plane::{Plane, Position, Tile, TileRows};
use gas_terms::Took;
use phase_step::{TileSolids, count_tile, turn_even_tile, window_in};

// Puts tile i into `out` as it is after a phase of parity 1, from the tiles round it.
fn turn_odd_tile(rows: TileRows<'_>, column: u32, walled: Option<SetBlocks<'_>>, out: &mut Tile)
    requires full { AreFullRows rows }
    requires column { column < rows.across }
    ensures { (lattice solid : Cells) (i : ℕ) → IsColumnOf rows.entry column lattice i →
        HasSidesOf solid lattice → AreGivenBlocks walled.entry (is_walled_in solid i) →
        IsTileAfter 1 lattice solid i out.new }
{
    let particles = Window {
        tile: rows.tile(column),
        round: rows.round(column),
    };
    turn_tile_odd(&particles, walled, out);
}

/// Puts the tile at this position into `out` as it is after the phase, and returns what walls and obstacles take of its
/// particles. Each plane is a lattice, as its size tells.
pub fn turn_tile_at(
    old: &Plane,
    walls: &Plane,
    obstacles: &Plane,
    parity: u8,
    at: Position,
    out: &mut Tile,
) -> Took
    requires parity { parity < 2 }
    requires lattice { IsLattice old.now }
    requires tile { at.tile < tile_count old.now }
    requires position { IsPosition (old.now.width / 64) at }
    requires walls { HasSidesOf walls.now old.now }
    requires obstacles { HasSidesOf obstacles.now old.now }
    ensures cells { IsTileAfter parity old.now (joined walls.now obstacles.now) at.tile out.new }
    ensures took { result ≡ taken_in (pos parity) old.now walls.now obstacles.now
        (tile_rectangle old.now at.tile) }
{
    let (rows, with_obstacle) = tile_blocks(&window_in(obstacles, at.tile), SetBlocks::NONE);
    let of_obstacles = SetBlocks {
        rows,
        blocks: &with_obstacle,
    };
    let (rows, blocks) = tile_blocks(&window_in(walls, at.tile), of_obstacles);
    let walled = Some(SetBlocks {
        rows,
        blocks: &blocks,
    });
    let tile_solids = TileSolids {
        all: walled,
        obstacles: Some(of_obstacles),
    };
    let tile = old.tile(at.tile);
    let took = count_tile(tile, tile_solids, parity, Counted::BOTH);
    if parity == 0 {
        *out = *tile;
        turn_even_tile(walled, out);
    } else {
        let rows = old.rows_round(at.row);
        turn_odd_tile(rows, at.column, walled, out);
    }
    took
}
