//! The border of a tile of a plane.

ghost use Rattle.std.specs.Prelude.{◌<◌};
ghost use Rattle.gas_terms.specs.Cells.{tile_count, tile_rectangle};
ghost use Rattle.gas_plane.specs.Planes.{IsRingRound};

use gas_plane::Plane;
use tile_border::Border;

/// The cells round tile i.
pub fn border(plane: &Plane, i: u32) -> Border
    requires { i < tile_count plane.now }
    ensures { let r = tile_rectangle plane.now i in IsRingRound result plane.now r.x r.y }
{
    let mut border = Border::EMPTY;
    border.surround(&plane.round(i));
    border
}
