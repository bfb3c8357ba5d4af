//! The inputs of a single phase: planes, parity, and the desk at which its tiles are drawn.

ghost use Rattle.std.specs.Prelude.{◌≡◌, ◌<◌};
ghost use Rattle.gas_terms.specs.Cells.{tile_count, HasSidesOf};
ghost use Rattle.gas_plane.specs.Planes.{IsLattice};

use claim_desk::Desk;
use gas_plane::Plane;

/// The planes of a phase, and its parity.
#[derive(Clone, Copy)]
pub struct Task<'a> {
    pub old: &'a Plane,
    pub walls: &'a Plane,
    pub obstacles: &'a Plane,
    pub parity: u8,
    pub ghost parity_is: { parity < 2 },
    pub ghost lattice: { IsLattice old.now },
    pub ghost of_walls: { HasSidesOf walls.now old.now },
    pub ghost of_obstacles: { HasSidesOf obstacles.now old.now },
}

/// A phase, and the desk at which its tiles are drawn.
#[derive(Clone, Copy)]
pub struct Shift<'a> {
    pub task: Task<'a>,
    pub desk: &'a Desk,
    pub ghost limit: { desk.now.id.limit ≡ tile_count task.old.now },
}
