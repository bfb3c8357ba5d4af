//! What strips make at a time.

ghost use Rattle.std.specs.Prelude.{◌≡◌, ◌+◌, ◌<◌, ◌≤◌, IsTrue};
ghost use Rattle.gas_terms.specs.Cells.{HasSidesOf};
ghost use Rattle.gas_plane.specs.Planes.{IsLattice};
ghost use Rattle.phase_strips.specs.Courses.{IsQuiet, Lists};

use crate::runs::edges::{Board, RunName};
use gas_plane::Plane;
use phase_step::{Counted, Exchange, Solids};

/// So many phases of a run, from phase `from` on, with the exchange after each. If they are its first, the strips load the
/// particles. `patience` is that of `LeastRun`. If the run is quiet, nothing acts in it, and nothing is taken in the accounts that are
/// kept.
#[derive(Drop)]
pub struct RunInput<'a, N: RunName> {
    pub particles: &'a Plane,
    pub solids: &'a Solids,
    pub parity: u8,
    pub from: u16,
    pub phases: u16,
    pub exchanges: &'a [Exchange],
    pub counted: Counted,
    pub board: &'a Board<N>,
    pub patience: u64,
    pub quiet: bool,
    pub ghost few: { from + phases ≤ 65535 },
    pub ghost small: { parity < 2 },
    pub ghost lattice: { IsLattice particles.now },
    pub ghost of_walls: { HasSidesOf solids.now.walls particles.now },
    pub ghost of_obstacles: { HasSidesOf solids.now.obstacles particles.now },
    pub ghost start: { N.course.start ≡ particles.now },
    pub ghost parity_is: { N.course.dynamics.parity ≡ parity },
    pub ghost walls: { N.course.dynamics.walls ≡ solids.now.walls },
    pub ghost obstacles: { N.course.dynamics.obstacles ≡ solids.now.obstacles },
    pub ghost lists: { Lists exchanges.now N.course.dynamics.leaves from phases },
    pub ghost counted_is: { N.course.counted ≡ counted },
    pub ghost is_quiet: { IsTrue quiet → IsQuiet N.course },
}
