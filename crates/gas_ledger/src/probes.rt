//! Sums of the particles of a rectangle and of the whole lattice.

ghost use Rattle.std.specs.Prelude.{◌≡◌, ◌^◌, true};
ghost use Rattle.gas_terms.specs.Cells.{extent, lies_within};
ghost use Rattle.gas_terms.specs.Accounts.{total, total_in, IsOfAtMost};
ghost use Rattle.gas_plane.specs.Planes.{IsLattice};

use gas_plane::Plane;
use gas_terms::{Rect, Sums, Tick};

/// The sums of the particles in a rectangle at the tick.
pub fn probe(plane: &Plane, area: Rect, tick: Tick) -> Sums
    requires { lies_within (extent plane.now) area ≡ true }
    ensures lattice { IsLattice plane.now }
    ensures sums { result ≡ total_in tick plane.now area }
    ensures bounded { IsOfAtMost (2 ^ 24) result }
{
    plane.sums_in(area, tick.parity())
}

/// The sums of all particles at the tick.
pub fn tally(plane: &Plane, tick: Tick) -> Sums
    ensures sums { result ≡ total tick plane.now }
    ensures bounded { IsOfAtMost (2 ^ 24) result }
{
    plane.total(tick.parity())
}
