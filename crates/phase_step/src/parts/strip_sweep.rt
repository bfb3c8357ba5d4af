//! Two phases of a strip in one sweep: a row of tiles turns at parity 1 and just after it at parity 0, while it is in the cache.

ghost use Rattle.std.specs.Prelude.{◌≡◌, ◌+◌, ◌-◌, ◌*◌, ◌/◌, ◌<◌, ◌≤◌};
ghost use Rattle.gas_terms.specs.Cells.{Cells, HasSidesOf, joined, tile_count};
ghost use Rattle.gas_terms.specs.Gas.{streamed};
ghost use Rattle.phase_step.specs.Parts.{IsPartOf, IsReady};
ghost use Rattle.phase_step.specs.OddPhase.{AreTurnedOn};
ghost use Rattle.phase_step.specs.Solid.{all_of};

use crate::odd_phase::turn_seam;
use crate::parts::Part;
use crate::parts::turning::{place_of, turn_begun, turn_even};
use crate::steps::{KnownSolid, Solids};
use gas_plane::Plane;

// An own row of tiles turns at parity 1 and then at parity 0, after the seam above it.
fn turn_own_row(particles: &mut Plane, known: KnownSolid<'_>, part: Part, row: u32)
    requires part { (part.first < part.down) × (part.down ≤ 64) × (part.margin ≡ 1) }
    requires row { (1 ≤ row) × (row + 1 < particles.old.height / 64) }
    requires solid { tile_count (all_of known.solids.now) ≡ part.down * (particles.old.width / 64) }
    ensures sides { HasSidesOf particles.new particles.old }
    ensures turned { let solid = all_of known.entry.solids.now in (old lattice : Cells) →
        HasSidesOf solid lattice → IsPartOf part old lattice 63 →
        let mid = streamed 1 lattice solid in
        let next = streamed 0 mid solid in
        AreTurnedOn row part mid next old particles.old →
        AreTurnedOn (row + 1) part mid next old particles.new }
{
    let place = place_of(part, row, particles.down());
    turn_begun(particles, known, place);
    turn_even(particles, known, place);
}

/// Two phases of a strip's own tiles, of parity 1 and then of parity 0. Nothing is counted, and nothing acts between them.
pub fn turn_strip(particles: &mut Plane, solids: &Solids, part: Part)
    requires strip { part.margin ≡ 1 }
    requires ready { IsReady part (joined solids.now.walls solids.now.obstacles) particles.old 63 }
    ensures sides { HasSidesOf particles.new particles.old }
    ensures phases { let solid = joined solids.now.walls solids.now.obstacles in
        (lattice : Cells) → HasSidesOf solid lattice → IsPartOf part particles.old lattice 63 →
        IsPartOf part particles.new (streamed 0 (streamed 1 lattice solid) solid) 64 }
{
    let known = KnownSolid::of(solids);
    let down = particles.down();
    let above = place_of(part, 0, down);
    turn_seam(particles, known, above);
    for row in 1..down - 1 {
        turn_own_row(particles, known, part, row);
    }
}
