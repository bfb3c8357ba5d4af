//! What a run counts, and what is taken in a phase.

ghost use Rattle.std.specs.Prelude.{◌≡◌, ◌+◌, ◌-◌, ◌/◌, ◌<◌, ◌≤◌, false};
ghost use Rattle.gas_terms.specs.Cells.{Cells, HasSidesOf, tile_count};
ghost use Rattle.gas_plane.specs.Planes.{IsLattice};
ghost use Rattle.block_rule.specs.Accounts.{counted_of};
ghost use Rattle.phase_step.specs.OddPhase.{IsRowOf};
ghost use Rattle.phase_step.specs.Runs.{row_take, tiles_take};
ghost use Rattle.phase_step.specs.SolidBlocks.{AreOfNone};
ghost use Rattle.phase_step.specs.Parts.{own_take, AreTilesOf, AreTilesOfSome, IsPartOf, IsReady};

use crate::parts::{OwnTiles, Part, own_tiles};
use crate::steps::{KnownSolid, Solids, count_tile};
use block_rule::Counted;
use gas_plane::Plane;
use gas_terms::Took;

/// What particles meet in a run, the accounts that it keeps, and whether any of these is of a set with cells: no other one takes
/// anything.
#[derive(Clone, Copy)]
pub struct Counting<'a> {
    pub known: KnownSolid<'a>,
    pub counted: Counted,
    pub some: bool,
    pub ghost none: { let s = known.solids.now in
        some ≡ false → AreOfNone counted s.walls s.obstacles },
}

impl<'a> Counting<'a> {
    /// Of these walls and obstacles, in these accounts.
    pub fn of(solids: &'a Solids, counted: Counted) -> Counting<'a>
        ensures solids { result.known.solids.now ≡ solids.now }
        ensures counted { result.counted ≡ counted }
    {
        Counting {
            known: KnownSolid::of(solids),
            counted,
            some: solids.is_counted(counted),
        }
    }
}

// What is taken of these tiles in a phase of this parity.
#[inline(never)]
fn count_tiles(particles: &Plane, counting: Counting<'_>, own: OwnTiles, parity: u8) -> Took
    requires parity { parity < 2 }
    requires lattice { IsLattice particles.now }
    requires order { (own.first ≤ own.end) × (own.end ≤ tile_count particles.now) }
    requires some { AreTilesOfSome own counting.known.solids.now.walls particles.now }
    ensures { let s = counting.entry.known.solids.now in
        (lattice : Cells) → AreTilesOf own s.walls particles.now lattice →
        result ≡ counted_of counting.entry.counted
        (tiles_take parity lattice s.walls s.obstacles own.there (own.end - own.first)) }
{
    let solids = counting.known.solids;
    let mut took = Took::ZERO;
    for i in own.first..own.end {
        let tile_solids = solids.in_tile(own.there + (i - own.first));
        let here = count_tile(particles.tile(i), tile_solids, parity, counting.counted);
        took = took.plus(here);
    }
    took
}

/// What is taken in a phase of this parity of a part's own tiles, in the accounts that are kept. It
/// reads these tiles alone, at either parity, and none if no set that is counted has a cell.
pub fn count_part(particles: &Plane, counting: Counting<'_>, part: Part, parity: u8) -> Took
    requires parity { parity < 2 }
    requires ready { IsReady part counting.known.solids.now.walls particles.now 64 }
    ensures { let s = counting.entry.known.solids.now in
        (lattice : Cells) → HasSidesOf s.walls lattice → IsPartOf part particles.now lattice 64 →
        result ≡ counted_of counting.entry.counted
        (own_take part parity particles.now lattice s.walls s.obstacles) }
{
    if !counting.some {
        return Took::ZERO;
    }
    let own = own_tiles(part, particles);
    count_tiles(particles, counting, own, parity)
}

/// What is taken in a phase of this parity of a row of tiles of the whole lattice, which may be another lattice's.
pub fn count_row(particles: &Plane, counting: Counting<'_>, row: u32, parity: u8) -> Took
    requires parity { parity < 2 }
    requires row { row < particles.now.height / 64 }
    requires walls { HasSidesOf counting.known.solids.now.walls particles.now }
    ensures { let s = counting.entry.known.solids.now in
        (lattice : Cells) → IsLattice lattice → HasSidesOf particles.now lattice →
        IsRowOf row particles.now lattice → result ≡ counted_of counting.entry.counted
        (row_take parity lattice s.walls s.obstacles row) }
{
    if !counting.some {
        return Took::ZERO;
    }
    particles.shows_lattice();
    let across = particles.across();
    let first = row * across;
    let own = OwnTiles {
        first,
        end: first + across,
        there: first,
    };
    count_tiles(particles, counting, own, parity)
}
