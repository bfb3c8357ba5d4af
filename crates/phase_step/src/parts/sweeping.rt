//! Phases of a whole lattice, two in one sweep: a row of tiles turns at parity 0 just before the one above it turns at
//! parity 1, while both are in the cache. What is taken of a row in both is counted then too.

ghost use Rattle.std.specs.Prelude.{◌≡◌, ◌+◌, ◌/◌, ◌%◌, ◌<◌, ◌≤◌};
ghost use Rattle.gas_terms.specs.Cells.{Cells, HasSidesOf};
ghost use Rattle.gas_terms.specs.Gas.{streamed};
ghost use Rattle.gas_terms.specs.Accounts.{taken};
ghost use Rattle.block_rule.specs.Accounts.{counted_of};
ghost use Rattle.gas_plane.specs.Planes.{IsLattice};
ghost use Rattle.phase_step.specs.OddPhase.{AreTurnedTwice, IsRowOf, TurnsFirst, TurnsSecond, TurnsTwice, once_turned, twice_turned};
ghost use Rattle.phase_step.specs.Runs.{both_taken, particles_after, row_takes, run_takes};
ghost use Rattle.phase_step.specs.Solid.{all_of};

use crate::odd_phase::RowPlace;
use crate::parts::counting::{Counting, count_part, count_row};
use crate::parts::turning::{turn_begun, turn_even, turn_part};
use crate::parts::whole;
use crate::steps::KnownSolid;
use gas_plane::{Plane, after};
use gas_terms::Took;

// Where a row of tiles of the whole lattice stands.
fn place_of(row: u32, down: u32) -> RowPlace
    requires { (row < down) × (down ≤ 64) }
    ensures row { result.row ≡ row }
    ensures below { result.below ≡ (row + 1) % down }
    ensures there { result.there ≡ row }
{
    RowPlace {
        row: row as u16,
        below: after(row, down) as u16,
        there: row as u16,
    }
}

// A row of tiles turns at parity 0. Returns what is taken of it then, and in the next phase.
fn turn_first(particles: &mut Plane, counting: Counting<'_>, row: u32) -> Took
    requires row { row < particles.old.height / 64 }
    requires solid { HasSidesOf (all_of counting.known.solids.now) particles.old }
    ensures sides { HasSidesOf particles.new particles.old }
    ensures turned { let solid = all_of counting.entry.known.solids.now in
        TurnsFirst row solid particles.old particles.new }
    ensures took { let s = counting.entry.known.solids.now in (old : Cells) → IsLattice old →
        HasSidesOf particles.old old → IsRowOf row particles.old old →
        result ≡ counted_of counting.entry.counted (row_takes old s.walls s.obstacles row) }
{
    let place = place_of(row, particles.down());
    let even = count_row(particles, counting, row, 0);
    turn_even(particles, counting.known, place);
    let odd = count_row(particles, counting, row, 1);
    even.plus(odd)
}

// This row of tiles turns at parity 1, after the one below it at parity 0.
fn turn_second(particles: &mut Plane, known: KnownSolid<'_>, row: u32)
    requires row { row < particles.old.height / 64 }
    requires solid { HasSidesOf (all_of known.solids.now) particles.old }
    ensures sides { HasSidesOf particles.new particles.old }
    ensures turned { TurnsSecond row (all_of known.entry.solids.now) particles.old particles.new }
{
    let place = place_of(row, particles.down());
    turn_begun(particles, known, place);
}

// The row of tiles below this one turns at parity 0, and then this one at parity 1. Returns what is taken of the one below.
fn turn_twice(particles: &mut Plane, counting: Counting<'_>, row: u32) -> Took
    requires row { (row < 64) × (row + 1 < particles.old.height / 64) }
    requires solid { HasSidesOf (all_of counting.known.solids.now) particles.old }
    ensures sides { HasSidesOf particles.new particles.old }
    ensures turned { let solid = all_of counting.entry.known.solids.now in
        TurnsTwice row solid particles.old particles.new }
    ensures took { let s = counting.entry.known.solids.now in
        let solid = all_of s in (old : Cells) → IsLattice old →
        AreTurnedTwice row (once_turned solid old) (twice_turned solid old) old particles.old →
        result ≡ counted_of counting.entry.counted (row_takes old s.walls s.obstacles (row + 1)) }
{
    let took = turn_first(particles, counting, row + 1);
    turn_second(particles, counting.known, row);
    took
}

// The phases of parity 0 and 1. Returns what is taken in both.
fn turn_both(particles: &mut Plane, counting: Counting<'_>) -> Took
    requires solid { HasSidesOf (all_of counting.known.solids.now) particles.old }
    ensures particles { let solid = all_of counting.entry.known.solids.now in
        particles.new ≡ streamed 1 (streamed 0 particles.old solid) solid }
    ensures took { let s = counting.entry.known.solids.now in
        result ≡ counted_of counting.entry.counted
        (both_taken particles.old s.walls s.obstacles) }
{
    let last = particles.down() - 1;
    let mut took = turn_first(particles, counting, 0);
    for row in 0..last {
        let here = turn_twice(particles, counting, row);
        took = took.plus(here);
    }
    turn_second(particles, counting.known, last);
    particles.shows_lattice();
    took
}

// A phase of the whole lattice. Returns what is taken in it.
fn turn_whole(particles: &mut Plane, counting: Counting<'_>, parity: u8) -> Took
    requires parity { parity < 2 }
    requires solid { HasSidesOf (all_of counting.known.solids.now) particles.old }
    ensures particles { let solid = all_of counting.entry.known.solids.now in
        particles.new ≡ streamed parity particles.old solid }
    ensures took { let s = counting.entry.known.solids.now in
        result ≡ counted_of counting.entry.counted
        (taken parity particles.old s.walls s.obstacles) }
{
    let part = whole(particles);
    let took = count_part(particles, counting, part, parity);
    turn_part(particles, counting.known, part, parity);
    particles.shows_lattice();
    took
}

// So many phases, of which the first has parity 0. Returns what is taken in them.
fn turn_from_even(particles: &mut Plane, counting: Counting<'_>, n: u16) -> Took
    requires solid { HasSidesOf (all_of counting.known.solids.now) particles.old }
    ensures particles { let solid = all_of counting.entry.known.solids.now in
        particles.new ≡ particles_after 0 solid particles.old n }
    ensures took { let s = counting.entry.known.solids.now in
        result ≡ counted_of counting.entry.counted
        (run_takes 0 s.walls s.obstacles particles.old n) }
{
    particles.shows_lattice();
    let mut took = Took::ZERO;
    for _pair in 0..n / 2 {
        let here = turn_both(particles, counting);
        took = took.plus(here);
    }
    if n % 2 == 1 {
        let here = turn_whole(particles, counting, 0);
        took = took.plus(here);
    }
    took
}

/// So many phases of the whole lattice, of which the first has this parity, without an action between them. Returns what is taken
/// in them, in the accounts that are kept.
pub fn turn_on(particles: &mut Plane, counting: Counting<'_>, parity: u8, n: u16) -> Took
    requires parity { parity < 2 }
    requires solid { HasSidesOf (all_of counting.known.solids.now) particles.old }
    ensures particles { let solid = all_of counting.entry.known.solids.now in
        particles.new ≡ particles_after parity solid particles.old n }
    ensures took { let s = counting.entry.known.solids.now in
        result ≡ counted_of counting.entry.counted
        (run_takes parity s.walls s.obstacles particles.old n) }
{
    particles.shows_lattice();
    if parity == 0 {
        return turn_from_even(particles, counting, n);
    }
    if n == 0 {
        return Took::ZERO;
    }
    let first = turn_whole(particles, counting, 1);
    let rest = turn_from_even(particles, counting, n - 1);
    first.plus(rest)
}
