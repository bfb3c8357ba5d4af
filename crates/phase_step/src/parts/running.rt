//! A run: its phases, what they take, and the action after each.

ghost use Rattle.std.specs.Prelude.{◌≡◌, ℤ, ◌<◌};
ghost use Rattle.gas_terms.specs.Cells.{Cells, HasSidesOf};
ghost use Rattle.gas_terms.specs.Velocity.{parity as of_tick};
ghost use Rattle.gas_terms.specs.Accounts.{moved_by};
ghost use Rattle.gas_plane.specs.Planes.{IsLattice};
ghost use Rattle.phase_step.specs.Actions.{acted};
ghost use Rattle.phase_step.specs.Exchanges.{leaves_of};
ghost use Rattle.phase_step.specs.Parts.{own_moves, IsPartOf, IsPartOfSome, part_run, CanRunPart, HasRunPart};
ghost use Rattle.phase_step.specs.WholeRuns.{dynamics, CanRun, HasRunWhole};

use crate::exchanges::{Action, Exchange};
use crate::parts::counting::{Counting, count_part};
use crate::parts::sweeping::turn_on;
use crate::parts::turning::turn_part;
use crate::parts::{Part, own_tiles, whole};
use crate::sums::{CellCounts, Flow};
use crate::{Run, parity_at};
use block_rule::Counted;
use gas_plane::Plane;
use gas_terms::Moved;

// Acts on a part's own tiles as on the lattice's, at a tick of this parity. Returns what comes in
// and goes out.
fn act_on_part(particles: &mut Plane, exchange: &Exchange, part: Part, parity: u8) -> Moved
    requires parity { parity < 2 }
    requires some { IsPartOfSome part particles.old 64 }
    ensures sides { HasSidesOf particles.new particles.old }
    ensures rows { (lattice : Cells) → IsPartOf part particles.old lattice 64 →
        IsPartOf part particles.new (acted (leaves_of exchange.now) lattice) 64 }
    ensures moved { (lattice : Cells) → IsPartOf part particles.old lattice 64 →
        result ≡ own_moves part parity particles.old lattice
        (acted (leaves_of exchange.now) lattice) }
{
    if exchange.is_still() {
        return Moved::ZERO;
    }
    let mut counts = CellCounts::ZERO;
    let across = particles.across();
    let own = own_tiles(part, particles);
    let mut next = particles.position(own.there);
    for i in own.first..own.end {
        let there = next;
        next = there.next(across);
        let left = there.column * 64;
        let top = there.row * 64;
        if exchange.keeps(left, top, particles.tile(i)) {
            continue;
        }
        let here = exchange.on_tile(left, top, particles.tile_mut(i));
        let sum = counts.plus(here);
        counts = sum;
    }
    counts.moved(parity)
}

/// What the action does to a part's own tiles after phase k, at a tick of this parity. Returns what
/// comes in and goes out.
pub fn act_after<A: Action>(
    particles: &mut Plane,
    action: &A,
    k: u16,
    part: Part,
    parity: u8,
) -> Moved
    requires parity { parity < 2 }
    requires some { IsPartOfSome part particles.old 64 }
    ensures sides { HasSidesOf particles.new particles.old }
    ensures rows { (lattice : Cells) → IsPartOf part particles.old lattice 64 →
        IsPartOf part particles.new (acted (A.leaves action.now k) lattice) 64 }
    ensures moved { (lattice : Cells) → IsPartOf part particles.old lattice 64 →
        result ≡ own_moves part parity particles.old lattice
        (acted (A.leaves action.now k) lattice) }
{
    // An exchange made for nothing would cost as much as a step of some tiles.
    if !action.acts() {
        return Moved::ZERO;
    }
    act_on_part(particles, &action.after_phase(k), part, parity)
}

/// Acts on every cell, at a tick of this parity. Returns what came in and what went out.
pub fn act_on(plane: &mut Plane, exchange: &Exchange, parity: u8) -> Moved
    requires { parity < 2 }
    ensures lattice { IsLattice plane.old }
    ensures cells { plane.new ≡ acted (leaves_of exchange.now) plane.old }
    ensures moved { (tick : ℤ) → of_tick tick ≡ parity →
        result ≡ moved_by tick plane.old plane.new }
{
    let part = whole(plane);
    let moved = act_on_part(plane, exchange, part, parity);
    plane.shows_lattice();
    moved
}

/// A run on a part of a lattice, in place. A part with margins makes one phase at most. Returns
/// what it comes to in the part's own tiles; an account that is not kept has 0.
// The planes' tiles are then read by reference, which the vectors of its loops need.
#[inline(never)]
pub fn run_part<A: Action>(
    particles: &mut Plane,
    part: Part,
    run: Run<'_, A>,
    counted: Counted,
) -> Flow
    requires { let r = run in
        CanRunPart part (dynamics r.parity r.solids.now (A.leaves r.action.now)) r.n
        particles.old }
    ensures { let r = run.entry in
        let d = dynamics r.parity r.solids.now (A.leaves r.action.now) in
        HasRunPart (part_run part counted d r.n) particles.old particles.new result }
{
    let counting = Counting::of(run.solids, counted);
    let mut flow = Flow::ZERO;
    for k in 0..run.n {
        let now = parity_at(run.parity, k);
        let took = count_part(particles, counting, part, now);
        turn_part(particles, counting.known, part, now);
        let moved = act_after(particles, run.action, k, part, 1 - now);
        flow = flow.plus(Flow { took, moved });
    }
    flow
}

/// A run on the whole lattice, on the calling thread. An account that is not kept has 0.
pub fn run_whole<A: Action>(particles: &mut Plane, run: Run<'_, A>, counted: Counted) -> Flow
    requires { let r = run in
        CanRun (dynamics r.parity r.solids.now (A.leaves r.action.now)) particles.old }
    ensures { let r = run.entry in
        HasRunWhole counted (dynamics r.parity r.solids.now (A.leaves r.action.now)) r.n
        particles.old particles.new result }
{
    particles.shows_lattice();
    if !run.action.acts() {
        let counting = Counting::of(run.solids, counted);
        return Flow {
            took: turn_on(particles, counting, run.parity, run.n),
            moved: Moved::ZERO,
        };
    }
    let part = whole(particles);
    let flow = run_part(particles, part, run, counted);
    particles.shows_lattice();
    flow
}
