//! Runs by strips. Each strip has a thread for the whole run, and shows its neighbors the rows of cells at its edges.

ghost use Rattle.std.specs.Prelude.{◌≡◌, ℕ, ◌+◌, ◌/◌, ◌<◌, ◌≤◌, All, IsTrue, IfSome, IfNone, length, map};
ghost use Rattle.std.specs.Vec.{vec_capacity};
ghost use Rattle.gas_terms.specs.Cells.{extent};
ghost use Rattle.gas_plane.specs.Planes.{IsLattice};
ghost use Rattle.phase_step.specs.Actions.{IsStill};
ghost use Rattle.phase_step.specs.SolidBlocks.{AreOfNone};
ghost use Rattle.phase_step.specs.WholeRuns.{dynamics};
ghost use Rattle.phase_strips.specs.Limits.{most_listed, most_workers};
ghost use Rattle.phase_strips.specs.Courses.{course_of, CanGoOn, Course, HasGoneOn, lattice_at, flow_at, Lists};
ghost use Rattle.phase_strips.specs.Strips.{AreStrips, AreSomewhere, IsAt, IsOf};

mod edges;
mod input;
mod strip;
mod watch;

use edges::{Board, RunName};
use gas_plane::Plane;
use gas_terms::Size;
use input::RunInput;
use phase_step::{Action, Counted, Exchange, Flow, Run};
use std::alloc::Global;
use std::marker::Brand;
use std::sync::atomic::Ordering;
use std::thread;
use std::thread::Threads;
use std::time::Clock;
use strip::{OwnRows, Strip};
use watch::{NoWatch, Stopwatch};

/// How many exchanges are listed at once, for all strips. Threads last so long; without exchanges, for a whole run.
const LISTED: u16 = 256;

/// The strips into which a lattice is cut, one for each worker. They are kept between runs.
#[derive(Drop)]
pub struct Strips {
    pub size: Size,
    strips: Vec<Strip>,
    // What acts after each phase.
    exchanges: Vec<Exchange>,
    pub ghost laid: { AreStrips size strips.items },
    pub ghost room: { most_listed ≤ vec_capacity exchanges },
}

impl Strips {
    /// `None` if memory runs out, or if a strip would be too high for a plane.
    pub fn new(alloc: Global, size: Size, workers: u8) -> Option<Strips>
        requires { (0 < workers) × (workers ≤ most_workers) }
        ensures { IfSome result (λ strips. strips.size ≡ size) }
    {
        let exchanges = Vec::with_capacity(alloc, LISTED as usize).ok()?;
        let count = u32::from(workers).min(u32::from(size.height() / 64));
        let strips = cut(alloc, size, count)?;
        Some(Strips {
            size,
            strips,
            exchanges,
        })
    }
}

// So many strips, as equal as can be.
fn cut(alloc: Global, size: Size, count: u32) -> Option<Vec<Strip>>
    requires count { (0 < count) × (count ≤ size.height / 64) }
    ensures { IfSome result (λ strips. AreStrips size strips.items) }
{
    let down = u32::from(size.height() / 64);
    let mut strips = Vec::with_capacity(alloc, count as usize).ok()?;
    for k in 0..count {
        let first = k * down / count;
        let rows = (k + 1) * down / count - first;
        let strip = Strip::new(alloc, size, OwnRows { first, rows })?;
        strips.push_reserved(strip);
    }
    Some(strips)
}

/// The strips of the last run if they are for lattices of this size, or else new ones.
pub fn strips_for(
    kept: &mut Option<Strips>,
    alloc: Global,
    size: Size,
    workers: u8,
) -> Option<Strips>
    requires { (0 < workers) × (workers ≤ most_workers) }
    ensures { IfSome result (λ strips. strips.size ≡ size) }
{
    if let Some(strips) = kept.take() {
        if strips.size == size {
            return Some(strips);
        }
    }
    Strips::new(alloc, size, workers)
}

// The first strip makes the phases, on the calling thread, once all others have begun. False if a strip has given up.
fn lead<R: Clock, N: RunName>(rt: &R, input: &RunInput<'_, N>, strip: &mut Strip) -> bool
    requires edges { (0 < length input.now.board.now.edges.items)
        × (length input.now.board.now.edges.items ≤ 64) }
    requires strip { IsOf (extent N.course.start) strip.old }
    requires at { 0 < input.now.from → IsAt N.course input.now.from strip.old }
    ensures strip { IsOf (extent N.course.start) strip.new }
    ensures own { strip.new.own ≡ strip.old.own }
    ensures at { IsTrue result → IsAt N.course (input.now.from + input.now.phases) strip.new }
{
    let others = input.board.edges.len() as u32 - 1;
    let mut watch = Stopwatch::start(rt, others, input.patience);
    input.board.wait_for_all(&watch) && strip.run(input, 0, &mut watch)
}

// Each strip makes the phases: the last one in a thread of its own if it can be started, and so on; the first on the calling
// thread. False if a strip has given up.
fn make_all<R: Threads + Clock, N: RunName + Send + Sync>(
    rt: &R,
    input: &RunInput<'_, N>,
    strips: &mut [Strip],
) -> bool
    requires strips { All (IsOf (extent N.course.start)) strips.old }
    requires few { (length strips.old ≤ length input.now.board.now.edges.items)
        × (length input.now.board.now.edges.items ≤ 64) }
    requires at { 0 < input.now.from → All (IsAt N.course input.now.from) strips.old }
    ensures strips { All (IsOf (extent N.course.start)) strips.new }
    ensures own { map (λ s. s.own) strips.new ≡ map (λ s. s.own) strips.old }
    ensures at { IsTrue result →
        All (IsAt N.course (input.now.from + input.now.phases)) strips.new }
{
    let Some((last, rest)) = strips.split_last_mut() else {
        return true;
    };
    let number = rest.len() as u32;
    if rest.is_empty() {
        return lead(rt, input, last);
    }
    let (one, others) = thread::join_mut(
        rt,
        &mut || -> bool
            requires { (number < length input.now.board.now.edges.items)
                × (length input.now.board.now.edges.items ≤ 64)
                × IsOf (extent N.course.start) last.now
                × (0 < input.now.from → IsAt N.course input.now.from last.now) }
            ensures { IsOf (extent N.course.start) last.exit.now
                × (last.exit.now.own ≡ last.entry.now.own)
                × (IsTrue result → let i = input.entry.now in
                IsAt N.course (i.from + i.phases) last.exit.now) }
        { last.run(input, number, &mut NoWatch) },
        &mut || -> bool
            requires { (length rest.now ≤ length input.now.board.now.edges.items)
                × (length input.now.board.now.edges.items ≤ 64)
                × All (IsOf (extent N.course.start)) rest.now
                × (0 < input.now.from → All (IsAt N.course input.now.from) rest.now) }
            ensures { All (IsOf (extent N.course.start)) rest.exit.now
                × (map (λ s. s.own) rest.exit.now ≡ map (λ s. s.own) rest.entry.now)
                × (IsTrue result → let i = input.entry.now in
                All (IsAt N.course (i.from + i.phases)) rest.exit.now) }
        { make_all(rt, input, rest) },
    );
    one && others
}

// Puts the strips together: the particles become those of which each strip has its own rows. Returns what the run came to.
fn gather(strips: &[Strip], cells: &mut Plane) -> Flow
    requires is { IsLattice cells.old }
    requires strips { AreStrips (extent cells.old) strips.now }
    requires at { AreSomewhere cells.old strips.now }
    ensures cells { (course : Course) (k : ℕ) → course.start ≡ cells.old →
        All (IsAt course k) strips.now → cells.new ≡ lattice_at course k }
    ensures flow { (course : Course) (k : ℕ) → course.start ≡ cells.old →
        All (IsAt course k) strips.now → result ≡ flow_at course k }
{
    let mut flow = Flow::ZERO;
    for strip in strips {
        strip.put_rows(0, strip.own.rows, cells);
        flow = flow.plus(strip.flow);
    }
    flow
}

// Lists what an action does after each of the phases from phase `from` on, of which so many are left. Returns how many it lists:
// all if it does nothing.
fn list_exchanges<A: Action>(action: &A, from: u16, left: u16, exchanges: &mut Vec<Exchange>) -> u16
    requires left { from + left ≤ 65535 }
    requires room { most_listed ≤ vec_capacity exchanges.old }
    ensures some { (result ≤ left) × (0 < left → 0 < result) }
    ensures lists { Lists exchanges.new.items (A.leaves action.now) from result }
    ensures room { vec_capacity exchanges.new ≡ vec_capacity exchanges.old }
{
    exchanges.clear();
    if !action.acts() {
        return left;
    }
    let n = left.min(LISTED);
    for k in 0..n {
        exchanges.push_reserved(action.after_phase(from + k));
    }
    n
}

// Whether nothing acts in a run, and nothing is taken in the accounts that are kept.
fn is_quiet<A: Action>(run: &Run<'_, A>, counted: Counted) -> bool
    ensures { let r = run.now in IsTrue result →
        ((k : ℕ) → IsStill (A.leaves r.action.now k)) ×
        AreOfNone counted r.solids.now.walls r.solids.now.obstacles }
{
    !run.action.acts() && !run.solids.is_counted(counted)
}

// A run that has a name. `None` if memory ran out or a strip gave up; then the particles are as they were.
fn run_named<R: Threads + Clock, N: RunName + Send + Sync, A: Action>(
    rt: &R,
    alloc: Global,
    strips: &mut Strips,
    particles: &mut Plane,
    run: &Run<'_, A>,
    counted: Counted,
    patience: u64,
) -> Option<Flow>
    requires course { let r = run.now in N.course
        ≡ course_of particles.old (dynamics r.parity r.solids.now (A.leaves r.action.now)) counted }
    requires run { CanGoOn strips.old.size N.course.dynamics particles.old }
    ensures run { IfSome result (HasGoneOn N.course run.now.n particles.new) }
    ensures none { IfNone result (particles.new ≡ particles.old) }
{
    if run.n == 0 {
        return None;
    }
    let quiet = is_quiet(run, counted);
    let board = Board::<N>::new(alloc, particles, strips.strips.len())?;
    let mut done = 0;
    while done < run.n {
        let phases = list_exchanges(run.action, done, run.n - done, &mut strips.exchanges);
        let input = RunInput {
            particles: &*particles,
            solids: run.solids,
            parity: run.parity,
            from: done,
            phases,
            exchanges: strips.exchanges.as_slice(),
            counted,
            board: &board,
            patience,
            quiet,
        };
        board.begun.store(0, Ordering::Relaxed);
        if !make_all(rt, &input, strips.strips.as_mut_slice()) {
            return None;
        }
        done += phases;
    }
    Some(gather(strips.strips.as_slice(), particles))
}

/// A run by the strips of the lattice's size. An account that is not kept has 0. `None` if memory runs out, not all threads can be
/// started or a strip waits too long; then the particles are as they were.
pub fn run_by<R: Threads + Clock, A: Action>(
    rt: &R,
    alloc: Global,
    strips: &mut Strips,
    particles: &mut Plane,
    run: &Run<'_, A>,
    counted: Counted,
    patience: u64,
) -> Option<Flow>
    requires { let r = run.now in
        CanGoOn strips.old.size (dynamics r.parity r.solids.now (A.leaves r.action.now))
        particles.old }
    ensures run { let r = run.now in
        IfSome result (HasGoneOn
        (course_of particles.old (dynamics r.parity r.solids.now (A.leaves r.action.now)) counted)
        r.n particles.new) }
    ensures none { IfNone result (particles.new ≡ particles.old) }
{
    run_named::<R, Brand, A>(rt, alloc, strips, particles, run, counted, patience)
}
