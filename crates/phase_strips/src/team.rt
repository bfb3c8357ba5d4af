//! The team that makes runs by strips, and its choice of how a run is made.

ghost use Rattle.std.specs.Prelude.{◌≡◌, ◌<◌, ◌≤◌};
ghost use Rattle.phase_step.specs.WholeRuns.{dynamics, CanRun, HasRunWhole};
ghost use Rattle.phase_strips.specs.Limits.{most_workers};
ghost use Rattle.phase_strips.specs.Worth.{is_worth_strips};

use crate::runs::{Strips, run_by, strips_for};
use gas_plane::Plane;
use gas_terms::Size;
use phase_step::{
    Action, Counted, Flow, Run, Stepper, account_to_count, parity_at, run_whole,
    with_missing_account,
};
use std::alloc::Global;
use std::marker::Model;
use std::thread::Threads;
use std::time::Clock;

/// How many workers a team has at most.
pub const MOST_WORKERS: u32 = 16;

// In so many phases of a run tiles are counted, to see whether it is worth strips. A small lattice isn't, however long the run.
const COUNTED_PHASES: u16 = 512;

/// The smallest run that is made by strips: how many phases it has, and how many tiles fewer each worker turns in it than one
/// thread would. With 0 for both, each run is made by strips. And how many milliseconds strips may wait for each other in a run,
/// however little they have worked.
#[derive(Clone, Copy)]
pub struct LeastRun {
    pub phases: u16,
    pub tiles: u32,
    pub patience: u64,
}

impl LeastRun {
    /// That of the program. A run by strips starts threads, loads the strips and puts them together, and its threads wait for each
    /// other in every second phase. So what one thread makes in three or four milliseconds stays on one thread.
    pub const USUAL: LeastRun = LeastRun {
        phases: 16,
        tiles: 131_072,
        patience: 10,
    };
}

// Whether a run of n phases is no smaller than the least: what a worker turns is compared with the lattice.
fn is_worth_strips(least: LeastRun, size: Size, workers: u8, n: u16) -> bool
    requires { (0 < workers) × (workers ≤ most_workers) }
    ensures { result ≡ is_worth_strips least.phases least.tiles size workers n }
{
    let across = u32::from(size.width() / 64);
    let down = u32::from(size.height() / 64);
    let workers = u32::from(workers);
    let rows = (down + workers - 1) / workers;
    let saved = across * (down - rows) * u32::from(n.min(COUNTED_PHASES));
    least.phases <= n && least.tiles <= saved
}

// How many of the next runs one thread makes, since strips gave up in the last one: 2, then 4, .. and at most 64, until strips
// work again.
#[derive(Clone, Copy)]
struct Solo {
    left: u8,
    last: u8,
}

impl Solo {
    const NONE: Solo = Solo { left: 0, last: 1 };

    // Whether the next run is one of these.
    fn takes_next(&mut self) -> bool {
        if self.left == 0 {
            return false;
        }
        self.left -= 1;
        true
    }

    // What follows a run by strips.
    fn after(self, gave_up: bool) -> Solo {
        if !gave_up {
            return Solo::NONE;
        }
        let next = self.last.min(32) * 2;
        Solo {
            left: next,
            last: next,
        }
    }
}

/// A team of 1 to 16 workers that makes runs by strips. The calling thread is worker 0; the others are threads that are started
/// for each run. A run never fails: if memory runs out or a thread can't be started, the calling thread makes it. Contracts see
/// the number of workers.
#[derive(Drop)]
pub struct StripTeam<R: Threads + Drop> {
    rt: R,
    alloc: Global,
    workers: u8,
    strips: Option<Strips>,
    least: LeastRun,
    solo: Solo,
    by_strips: bool,
}

impl<R: Threads + Drop> Model for StripTeam<R> {
    ghost use Rattle.std.specs.Prelude.{ℕ, ◌<◌, ◌≤◌};
    ghost use Rattle.phase_strips.specs.Limits.{most_workers};

    ghost Value = { ℕ };

    ghost view = { λ t. t.workers };

    ghost invariant = { λ t. (0 < t.workers) × (t.workers ≤ most_workers) };
}

impl<R: Threads + Drop> StripTeam<R> {
    /// A team of 1 to 16 workers. It allocates and starts threads in runs only.
    pub fn new(rt: R, alloc: Global, workers: u8) -> StripTeam<R>
        requires { (0 < workers) × (workers ≤ most_workers) }
        ensures { result ≡ workers }
    {
        StripTeam::with_least_run(rt, alloc, workers, LeastRun::USUAL)
    }

    /// The same, with the smallest run that is made by strips. Smaller runs stay on one thread.
    pub fn with_least_run(rt: R, alloc: Global, workers: u8, least: LeastRun) -> StripTeam<R>
        requires { (0 < workers) × (workers ≤ most_workers) }
        ensures { result ≡ workers }
    {
        StripTeam {
            rt,
            alloc,
            workers,
            strips: None,
            least,
            solo: Solo::NONE,
            by_strips: false,
        }
    }

    /// Whether the last run was made by strips, and not by the calling thread alone.
    pub fn was_by_strips(&self) -> bool {
        self.by_strips
    }

    /// How many workers the team has.
    pub fn workers(&self) -> u8
        ensures count { result ≡ self.now }
        ensures range { (0 < result) × (result ≤ most_workers) }
    {
        self.workers
    }

    /// What the team starts its threads with.
    pub fn threads(&self) -> &R {
        &self.rt
    }
}

impl<R: Threads + Clock + Drop> Stepper for StripTeam<R> {
    // Among walls, a run keeps one account, and works the other out from the momentum. What there is at the end is kept for the
    // next run.
    fn run_with<A: Action>(&mut self, particles: &mut Plane, run: Run<'_, A>) -> Flow {
        if run.solids.are_none() {
            return self.run_by_worth(particles, run, Counted::BOTH);
        }
        let counted = account_to_count(run.solids);
        let end = parity_at(run.parity, run.n);
        let before = particles.keep_total(run.parity);
        let flow = self.run_by_worth(particles, run, counted);
        let after = particles.keep_total(end);
        with_missing_account(before, after, flow, counted)
    }
}

impl<R: Threads + Clock + Drop> StripTeam<R> {
    // A run by strips, if these are worth it. An account that is not kept has 0.
    fn run_by_worth<A: Action>(
        &mut self,
        particles: &mut Plane,
        run: Run<'_, A>,
        counted: Counted,
    ) -> Flow
        requires { let r = run in
            CanRun (dynamics r.parity r.solids.now (A.leaves r.action.now)) particles.old }
        ensures { let r = run.entry in
            HasRunWhole counted (dynamics r.parity r.solids.now (A.leaves r.action.now)) r.n
            particles.old particles.new result }
    {
        let size = particles.size();
        let (alloc, workers) = (self.alloc, self.workers);
        let StripTeam {
            rt,
            strips: kept,
            solo,
            least,
            by_strips,
            ..
        } = self;
        *by_strips = false;
        if !is_worth_strips(*least, size, workers, run.n) || solo.takes_next() {
            return run_whole(particles, run, counted);
        }
        match strips_for(kept, alloc, size, workers) {
            Some(mut strips) => {
                let made = run_by(
                    rt,
                    alloc,
                    &mut strips,
                    particles,
                    &run,
                    counted,
                    least.patience,
                );
                *kept = Some(strips);
                *solo = solo.after(made.is_none());
                *by_strips = made.is_some();
                match made {
                    Some(flow) => flow,
                    None => run_whole(particles, run, counted),
                }
            }
            None => run_whole(particles, run, counted),
        }
    }
}
