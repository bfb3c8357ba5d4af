//! The team: single phases, whose tiles the workers draw, and runs, which its strip team makes.

ghost use Rattle.std.specs.Prelude.{◌≡◌, ◌<◌, ◌≤◌, IfSome, IfNone};
ghost use Rattle.gas_terms.specs.Cells.{joined, HasSidesOf};
ghost use Rattle.gas_terms.specs.Gas.{streamed};
ghost use Rattle.gas_terms.specs.Accounts.{taken};
ghost use Rattle.phase_strips.specs.Limits.{most_workers};
ghost use Rattle.phase_team.specs.Teamwork.{IsRoom, cells_after, taken_in_all};

use crate::phase::{Crew, Gate, NoGate, Shift, Task, Turned, crew_of, hand_in, work_together};
use gas_plane::Plane;
use gas_terms::Took;
use phase_step::{Action, Flow, Run, Serial, Stepper};
use phase_strips::{LeastRun, StripTeam};
use single_phase::Phases;
use std::alloc::Global;
use std::marker::Model;
use std::thread::Threads;
use std::time::Clock;

/// A team of 1 to 16 workers. The calling thread is worker 0; the others are threads that are started for each phase or run.
/// A phase never fails: if memory runs out or a thread can't be started, the calling thread does the rest. In a single phase the
/// workers draw tiles, never more workers than tiles; the tiles of the other workers are written to buffers, which the team
/// keeps, and put in place when all are turned. Contracts see the number of workers.
#[derive(Drop)]
pub struct Team<R: Threads + Drop, G: Gate + Drop> {
    strips: StripTeam<R>,
    alloc: Global,
    gate: G,
    rooms: Vec<Vec<Turned>>,
}

impl<R: Threads + Drop, G: Gate + Drop> Model for Team<R, G> {
    ghost use Rattle.std.specs.Prelude.{ℕ};

    ghost Value = { ℕ };

    ghost view = { λ t. t.strips };
}

impl<R: Threads + Drop, G: Gate + Drop> Team<R, G> {
    /// A team of 1 to 16 workers. It allocates and starts threads in phases and runs only. In a single phase, each worker calls
    /// the gate after each draw.
    pub fn new(rt: R, alloc: Global, workers: u8, gate: G) -> Team<R, G>
        requires { (0 < workers) × (workers ≤ most_workers) }
        ensures { result ≡ workers }
    {
        Team::with_least_run(rt, alloc, workers, gate, LeastRun::USUAL)
    }

    /// The same, with the smallest run that is made by strips. Smaller runs stay on one thread.
    pub fn with_least_run(rt: R, alloc: Global, workers: u8, gate: G, least: LeastRun) -> Team<R, G>
        requires { (0 < workers) × (workers ≤ most_workers) }
        ensures { result ≡ workers }
    {
        Team {
            strips: StripTeam::with_least_run(rt, alloc, workers, least),
            alloc,
            gate,
            rooms: Vec::new(alloc),
        }
    }

    /// Whether the last run was made by strips, and not by the calling thread alone.
    pub fn was_by_strips(&self) -> bool {
        self.strips.was_by_strips()
    }

    /// `Phases::phase` by the workers, with any gate.
    pub fn phase(
        &mut self,
        old: &Plane,
        walls: &Plane,
        obstacles: &Plane,
        parity: u8,
        out: &mut Plane,
    ) -> Took
        requires parity { parity < 2 }
        requires walls { HasSidesOf walls.now old.now }
        requires obstacles { HasSidesOf obstacles.now old.now }
        requires out { HasSidesOf out.old old.now }
        ensures out { out.new ≡ streamed parity old.now (joined walls.now obstacles.now) }
        ensures took { result ≡ taken parity old.now walls.now obstacles.now }
        ensures team { self.new ≡ self.old }
    {
        out.shows_lattice();
        let workers = u32::from(self.strips.workers()).min(old.size().tiles());
        let task = Task {
            old,
            walls,
            obstacles,
            parity,
        };
        match self.turn_together(workers, task, out) {
            Some(took) => took,
            None => Serial.phase(old, walls, obstacles, parity, out),
        }
    }

    // A phase by a desk and its workers. `None` if memory for them runs out; then nothing was done.
    fn turn_together(&mut self, workers: u32, task: Task<'_>, out: &mut Plane) -> Option<Took>
        requires workers { (0 < workers) × (workers ≤ most_workers) }
        requires out { IsRoom task out.old }
        ensures out { IfSome result (λ _. out.new ≡ cells_after task.entry) }
        ensures took { IfSome result (λ took. took ≡ taken_in_all task.entry) }
        ensures none { IfNone result (out.new ≡ out.old) }
        ensures team { self.new ≡ self.old }
    {
        let tiles = task.old.size().tiles();
        let rt = self.strips.threads();
        let Team {
            alloc,
            gate,
            rooms,
            ..
        } = self;
        let Some(crew) = crew_of(*alloc, tiles, workers, rooms) else {
            return None;
        };
        let Crew {
            desk,
            mut own,
            mut team,
            mut seats,
        } = crew;
        let shift = Shift { task, desk: &desk };
        let first = work_together(rt, shift, gate, team.as_mut_slice(), &mut own, out);
        seats.push_reserved(own);
        let took = hand_in(shift, team, &mut seats, rooms, first, out);
        desk.close(seats);
        Some(took)
    }
}

impl<R: Threads + Drop> Phases for Team<R, NoGate> {
    fn phase(
        &mut self,
        old: &Plane,
        walls: &Plane,
        obstacles: &Plane,
        parity: u8,
        out: &mut Plane,
    ) -> Took {
        if self.strips.workers() == 1 {
            return Serial.phase(old, walls, obstacles, parity, out);
        }
        self.phase(old, walls, obstacles, parity, out)
    }
}

impl<R: Threads + Clock + Drop> Stepper for Team<R, NoGate> {
    fn run_with<A: Action>(&mut self, particles: &mut Plane, run: Run<'_, A>) -> Flow {
        self.strips.run_with(particles, run)
    }
}
