//! Steps of a gas. A `Stepper` makes a run of phases of a plane; `Serial` does it on the calling thread. An `Action` changes the
//! particles after each phase of a run, as ports do.
//!
//! The program steps by `Stepper::run_with`, forward and back. `act_on` and `Exchange::new` are there for callers of the library.
#![tactic(auto)]

ghost use Rattle.std.specs.Prelude.{◌≡◌, ◌<◌};
ghost use Rattle.phase_step.specs.Runs.{parity_at};
ghost use Rattle.phase_step.specs.WholeRuns.{dynamics, every, CanRun, HasRunWhole};

mod balance;
mod exchanges;
pub mod laws;
mod odd_phase;
mod parts;
mod steps;
mod sums;

pub use balance::{account_to_count, with_missing_account};
pub use block_rule::Counted;
pub use exchanges::{
    Action, ActionFrom, Exchange, Listed, PortArray, Still, add_tiles_of, any_area,
};
use gas_plane::Plane;
pub use parts::{Part, act_on, run_part, run_whole, turn_strip};
pub use steps::{Solids, TileSolids, count_tile, turn_even_tile, window_in};
pub use sums::{CellCounts, Flow};

/// A run of n phases in which particles meet these walls and obstacles, from the given parity on, with an action after each.
#[derive(Drop)]
pub struct Run<'a, A: Action> {
    pub solids: &'a Solids,
    pub parity: u8,
    pub n: u16,
    pub action: &'a A,
}

/// Steps the particles of a plane. A run never fails: if memory runs out or a thread can't be started, it only takes longer.
/// `Serial` never allocates.
pub trait Stepper: Drop {
    /// A run of n phases of alternating parities, with the action after each. `particles` become those after the run. Returns
    /// what walls and obstacles took in all of it, and what the action brought in and took out.
    fn run_with<A: Action>(&mut self, particles: &mut Plane, run: Run<'_, A>) -> Flow
        requires { let r = run in
            CanRun (dynamics r.parity r.solids.now (A.leaves r.action.now)) particles.old }
        ensures { let r = run.entry in
            HasRunWhole every (dynamics r.parity r.solids.now (A.leaves r.action.now)) r.n
            particles.old particles.new result };
}

/// The parity of phase k of a run whose first phase has the given one.
pub fn parity_at(parity: u8, k: u16) -> u8
    requires { parity < 2 }
    ensures parity { result ≡ parity_at parity k }
    ensures small { result < 2 }
{
    ((u32::from(parity) + u32::from(k)) % 2) as u8
}

/// Steps on the calling thread.
#[derive(Clone, Copy, Debug, Default, PartialEq, Eq)]
pub struct Serial;

impl Stepper for Serial {
    fn run_with<A: Action>(&mut self, particles: &mut Plane, run: Run<'_, A>) -> Flow {
        run_whole(particles, run, Counted::BOTH)
    }
}
