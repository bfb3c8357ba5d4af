//! A work queue: a `Desk` hands out the numbers below a limit to several threads, each number exactly once.
//!
//! It is there for callers of the library, through `Team::phase` (`phase_team`). The program does not call it.
#![tactic(auto)]

ghost use Rattle.std.specs.Prelude.{ℕ, ◌+◌, ◌≤◌, List};
ghost use Rattle.claim_desk.specs.declared.draws.Draws.{Draws};
ghost use Rattle.claim_desk.specs.Draws.{IsState, HoldEachOnce};

mod desk;
pub mod draws;
pub mod rule;

pub use desk::{Desk, DeskSeat, NoMemory};

/// However the draws interleave, the seats hold each number below the counter and the limit exactly once, and no other. The
/// counter overshoots the limit by at most the number of seats.
pub fn each_state_holds_each_once()
    ensures once { (limit seats next : ℕ) (views : List Draws)
        → IsState limit seats next views → HoldEachOnce limit next views }
    ensures few { (limit seats next : ℕ) (views : List Draws)
        → IsState limit seats next views → next ≤ limit + seats }
{}
