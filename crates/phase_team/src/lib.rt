//! Single phases of a gas on 1 to 16 threads: a `Team` gives the same results as `Serial`, in phases and as a `Stepper`.
//!
//! A single phase (`Team::phase`) is made by workers that draw its tiles one by one at a desk. Each calls the team's `Gate` after
//! each draw. The team makes runs by the `StripTeam` that it has inside (`phase_strips`).
//!
//! All of it is there for callers of the library. The program makes runs alone, by `phase_strips`.
#![tactic(auto)]

mod phase;
mod team;

pub use phase::{Gate, NoGate};
pub use phase_strips::{LeastRun, MOST_WORKERS};
pub use team::Team;
