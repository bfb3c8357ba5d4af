//! Runs of a gas on 1 to 16 threads: a `StripTeam` is a `Stepper` and gives the same results as `Serial`.
//!
//! In a run, each worker has a strip of whole rows of tiles, and shows its neighbors the rows of cells at its edges. Short runs,
//! small lattices and a team of one stay on the calling thread.
//!
//! The program calls `StripTeam::new` and `Stepper::run_with`. `StripTeam::with_least_run` with another `LeastRun` than the usual
//! one, `StripTeam::was_by_strips`, `StripTeam::workers` and `StripTeam::threads` are there for callers of the library.
#![tactic(auto)]

mod runs;
mod team;

pub use team::{LeastRun, MOST_WORKERS, StripTeam};
