//! The program as a library: `plan` reads a command line, `load_from` loads a snapshot, `run_on` makes a run, and `serve_on`
//! is a server.
//!
//! The program calls all four.
#![tactic(auto)]

pub mod serving;

pub use gas_run::{LoadFault, Plan, PlanFault, Service, Setup, Status, load_from, plan, run_on};
pub use serving::serve_on;
