//! The command line, loading a snapshot, opening a laboratory, and a run: one session on it.
//!
//! The program uses all of it.
#![tactic(auto)]

pub mod command_line;
pub mod load;
pub mod run;
pub mod setup;
pub mod status;

pub use command_line::plan;
pub use load::{LoadFault, load_from};
pub use run::{opened, run_on};
pub use setup::{Plan, PlanFault, Service, Setup};
pub use status::Status;
