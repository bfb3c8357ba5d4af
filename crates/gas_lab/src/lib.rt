//! The laboratory: the books of a gas, and the journal of the changes that made them. `Lab::apply` does a command or refuses
//! it; a `Door` is any way to a laboratory.
//!
//! The program uses all of it but `Lab::start`, `cap`, `ledger` and `invariant`, which are there for callers of the library.
#![tactic(auto)]

mod door;
pub mod lab;

pub use door::{Copied, Door};
pub use gas_ledger::Gas;
/// What an accepted command returns.
pub use gas_terms::Answer;
pub use lab::Lab;
pub use phase_step::{Serial, Stepper};
