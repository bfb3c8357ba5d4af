//! A gas: particles, walls, obstacles and ports at a tick. Its edits and runs return what came in and went out; `probe` and
//! `tally` sum its particles. `Books` are a gas with its ledger: `Books::enact` makes a change and books it.
//!
//! The program changes a gas by `Books::enact` alone. That steps forward by `Gas::step_on`, with ports or without, and back by
//! `Gas::run_back`. `apply_ports` and `Ports::add` are there for callers of the library.
#![tactic(auto)]

pub mod apply;
pub mod books;
mod change;
pub mod gas;
pub mod port;
pub mod ports;
mod probes;

pub use apply::apply_ports;
pub use books::Books;
pub use gas::Gas;
pub use phase_step::Flow;
pub use port::{Full, Port, Source};
pub use ports::Ports;
pub use probes::{probe, tally};

/// The accounts of a gas, and the sums in them.
pub use gas_terms::{Ledger, Moved, Sums};
