//! Helpers for tests: readers, writers and shelves that fail on demand, pages and a lobby in memory, and sessions
//! that wait for one another.
#![tactic(auto)]

pub mod faults;
pub mod pages;
pub mod stage;
pub mod waiting;
