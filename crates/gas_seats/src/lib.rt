//! One laboratory for several people. Each has a seat, and each command is one event, made while its seat holds a lock.
//!
//! The program uses `TurnHall` and its seats, doors and notes, on a ticket lock. A hall on a mutex is in `mutex_hall`.
#![tactic(auto)]

pub mod receipts;
mod turn_hall;

pub use turn_hall::{TurnDoor, TurnHall, TurnNote, TurnSeat, entries_of};
