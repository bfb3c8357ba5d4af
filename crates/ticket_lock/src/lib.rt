//! A ticket lock for a value with a journal that only grows. Doors take the value one at a time, in the order in which they
//! asked. What a door has seen of the journal begins all that it sees later, and the entries of its number there are those
//! that it made.
//!
//! The program uses all of it, through `gas_seats`.
#![tactic(auto)]

mod lock;
pub mod rule;
pub mod view;

pub use lock::{Call, LockDoor, Note, TicketLock};
