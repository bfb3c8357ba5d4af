//! A hall on a mutex, with its seats, doors, names and gates, and `serve`, which serves it. Such a hall can be closed, which
//! returns the laboratory.
//!
//! The program uses none of this: it runs the `TurnHall` of `gas_seats`. The crate is for callers of the library, and only
//! tests are above it.
#![tactic(auto)]

mod gate;
mod hall;
mod held;
mod name;
mod seat;
mod serving;

pub use gate::{HallGate, NoHallGate};
pub use hall::{Hall, HallDoor};
pub use held::Held;
pub use name::HallName;
pub use seat::HallSeat;
pub use serving::serve;
