//! A server: one session in a thread of its own for each seat of a laboratory. Sessions come from a `Lobby`, such as a
//! listening socket (`TcpLobby`).
//!
//! The program calls `serve_lab`. `serve_turn`, which serves a hall that the caller opened, and the names of `gas_seats` are
//! there for callers of the library, and `serve_seats` for other halls, such as that of `mutex_hall`.
#![tactic(auto)]

mod hosting;
mod serving;
mod tcp;

pub use gas_seats::{TurnDoor, TurnHall, TurnNote, TurnSeat};
pub use hosting::serve_lab;
pub use serving::{AcceptFault, Lobby, Seating, Served, TurnServed, serve_seats, serve_turn};
pub use tcp::{TcpLobby, TcpReplies};
