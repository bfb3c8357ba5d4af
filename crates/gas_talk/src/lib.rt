//! Sessions: `session` reads lines, asks each of a door, and writes each reply. `serve_alone` is a session on a laboratory
//! that nobody else uses.
//!
//! The program calls `serve_alone` for a run and `session::serve_door` for each session of a server. `session::session`, which
//! counts its reads in a `ReadCount`, and the laws are there for callers of the library.
#![tactic(auto)]

mod alone;
mod end;
pub mod journal_laws;
mod reader;
pub mod session;
pub mod session_laws;

pub use alone::{Alone, serve_alone};
pub use end::SessionEnd;
pub use gas_lab::{Copied, Door};
pub use gas_text::{Reply, ReplyPage, Request, read_command, reply_text};
pub use reader::ReadCount;
