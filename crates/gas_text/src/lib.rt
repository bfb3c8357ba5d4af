//! Lines: `read_command` reads a line as a request or refuses it, and `reply_text` writes a reply as its line.
//!
//! The program calls both.
#![tactic(auto)]

pub mod page;
pub mod reading;
pub mod reading_laws;
pub mod reply;
pub mod request;
mod verb;
mod word;

/// The page that a reply's line is written to.
pub use byte_page::BytePage as ReplyPage;
pub use page::reply_text;
pub use reading::read_command;
pub use reply::Reply;
pub use request::Request;
