//! Snapshots: `encode` and `decode` turn a gas into bytes and back, and a `Shelf` keeps the bytes, as in a file.
//!
//! The program uses all of it but `Shelf::failures` and the module `writer`, where `write_to` writes a snapshot without
//! allocating. Both are there for callers of the library.
#![tactic(auto)]

mod cells;
mod fault;
mod fields;
pub mod file_shelf;
pub mod laws;
mod page;
mod reading;
pub mod shelf;
mod version;
mod writer;
mod writing;

pub use byte_page::WriteFault;
pub use fault::SnapFault;
pub use file_shelf::FileShelf;
pub use reading::decode;
pub use shelf::{MaybeShelf, NoShelf, Shelf, ShelfFault};
pub use version::Version;
pub use writer::write_to;
pub use writing::encode;
