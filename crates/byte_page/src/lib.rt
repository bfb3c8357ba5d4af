//! A page of bytes that is filled from the front, and `put_all`, which writes bytes to the end.
#![tactic(auto)]

mod page;

pub use page::{BytePage, WriteFault, put_all};
