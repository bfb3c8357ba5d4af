//! The types that all crates share: sizes, rectangles, ticks, sums, rows, commands and refusals. `specs/` defines gas and
//! laboratory; the modules `laws`, `account_laws`, `symmetry_laws`, `history_laws` and `lab_laws` prove what follows.
//!
//! The program uses all types but `Vel`, and all calls but `vel`, `Rect::holds`, `Rect::fits` and `Command::fits`, which are
//! there for callers of the library.
#![tactic(auto)]

pub mod account_laws;
pub mod accounts;
pub mod answer;
pub mod command;
pub mod history_laws;
pub mod lab_laws;
pub mod laws;
pub mod limits;
pub mod rect;
pub mod refusal;
pub mod row_bits;
pub mod size;
pub mod symmetry_laws;
pub mod tick;
pub mod velocity;

pub use accounts::{Ledger, Moved, Pair, Sums, Took};
pub use answer::Answer;
pub use command::{Command, Entry};
pub use limits::{MOST_ENTRIES, MOST_PERIOD, MOST_PORTS, MOST_ROW_BYTES, MOST_SIDE, MOST_STEPS};
pub use rect::Rect;
pub use refusal::Refusal;
pub use row_bits::RowBits;
pub use size::Size;
pub use tick::{Tick, vel};
pub use velocity::Vel;

/// Memory ran out: the error of every call that allocates.
pub use std::alloc::AllocError as NoMemory;
