//! Sums: what a change of the particles brings in and takes out, and what a run comes to.

mod cell_counts;
mod flow;

pub use cell_counts::CellCounts;
pub use flow::Flow;
