//! Exchanges: what an action does to the particles after each phase of a run.

mod action;
mod action_from;
mod exchange;
mod listed;
mod port_array;
mod set_cells;
mod still;

pub use action::Action;
pub use action_from::ActionFrom;
pub use exchange::{Exchange, add_tiles_of, any_area};
pub use listed::Listed;
pub use port_array::PortArray;
pub use still::Still;
