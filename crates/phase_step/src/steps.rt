//! What the particles meet, and the step of one tile.

mod known;
mod set_words;
mod solids;
mod tiles;

pub use known::KnownSolid;
pub use set_words::window_in;
pub use solids::{Solids, TileSolids};
pub use tiles::{count_tile, turn_even_tile};
