//! The neighborhood of a tile: the eight tiles round it (`Round`), and the ring of cells in which they touch it (`Border`).
//!
//! The program uses `Round`. The module `border`, with `Border` and `Neighbors`, is there for callers who step single tiles.
#![tactic(auto)]

mod border;
pub mod laws;

use bit_tile::Tile;
pub use border::{Border, Neighbors};

/// The eight tiles round a tile.
#[derive(Clone, Copy)]
pub struct Round<'a> {
    pub above: &'a Tile,
    pub below: &'a Tile,
    pub left: &'a Tile,
    pub right: &'a Tile,
    pub above_left: &'a Tile,
    pub above_right: &'a Tile,
    pub below_left: &'a Tile,
    pub below_right: &'a Tile,
}
