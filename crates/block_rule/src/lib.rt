//! The block rule of the HPP gas on a tile, 32 blocks of 2 by 2 cells at once.
//!
//! The program calls `turn_tile_even`, the functions of `in_place` at odd parity, `taken_among` before both if an account is kept,
//! and `TileBlocks::renew` for the walled blocks of a tile.
#![tactic(auto)]

mod blocks;
mod blocks_in_tile;
mod collide_even;
mod count;
mod in_place;
pub mod laws;
mod odd_rows;
mod tile_phase;
mod walled;

use bit_tile::Tile;
pub use blocks::{Beside, Blocks, collided, next, previous};
pub use blocks_in_tile::{OddBlocks, SetBlocks, TileBlocks};
pub use in_place::{
    Carry, SeamRow, TurnedRow, put_bottom, put_first_column, put_top, seam_row, turn_inner,
    turned_seam,
};
pub use odd_rows::{OddRow, bottom_row, inner_row, top_row};
use tile_border::Round;
pub use tile_phase::{taken_among, turn_tile_even};
pub use walled::Counted;

/// A tile with the eight tiles round it.
#[derive(Clone, Copy)]
pub struct Window<'a> {
    pub tile: &'a Tile,
    pub round: Round<'a>,
}
