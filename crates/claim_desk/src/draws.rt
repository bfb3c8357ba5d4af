//! What a seat of the desk's table knows, as ghost state.

use std::collections::LinkedList;

/// The numbers that so many seats drew, and how many of these seats found none left. No value of it is made.
pub struct Draws {
    pub limit: u32,
    pub seats: u32,
    pub ended: u32,
    pub numbers: LinkedList<u32>,
}
