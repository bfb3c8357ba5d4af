//! Gates: a caller's hook into the workers of a single phase.

use std::marker::Sync;

/// Called after each draw of a worker, before the tile is turned. It only has to return.
pub trait Gate: Sync {
    /// Worker `worker`, counted from 0, is about to turn tile `tile`; tiles are counted row by row.
    fn at_tile(&self, worker: u8, tile: u32);
}

/// Does nothing.
#[derive(Clone, Copy, Debug, Default, PartialEq, Eq)]
pub struct NoGate;

impl Gate for NoGate {
    #[inline]
    fn at_tile(&self, _worker: u8, _tile: u32) {}
}
