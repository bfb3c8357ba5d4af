//! Gates: a caller's hook before and after each call of a `Hall`'s door.

/// Called for each call of a door, before the door asks for the lock and after it has released it, with the seat's number and the
/// number of the call among the seat's own, from 0. At its last value that number stays.
pub trait HallGate: Drop {
    /// Called before the door asks for the lock.
    fn before(&self, seat: u16, call: u32);

    /// Called after the door has given the lock back.
    fn after(&self, seat: u16, call: u32);
}

/// Does nothing.
#[derive(Drop)]
pub struct NoHallGate;

impl HallGate for NoHallGate {
    fn before(&self, _seat: u16, _call: u32) {}

    fn after(&self, _seat: u16, _call: u32) {}
}
