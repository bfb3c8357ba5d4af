//! The versions of snapshots.

/// How wide and how high a lattice of version 1 is at most.
pub const MOST_OLD_SIDE: u32 = 2048;

/// Version 1 has lattices of at most `MOST_OLD_SIDE` cells a side and no obstacles. Version 2 has all gases.
#[derive(Clone, Copy, Debug, PartialEq, Eq)]
pub enum Version {
    One,
    Two,
}
