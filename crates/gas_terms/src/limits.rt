//! The laboratory's limits.

/// How wide and how high a lattice may be, in cells.
pub const MOST_SIDE: u32 = 4096;

/// How many bytes a row may have, with eight cells in each.
pub const MOST_ROW_BYTES: usize = 512;

/// How many drains a gas may have, and how many sources.
pub const MOST_PORTS: usize = 16;

/// How many steps one command may make.
pub const MOST_STEPS: u16 = 4096;

/// The longest period of a source, in ticks.
pub const MOST_PERIOD: u16 = 65535;

/// How many entries a journal may have.
pub const MOST_ENTRIES: u32 = 65536;
