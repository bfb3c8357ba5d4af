//! What a command line asks for.

use gas_terms::{NoMemory, Size};
pub use phase_strips::MOST_WORKERS;
use std::net::SocketAddr;
use thiserror::Error;

/// How many sessions a server has at most.
pub const MOST_SESSIONS: u32 = 64;

/// How a laboratory is set up: the size of a new lattice, the number of workers (1 to `MOST_WORKERS`), and the capacity of
/// the journal in entries (1 to `MOST_ENTRIES`).
#[derive(Clone, Copy, Debug, PartialEq, Eq)]
pub struct Setup {
    pub size: Size,
    pub workers: u8,
    pub cap: u32,
}

/// Who is served: one session on standard input and output, or 1 to `MOST_SESSIONS` sessions that connect to an
/// address.
#[derive(Clone, Copy, Debug, PartialEq, Eq)]
pub enum Service {
    Run,
    Serve { address: SocketAddr, sessions: u8 },
}

/// What a command line asks for. A snapshot to load has a size of its own; the setup's size is then not used.
#[derive(Clone, Copy, Debug, PartialEq, Eq)]
pub struct Plan<'a> {
    pub service: Service,
    pub setup: Setup,
    pub load: Option<&'a str>,
    pub save: Option<&'a str>,
}

/// Memory ran out, or the line asks for help or has a fault, which the text says.
#[derive(Debug, Drop, Error)]
pub enum PlanFault {
    #[error("memory")]
    Memory,
    #[error("{0}")]
    Line(String),
}

impl From<NoMemory> for PlanFault {
    fn from(_e: NoMemory) -> PlanFault {
        PlanFault::Memory
    }
}
