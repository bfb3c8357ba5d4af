//! Why bytes are not a snapshot.

ghost use Rattle.std.specs.Prelude.{◌≡◌};
ghost use Rattle.gas_snapshot.specs.declared.fault.SnapFault.TheVariants.{Memory};

use gas_terms::NoMemory;
use thiserror::Error;

/// The first fault from the left, or, in bytes without fault, that memory ran out.
#[derive(Clone, Copy, Debug, PartialEq, Eq, Error)]
pub enum SnapFault {
    /// The bytes end within a field.
    #[error("short")]
    Short,
    /// The first eight bytes name no version.
    #[error("magic")]
    Magic,
    /// The version has no lattice of that size.
    #[error("size")]
    Size,
    /// The tick is out of range.
    #[error("tick")]
    Tick,
    /// More than `MOST_PORTS` ports of a kind, a rectangle outside the lattice or without cells, or a period of 0.
    #[error("port")]
    Port,
    /// There are bytes after the last field.
    #[error("trailing")]
    Trailing,
    /// Memory ran out.
    #[error("memory")]
    Memory,
}

impl From<NoMemory> for SnapFault {
    ghost from_gives = { λ _ e. e ≡ Memory };

    fn from(_e: NoMemory) -> SnapFault {
        SnapFault::Memory
    }
}
