//! The type that names a `Hall`: its ledger of entries, its lattice's size and its capacity.

ghost use Rattle.std.specs.Prelude.{ℕ};
ghost use Rattle.gas_terms.specs.Cells.{Extent};

use std::marker::Brand;
use std::sync::ledger::Ledger;

/// Names a hall: its ledger, which has a part for each seat, and the width, the height and the capacity of its
/// laboratory.
pub trait HallName: Ledger {
    // The width and height of the laboratory's lattice.
    ghost size: { Extent };

    // How many entries its journal may have.
    ghost cap: { ℕ };
}

impl HallName for Brand {
    ghost size = { record { width = 0; height = 0 } };

    ghost cap = { 0 };
}
