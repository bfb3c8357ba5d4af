//! Counts of the cells that a change brings in and takes out, and their sums.

ghost use Rattle.std.specs.Prelude.{◌≡◌, ◌<◌, ℤ};
ghost use Rattle.gas_terms.specs.Velocity.{parity as of_tick};
ghost use Rattle.gas_terms.specs.Counts.{AreSmall};
ghost use Rattle.phase_step.specs.Counts.{moved_by_counts, AreTogether, CountsFit};

use gas_terms::{Moved, Sums};

/// How many cells came in and went out, in each class of columns and rows: even column and even row, odd and even,
/// even and odd, odd and odd.
#[derive(Clone, Copy)]
pub struct CellCounts {
    pub gained: [u64; 4],
    pub lost: [u64; 4],
}

// The counts of each class added up.
#[inline(always)]
fn added(some: [u64; 4], more: [u64; 4]) -> [u64; 4]
    requires { CountsFit some more }
    ensures { AreTogether some more result }
{
    [
        some[0] + more[0],
        some[1] + more[1],
        some[2] + more[2],
        some[3] + more[3],
    ]
}

impl CellCounts {
    /// None came in and none went out.
    pub const ZERO: CellCounts = CellCounts {
        gained: [0; 4],
        lost: [0; 4],
    };

    /// Both changes.
    #[inline]
    pub fn plus(self, more: CellCounts) -> CellCounts
        requires gained { CountsFit self.gained more.gained }
        requires lost { CountsFit self.lost more.lost }
        ensures gained { AreTogether self.gained more.gained result.gained }
        ensures lost { AreTogether self.lost more.lost result.lost }
    {
        CellCounts {
            gained: added(self.gained, more.gained),
            lost: added(self.lost, more.lost),
        }
    }

    /// The sums of those particles at a tick of this parity.
    pub fn moved(self, parity: u8) -> Moved
        requires parity { parity < 2 }
        requires gained { AreSmall self.gained }
        requires lost { AreSmall self.lost }
        ensures { (tick : ℤ) → of_tick tick ≡ parity → result ≡ moved_by_counts tick self }
    {
        Moved {
            injected: Sums::of_counts(self.gained, parity),
            drained: Sums::of_counts(self.lost, parity),
        }
    }
}
