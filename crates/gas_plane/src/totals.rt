//! Sums of the particles of a rectangle and of the whole lattice.

ghost use Rattle.std.specs.Prelude.{◌≡◌, ◌^◌, ◌<◌, ℤ, true};
ghost use Rattle.gas_terms.specs.Cells.{extent, lies_within, whole};
ghost use Rattle.gas_terms.specs.Velocity.{parity as of_tick};
ghost use Rattle.gas_terms.specs.Accounts.{total, total_in, IsOfAtMost};
ghost use Rattle.gas_plane.specs.Counts.{AreCounts};
ghost use Rattle.gas_plane.specs.Planes.{IsLattice};

use crate::Plane;
use gas_terms::{Rect, Sums};

impl Plane {
    /// The sums of the particles in a rectangle at a tick of this parity.
    pub fn sums_in(&self, area: Rect, parity: u8) -> Sums
        requires parity { parity < 2 }
        requires inside { lies_within (extent self.now) area ≡ true }
        ensures lattice { IsLattice self.now }
        ensures sums { (tick : ℤ) → of_tick tick ≡ parity → result ≡ total_in tick self.now area }
        ensures bounded { IsOfAtMost (2 ^ 24) result }
    {
        // No side of it is longer than a lattice's.
        let _ = self.size();
        Sums::of_counts(self.counts_in(area), parity)
    }

    /// The sums of all particles at a tick of this parity.
    pub fn total(&self, parity: u8) -> Sums
        requires { parity < 2 }
        ensures lattice { IsLattice self.now }
        ensures sums { (tick : ℤ) → of_tick tick ≡ parity → result ≡ total tick self.now }
        ensures bounded { IsOfAtMost (2 ^ 24) result }
    {
        self.shows_lattice();
        Sums::of_counts(self.counts_of_all(), parity)
    }

    /// The same, and keeps the counts: until a tile is written, sums of all particles cost nothing.
    pub fn keep_total(&mut self, parity: u8) -> Sums
        requires { parity < 2 }
        ensures plane { self.new ≡ self.old }
        ensures lattice { IsLattice self.old }
        ensures sums { (tick : ℤ) → of_tick tick ≡ parity → result ≡ total tick self.old }
        ensures bounded { IsOfAtMost (2 ^ 24) result }
    {
        self.counts = self.counts_of_all();
        self.is_counted = true;
        self.total(parity)
    }

    // How many cells there are of each class.
    fn counts_of_all(&self) -> [u64; 4]
        ensures { AreCounts result self.now (whole self.now) }
    {
        if self.is_counted {
            return self.counts;
        }
        let size = self.size();
        let all = Rect::within(size, 0, 0, size.width() as u32, size.height() as u32).unwrap();
        self.counts_in(all)
    }
}
