//! Counts of the cells that a new row brings in and takes out.

ghost use Rattle.std.specs.Prelude.{◌≡◌, ◌<◌, ◌*◌, length};
ghost use Rattle.gas_terms.specs.Cells.{without};
ghost use Rattle.gas_terms.specs.Rows.{row_replaced};
ghost use Rattle.gas_plane.specs.Planes.{IsLattice};
ghost use Rattle.gas_plane.specs.Counts.{AreCounts};
ghost use Rattle.gas_ledger.specs.Gases.{row_of};

use bit_tile::counts_in_row;
use gas_plane::{Plane, add_counts, word_of};
use phase_step::CellCounts;

/// What comes in and goes out when the bytes' cells replace row y.
pub fn row_change(plane: &Plane, y: u32, bytes: &[u8]) -> CellCounts
    requires y { y < plane.now.height }
    requires bytes { 8 * length bytes.now ≡ plane.now.width }
    ensures lattice { IsLattice plane.now }
    ensures gained { let after = row_replaced plane.now y bytes.now in
        AreCounts result.gained (without after plane.now) (row_of plane.now y) }
    ensures lost { let after = row_replaced plane.now y bytes.now in
        AreCounts result.lost (without plane.now after) (row_of plane.now y) }
{
    let mut gained = [0; 4];
    let mut lost = [0; 4];
    for column in 0..plane.across() {
        let from = column as usize * 8;
        let was = plane.word(column, y);
        let is = word_of(&bytes[from..from + 8]);
        let came = counts_in_row(is & !was, y);
        let went = counts_in_row(was & !is, y);
        let more = add_counts(gained, came);
        let less = add_counts(lost, went);
        gained = more;
        lost = less;
    }
    CellCounts { gained, lost }
}
