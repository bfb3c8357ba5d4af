//! Parts of a lattice: some of its rows of tiles, one after another round its torus. A run of a
//! part is told by the lattice's rows that it has. A strip is a part, and so is the whole lattice.

ghost use Rattle.std.specs.Prelude.{◌≡◌, ◌+◌, ◌%◌, ◌<◌, ◌≤◌};
ghost use Rattle.gas_terms.specs.Cells.{tile_count};
ghost use Rattle.gas_plane.specs.Planes.{IsLattice};
ghost use Rattle.phase_step.specs.Parts.{start_of, AreOwn, IsPartOfSome, whole_part};

mod counting;
mod running;
mod strip_sweep;
mod sweeping;
mod turning;

use gas_plane::Plane;
pub use running::{act_on, run_part, run_whole};
pub use strip_sweep::turn_strip;

/// Where the rows of some particles stand in a lattice of `down` rows of tiles. Their own rows of
/// tiles are the lattice's from row `first` on. Above and below these there are `margin` rows of
/// tiles more: one for a strip, and none for the whole lattice, whose last row meets its first.
/// A phase turns own tiles only. A phase of parity 1 reads, of the margins, the row of cells next
/// to the own rows, and a phase of parity 0 reads none of them.
#[derive(Clone, Copy)]
pub struct Part {
    pub first: u32,
    pub down: u32,
    pub margin: u32,
}

/// A part's own tiles: those from `first` up to `end`. In the lattice they are those from `there` on.
#[derive(Clone, Copy)]
pub struct OwnTiles {
    pub first: u32,
    pub end: u32,
    pub there: u32,
}

/// The own tiles of such a part.
pub fn own_tiles(part: Part, cells: &Plane) -> OwnTiles
    requires { IsPartOfSome part cells.now 64 }
    ensures lattice { IsLattice cells.now }
    ensures order { (result.first ≤ result.end) × (result.end ≤ tile_count cells.now) }
    ensures own { AreOwn part cells.now result }
{
    let across = cells.across();
    let margin = part.margin * across;
    OwnTiles {
        first: margin,
        end: cells.size().tiles() - margin,
        there: part.first * across,
    }
}

/// The row of tiles of the lattice that a part's row of tiles is.
#[inline(always)]
pub fn row_there(part: Part, row: u32) -> u32
    requires part { (part.first < part.down) × (part.down ≤ 64) × (part.margin ≤ 1) }
    requires row { row < 4096 }
    ensures { result ≡ (start_of part + row) % part.down }
{
    (part.first + part.down - part.margin + row) % part.down
}

/// The whole lattice, which is a part of itself.
pub fn whole(cells: &Plane) -> Part
    ensures part { result ≡ whole_part cells.now }
    ensures lattice { IsLattice cells.now }
{
    Part {
        first: 0,
        down: cells.size().height() as u32 / 64,
        margin: 0,
    }
}
