//! The phase of parity 1 in place, row of tiles by row. A tile turns the blocks that begin in it. Those of its rows of cells 1 to
//! 62 lie in its row of tiles. Those of its last row end in the tiles below, across the seam.

ghost use Rattle.std.specs.Prelude.{◌≡◌, ◌+◌, ◌*◌, ◌/◌, ◌<◌, ◌≤◌, Bool};
ghost use Rattle.gas_terms.specs.Cells.{Cells, HasSidesOf, tile_count};
ghost use Rattle.gas_terms.specs.Gas.{streamed};
ghost use Rattle.phase_step.specs.OddPhase.{seam_place, IsColumnThere, TurnsInner, IsSeamPut, IsFirstPut, IsSeamEdge, ShowsSeam, IsRowThere, HasInner, HasSeam, IsInnerRowTurned, IsSeamRowTurned};
ghost use Rattle.phase_step.specs.Solid.{all_of};

use crate::steps::KnownSolid;
use block_rule::{
    Beside, Carry, SeamRow, TurnedRow, put_bottom, put_first_column, put_top, seam_row, turn_inner,
    turned_seam,
};
use gas_plane::{Plane, Tile, Turner};

/// Where a row of tiles stands: its number, that of the row below, and the number of the lattice's row of tiles that it is.
// By these types the compiler knows that a tile's number fits 32 bits, and takes no sum anew for each tile.
#[derive(Clone, Copy)]
pub struct RowPlace {
    pub row: u16,
    pub below: u16,
    pub there: u16,
}

/// Turns the blocks that lie in a row of tiles, tile by tile. The tile in column k is tile `there` + k of the lattice.
#[derive(Clone, Copy)]
pub struct InnerTurner<'a> {
    pub known: KnownSolid<'a>,
    pub there: u16,
}

impl<'a> Turner for InnerTurner<'a> {
    type Carried = Carry;

    ghost turns = { TurnsInner };

    ghost can_turn = { λ t column. IsColumnThere t.known t.there column };

    #[inline(always)]
    fn turn(self, column: u32, tile: &mut Tile, right: &Tile, carried: &mut Carry) {
        let walled = self.known.in_tile(self.there as u32 + column);
        turn_inner(walled, tile, right, carried);
    }
}

// Puts what the last tile of a row carries on into the first one.
#[inline(always)]
fn put_first(particles: &mut Plane, across: u32, row: u32, carry: &Carry)
    requires across { across ≡ particles.old.width / 64 }
    requires row { row < particles.old.height / 64 }
    ensures { IsFirstPut row carry.now particles.old particles.new }
{
    particles.shows_lattice();
    put_first_column(particles.tile_mut(row * across), carry);
}

/// Turns the blocks that lie in a row of tiles: its rows of cells 1 to 62. What the last tile carries on is known at the end: so the
/// first one turns as if nothing came, and gets its first column then.
#[inline(always)]
pub fn turn_inner_row(particles: &mut Plane, known: KnownSolid<'_>, place: RowPlace)
    requires row { place.row < particles.old.height / 64 }
    requires there { place.there < 64 }
    requires solid { let a = particles.old.width / 64 in
        place.there * a + a ≤ tile_count (all_of known.solids.now) }
    ensures sides { HasSidesOf particles.new particles.old }
    ensures turned { let solid = all_of known.entry.solids.now in (lattice : Cells) →
        IsRowThere place solid particles.old lattice →
        HasInner place lattice.width particles.old lattice →
        IsInnerRowTurned place (streamed 1 lattice solid) particles.old particles.new }
{
    let across = particles.across();
    let row = place.row as u32;
    let there = (place.there as u32 * across) as u16;
    let mut carry = Carry::ZERO;
    particles.turn_row(row, InnerTurner { known, there }, &mut carry);
    put_first(particles, across, row, &carry);
}

// The words of the row of blocks that begins in a tile's last row. `first` is the row's first tile as it was before the phase, and
// `first_below` the one below it.
#[inline(always)]
fn seam_at(
    particles: &Plane,
    across: u32,
    row: u32,
    below: u32,
    column: u32,
    first: &Tile,
    first_below: &Tile,
) -> SeamRow
    requires across { across ≡ particles.now.width / 64 }
    requires row { row < particles.now.height / 64 }
    requires below { below < particles.now.height / 64 }
    requires column { column < particles.now.width / 64 }
    ensures { let seam = seam_place row below column in (upper lower : Bool) →
        IsSeamEdge seam first.now first_below.now particles.now upper lower →
        ShowsSeam seam particles.now upper lower result.own result.right }
{
    particles.shows_lattice();
    let i = row * across + column;
    let d = below * across + column;
    let tile = particles.tile(i);
    let under = particles.tile(d);
    if column + 1 == across {
        seam_row(tile, first, under, first_below)
    } else {
        seam_row(tile, particles.tile(i + 1), under, particles.tile(d + 1))
    }
}

// Puts that row of blocks into the tile and the one below. Returns what it carries on.
#[inline(always)]
fn put_seam(
    particles: &mut Plane,
    across: u32,
    row: u32,
    below: u32,
    column: u32,
    words: &TurnedRow,
) -> Beside
    requires across { across ≡ particles.old.width / 64 }
    requires row { row < particles.old.height / 64 }
    requires below { below < particles.old.height / 64 }
    requires column { column < particles.old.width / 64 }
    ensures put { IsSeamPut row below column words.now.own particles.old particles.new }
    ensures leaving { result ≡ words.now.leaving }
{
    particles.shows_lattice();
    put_bottom(particles.tile_mut(row * across + column), &words.own);
    put_top(particles.tile_mut(below * across + column), &words.own);
    words.leaving
}

/// Turns the blocks that begin in the last row of cells of a row of tiles and end in the first one of the tiles below.
#[inline(always)]
pub fn turn_seam(particles: &mut Plane, known: KnownSolid<'_>, place: RowPlace)
    requires row { place.row < particles.old.height / 64 }
    requires below { place.below < particles.old.height / 64 }
    requires there { place.there < 64 }
    requires solid { let a = particles.old.width / 64 in
        place.there * a + a ≤ tile_count (all_of known.solids.now) }
    ensures sides { HasSidesOf particles.new particles.old }
    ensures turned { let solid = all_of known.entry.solids.now in (lattice : Cells) →
        IsRowThere place solid particles.old lattice →
        HasSeam place lattice.width particles.old lattice →
        IsSeamRowTurned place (streamed 1 lattice solid) particles.old particles.new }
{
    let across = particles.across();
    let row = place.row as u32;
    let below = place.below as u32;
    let there = place.there as u32 * across;
    let last = across - 1;
    let first = *particles.tile(row * across);
    let under = *particles.tile(below * across);
    let none = Beside { upper: 0, lower: 0 };
    let seam = seam_at(particles, across, row, below, last, &first, &under);
    let mut coming = turned_seam(known.words_in(there + last), seam, none).leaving;
    for column in 0..across {
        let seam = seam_at(particles, across, row, below, column, &first, &under);
        let words = turned_seam(known.words_in(there + column), seam, coming);
        coming = put_seam(particles, across, row, below, column, &words);
    }
}
