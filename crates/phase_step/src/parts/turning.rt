//! A phase of a part, in place: its particles turn, row of tiles by row, and nothing is counted. A row is compiled for no walls and
//! for some.

ghost use Rattle.std.specs.Prelude.{◌≡◌, ◌<◌, ◌≤◌, ◌+◌, ◌-◌, ◌*◌, ◌/◌};
ghost use Rattle.gas_terms.specs.Cells.{HasSidesOf, Cells, tile_count};
ghost use Rattle.phase_step.specs.SolidBlocks.{HasNoBlocks};
ghost use Rattle.phase_step.specs.OddPhase.{IsColumnThere, IsRowIn, place_at, TurnsBegun, TurnsEven, TurnsEvenTile, AreTurnedTo, AreRowsMadeTo};
ghost use Rattle.phase_step.specs.Solid.{all_of};
ghost use Rattle.gas_terms.specs.Gas.{streamed};
ghost use Rattle.phase_step.specs.Parts.{IsPartOf, IsReady, IsTurned};

use crate::odd_phase::{RowPlace, turn_inner_row, turn_seam};
use crate::parts::{Part, row_there};
use crate::steps::{KnownSolid, Solids, turn_even_tile};
use gas_plane::{Plane, Tile, Turner, after};

/// Where a row of tiles of a part stands.
pub fn place_of(part: Part, row: u32, down: u32) -> RowPlace
    requires part { (part.first < part.down) × (part.down ≤ 64) × (part.margin ≤ 1) }
    requires row { (row < down) × (down ≤ 4096) }
    ensures { result ≡ place_at part down row }
{
    RowPlace {
        row: row as u16,
        below: after(row, down) as u16,
        there: row_there(part, row) as u16,
    }
}

#[inline(always)]
fn turn_begun_row(particles: &mut Plane, known: KnownSolid<'_>, place: RowPlace)
    requires { IsRowIn place (all_of known.solids.now) particles.old }
    ensures sides { HasSidesOf particles.new particles.old }
    ensures turned { TurnsBegun place (all_of known.entry.solids.now) particles.old particles.new }
{
    particles.shows_lattice();
    turn_inner_row(particles, known, place);
    turn_seam(particles, known, place);
}

// The compiler makes vectors of it only apart from the loops of a run.
#[inline(never)]
fn turn_begun_free(particles: &mut Plane, solids: &Solids, place: RowPlace)
    requires none { HasNoBlocks (all_of solids.now) }
    requires row { IsRowIn place (all_of solids.now) particles.old }
    ensures sides { HasSidesOf particles.new particles.old }
    ensures turned { TurnsBegun place (all_of solids.now) particles.old particles.new }
{
    turn_begun_row(particles, KnownSolid { solids, free: true }, place);
}

#[inline(never)]
fn turn_begun_among(particles: &mut Plane, solids: &Solids, place: RowPlace)
    requires { IsRowIn place (all_of solids.now) particles.old }
    ensures sides { HasSidesOf particles.new particles.old }
    ensures turned { TurnsBegun place (all_of solids.now) particles.old particles.new }
{
    turn_begun_row(
        particles,
        KnownSolid {
            solids,
            free: false,
        },
        place,
    );
}

/// The blocks of parity 1 that begin in a row of tiles.
pub fn turn_begun(particles: &mut Plane, known: KnownSolid<'_>, place: RowPlace)
    requires { IsRowIn place (all_of known.solids.now) particles.old }
    ensures sides { HasSidesOf particles.new particles.old }
    ensures turned { TurnsBegun place (all_of known.entry.solids.now) particles.old particles.new }
{
    if known.free {
        turn_begun_free(particles, known.solids, place);
    } else {
        turn_begun_among(particles, known.solids, place);
    }
}

/// Turns the tiles of a row at parity 0: the blocks of a tile lie in it. The tile in column k is tile `there` + k of the lattice.
#[derive(Clone, Copy)]
pub struct EvenTurner<'a> {
    pub known: KnownSolid<'a>,
    pub there: u16,
}

impl<'a> Turner for EvenTurner<'a> {
    type Carried = ();

    ghost turns = { TurnsEvenTile };

    ghost can_turn = { λ t column. IsColumnThere t.known t.there column };

    #[inline(always)]
    fn turn(self, column: u32, tile: &mut Tile, _right: &Tile, _carried: &mut ()) {
        let walled = self.known.in_tile(self.there as u32 + column);
        turn_even_tile(walled, tile);
    }
}

#[inline(always)]
fn turn_even_row(particles: &mut Plane, known: KnownSolid<'_>, place: RowPlace)
    requires { IsRowIn place (all_of known.solids.now) particles.old }
    ensures sides { HasSidesOf particles.new particles.old }
    ensures turned { TurnsEven place (all_of known.entry.solids.now) particles.old particles.new }
{
    let there = (place.there as u32 * particles.across()) as u16;
    particles.turn_row(place.row as u32, EvenTurner { known, there }, &mut ());
}

#[inline(never)]
fn turn_even_free(particles: &mut Plane, solids: &Solids, place: RowPlace)
    requires none { HasNoBlocks (all_of solids.now) }
    requires row { IsRowIn place (all_of solids.now) particles.old }
    ensures sides { HasSidesOf particles.new particles.old }
    ensures turned { TurnsEven place (all_of solids.now) particles.old particles.new }
{
    turn_even_row(particles, KnownSolid { solids, free: true }, place);
}

#[inline(never)]
fn turn_even_among(particles: &mut Plane, solids: &Solids, place: RowPlace)
    requires { IsRowIn place (all_of solids.now) particles.old }
    ensures sides { HasSidesOf particles.new particles.old }
    ensures turned { TurnsEven place (all_of solids.now) particles.old particles.new }
{
    turn_even_row(
        particles,
        KnownSolid {
            solids,
            free: false,
        },
        place,
    );
}

/// The blocks of parity 0 of a row of tiles.
pub fn turn_even(particles: &mut Plane, known: KnownSolid<'_>, place: RowPlace)
    requires { IsRowIn place (all_of known.solids.now) particles.old }
    ensures sides { HasSidesOf particles.new particles.old }
    ensures turned { TurnsEven place (all_of known.entry.solids.now) particles.old particles.new }
{
    if known.free {
        turn_even_free(particles, known.solids, place);
    } else {
        turn_even_among(particles, known.solids, place);
    }
}

// The phase of parity 1 of the blocks that begin in a row of tiles of a part, in place. In a row of
// the margin only those across the seam reach the part's own rows.
fn turn_odd_row(particles: &mut Plane, known: KnownSolid<'_>, part: Part, row: u32)
    requires part { (part.first < part.down) × (part.down ≤ 64) × (part.margin ≤ 1) }
    requires row { row + part.margin < particles.old.height / 64 }
    requires solid { tile_count (all_of known.solids.now) ≡ part.down * (particles.old.width / 64) }
    ensures sides { HasSidesOf particles.new particles.old }
    ensures turned { let solid = all_of known.entry.solids.now in (old lattice : Cells) →
        HasSidesOf solid lattice → IsPartOf part old lattice 63 →
        let next = streamed 1 lattice solid in
        AreTurnedTo row part next old particles.old →
        AreTurnedTo (row + 1) part next old particles.new }
{
    let place = place_of(part, row, particles.down());
    if row < part.margin {
        turn_seam(particles, known, place);
    } else {
        turn_begun(particles, known, place);
    }
}

// The phase of parity 1 of a part's own tiles, in place. A part with margins begins with the seam
// above its first own row.
fn turn_odd_rows(particles: &mut Plane, known: KnownSolid<'_>, part: Part)
    requires ready { IsReady part (all_of known.solids.now) particles.old 63 }
    ensures sides { HasSidesOf particles.new particles.old }
    ensures phase { IsTurned part 1 (all_of known.entry.solids.now) particles.old particles.new }
{
    for row in 0..particles.down() - part.margin {
        turn_odd_row(particles, known, part, row);
    }
}

// The phase of parity 0 of an own row of tiles of a part, in place.
fn turn_even_in(particles: &mut Plane, known: KnownSolid<'_>, part: Part, row: u32)
    requires part { (part.first < part.down) × (part.down ≤ 64) × (part.margin ≤ 1) }
    requires own { part.margin ≤ row }
    requires row { row + part.margin < particles.old.height / 64 }
    requires solid { tile_count (all_of known.solids.now) ≡ part.down * (particles.old.width / 64) }
    ensures sides { HasSidesOf particles.new particles.old }
    ensures turned { let solid = all_of known.entry.solids.now in (old lattice : Cells) →
        HasSidesOf solid lattice → IsPartOf part old lattice 64 →
        let next = streamed 0 lattice solid in
        AreRowsMadeTo row part next old particles.old →
        AreRowsMadeTo (row + 1) part next old particles.new }
{
    let place = place_of(part, row, particles.down());
    turn_even(particles, known, place);
}

// The phase of parity 0 of a part's own tiles, in place.
fn turn_even_rows(particles: &mut Plane, known: KnownSolid<'_>, part: Part)
    requires ready { IsReady part (all_of known.solids.now) particles.old 64 }
    ensures sides { HasSidesOf particles.new particles.old }
    ensures phase { IsTurned part 0 (all_of known.entry.solids.now) particles.old particles.new }
{
    for row in part.margin..particles.down() - part.margin {
        turn_even_in(particles, known, part, row);
    }
}

/// A phase of a part's own tiles, in place.
pub fn turn_part(particles: &mut Plane, known: KnownSolid<'_>, part: Part, parity: u8)
    requires parity { parity < 2 }
    requires ready { IsReady part (all_of known.solids.now) particles.old (64 - parity) }
    ensures sides { HasSidesOf particles.new particles.old }
    ensures phase { let solid = all_of known.entry.solids.now in
        IsTurned part parity solid particles.old particles.new }
{
    if parity == 0 {
        turn_even_rows(particles, known, part);
    } else {
        turn_odd_rows(particles, known, part);
    }
}
