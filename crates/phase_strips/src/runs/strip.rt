//! A strip: some rows of tiles of a lattice, with one more row above and below, and how it makes a run.

ghost use Rattle.std.specs.Prelude.{◌≡◌, ℕ, ◌+◌, ◌*◌, ◌/◌, ◌<◌, ◌≤◌, ◌-◌, IsTrue, IfSome, length};
ghost use Rattle.gas_terms.specs.Cells.{Cells, extent, HasSidesOf};
ghost use Rattle.gas_plane.specs.Planes.{IsLattice};
ghost use Rattle.phase_step.specs.Actions.{no_flow};
ghost use Rattle.phase_step.specs.Parts.{HasRows};
ghost use Rattle.phase_strips.specs.Courses.{lattice_at};
ghost use Rattle.phase_strips.specs.Strips.{place_of, AreCopied, ArePut, HasMade, HasOwnRows, IsAt, IsBefore, IsInside, IsOf, IsPhaseFlow};

use crate::runs::edges::{RunName, show_row, take_row};
use crate::runs::input::RunInput;
use crate::runs::watch::Watch;
use gas_plane::{Plane, after, before};
use gas_terms::Size;
use phase_step::{ActionFrom, Flow, Listed, Part, Run, parity_at, run_part, turn_strip};
use std::alloc::Global;
use std::sync::atomic::Ordering;

/// The rows of tiles that are a strip's own: `rows` of the lattice's, from row `first` on.
#[derive(Clone, Copy)]
pub struct OwnRows {
    pub first: u32,
    pub rows: u32,
}

/// The particles in its own rows and in one row more above and below, and what the last run came to in its own.
#[derive(Drop)]
pub struct Strip {
    pub own: OwnRows,
    cells: Plane,
    pub flow: Flow,
}

// Copies so many rows of tiles to another plane of the same width: those from row `from` on become those from row `to` on.
fn copy_rows(source: &Plane, from: u32, rows: u32, out: &mut Plane, to: u32)
    requires wide { out.old.width ≡ source.now.width }
    requires from { from + rows ≤ source.now.height / 64 }
    requires to { to + rows ≤ out.old.height / 64 }
    ensures copied { AreCopied source.now from rows out.old out.new to }
    ensures sides { HasSidesOf out.new out.old }
    ensures lattice { IsLattice out.new }
{
    let across = source.across();
    for i in 0..rows * out.across() {
        *out.tile_mut(to * across + i) = *source.tile(from * across + i);
    }
}

// Makes all rows of a strip those of the lattice.
fn load(cells: &mut Plane, own: OwnRows, particles: &Plane)
    requires inside { IsInside (extent particles.now) own }
    requires wide { cells.old.width ≡ particles.now.width }
    requires high { cells.old.height ≡ (own.rows + 2) * 64 }
    ensures sides { HasSidesOf cells.new cells.old }
    ensures rows { HasRows (place_of (particles.now.height / 64) own) cells.new particles.now 0 }
{
    let OwnRows { first, rows } = own;
    let down = u32::from(particles.size().height() / 64);
    let above = before(first, down);
    let below = after(first + rows - 1, down);
    copy_rows(particles, first, rows, cells, 1);
    copy_rows(particles, above, 1, cells, 0);
    copy_rows(particles, below, 1, cells, rows + 1);
}

// Where those rows stand in the lattice.
fn part_of(own: OwnRows, particles: &Plane) -> Part
    ensures { result ≡ place_of (particles.now.height / 64) own }
{
    Part {
        first: own.first,
        down: u32::from(particles.size().height() / 64),
        margin: 1,
    }
}

impl Strip {
    /// A strip of a lattice of this size, without particles. `None` if memory runs out, or if it would be too high for a plane.
    pub fn new(alloc: Global, size: Size, own: OwnRows) -> Option<Strip>
        requires { IsInside size own }
        ensures { IfSome result (λ s. IsOf size s × (s.own ≡ own)) }
    {
        let size = Size::new(u32::from(size.width()), (own.rows + 2) * 64)?;
        Some(Strip {
            own,
            cells: Plane::empty(alloc, size).ok()?,
            flow: Flow::ZERO,
        })
    }

    // Loads its rows, and has come to nothing yet.
    fn begin(&mut self, particles: &Plane)
        requires strip { IsOf (extent particles.now) self.old }
        ensures strip { IsOf (extent particles.now) self.new }
        ensures own { self.new.own ≡ self.old.own }
        ensures flow { self.new.flow ≡ no_flow }
        ensures rows { let s = self.new in
            HasRows (place_of (particles.now.height / 64) s.own) s.cells particles.now 0 }
    {
        load(&mut self.cells, self.own, particles);
        self.flow = Flow::ZERO;
    }

    // Makes the next of those phases that are made at a time: phase k, or in a quiet run also the one after it, in one sweep, if phase
    // k has parity 1. Returns how many it makes.
    fn make_next<N: RunName>(&mut self, input: &RunInput<'_, N>, k: u16) -> u16
        requires k { k < input.now.phases }
        requires at { IsAt N.course (input.now.from + k) self.old }
        ensures some { (0 < result) × (k + result ≤ input.now.phases) }
        ensures own { self.new.own ≡ self.old.own }
        ensures made { HasMade N.course (input.now.from + k + result) self.new }
    {
        let odd = parity_at(input.parity, input.from + k) == 1;
        if input.quiet && odd && k + 1 < input.phases {
            let part = part_of(self.own, input.particles);
            turn_strip(&mut self.cells, input.solids, part);
            return 2;
        }
        let here = self.make_phase(input, k);
        self.flow = self.flow.plus(here);
        1
    }

    // Phase k of those that are made at a time, and the exchange after it. Returns what it comes to in its own rows.
    fn make_phase<N: RunName>(&mut self, input: &RunInput<'_, N>, k: u16) -> Flow
        requires k { k < input.now.phases }
        requires at { IsAt N.course (input.now.from + k) self.old }
        ensures strip { IsOf (extent N.course.start) self.new }
        ensures same { (self.new.own ≡ self.old.own) × (self.new.flow ≡ self.old.flow) }
        ensures rows { HasOwnRows (lattice_at N.course (input.now.from + k + 1)) self.new }
        ensures flow { IsPhaseFlow N.course (input.now.from + k) self.old.own result }
    {
        let part = part_of(self.own, input.particles);
        let listed = Listed {
            exchanges: input.exchanges,
        };
        let action = ActionFrom {
            action: &listed,
            by: k,
        };
        let run = Run {
            solids: input.solids,
            parity: parity_at(input.parity, input.from + k),
            n: 1,
            action: &action,
        };
        run_part(&mut self.cells, part, run, input.counted)
    }

    // Shows its first and its last row, as they are after so many phases. False if a strip has given up.
    fn show_edges<N: RunName, W: Watch>(
        &self,
        input: &RunInput<'_, N>,
        number: u32,
        phases: u16,
        watch: &W,
    ) -> bool
        requires number { number < length input.now.board.now.edges.items }
        requires strip { IsOf (extent N.course.start) self.now }
        requires rows { HasOwnRows (lattice_at N.course phases) self.now }
    {
        let OwnRows { first, rows } = self.own;
        let edges = &input.board.edges[number as usize];
        let top = first * 64;
        let end = (first + rows) * 64;
        show_row(
            edges.first(phases),
            &self.cells,
            64,
            top,
            phases,
            &input.board.given_up,
            watch,
        ) && show_row(
            edges.last(phases),
            &self.cells,
            rows * 64 + 63,
            end - 1,
            phases,
            &input.board.given_up,
            watch,
        )
    }

    // Takes the rows next to its own from its neighbors. False if a strip has given up.
    fn take_edges<N: RunName, W: Watch>(
        &mut self,
        input: &RunInput<'_, N>,
        number: u32,
        phases: u16,
        watch: &W,
    ) -> bool
        requires number { (number < length input.now.board.now.edges.items)
            × (length input.now.board.now.edges.items ≤ 64) }
        requires strip { IsOf (extent N.course.start) self.old }
        requires rows { HasOwnRows (lattice_at N.course phases) self.old }
        ensures strip { IsOf (extent N.course.start) self.new }
        ensures same { (self.new.own ≡ self.old.own) × (self.new.flow ≡ self.old.flow) }
        ensures rows { let lattice = lattice_at N.course phases in
            IsTrue result →
            HasRows (place_of (lattice.height / 64) self.new.own) self.new.cells lattice 63 }
    {
        let OwnRows { first, rows } = self.own;
        let height = u32::from(input.particles.size().height());
        let count = input.board.edges.len() as u32;
        let above = &input.board.edges[before(number, count) as usize];
        let below = &input.board.edges[after(number, count) as usize];
        let upper = before(first * 64, height);
        let lower = after((first + rows) * 64 - 1, height);
        let cells = &mut self.cells;
        take_row(
            above.last(phases),
            cells,
            63,
            upper,
            phases,
            &input.board.given_up,
            watch,
        ) && take_row(
            below.first(phases),
            cells,
            rows * 64 + 64,
            lower,
            phases,
            &input.board.given_up,
            watch,
        )
    }

    // Shows and takes edges, if the phase that comes next needs them. False if a strip has given up.
    fn exchange_edges<N: RunName, W: Watch>(
        &mut self,
        input: &RunInput<'_, N>,
        number: u32,
        phases: u16,
        watch: &mut W,
    ) -> bool
        requires number { (number < length input.now.board.now.edges.items)
            × (length input.now.board.now.edges.items ≤ 64) }
        requires strip { IsOf (extent N.course.start) self.old }
        requires rows { HasOwnRows (lattice_at N.course phases) self.old }
        ensures strip { IsOf (extent N.course.start) self.new }
        ensures same { (self.new.own ≡ self.old.own) × (self.new.flow ≡ self.old.flow) }
        ensures rows { IsTrue result → IsBefore N.course phases self.new }
    {
        if parity_at(input.parity, phases) == 0 {
            return true;
        }
        watch.begin_wait();
        let met = self.show_edges(input, number, phases, watch)
            && self.take_edges(input, number, phases, watch);
        watch.end_wait();
        met
    }

    /// Makes so many phases of the run. False if a strip has given up.
    pub fn run<N: RunName, W: Watch>(
        &mut self,
        input: &RunInput<'_, N>,
        number: u32,
        watch: &mut W,
    ) -> bool
        requires number { (number < length input.now.board.now.edges.items)
            × (length input.now.board.now.edges.items ≤ 64) }
        requires strip { IsOf (extent N.course.start) self.old }
        requires at { 0 < input.now.from → IsAt N.course input.now.from self.old }
        ensures strip { IsOf (extent N.course.start) self.new }
        ensures own { self.new.own ≡ self.old.own }
        ensures at { IsTrue result → IsAt N.course (input.now.from + input.now.phases) self.new }
    {
        input.board.begun.fetch_add(1, Ordering::Relaxed);
        if input.board.given_up.load(Ordering::Relaxed) {
            return false;
        }
        if input.from == 0 {
            self.begin(input.particles);
        }
        let mut k = 0;
        while k < input.phases {
            k += self.make_next(input, k);
            if !self.exchange_edges(input, number, input.from + k, watch) {
                return false;
            }
        }
        true
    }

    /// Puts so many of its own rows into the lattice's particles, from own row `from` on.
    pub fn put_rows(&self, from: u32, rows: u32, out: &mut Plane)
        requires is { IsLattice out.old }
        requires strip { IsOf (extent out.old) self.now }
        requires rows { from + rows ≤ self.now.own.rows }
        ensures sides { HasSidesOf out.new out.old }
        ensures lattice { IsLattice out.new }
        ensures rows { (lattice : Cells) → let s = self.now in HasSidesOf out.old lattice →
            HasRows (place_of (out.old.height / 64) s.own) s.cells lattice 64 →
            ArePut lattice out.old (s.own.first + from) rows out.new }
    {
        copy_rows(&self.cells, from + 1, rows, out, self.own.first + from);
    }
}
