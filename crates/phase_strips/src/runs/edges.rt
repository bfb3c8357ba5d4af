//! What the strips of a run show each other: the rows of cells at their edges. The type of such a row names the run, and keeps
//! that it is a row of the lattice in that run. So whoever finds one knows it, whichever thread wrote it.

ghost use Rattle.std.specs.Prelude.{◌≡◌, ℕ, ◌<◌, IsTrue, IfSome, length};
ghost use Rattle.phase_strips.specs.Courses.{lattice_at, AreRowBytes, HasCellRow, AreOtherRowsKept};

use crate::runs::watch::{NoWatch, Stopwatch, Watch};
use gas_plane::Plane;
use std::alloc::Global;
use std::hint::spin_loop;
use std::marker::{Brand, PhantomData};
use std::sync::Mutex;
use std::sync::atomic::{AtomicBool, AtomicU32, Ordering};
use std::thread::yield_now;
use std::time::Clock;

/// How often a strip looks for a neighbor's row before it gives up, if nobody has given up before.
const PATIENCE: u32 = 1 << 22;

/// How many of these times it only spins between two looks.
const SPINS: u32 = 200;

/// Which run it is. Each run picks its own.
pub trait RunName {
    ghost use Rattle.phase_strips.specs.Courses.{Course};

    ghost course: { Course };
}

impl RunName for Brand {
    ghost use Rattle.phase_strips.specs.Courses.{no_course};

    ghost course = { no_course };
}

/// A row of the lattice, as it is after so many phases of the run.
#[derive(Drop)]
pub struct EdgeRow<N: RunName> {
    bytes: Vec<u8>,
    row: u32,
    phases: u16,
    of: PhantomData<N>,
    ghost is: { AreRowBytes (lattice_at N.course phases) row bytes.items },
}

impl<N: RunName> EdgeRow<N> {
    // The first row of the particles at the start. `None` if memory runs out.
    fn new(alloc: Global, particles: &Plane) -> Option<EdgeRow<N>>
        requires { N.course.start ≡ particles.now }
    {
        let width = particles.size().width() as usize;
        let mut bytes = vec![in alloc; 0u8; width / 8].ok()?;
        particles.row_bytes(0, bytes.as_mut_slice());
        Some(EdgeRow {
            bytes,
            row: 0,
            phases: 0,
            of: PhantomData,
        })
    }

    // Becomes row y of some cells, where the lattice's row is after so many phases.
    fn show(&mut self, cells: &Plane, y: u32, row: u32, phases: u16)
        requires y { y < cells.now.height }
        requires is { HasCellRow (lattice_at N.course phases) row cells.now y }
    {
        cells.shows_lattice();
        cells.row_bytes(y, self.bytes.as_mut_slice());
        self.row = row;
        self.phases = phases;
    }

    // Puts the row into row y of some cells.
    fn put(&self, cells: &mut Plane, y: u32)
        requires y { y < cells.old.height }
        requires wide { cells.old.width ≡ N.course.start.width }
        ensures row { (row phases : ℕ) → self.now.row ≡ row → self.now.phases ≡ phases →
            HasCellRow (lattice_at N.course phases) row cells.new y }
        ensures kept { AreOtherRowsKept cells.old y cells.new }
    {
        cells.set_row(y, self.bytes.as_slice());
    }
}

// Lets others go on between two looks. False if a strip has given up, or waits too long.
fn pause<W: Watch>(looks: u32, given_up: &AtomicBool, watch: &W) -> bool {
    if looks < SPINS {
        spin_loop();
        return !given_up.load(Ordering::Relaxed);
    }
    yield_now();
    !given_up.load(Ordering::Relaxed) && !watch.is_late()
}

/// Shows row y of a strip as this row of the lattice. False if a strip has given up, since a neighbor never let go of what it read.
pub fn show_row<N: RunName, W: Watch>(
    edge: &Mutex<EdgeRow<N>>,
    cells: &Plane,
    y: u32,
    row: u32,
    phases: u16,
    given_up: &AtomicBool,
    watch: &W,
) -> bool
    requires y { y < cells.now.height }
    requires is { HasCellRow (lattice_at N.course phases) row cells.now y }
{
    for looks in 0..PATIENCE {
        if let Some(mut shown) = edge.try_lock() {
            shown.show(cells, y, row, phases);
            return true;
        }
        if !pause(looks, given_up, watch) {
            break;
        }
    }
    given_up.store(true, Ordering::Relaxed);
    false
}

/// Puts this row of the lattice into row y of a strip, as soon as it is shown. False if it never was; then all stays as it was.
pub fn take_row<N: RunName, W: Watch>(
    edge: &Mutex<EdgeRow<N>>,
    cells: &mut Plane,
    y: u32,
    row: u32,
    phases: u16,
    given_up: &AtomicBool,
    watch: &W,
) -> bool
    requires y { y < cells.old.height }
    requires wide { cells.old.width ≡ N.course.start.width }
    ensures row { IsTrue result → HasCellRow (lattice_at N.course phases) row cells.new y }
    ensures kept { AreOtherRowsKept cells.old y cells.new }
{
    for looks in 0..PATIENCE {
        if let Some(shown) = edge.try_lock() {
            if shown.row == row && shown.phases == phases {
                shown.put(cells, y);
                return true;
            }
        }
        if !pause(looks, given_up, watch) {
            break;
        }
    }
    given_up.store(true, Ordering::Relaxed);
    false
}

/// What a strip shows: its first and its last row, each in two places by turns. A neighbor that reads one is never waited for.
#[derive(Drop)]
pub struct Edges<N: RunName> {
    first: [Mutex<EdgeRow<N>>; 2],
    last: [Mutex<EdgeRow<N>>; 2],
}

impl<N: RunName> Edges<N> {
    fn new(alloc: Global, particles: &Plane) -> Option<Edges<N>>
        requires { N.course.start ≡ particles.now }
    {
        let first = [
            Mutex::new(EdgeRow::new(alloc, particles)?),
            Mutex::new(EdgeRow::new(alloc, particles)?),
        ];
        let last = [
            Mutex::new(EdgeRow::new(alloc, particles)?),
            Mutex::new(EdgeRow::new(alloc, particles)?),
        ];
        Some(Edges { first, last })
    }

    /// Where the strip's first row stands after so many phases. Rows are shown after every second phase.
    pub fn first(&self, phases: u16) -> &Mutex<EdgeRow<N>> {
        &self.first[(phases / 2 % 2) as usize]
    }

    /// Where its last row stands.
    pub fn last(&self, phases: u16) -> &Mutex<EdgeRow<N>> {
        &self.last[(phases / 2 % 2) as usize]
    }
}

/// Where the strips of a run show each other their edges, how many have begun, and whether one of them has given up.
#[derive(Drop)]
pub struct Board<N: RunName> {
    pub edges: Vec<Edges<N>>,
    pub begun: AtomicU32,
    pub given_up: AtomicBool,
}

impl<N: RunName> Board<N> {
    /// A board for so many strips. `None` if memory runs out.
    pub fn new(alloc: Global, particles: &Plane, count: usize) -> Option<Board<N>>
        requires { N.course.start ≡ particles.now }
        ensures { IfSome result (λ board. length board.edges.items ≡ count) }
    {
        let mut edges = Vec::with_capacity(alloc, count).ok()?;
        for _ in 0..count {
            edges.push_reserved(Edges::new(alloc, particles)?);
        }
        Some(Board {
            edges,
            begun: AtomicU32::new(0),
            given_up: AtomicBool::new(false),
        })
    }

    /// Waits until the other strips have begun. False if they don't in time, since a thread could not be started.
    pub fn wait_for_all<R: Clock>(&self, watch: &Stopwatch<'_, R>) -> bool {
        for looks in 0..PATIENCE {
            if self.begun.load(Ordering::Relaxed) >= watch.others {
                return true;
            }
            if !pause(looks, &self.given_up, &NoWatch) || watch.is_late_to_begin() {
                break;
            }
        }
        self.given_up.store(true, Ordering::Relaxed);
        false
    }
}
