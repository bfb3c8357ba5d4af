//! Walls and obstacles, with their blocks.

ghost use Rattle.std.specs.Prelude.{◌≡◌, ◌<◌, ◌⊎◌, false, IfOk, IsTrue};
ghost use Rattle.gas_terms.specs.Cells.{cells_where, filled, cleared, joined, tile_count, HasSidesOf};
ghost use Rattle.gas_plane.specs.Planes.{HasNone};
ghost use Rattle.block_rule.specs.TileBlocks.{AreGivenBlocks, NamesBlocks};
ghost use Rattle.phase_step.specs.SolidBlocks.{is_walled_in, AreBlocksOf, AreTileSolids, AreOfNone, HasNoBlocks};

use crate::steps::set_words::{SetWords, renew, renew_alone};
use block_rule::{Counted, SetBlocks};
use gas_plane::Plane;
use gas_terms::{NoMemory, Rect, Size};
use std::alloc::Global;

/// Walls and obstacles. Words name the blocks that have an obstacle, and all walled blocks, so that no phase works these out.
#[derive(Drop)]
pub struct Solids {
    pub walls: Plane,
    pub obstacles: Plane,
    of_obstacles: SetWords,
    of_all: SetWords,
    // Whether there may be a wall, and an obstacle.
    some_walls: bool,
    some_obstacles: bool,
    pub ghost sides: { HasSidesOf obstacles walls },
    pub ghost no_walls: { some_walls ≡ false → HasNone walls },
    pub ghost no_obstacles: { some_obstacles ≡ false → HasNone obstacles },
    pub ghost obstructed: { AreBlocksOf obstacles of_obstacles.rows.items
        of_obstacles.blocks.items },
    pub ghost walled: { AreBlocksOf (joined walls obstacles) of_all.rows.items
        of_all.blocks.items },
}

/// The walled blocks of one tile, and those of them that have an obstacle. `None` if there are none.
#[derive(Clone, Copy)]
pub struct TileSolids<'a> {
    pub all: Option<SetBlocks<'a>>,
    pub obstacles: Option<SetBlocks<'a>>,
}

// Whether a set has a cell, if it may have had one.
fn may_have_some(set: &Plane, had: bool) -> bool
    ensures { result ≡ false → (had ≡ false) ⊎ HasNone set.now }
{
    had && !set.is_empty()
}

impl Solids {
    /// None, on a lattice of this size. Fails if memory runs out.
    pub fn empty(alloc: Global, size: Size) -> Result<Solids, NoMemory>
        ensures { IfOk result (λ solids.
            (solids.walls ≡ cells_where size.width size.height (λ _ _. false))
            × (solids.obstacles ≡ cells_where size.width size.height (λ _ _. false))) }
    {
        let walls = Plane::empty(alloc, size)?;
        let obstacles = Plane::empty(alloc, size)?;
        let tiles = walls.size().tiles();
        let of_obstacles = SetWords::none(alloc, tiles)?;
        let of_all = SetWords::none(alloc, tiles)?;
        Ok(Solids {
            walls,
            obstacles,
            of_obstacles,
            of_all,
            some_walls: false,
            some_obstacles: false,
        })
    }

    /// These walls and obstacles. Fails if memory runs out.
    pub fn of(alloc: Global, walls: Plane, obstacles: Plane) -> Result<Solids, NoMemory>
        requires { HasSidesOf obstacles walls }
        ensures { IfOk result (λ solids. (solids.walls ≡ walls) × (solids.obstacles ≡ obstacles)) }
    {
        let of_obstacles = SetWords::alone(alloc, &obstacles)?;
        let of_all = SetWords::of(alloc, &walls, Some(&of_obstacles))?;
        let some_walls = !walls.is_empty();
        let some_obstacles = !obstacles.is_empty();
        Ok(Solids {
            walls,
            obstacles,
            of_obstacles,
            of_all,
            some_walls,
            some_obstacles,
        })
    }

    /// A clone. Fails if memory runs out.
    pub fn copy(&self, alloc: Global) -> Result<Solids, NoMemory>
        ensures { IfOk result (λ solids.
            (solids.walls ≡ self.now.walls) × (solids.obstacles ≡ self.now.obstacles)) }
    {
        let walls = self.walls.copy(alloc)?;
        let obstacles = self.obstacles.copy(alloc)?;
        let of_obstacles = self.of_obstacles.copy(alloc)?;
        let of_all = self.of_all.copy(alloc)?;
        Ok(Solids {
            walls,
            obstacles,
            of_obstacles,
            of_all,
            some_walls: self.some_walls,
            some_obstacles: self.some_obstacles,
        })
    }

    /// Makes each cell of the rectangle a wall.
    pub fn add_walls(&mut self, area: Rect)
        ensures walls { self.new.walls ≡ filled self.old.walls area }
        ensures obstacles { self.new.obstacles ≡ self.old.obstacles }
    {
        self.walls.fill(area);
        self.some_walls = true;
        renew(
            &self.walls,
            Some(&self.of_obstacles),
            area,
            &mut self.of_all,
        );
    }

    /// Makes each cell of the rectangle an obstacle.
    pub fn add_obstacles(&mut self, area: Rect)
        ensures walls { self.new.walls ≡ self.old.walls }
        ensures obstacles { self.new.obstacles ≡ filled self.old.obstacles area }
    {
        self.obstacles.fill(area);
        self.some_obstacles = true;
        renew_alone(&self.obstacles, area, &mut self.of_obstacles);
        renew(
            &self.walls,
            Some(&self.of_obstacles),
            area,
            &mut self.of_all,
        );
    }

    /// Removes walls and obstacles from the rectangle.
    pub fn remove(&mut self, area: Rect)
        ensures walls { self.new.walls ≡ cleared self.old.walls area }
        ensures obstacles { self.new.obstacles ≡ cleared self.old.obstacles area }
    {
        self.walls.clear(area);
        self.obstacles.clear(area);
        self.some_walls = may_have_some(&self.walls, self.some_walls);
        self.some_obstacles = may_have_some(&self.obstacles, self.some_obstacles);
        renew_alone(&self.obstacles, area, &mut self.of_obstacles);
        renew(
            &self.walls,
            Some(&self.of_obstacles),
            area,
            &mut self.of_all,
        );
    }

    /// True only if there is neither a wall nor an obstacle, and so no walled block.
    pub fn are_none(&self) -> bool
        ensures { IsTrue result → HasNoBlocks (joined self.now.walls self.now.obstacles) }
    {
        self.walls.shows_lattice();
        !self.some_walls & !self.some_obstacles
    }

    /// False only if the accounts that are kept are of sets without cells, which take nothing.
    pub fn is_counted(&self, counted: Counted) -> bool
        ensures { result ≡ false → AreOfNone counted self.now.walls self.now.obstacles }
    {
        self.walls.shows_lattice();
        self.obstacles.shows_lattice();
        (counted.walls & self.some_walls) | (counted.obstacles & self.some_obstacles)
    }

    /// The walled blocks of tile i.
    #[inline(always)]
    pub fn walled_in(&self, i: u32) -> Option<SetBlocks<'_>>
        requires { i < tile_count self.now.walls }
        ensures { AreGivenBlocks result
            (is_walled_in (joined self.now.walls self.now.obstacles) i) }
    {
        self.of_all.in_tile(i)
    }

    /// The words of the walled blocks of tile i, also if there are none.
    #[inline(always)]
    pub fn words_in(&self, i: u32) -> SetBlocks<'_>
        requires { i < tile_count self.now.walls }
        ensures { NamesBlocks result.rows result.blocks.now
            (is_walled_in (joined self.now.walls self.now.obstacles) i) }
    {
        self.of_all.of_tile(i)
    }

    /// The walled blocks of tile i, and those of them that have an obstacle.
    #[inline(always)]
    pub fn in_tile(&self, i: u32) -> TileSolids<'_>
        requires walls { i < tile_count self.now.walls }
        requires obstacles { i < tile_count self.now.obstacles }
        ensures { AreTileSolids self.now.walls self.now.obstacles i result }
    {
        TileSolids {
            all: self.walled_in(i),
            obstacles: self.of_obstacles.in_tile(i),
        }
    }
}
