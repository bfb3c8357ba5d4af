//! The gas: its edits, its runs, and the port action.

ghost use Rattle.std.specs.Prelude.{◌≡◌, true, false, pos, ◌+ℤ◌, ◌-ℤ◌, IfOk};
ghost use Rattle.gas_terms.specs.Cells.{extent, lies_within, HasSidesOf, IsEvenTorus};
ghost use Rattle.gas_terms.specs.Commands.{enact, fits, is_move, is_tick};
ghost use Rattle.gas_terms.specs.Laboratory.{has_all_ports};
ghost use Rattle.gas_terms.specs.declared.command.Command.TheVariants.{Put, Erase, Row, Wall, Block, Unwall, Unport};
ghost use Rattle.phase_step.specs.Runs.{gas_before, takes_before};
ghost use Rattle.gas_ledger.specs.PortLists.{adding, has_all};
ghost use Rattle.gas_ledger.specs.Gases.{FitTogether, IsSoundGas, gas_of, ports_of, empty_gas_of_size};
ghost use Rattle.gas_terms.specs.Accounts.{moved_by};
ghost use Rattle.phase_step.specs.PortedRuns.{gas_stepped, steps_take, steps_move};

use crate::change::row_change;
use crate::port::Port;
use crate::ports::{Ports, PortsFrom};
use crate::probes::probe;
use gas_plane::Plane;
use gas_terms::{Command, Moved, NoMemory, Rect, Size, Sums, Tick, Took};
use phase_step::{Flow, Run, Solids, Stepper, Still};
use std::alloc::Global;
use std::marker::Model;

/// A gas at a tick, with its walls, its obstacles and its ports.
#[derive(Drop)]
pub struct Gas {
    tick: Tick,
    particles: Plane,
    solids: Solids,
    ports: Ports,
}

impl Model for Gas {
    ghost use Rattle.gas_terms.specs.Gas.{Gas as GasTerm};

    ghost Value = { GasTerm };

    ghost use Rattle.gas_ledger.specs.Gases.{gas_of, FitTogether};

    ghost view = { λ g. gas_of g.tick g.particles g.solids.walls g.solids.obstacles g.ports };

    ghost invariant = { λ g. FitTogether g.particles g.solids.walls g.solids.obstacles g.ports };
}

impl Gas {
    /// A gas of these parts. The sets must have one size, and the ports must lie within it. Fails if memory runs out.
    pub fn new(
        alloc: Global,
        tick: Tick,
        particles: Plane,
        walls: Plane,
        obstacles: Plane,
        ports: Ports,
    ) -> Result<Gas, NoMemory>
        requires { FitTogether particles walls obstacles ports }
        ensures { IfOk result (λ gas. gas ≡ gas_of tick particles walls obstacles ports) }
    {
        let solids = Solids::of(alloc, walls, obstacles)?;
        Ok(Gas {
            tick,
            particles,
            solids,
            ports,
        })
    }

    /// The empty gas of this size, at tick 0. Fails if memory runs out.
    pub fn empty(alloc: Global, size: Size) -> Result<Gas, NoMemory>
        ensures { IfOk result (λ gas. gas ≡ empty_gas_of_size size) }
    {
        let particles = Plane::empty(alloc, size)?;
        let solids = Solids::empty(alloc, size)?;
        Ok(Gas {
            tick: Tick::new(0).unwrap(),
            particles,
            solids,
            ports: Ports::none(),
        })
    }

    /// A clone. Fails if memory runs out.
    pub fn copy(&self, alloc: Global) -> Result<Gas, NoMemory>
        ensures { IfOk result (λ gas. gas ≡ self.now) }
    {
        let particles = self.particles.copy(alloc)?;
        let solids = self.solids.copy(alloc)?;
        Ok(Gas {
            tick: self.tick,
            particles,
            solids,
            ports: self.ports.copy(),
        })
    }

    /// The tick.
    pub fn tick(&self) -> Tick
        ensures { result ≡ self.now.tick }
    {
        self.tick
    }

    /// The width and height of its lattice.
    pub fn size(&self) -> Size
        ensures extent { result ≡ extent self.now.particles }
        ensures sound { IsSoundGas self.now }
    {
        // The types of the parts keep it: the tick is in its range, walls and obstacles are lattices of the size, and the
        // ports are a port set.
        let _ = self.tick.get();
        let _ = self.solids.walls.size();
        let _ = self.solids.obstacles.size();
        let _ = self.ports.drains();
        self.particles.size()
    }

    /// The cells with a particle.
    pub fn particles(&self) -> &Plane
        ensures { result.now ≡ self.now.particles }
    {
        &self.particles
    }

    /// The cells with a wall.
    pub fn walls(&self) -> &Plane
        ensures { result.now ≡ self.now.walls }
    {
        &self.solids.walls
    }

    /// The cells with an obstacle.
    pub fn obstacles(&self) -> &Plane
        ensures { result.now ≡ self.now.obstacles }
    {
        &self.solids.obstacles
    }

    /// Its drains and sources.
    pub fn ports(&self) -> &Ports
        ensures { result.now ≡ ports_of self.now }
    {
        &self.ports
    }

    /// Puts a particle into each cell of the rectangle that has none. Returns what came in.
    pub fn fill_particles(&mut self, area: Rect) -> Moved
        requires { lies_within (extent self.old.particles) area ≡ true }
        ensures gas { self.new ≡ enact self.old (Put area) }
        ensures moved { result ≡ moved_by self.old.tick self.old.particles self.new.particles }
    {
        let before = probe(&self.particles, area, self.tick);
        self.particles.fill(area);
        let after = probe(&self.particles, area, self.tick);
        Moved {
            injected: after.minus(before),
            drained: Sums::ZERO,
        }
    }

    /// Removes the particles of the rectangle. Returns what went out.
    pub fn clear_particles(&mut self, area: Rect) -> Moved
        requires { lies_within (extent self.old.particles) area ≡ true }
        ensures gas { self.new ≡ enact self.old (Erase area) }
        ensures moved { result ≡ moved_by self.old.tick self.old.particles self.new.particles }
    {
        let before = probe(&self.particles, area, self.tick);
        self.particles.clear(area);
        Moved {
            injected: Sums::ZERO,
            drained: before,
        }
    }

    /// Replaces the particles of row y by those of the bytes, eight cells in each from the highest bit on. Returns what came
    /// in and what went out.
    pub fn replace_row(&mut self, y: u16, bytes: &[u8]) -> Moved
        requires { fits (extent self.old.particles) (Row y bytes.now) ≡ true }
        ensures gas { self.new ≡ enact self.old (Row y bytes.now) }
        ensures moved { result ≡ moved_by self.old.tick self.old.particles self.new.particles }
    {
        let change = row_change(&self.particles, y as u32, bytes);
        self.particles.set_row(y as u32, bytes);
        change.moved(self.tick.parity())
    }

    /// Makes each cell of the rectangle a wall.
    pub fn add_walls(&mut self, area: Rect)
        ensures { self.new ≡ enact self.old (Wall area) }
    {
        self.solids.add_walls(area);
    }

    /// Makes each cell of the rectangle an obstacle.
    pub fn add_obstacles(&mut self, area: Rect)
        ensures { self.new ≡ enact self.old (Block area) }
    {
        self.solids.add_obstacles(area);
    }

    /// Removes walls and obstacles from the rectangle.
    pub fn remove_walls_and_obstacles(&mut self, area: Rect)
        ensures { self.new ≡ enact self.old (Unwall area) }
    {
        self.solids.remove(area);
    }

    /// Adds a port at the end of its list, in which there must be room (`Ports::has_all`). The port does not act yet.
    pub fn add_port(&mut self, port: Port)
        requires in_order { fits (extent self.old.particles) (adding port) ≡ true }
        requires room { has_all (ports_of self.old) port ≡ false }
        ensures { self.new ≡ enact self.old (adding port) }
    {
        self.ports.push(port);
    }

    /// Removes all drains and sources.
    pub fn remove_ports(&mut self)
        ensures { self.new ≡ enact self.old Unport }
    {
        self.ports.clear();
    }

    /// Does an edit, and returns what it brings in and takes out. A reading leaves the gas.
    #[tactic(auto, using(crate::proofs::Editing::quiet_moves))]
    pub(crate) fn edit(&mut self, command: &Command) -> Moved
        requires still { is_move command.now ≡ false }
        requires in_order { fits (extent self.old.particles) command.now ≡ true }
        requires place { has_all_ports self.old command.now ≡ false }
        requires torus { IsEvenTorus self.old.particles }
        ensures gas { self.new ≡ enact self.old command.now }
        ensures moved { result ≡ moved_by self.old.tick self.old.particles self.new.particles }
    {
        match command {
            Command::Put(area) => return self.fill_particles(*area),
            Command::Erase(area) => return self.clear_particles(*area),
            Command::Row(y, row) => return self.replace_row(*y, row.bytes()),
            Command::Wall(area) => self.add_walls(*area),
            Command::Block(area) => self.add_obstacles(*area),
            Command::Unwall(area) => self.remove_walls_and_obstacles(*area),
            Command::Source(area, period) => self.add_port(Port::Source(*area, *period)),
            Command::Drain(area) => self.add_port(Port::Drain(*area)),
            Command::Unport => self.remove_ports(),
            // A reading leaves the gas.
            _ => {}
        }
        Moved::ZERO
    }

    /// Steps n ticks forward, with the port action at each. Returns what walls and obstacles took, and what the ports brought
    /// in and took out.
    pub fn step_on<S: Stepper>(&mut self, n: u16, stepper: &mut S) -> Flow
        requires tick { is_tick (self.old.tick +ℤ pos n) ≡ true }
        ensures gas { self.new ≡ gas_stepped n self.old }
        ensures took { result.took ≡ steps_take n self.old }
        ensures moved { result.moved ≡ steps_move n self.old }
    {
        let first = self.tick;
        let tick = &mut self.tick;
        *tick = first.ahead(n).unwrap();
        let particles = &mut self.particles;
        let ports = &self.ports;
        let action = PortsFrom { ports, tick: first };
        let solids = &self.solids;
        let action = &action;
        let parity = first.parity();
        let run = Run {
            solids,
            parity,
            n,
            action,
        };
        stepper.run_with(particles, run)
    }

    /// Steps n ticks back. Returns what walls and obstacles took in the steps forward that are undone.
    pub fn run_back<S: Stepper>(&mut self, n: u16, stepper: &mut S) -> Took
        requires tick { is_tick (self.old.tick -ℤ pos n) ≡ true }
        ensures gas { self.new ≡ gas_before n self.old }
        ensures took { result ≡ takes_before n self.old }
    {
        let first = 1 - self.tick.parity();
        let tick = &mut self.tick;
        *tick = tick.behind(n).unwrap();
        let particles = &mut self.particles;
        let solids = &self.solids;
        let action = &Still;
        let run = Run {
            solids,
            parity: first,
            n,
            action,
        };
        stepper.run_with(particles, run).took
    }
}
