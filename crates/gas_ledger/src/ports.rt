//! The drains and sources of a gas, in two lists, and as the action of a run.

ghost use Rattle.std.specs.Prelude.{◌≡◌, ◌<◌, ◌%◌, ◌==◌, ◌||◌, ◌↔◌, nat_lt, nat_abs, pos, ◌+ℤ◌, true, false, length, IsErr, OnOk, OnErr};
ghost use Rattle.gas_ledger.specs.PortLists.{no_ports, with_port, has_all, has_period, due_areas, left_by, IsPortSet};

use crate::port::{Full, Port, Source};
use gas_plane::Tile;
use gas_terms::{MOST_PORTS, Rect, Tick};
use phase_step::{Action, Exchange, PortArray, add_tiles_of, any_area};
use std::marker::Model;

/// At most `MOST_PORTS` drains and as many sources, in the order in which they were added.
#[derive(Drop)]
pub struct Ports {
    drains: PortArray<Rect>,
    sources: PortArray<Source>,
    // The tiles in which they have cells. A step makes an exchange, and only a new port changes these.
    met: Tile,
}

impl Model for Ports {
    ghost use Rattle.gas_ledger.specs.PortLists.{PortLists, AreMetIn, IsPortSet};

    ghost Value = { PortLists };

    ghost view = { λ p. record { drains = p.drains; sources = p.sources } };

    ghost invariant = { λ p.
        let ports : PortLists = record { drains = p.drains; sources = p.sources } in
        IsPortSet ports × AreMetIn p.met ports };
}

impl Ports {
    /// No drains and no sources.
    pub fn none() -> Ports
        ensures { result ≡ no_ports }
    {
        let area = any_area();
        Ports {
            drains: PortArray::none(area),
            sources: PortArray::none(Source { area, period: 1 }),
            met: Tile::empty(),
        }
    }

    /// A clone.
    pub fn copy(&self) -> Ports
        ensures { result ≡ self.now }
    {
        Ports {
            drains: self.drains.copy(),
            sources: self.sources.copy(),
            met: self.met,
        }
    }

    /// Whether there are `MOST_PORTS` ports of the kind already.
    pub fn has_all(&self, port: &Port) -> bool
        ensures { result ≡ has_all self.now port.now }
    {
        match port {
            Port::Drain(_) => self.drains.len() >= MOST_PORTS,
            Port::Source(_, _) => self.sources.len() >= MOST_PORTS,
        }
    }

    /// Adds a port at the end of its list, in which there must be room.
    pub fn push(&mut self, port: Port)
        requires period { has_period port ≡ true }
        requires room { has_all self.old port ≡ false }
        ensures { self.new ≡ with_port self.old port }
    {
        match port {
            Port::Drain(area) => {
                add_tiles_of(&mut self.met, area);
                self.drains.push(area);
            }
            Port::Source(area, period) => {
                add_tiles_of(&mut self.met, area);
                self.sources.push(Source { area, period });
            }
        }
    }

    /// Adds a port, or fails if there are `MOST_PORTS` of the kind already.
    pub fn add(&mut self, port: Port) -> Result<(), Full>
        requires period { has_period port ≡ true }
        ensures full { IsErr result ↔ (has_all self.old port ≡ true) }
        ensures ok { OnOk result (self.new ≡ with_port self.old port) }
        ensures err { OnErr result (self.new ≡ self.old) }
    {
        if self.has_all(&port) {
            return Err(Full);
        }
        self.push(port);
        Ok(())
    }

    /// Removes all of them.
    pub fn clear(&mut self)
        ensures { self.new ≡ no_ports }
    {
        self.drains.clear();
        self.sources.clear();
        self.met = Tile::empty();
    }

    /// Whether there is any port.
    pub fn any(&self) -> bool
        ensures any { result ≡
            (nat_lt 0 (length self.now.drains) || nat_lt 0 (length self.now.sources)) }
        ensures none { result ≡ false → self.now ≡ no_ports }
    {
        self.drains.len() > 0 || self.sources.len() > 0
    }

    /// The rectangles of the drains, the oldest first.
    pub fn drains(&self) -> &[Rect]
        ensures drains { result.now ≡ self.now.drains }
        ensures kept { IsPortSet self.now }
    {
        self.drains.as_slice()
    }

    /// The sources, the oldest first.
    pub fn sources(&self) -> &[Source]
        ensures sources { result.now ≡ self.now.sources }
        ensures kept { IsPortSet self.now }
    {
        self.sources.as_slice()
    }

    /// What they do at this tick.
    pub(crate) fn exchange_at(&self, tick: i64) -> Exchange
        ensures { result ≡ record {
          drains = self.now.drains;
          sources = due_areas tick self.now.sources;
        } }
    {
        Exchange::among(self.drains.copy(), self.due(tick), self.met)
    }

    // The rectangles of the sources that are due at the tick.
    fn due(&self, tick: i64) -> PortArray<Rect>
        ensures { result ≡ due_areas tick self.now.sources }
    {
        let mut due = PortArray::none(any_area());
        for source in self.sources() {
            if is_due(tick, source.period) {
                due.push(source.area);
            }
        }
        due
    }
}

// Whether the period divides the tick.
fn is_due(tick: i64, period: u16) -> bool
    requires { 0 < period }
    ensures { result ≡ (nat_abs tick % period == 0) }
{
    tick.unsigned_abs() % period as u64 == 0
}

/// What ports do after each phase of a run that begins at the tick.
#[derive(Drop)]
pub(crate) struct PortsFrom<'a> {
    pub(crate) ports: &'a Ports,
    pub(crate) tick: Tick,
}

impl Action for PortsFrom<'_> {
    ghost leaves = { λ p k x y held. left_by p.ports.now (p.tick +ℤ pos k +ℤ pos 1) x y held };

    fn after_phase(&self, k: u16) -> Exchange {
        self.ports.exchange_at(self.tick.get() + i64::from(k) + 1)
    }

    fn acts(&self) -> bool {
        self.ports.any()
    }
}
