//! Ports: drains take particles out, and sources put them in.

use gas_terms::Rect;
use std::error::Error;
use std::fmt;
use std::marker::Model;

/// A port to be added. A source has a period in ticks.
#[derive(Clone, Copy, Debug, PartialEq, Eq)]
pub enum Port {
    Drain(Rect),
    Source(Rect, u16),
}

/// The rectangle that a source fills, and its period in ticks.
#[derive(Clone, Copy, Debug, PartialEq, Eq)]
pub struct Source {
    pub area: Rect,
    pub period: u16,
}

impl Model for Source {
    ghost use Rattle.gas_terms.specs.Gas.{Source as SourceTerm};

    ghost Value = { SourceTerm };

    ghost view = { λ s. record { area = s.area; period = s.period } };

    ghost inverse = { λ s. record { area = s.area; period = s.period } };
}

/// There are `MOST_PORTS` ports of the kind already.
#[derive(Clone, Copy, Debug, PartialEq, Eq)]
pub struct Full;

impl fmt::Display for Full {
    ghost use Rattle.std.specs.Prelude.{codes, Some};

    ghost output = { λ _. Some (codes "there are 16 ports of that kind already") };

    fn fmt<W: fmt::Write>(&self, f: &mut fmt::Formatter<W>) -> fmt::Result {
        write!(f, "there are 16 ports of that kind already")
    }
}

impl Error for Full {}
