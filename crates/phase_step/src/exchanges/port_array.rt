//! Lists of at most 16 values that never allocate.

ghost use Rattle.std.specs.Prelude.{◌≡◌, ◌<◌, ◌≤◌, [], ◌∷◌, ◌++◌, length};
ghost use Rattle.gas_terms.specs.Gas.{most_ports};

use gas_terms::MOST_PORTS;
use std::marker::Model;

/// A value for each port of a kind, at most.
#[derive(Drop)]
pub struct PortArray<T: Copy> {
    // Those from `count` on stand for nothing.
    values: [T; MOST_PORTS],
    count: usize,
}

impl<T: Copy> Model for PortArray<T> {
    ghost use Rattle.std.specs.Prelude.{◌≤◌, List, take};
    ghost use Rattle.gas_terms.specs.Gas.{most_ports};

    ghost Value = { List T };

    ghost view = { λ f. take f.count f.values };

    ghost invariant = { λ f. f.count ≤ most_ports };
}

impl<T: Copy> PortArray<T> {
    /// None yet. `any` is any value.
    pub fn none(any: T) -> PortArray<T>
        ensures { result ≡ [] }
    {
        PortArray {
            values: [any; MOST_PORTS],
            count: 0,
        }
    }

    /// An equal array of its own.
    pub fn copy(&self) -> PortArray<T>
        ensures { result ≡ self.now }
    {
        PortArray {
            values: self.values,
            count: self.count,
        }
    }

    /// Puts a value behind the last one. There has to be room.
    pub fn push(&mut self, value: T)
        requires { length self.old < most_ports }
        ensures { self.new ≡ self.old ++ value ∷ [] }
    {
        self.values[self.count] = value;
        self.count += 1;
    }

    /// The values, in the order in which they were put.
    pub fn as_slice(&self) -> &[T]
        ensures items { result.now ≡ self.now }
        ensures few { length self.now ≤ most_ports }
    {
        &self.values[..self.count]
    }

    /// How many values it has.
    pub fn len(&self) -> usize
        ensures len { result ≡ length self.now }
        ensures few { length self.now ≤ most_ports }
    {
        self.as_slice().len()
    }

    /// Takes all values out.
    pub fn clear(&mut self)
        ensures { self.new ≡ [] }
    {
        self.count = 0;
    }
}
