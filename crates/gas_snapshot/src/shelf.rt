//! Shelves: where snapshots are put.

ghost use Rattle.std.specs.Prelude.{◌≡◌, ℕ, List, [], ◌∷◌, Option, None, Some, IsErr, OnOk, OnErr};
ghost use Rattle.gas_snapshot.specs.Shelved.{Gains, one_failure_more};

use std::error::Error;
use std::fmt;

/// The shelf could not take the bytes.
#[derive(Clone, Copy, Debug, PartialEq, Eq)]
pub struct ShelfFault;

impl fmt::Display for ShelfFault {
    ghost use Rattle.std.specs.Prelude.{codes, Some};

    ghost output = { λ _. Some (codes "the shelf did not take the snapshot") };

    fn fmt<W: fmt::Write>(&self, f: &mut fmt::Formatter<W>) -> fmt::Result {
        write!(f, "the shelf did not take the snapshot")
    }
}

impl Error for ShelfFault {}

/// Where snapshots are put. It counts the puts that fail; the count stays at 2^64-1 once it is there.
pub trait Shelf {
    // How many puts have failed.
    ghost failures: { Self → ℕ };

    // What was put there, in order, if the type says so.
    ghost shelved: { Self → Option (List (List ℕ)) } = { λ _. None };

    /// Takes the bytes whole, or fails and takes none.
    fn put(&mut self, bytes: &[u8]) -> Result<(), ShelfFault>
        ensures ok { OnOk result ((failures self.new ≡ failures self.old)
            × Gains (shelved self.old) (shelved self.new) (bytes.now ∷ [])) }
        ensures err { OnErr result ((failures self.new ≡ one_failure_more (failures self.old))
            × Gains (shelved self.old) (shelved self.new) []) };

    /// How many puts have failed.
    fn failures(&self) -> u64
        ensures { result ≡ failures self.now };
}

/// A shelf that takes nothing.
#[derive(Drop)]
pub struct NoShelf {
    failures: u64,
}

impl NoShelf {
    /// A shelf of which no put has failed yet.
    pub fn new() -> NoShelf
        ensures { result.failures ≡ 0 }
    {
        NoShelf { failures: 0 }
    }
}

impl Shelf for NoShelf {
    ghost failures = { λ s. s.failures };

    ghost shelved = { λ _. Some [] };

    fn put(&mut self, bytes: &[u8]) -> Result<(), ShelfFault>
        ensures refused { IsErr result }
        ensures ok { OnOk result ((self.new.failures ≡ self.old.failures)
            × Gains (Some []) (Some []) (bytes.now ∷ [])) }
        ensures err { OnErr result ((self.new.failures ≡ one_failure_more self.old.failures)
            × Gains (Some []) (Some []) []) }
    {
        self.failures = self.failures.saturating_add(1);
        Err(ShelfFault)
    }

    fn failures(&self) -> u64 {
        self.failures
    }
}

/// A shelf or none, decided at run time.
#[derive(Drop)]
pub enum MaybeShelf<K> {
    Shelf(K),
    Nothing(NoShelf),
}

impl<K: Shelf> Shelf for MaybeShelf<K> {
    ghost use Rattle.gas_snapshot.specs.Shelved.{failures_of, shelved_of};

    ghost failures = { failures_of K.failures };

    ghost shelved = { shelved_of K.shelved };

    fn put(&mut self, bytes: &[u8]) -> Result<(), ShelfFault> {
        match self {
            MaybeShelf::Shelf(shelf) => shelf.put(bytes),
            MaybeShelf::Nothing(none) => none.put(bytes),
        }
    }

    fn failures(&self) -> u64 {
        match self {
            MaybeShelf::Shelf(shelf) => shelf.failures(),
            MaybeShelf::Nothing(none) => none.failures(),
        }
    }
}
