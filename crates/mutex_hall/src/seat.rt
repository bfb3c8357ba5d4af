//! A seat of a `Hall`, which counts the entries that it made.

ghost use Rattle.std.specs.Prelude.{◌≡◌, ◌≤◌};
ghost use Rattle.gas_terms.specs.Laboratory.{most_entries};
ghost use Rattle.mutex_hall.specs.Seats.{Seat};

use crate::name::HallName;
use std::marker::Model;
use std::sync::ledger::Share;

/// One seat of a hall. Its share of the hall's ledger has one part, and as its amount the entries that the seat made.
#[derive(Drop)]
pub struct HallSeat<N: HallName> {
    pub(crate) number: u16,
    pub(crate) entries: u32,
    pub(crate) calls: u32,
    pub(crate) share: Share<N>,
}

impl<N: HallName> Model for HallSeat<N> {
    ghost use Rattle.std.specs.Prelude.{◌≡◌, ◌≤◌};
    ghost use Rattle.gas_terms.specs.Laboratory.{most_entries};
    ghost use Rattle.mutex_hall.specs.Seats.{Seat};

    ghost Value = { Seat };

    ghost view = { λ s. record { number = s.number; entries = s.entries } };

    ghost invariant = { λ s. (s.share.parts ≡ 1) × (s.share.amount ≡ s.entries)
        × (s.entries ≤ most_entries) };
}

impl<N: HallName> HallSeat<N> {
    /// The number that the seat's entries have in the journal.
    pub fn number(&self) -> u16
        ensures { result ≡ self.now.number }
    {
        self.number
    }

    /// How many entries of the journal the seat made.
    pub fn entries(&self) -> u32
        ensures entries { result ≡ self.now.entries }
        ensures bound { result ≤ most_entries }
    {
        self.entries
    }

    // The number of the seat's next call. At its last value it stays.
    pub(crate) fn next_call(&mut self) -> u32
        ensures { self.new ≡ self.old }
    {
        let call = self.calls;
        self.calls = call.saturating_add(1);
        call
    }

    pub(crate) fn into_share(self) -> Share<N>
        ensures parts { result.parts ≡ 1 }
        ensures amount { result.amount ≡ self.entries }
    {
        self.share
    }
}
