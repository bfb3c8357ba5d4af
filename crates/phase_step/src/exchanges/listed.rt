//! The action that makes the exchanges of a list, one after each phase.

ghost use Rattle.phase_step.specs.Exchanges.{listed};

use crate::exchanges::{Action, Exchange};

/// After phase k the exchange in place k of a list; after its end nothing.
#[derive(Clone, Copy, Drop)]
pub struct Listed<'a> {
    pub exchanges: &'a [Exchange],
}

impl Action for Listed<'_> {
    ghost leaves = { λ l k. listed l.exchanges.now k };

    fn after_phase(&self, k: u16) -> Exchange {
        match self.exchanges.get(k as usize) {
            Some(exchange) => exchange.copy(),
            None => Exchange::none(),
        }
    }
}
