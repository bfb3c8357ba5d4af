//! The action that does nothing.

use crate::exchanges::{Action, Exchange};

/// Leaves every cell as it is, after each phase.
#[derive(Clone, Copy, Debug, Default, PartialEq, Eq)]
pub struct Still;

impl Action for Still {
    ghost leaves = { λ _ k x y held. held };

    fn after_phase(&self, _k: u16) -> Exchange {
        Exchange::none()
    }

    fn acts(&self) -> bool {
        false
    }
}
