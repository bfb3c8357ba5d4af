//! The rest of an action, from a later phase on.

ghost use Rattle.std.specs.Prelude.{◌+◌, min};
ghost use Rattle.phase_step.specs.Actions.{last_phase};

use crate::exchanges::{Action, Exchange};

/// What an action does from phase `by` on: the part of a run that begins there has phases 0, 1, .. of its own. No phase
/// has a number above 65,535.
#[derive(Drop)]
pub struct ActionFrom<'a, A: Action> {
    pub action: &'a A,
    pub by: u16,
}

impl<A: Action> Action for ActionFrom<'_, A> {
    ghost leaves = { λ l k x y held. A.leaves l.action.now (min (l.by + k) last_phase) x y held };

    fn after_phase(&self, k: u16) -> Exchange {
        self.action.after_phase(self.by.saturating_add(k))
    }

    fn acts(&self) -> bool {
        self.action.acts()
    }
}
