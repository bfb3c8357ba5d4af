//! Actions: changes of the particles after each phase of a run.

ghost use Rattle.std.specs.Prelude.{◌≡◌, ℕ, Bool, false};
ghost use Rattle.phase_step.specs.Actions.{IsStill};
ghost use Rattle.phase_step.specs.Exchanges.{leaves_of};

use crate::exchanges::Exchange;

/// What acts on the particles after each phase of a run.
pub trait Action: Drop {
    ghost leaves: { Self → ℕ → ℕ → ℕ → Bool → Bool };

    /// What it does after phase k: the first phase has number 0.
    fn after_phase(&self, k: u16) -> Exchange
        ensures { (x y : ℕ) (held : Bool) →
            leaves_of result x y held ≡ leaves self.now k x y held };

    /// Whether it does anything at all. If not, it leaves every cell as it is, after each phase.
    fn acts(&self) -> bool
        ensures { result ≡ false → (k : ℕ) → IsStill (leaves self.now k) }
    {
        true
    }
}
