//! Laws of phases and runs: which steps of a gas they are. A law is a function with an empty body; its contract is the law.

ghost use Rattle.std.specs.Prelude.{◌≡◌, ℕ, ℤ, pos, ◌-ℤ◌};
ghost use Rattle.std.specs.Fn.{iterate};
ghost use Rattle.gas_terms.specs.Cells.{HasEvenSides, IsEvenTorus};
ghost use Rattle.gas_terms.specs.Velocity.{parity};
ghost use Rattle.gas_terms.specs.Gas.{Gas, streamed, solid, forward, back, HasNoPorts};
ghost use Rattle.gas_terms.specs.Accounts.{taken, gas_taken};
ghost use Rattle.gas_terms.specs.BookedGas.{BookedGas, moved, stepped, stepped_back};
ghost use Rattle.phase_step.specs.Runs.{ran, ran_back};
ghost use Rattle.phase_step.specs.PortedRuns.{stepped_on};

/// The phase of a tick's parity is the step forward from it, and that of the parity of the tick before is the step back to
/// it. What the first takes is what walls and obstacles take in the step forward; what the second takes is what they took in
/// the step forward that it undoes.
pub fn phases_are_steps()
    ensures forward { (g : Gas) →
        streamed (parity g.tick) g.particles (solid g) ≡ (forward g).particles }
    ensures forward_took { (g : Gas) →
        taken (parity g.tick) g.particles g.walls g.obstacles ≡ gas_taken g }
    ensures back { (g : Gas) → HasEvenSides g.particles.width g.particles.height →
        streamed (parity (g.tick -ℤ pos 1)) g.particles (solid g) ≡ (back g).particles }
    ensures back_took { (g : Gas) → HasEvenSides g.particles.width g.particles.height →
        taken (parity (g.tick -ℤ pos 1)) g.particles g.walls g.obstacles ≡ gas_taken (back g) }
{}

/// A run of phases is as many steps, tick and ledger included: forward without the action of the ports, forward with it
/// after each phase, and back.
pub fn runs_are_steps()
    ensures forward { (n : ℕ) (b : BookedGas) → iterate moved n b ≡ ran n b }
    ensures whole { (n : ℕ) (b : BookedGas) → IsEvenTorus b.gas.particles → HasNoPorts b.gas →
        iterate stepped n b ≡ ran n b }
    ensures ported { (n : ℕ) (b : BookedGas) → iterate stepped n b ≡ stepped_on n b }
    ensures back { (n : ℕ) (b : BookedGas) →
        HasEvenSides b.gas.particles.width b.gas.particles.height →
        iterate stepped_back n b ≡ ran_back n b }
{}
