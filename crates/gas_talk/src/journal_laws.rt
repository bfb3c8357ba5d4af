//! A law of journals: each is a script. A law is a function with an empty body; its contract is the law.

ghost use Rattle.std.specs.Prelude.{◌≡◌, ℕ, ◌≤◌, true, length};
ghost use Rattle.std.specs.List.{All};
ghost use Rattle.gas_terms.specs.Cells.{extent, is_size};
ghost use Rattle.gas_terms.specs.Laboratory.{Laboratory, opening, IsSound};
ghost use Rattle.gas_text.specs.Requests.{IsTyped};
ghost use Rattle.gas_talk.specs.LabTalk.{talk};
ghost use Rattle.gas_talk.specs.Scripts.{asked_by_script, taken_from, made_alone};

/// A journal is a script: the texts of its commands, each a line, asked by one seat of a laboratory that opens with the
/// same start and has room for them, are all taken, in order. Gas and ledger are then the same, and the journal too, but
/// for the seats.
pub fn journals_are_scripts()
    ensures { (lab : Laboratory) → is_size (extent lab.start.particles) ≡ true → IsSound lab
        → All (λ e. IsTyped e.command) lab.journal
        → (seat cap : ℕ) → length lab.journal ≤ cap
        → talk seat (opening lab.start cap)
        (asked_by_script (extent lab.start.particles) lab.journal)
        ≡ (taken_from 0 lab.journal, made_alone seat cap lab) }
{}
