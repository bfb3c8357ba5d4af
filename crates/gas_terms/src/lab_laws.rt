//! Laws of the laboratory. A law is a function with an empty body; its contract is the law.

ghost use Rattle.std.specs.Prelude.{◌≡◌, ℕ, ◌^◌, ◌≤◌, ◌<◌, true, List, [], ◌∷◌, length, replicate, pos, Some, None, Ok};
ghost use Rattle.std.specs.List.{All};
ghost use Rattle.gas_terms.specs.Cells.{extent, is_size, IsEvenTorus};
ghost use Rattle.gas_terms.specs.Gas.{Gas};
ghost use Rattle.gas_terms.specs.Accounts.{IsOfAtMost, IsLedgerOfAtMost};
ghost use Rattle.gas_terms.specs.Commands.{most_steps, fits};
ghost use Rattle.gas_terms.specs.BookedGas.{book, changes};
ghost use Rattle.gas_terms.specs.Laboratory.{Laboratory, most_entries, opening, booked, cause, reply, event, run, IsPrefix, IsSound};
ghost use Rattle.gas_terms.specs.declared.command.Command.{Command};
ghost use Rattle.gas_terms.specs.declared.command.Command.TheVariants.{Put, Source, Drain, Unport, Step, Back, Probe, Tally, Entry as EntryAt};
ghost use Rattle.gas_terms.specs.declared.command.Entry.{Entry};
ghost use Rattle.gas_terms.specs.declared.refusal.Refusal.TheVariants.{Full, Ports, Tick, Journal, Entry as NoEntry};
ghost use Rattle.gas_terms.specs.declared.answer.Answer.TheVariants.{Taken, Probed, Tallied, EntryIs};
ghost use Rattle.gas_terms.specs.SmallRuns.{cell, sums, a_source, a_drain, last_tick, lab_after, two_in_a_lab, first_tick};

/// A laboratory opens sound.
pub fn opening_is_sound()
    ensures { (start : Gas) (cap : ℕ) → IsEvenTorus start.particles → IsSound (opening start cap) }
{}

/// An event keeps a laboratory sound.
pub fn event_keeps_sound()
    ensures { (lab : Laboratory) (entry : Entry) →
        IsEvenTorus lab.start.particles → fits (extent lab.start.particles) entry.command ≡ true →
        IsSound lab → IsSound (event lab entry) }
{}

/// So after any events a laboratory is sound.
pub fn run_is_sound()
    ensures { (start : Gas) (cap : ℕ) (events : List Entry) →
        IsEvenTorus start.particles →
        All (λ e. fits (extent start.particles) e.command ≡ true) events →
        IsSound (run (opening start cap) events) }
{}

/// Start and capacity never change, and the journal is only extended.
pub fn run_extends_the_journal()
    ensures start { (events : List Entry) (lab : Laboratory) → (run lab events).start ≡ lab.start }
    ensures cap { (events : List Entry) (lab : Laboratory) → (run lab events).cap ≡ lab.cap }
    ensures journal { (events : List Entry) (lab : Laboratory) →
        IsPrefix lab.journal (run lab events).journal }
{}

/// A sound laboratory's accounts are far within 64 bits, and so are those after one command more.
pub fn accounts_fit()
    ensures now { (lab : Laboratory) →
        is_size (extent lab.start.particles) ≡ true → lab.cap ≤ most_entries → IsSound lab →
        IsLedgerOfAtMost (2 ^ 52) lab.ledger }
    ensures next { (lab : Laboratory) (command : Command) →
        is_size (extent lab.start.particles) ≡ true → lab.cap ≤ most_entries → IsSound lab →
        length lab.journal < lab.cap → changes command ≤ most_steps →
        IsLedgerOfAtMost (2 ^ 52) (book (booked lab) command).ledger }
    // These leave out the start's sums, which never change.
    ensures start { (lab : Laboratory) →
        is_size (extent lab.start.particles) ≡ true → IsSound lab →
        IsOfAtMost (2 ^ 24) lab.ledger.start }
{}

/// Small laboratories, worked by hand: the causes against a command, and their order.
pub fn small_laboratories()
    ensures ports_bar_the_way_back { cause (lab_after (pos 0) 9 (a_source ∷ [])) (Back 1)
        ≡ Some Ports }
    ensures drains_bar_it_too { cause (lab_after (pos 0) 9 (a_drain ∷ [])) (Back 1) ≡ Some Ports }
    ensures way_back_is_open { cause (lab_after (pos 0) 9 (a_source ∷ Unport ∷ [])) (Back 1)
        ≡ None }
    ensures ports_before_journal { cause (lab_after (pos 0) 1 (a_source ∷ [])) (Back 1)
        ≡ Some Ports }
    ensures journal { cause (lab_after (pos 0) 1 (a_source ∷ [])) Unport ≡ Some Journal }
    ensures readings_need_no_room { cause (lab_after (pos 0) 1 (Unport ∷ [])) Tally ≡ None }
    ensures greatest_tick { cause (lab_after last_tick 9 []) (Step 1) ≡ Some Tick }
    ensures no_tick_before_the_first { cause (lab_after first_tick 9 []) (Back 1) ≡ Some Tick }
    ensures ports_before_tick { cause (lab_after first_tick 9 (a_drain ∷ [])) (Back 1)
        ≡ Some Ports }
    ensures tick_before_journal { cause (lab_after last_tick 0 []) (Step 1) ≡ Some Tick }
    ensures last_tick { cause (lab_after last_tick 9 []) (Back 4096) ≡ None }
    ensures sixteen_sources { cause (lab_after (pos 0) 99 (replicate 15 a_source)) a_source ≡ None }
    ensures seventeen_sources { cause (lab_after (pos 0) 99 (replicate 16 a_source)) a_source
        ≡ Some Full }
    ensures sources_are_no_drains { cause (lab_after (pos 0) 99 (replicate 16 a_source)) a_drain
        ≡ None }
    ensures full_before_journal { cause (lab_after (pos 0) 16 (replicate 16 a_drain)) a_drain
        ≡ Some Full }
    ensures no_such_entry { cause (lab_after (pos 0) 9 (Unport ∷ [])) (EntryAt 1) ≡ Some NoEntry }
    ensures entry { reply (lab_after (pos 0) 9 (Unport ∷ [])) (EntryAt 0)
        ≡ Ok (EntryIs (record { seat = 0; command = Unport })) }
    ensures taken { reply (lab_after (pos 0) 9 (Unport ∷ [])) Unport ≡ Ok (Taken 1) }
    ensures tally { reply two_in_a_lab Tally ≡ Ok (Tallied (pos 1) (sums (pos 2) (pos 2) (pos 2))) }
    ensures probe { reply two_in_a_lab (Probe (cell 1 1))
        ≡ Ok (Probed (sums (pos 1) (pos 1) (pos 1))) }
    ensures refused_leaves { lab_after (pos 0) 1 (Unport ∷ Put (cell 0 0) ∷ [])
        ≡ lab_after (pos 0) 1 (Unport ∷ []) }
{}
