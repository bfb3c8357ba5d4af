//! A law of receipts: what a seat was told of the journal stays so. A law is a function with an empty body; its contract is
//! the law.

ghost use Rattle.std.specs.Prelude.{◌≡◌, ℕ, List, Ok, Some, Result, slice_get};
ghost use Rattle.std.specs.declared.alloc.AllocError.{AllocError as NoMemory};
ghost use Rattle.gas_terms.specs.Laboratory.{IsPrefix};
ghost use Rattle.gas_terms.specs.declared.command.Command.{Command};
ghost use Rattle.gas_terms.specs.declared.command.Entry.{Entry};
ghost use Rattle.gas_terms.specs.declared.answer.Answer.{Answer};
ghost use Rattle.gas_terms.specs.declared.answer.Answer.TheVariants.{Taken};
ghost use Rattle.gas_terms.specs.declared.refusal.Refusal.{Refusal};
ghost use Rattle.gas_lab.specs.declared.door.Copied.{Copied};
ghost use Rattle.gas_seats.specs.TurnSeats.{TurnSeatView, AsksInTurn, CopiesInTurn};

/// What a seat has seen begins what it sees after each call; and an entry that was answered `Taken(k)` is entry k of all
/// that goes on from what its seat then has seen.
pub fn receipts_hold()
    ensures asks { (old new : TurnSeatView) (command : Command) (reply : Result Answer Refusal)
        → AsksInTurn old command reply new → IsPrefix old.seen new.seen }
    ensures copies { (old new : TurnSeatView) (copied : Result Copied NoMemory)
        → CopiesInTurn old copied new → IsPrefix old.seen new.seen }
    ensures entry { (old new : TurnSeatView) (command : Command) (k : ℕ) (later : List Entry)
        → AsksInTurn old command (Ok (Taken k)) new → IsPrefix new.seen later
        → slice_get later k ≡ Some (record { seat = old.number; command = command }) }
{}
