//! A law of reading. A law is a function with an empty body; its contract is the law.

ghost use Rattle.std.specs.Prelude.{◌≡◌, true, ℕ, Ok};
ghost use Rattle.gas_terms.specs.Cells.{Extent, is_size};
ghost use Rattle.gas_terms.specs.Commands.{fits};
ghost use Rattle.gas_terms.specs.declared.command.Command.{Command};
ghost use Rattle.gas_text.specs.declared.request.Request.TheVariants.{Ask};
ghost use Rattle.gas_text.specs.Requests.{request_of, command_text, IsTyped};

/// The text of a command in an entry is read as that command.
pub fn commands_are_read_again()
    ensures { (size : Extent) (command : Command)
        → is_size size ≡ true → fits size command ≡ true → IsTyped command
        → request_of size (command_text command) ≡ Ok (Ask command) }
{}
