//! What a line asks for.

use gas_terms::Command;

/// What a line asks for: a command of the laboratory, a snapshot on the shelf, or the end of the session.
#[derive(Drop)]
pub enum Request {
    Ask(Command),
    Save,
    Quit,
}
