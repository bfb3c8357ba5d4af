//! The replies to lines.

ghost use Rattle.std.specs.Prelude.{◌≡◌};
ghost use Rattle.gas_text.specs.Texts.{is_bye};

use gas_terms::{Answer, Refusal};

/// The reply to a line. `Saved` has the length of the journal when the gas was cloned, and the length of the snapshot in
/// bytes.
#[derive(Drop)]
pub enum Reply {
    Answered(Answer),
    Saved(u32, u64),
    Bye,
    Refused(Refusal),
}

impl Reply {
    /// Whether it ends the session.
    pub fn is_bye(&self) -> bool
        ensures { result ≡ is_bye self.now }
    {
        match self {
            Reply::Bye => true,
            _ => false,
        }
    }
}
