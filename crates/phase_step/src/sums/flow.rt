//! What a run comes to.

ghost use Rattle.std.specs.Prelude.{◌≡◌};
ghost use Rattle.phase_step.specs.Actions.{flow_plus, FlowsFit};

use gas_terms::{Moved, Took};

/// What walls and obstacles took in a run, and what the actions after its phases brought in and took out.
#[derive(Clone, Copy, Debug, PartialEq, Eq)]
pub struct Flow {
    pub took: Took,
    pub moved: Moved,
}

impl Flow {
    /// Nothing at all.
    pub const ZERO: Flow = Flow {
        took: Took::ZERO,
        moved: Moved::ZERO,
    };

    /// Both runs.
    pub fn plus(self, more: Flow) -> Flow
        requires { FlowsFit self more }
        ensures { result ≡ flow_plus self more }
    {
        Flow {
            took: self.took.plus(more.took),
            moved: self.moved.plus(more.moved),
        }
    }
}
