//! Long runs: one of the two accounts is counted, and the other is the momentum that is missing in the end.

ghost use Rattle.std.specs.Prelude.{◌≡◌, ◌^◌, ◌≤◌, not, nat_abs, ◌+ℤ◌, ◌-ℤ◌};
ghost use Rattle.phase_step.specs.Balance.{flow_counted, left_of, missing, AreFew};

use crate::{Counted, Flow, Solids};
use gas_terms::{Moved, Pair, Sums, Took};

// One component of what is missing of the momentum in the end.
fn missing_in(before: i64, injected: i64, drained: i64, took: i64, after: i64) -> i64
    requires before { nat_abs before ≤ 2 ^ 48 }
    requires injected { nat_abs injected ≤ 2 ^ 48 }
    requires drained { nat_abs drained ≤ 2 ^ 48 }
    requires took { nat_abs took ≤ 2 ^ 48 }
    requires after { nat_abs after ≤ 2 ^ 48 }
    ensures { result ≡ before +ℤ injected -ℤ drained -ℤ took -ℤ after }
{
    before + injected - drained - took - after
}

// What is missing of the momentum in the end: of what there was and what came in, less what went out and what was counted.
fn missing(before: Sums, after: Sums, flow: Flow) -> Pair
    requires { AreFew before after flow }
    ensures { result ≡ missing before after flow }
{
    let Flow { took, moved } = flow;
    let Moved { injected, drained } = moved;
    let took = took.walls.plus(took.obstacles);
    Pair {
        x: missing_in(before.px, injected.px, drained.px, took.x, after.px),
        y: missing_in(before.py, injected.py, drained.py, took.y, after.py),
    }
}

/// The one account that a long run keeps. Which one it is changes nothing but the time: that of a set without cells is quicker.
pub fn account_to_count(solids: &Solids) -> Counted
    ensures { result.obstacles ≡ not result.walls }
{
    let walls = !solids.is_counted(Counted {
        walls: true,
        obstacles: false,
    });
    Counted {
        walls,
        obstacles: !walls,
    }
}

/// What a run comes to, by the sums of the particles before and after it and by what was counted in it, in one of the two
/// accounts.
pub fn with_missing_account(before: Sums, after: Sums, flow: Flow, counted: Counted) -> Flow
    requires few { AreFew before after flow }
    requires one { counted.obstacles ≡ not counted.walls }
    ensures { (all : Flow) → flow ≡ flow_counted counted all → after ≡ left_of before all →
        result ≡ all }
{
    let rest = missing(before, after, flow);
    let Flow { took, moved } = flow;
    let took = if counted.walls {
        Took {
            walls: took.walls,
            obstacles: rest,
        }
    } else {
        Took {
            walls: rest,
            obstacles: took.obstacles,
        }
    };
    Flow { took, moved }
}
