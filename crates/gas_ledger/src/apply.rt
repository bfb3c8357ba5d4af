//! The port action on a plane.

ghost use Rattle.std.specs.Prelude.{◌≡◌};
ghost use Rattle.gas_ledger.specs.PortLists.{ported_by};
ghost use Rattle.gas_terms.specs.Accounts.{moved_by};

use crate::ports::Ports;
use gas_plane::Plane;
use gas_terms::{Moved, Tick};
use phase_step::act_on;

/// The port action: drains empty their cells, then the sources that are due fill theirs. Returns what came in and went out;
/// a particle that is drained and filled again counts as neither.
pub fn apply_ports(plane: &mut Plane, ports: &Ports, tick: Tick) -> Moved
    ensures cells { plane.new ≡ ported_by ports.now tick plane.old }
    ensures moved { result ≡ moved_by tick plane.old plane.new }
{
    act_on(plane, &ports.exchange_at(tick.get()), tick.parity())
}
