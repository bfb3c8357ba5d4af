//! Single phases: of a plane (`Serial`, on the calling thread), which is read while another is written, of a tile and of a block.
//!
//! All of it is there for callers of the library. The program makes runs alone, in place, by `phase_step`.
#![tactic(auto)]

ghost use Rattle.std.specs.Prelude.{◌≡◌, ◌<◌};
ghost use Rattle.gas_terms.specs.Cells.{joined, HasSidesOf};
ghost use Rattle.gas_terms.specs.Gas.{streamed};
ghost use Rattle.gas_terms.specs.Accounts.{taken};

mod borders;
pub mod laws;
mod odd_tile;
mod one_tile;
mod tiles;
mod walled_blocks;

pub use borders::border;
use gas_plane::Plane;
use gas_terms::Took;
pub use odd_tile::turn_tile_odd;
pub use one_tile::{turn_block, turn_tile};
use phase_step::Serial;
pub use tiles::turn_tile_at;
pub use walled_blocks::tile_blocks;

/// Makes single phases. A phase never fails: if memory runs out or a thread can't be started, it only takes longer. `Serial` never
/// allocates.
pub trait Phases {
    /// Makes the phase of parity 0 or 1: `out` becomes the particles after it. Returns what walls and obstacles took of the
    /// particles of `old`.
    fn phase(
        &mut self,
        old: &Plane,
        walls: &Plane,
        obstacles: &Plane,
        parity: u8,
        out: &mut Plane,
    ) -> Took
        requires parity { parity < 2 }
        requires walls { HasSidesOf walls.now old.now }
        requires obstacles { HasSidesOf obstacles.now old.now }
        requires out { HasSidesOf out.old old.now }
        ensures out { out.new ≡ streamed parity old.now (joined walls.now obstacles.now) }
        ensures took { result ≡ taken parity old.now walls.now obstacles.now };
}

impl Phases for Serial {
    // Turns one tile after another.
    fn phase(
        &mut self,
        old: &Plane,
        walls: &Plane,
        obstacles: &Plane,
        parity: u8,
        out: &mut Plane,
    ) -> Took {
        let across = old.across();
        let mut took = Took::ZERO;
        let mut at = old.position(0);
        for i in 0..out.size().tiles() {
            let here = turn_tile_at(old, walls, obstacles, parity, at, out.tile_mut(i));
            took = took.plus(here);
            at = at.next(across);
        }
        took
    }
}
