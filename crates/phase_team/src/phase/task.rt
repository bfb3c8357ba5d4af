//! One tile of a single phase.

ghost use Rattle.std.specs.Prelude.{◌≡◌, ◌<◌};
ghost use Rattle.gas_terms.specs.Cells.{tile_count};
ghost use Rattle.phase_team.specs.Teamwork.{IsTileAfterTask, take_of};

use crate::phase::shift::Task;
use gas_plane::Tile;
use gas_terms::Took;
use single_phase::turn_tile_at;

impl Task<'_> {
    /// Puts tile i into `out` as it is after the phase, and returns what walls and obstacles take of its particles.
    pub fn turn(self, i: u32, out: &mut Tile) -> Took
        requires { i < tile_count self.old.now }
        ensures cells { IsTileAfterTask self.entry i out.new }
        ensures took { result ≡ take_of self.entry i }
    {
        let at = self.old.position(i);
        turn_tile_at(self.old, self.walls, self.obstacles, self.parity, at, out)
    }
}
