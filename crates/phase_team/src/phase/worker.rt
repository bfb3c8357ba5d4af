//! A worker of a single phase: draws tiles and turns them.

ghost use Rattle.phase_team.specs.Teamwork.{IsFresh, HasWorked};

use crate::phase::gate::Gate;
use crate::phase::shift::Shift;
use claim_desk::DeskSeat;
use gas_plane::Tile;
use gas_terms::Took;

/// A tile as it is after the phase, and its number.
#[derive(Clone, Copy)]
pub struct Turned {
    pub place: u32,
    pub tile: Tile,
}

/// A seat of the desk, the tiles that it drew and turned, and what was taken of their particles.
#[derive(Drop)]
pub struct TileWorker {
    pub seat: DeskSeat,
    pub turned: Vec<Turned>,
    pub took: Took,
}

// Draws tiles and turns them, until no tile is left or one can't be kept.
pub fn work_on<G: Gate>(worker: &mut TileWorker, number: u8, shift: Shift<'_>, gate: &G)
    requires ready { IsFresh shift.desk.now.id worker.old }
    ensures { HasWorked shift.entry.task shift.entry.desk.now.id worker.new }
{
    let TileWorker { seat, turned, took } = worker;
    while turned.reserve(1).is_ok() {
        let Some(place) = seat.draw(shift.desk) else {
            break;
        };
        gate.at_tile(number, place);
        let mut tile = Tile::empty();
        let here = shift.task.turn(place, &mut tile);
        *took = took.plus(here);
        turned.push_reserved(Turned { place, tile });
    }
}
