//! The workers of a single phase: how they are made, work together, and hand in what they turned.

ghost use Rattle.std.specs.Prelude.{◌≡◌, ◌+◌, ◌*◌, ◌<◌, ◌≤◌, [], All, IfSome, map, length, vec_len};
ghost use Rattle.std.specs.Vec.{vec_capacity};
ghost use Rattle.gas_terms.specs.Cells.{tile_count};
ghost use Rattle.claim_desk.specs.Desk.{fresh};
ghost use Rattle.phase_strips.specs.Limits.{most_workers};
ghost use Rattle.phase_team.specs.Teamwork.{IsFresh, HasWorked, HasTurned, IsRight, IsRoom, AreTurned, StayTurned};
ghost use Rattle.phase_team.specs.Teamwork.{HasDrawnAll, HaveDrawn, drawn};

use crate::phase::gate::Gate;
use crate::phase::shift::{Shift, Task};
use crate::phase::worker::{TileWorker, Turned, work_on};
use claim_desk::{Desk, DeskSeat};
use gas_plane::Plane;
use gas_terms::Took;
use std::alloc::Global;
use std::thread;
use std::thread::Threads;

// Puts the tiles that a worker turned into the plane.
fn write_out(task: Task<'_>, turned: &[Turned], out: &mut Plane)
    requires out { IsRoom task out.old }
    requires right { All (IsRight task (tile_count task.old.now)) turned.now }
    ensures out { IsRoom task.entry out.new }
    ensures kept { StayTurned task.entry out.old out.new }
    ensures new { AreTurned task.entry (map (λ t. t.place) turned.now) out.new }
{
    for Turned { place, tile } in turned {
        *out.tile_mut(*place) = *tile;
    }
}

// A worker for each seat, with room of earlier phases if there is any. `None` if memory runs out.
fn seat_workers(
    alloc: Global,
    desk: &Desk,
    seats: &mut Vec<DeskSeat>,
    rooms: &mut Vec<Vec<Turned>>,
) -> Option<Vec<TileWorker>>
    requires { All (λ s. s ≡ fresh desk.now.id) seats.old.items }
    ensures count { IfSome result (λ team. vec_len team ≡ vec_len seats.old) }
    ensures ready { IfSome result (λ team. All (IsFresh desk.now.id) team.items) }
    ensures seats { IfSome result (λ _. seats.new.items ≡ []) }
    ensures room { IfSome result (λ _. vec_capacity seats.new ≡ vec_capacity seats.old) }
{
    let mut team = Vec::with_capacity(alloc, seats.len()).ok()?;
    while let Some(seat) = seats.pop() {
        let mut turned = match rooms.pop() {
            Some(room) => room,
            None => Vec::new(alloc),
        };
        turned.clear();
        let took = Took::ZERO;
        team.push_reserved(TileWorker { seat, turned, took });
    }
    Some(team)
}

/// A desk for the tiles of a phase, the calling thread's seat, the other workers, and an empty list with room for all seats.
#[derive(Drop)]
pub struct Crew {
    pub desk: Desk,
    pub own: DeskSeat,
    pub team: Vec<TileWorker>,
    pub seats: Vec<DeskSeat>,
}

/// `None` if memory runs out.
pub fn crew_of(
    alloc: Global,
    tiles: u32,
    workers: u32,
    rooms: &mut Vec<Vec<Turned>>,
) -> Option<Crew>
    requires { (0 < workers) × (workers ≤ most_workers) }
    ensures tiles { IfSome result (λ crew. crew.desk.id.limit ≡ tiles) }
    ensures desk { IfSome result (λ crew. crew.desk.seats ≡ workers) }
    ensures own { IfSome result (λ crew. crew.own ≡ fresh crew.desk.id) }
    ensures count { IfSome result (λ crew. vec_len crew.team + 1 ≡ workers) }
    ensures ready { IfSome result (λ crew. All (IsFresh crew.desk.id) crew.team.items) }
    ensures seats { IfSome result (λ crew. crew.seats.items ≡ []) }
    ensures room { IfSome result (λ crew. workers ≤ vec_capacity crew.seats) }
{
    let Ok((desk, mut seats)) = Desk::open(alloc, tiles, workers) else {
        return None;
    };
    let Some(own) = seats.pop() else {
        return None;
    };
    let Some(team) = seat_workers(alloc, &desk, &mut seats, rooms) else {
        return None;
    };
    Some(Crew {
        desk,
        own,
        team,
        seats,
    })
}

// Draws tiles and turns them in the plane, until no tile is left.
fn draw_here<G: Gate>(shift: Shift<'_>, gate: &G, seat: &mut DeskSeat, out: &mut Plane) -> Took
    requires out { IsRoom shift.task out.old }
    requires seat { seat.old ≡ fresh shift.desk.now.id }
    ensures seat { HasDrawnAll shift.entry.desk.now.id seat.new }
    ensures turned { HasTurned shift.entry.task seat.new.numbers result out.new }
{
    let mut took = Took::ZERO;
    while let Some(place) = seat.draw(shift.desk) {
        gate.at_tile(0, place);
        let here = shift.task.turn(place, out.tile_mut(place));
        took = took.plus(here);
    }
    took
}

/// All workers turn tiles: each other one in a thread of its own, if it can be started, and the calling thread in the plane.
pub fn work_together<R: Threads, G: Gate>(
    rt: &R,
    shift: Shift<'_>,
    gate: &G,
    team: &mut [TileWorker],
    seat: &mut DeskSeat,
    out: &mut Plane,
) -> Took
    requires few { length team.old < most_workers }
    requires ready { All (IsFresh shift.desk.now.id) team.old }
    requires out { IsRoom shift.task out.old }
    requires seat { seat.old ≡ fresh shift.desk.now.id }
    ensures worked { All (HasWorked shift.entry.task shift.entry.desk.now.id) team.new }
    ensures seat { HasDrawnAll shift.entry.desk.now.id seat.new }
    ensures turned { HasTurned shift.entry.task seat.new.numbers result out.new }
{
    let Some((last, rest)) = team.split_last_mut() else {
        return draw_here(shift, gate, seat, out);
    };
    let number = rest.len() as u8 + 1;
    let (_, took) = thread::join_mut(
        rt,
        &mut ||
            requires { IsFresh shift.desk.now.id last.now }
            ensures { HasWorked shift.entry.task shift.entry.desk.now.id last.exit.now }
        { work_on(last, number, shift, gate) },
        &mut || -> Took
            requires { (length rest.now < most_workers) × All (IsFresh shift.desk.now.id) rest.now
                × IsRoom shift.task out.now × (seat.now ≡ fresh shift.desk.now.id) }
            ensures { All (HasWorked shift.entry.task shift.entry.desk.now.id) rest.exit.now
                × HasDrawnAll shift.entry.desk.now.id seat.exit.now
                × HasTurned shift.entry.task seat.exit.now.numbers result out.exit.now }
        { work_together(rt, shift, gate, rest, seat, out) },
    );
    took
}

// Keeps room for later phases, if there is memory to list it.
fn keep(rooms: &mut Vec<Vec<Turned>>, room: Vec<Turned>) {
    rooms.push(room).ok();
}

/// Writes the tiles that the workers turned, takes their seats and keeps their room. Returns what was taken in all.
pub fn hand_in(
    shift: Shift<'_>,
    mut team: Vec<TileWorker>,
    seats: &mut Vec<DeskSeat>,
    rooms: &mut Vec<Vec<Turned>>,
    mut took: Took,
    out: &mut Plane,
) -> Took
    requires worked { All (HasWorked shift.task shift.desk.now.id) team.items }
    requires count { vec_len seats.old + vec_len team ≤ most_workers }
    requires room { vec_len seats.old + vec_len team ≤ vec_capacity seats.old }
    requires seats { HaveDrawn shift.desk.now.id seats.old.items }
    requires few { length (drawn seats.old.items)
        ≤ vec_len seats.old * tile_count shift.task.old.now }
    requires turned { HasTurned shift.task (drawn seats.old.items) took out.old }
    ensures count { vec_len seats.new ≡ vec_len seats.old + vec_len team }
    ensures seats { HaveDrawn shift.entry.desk.now.id seats.new.items }
    ensures turned { HasTurned shift.entry.task (drawn seats.new.items) result out.new }
{
    while let Some(worker) = team.pop() {
        let TileWorker {
            seat,
            turned,
            took: here,
        } = worker;
        write_out(shift.task, turned.as_slice(), out);
        took = took.plus(here);
        seats.push_reserved(seat);
        keep(rooms, turned);
    }
    took
}
