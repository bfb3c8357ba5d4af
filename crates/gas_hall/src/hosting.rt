//! Serves a laboratory: opens a hall over it and serves the hall.

ghost use Rattle.std.specs.Prelude.{◌≡◌, ℕ, ◌+◌, ◌<◌, ◌≤◌, [], All, IfSome, Some, slice_get, vec_len, vec_capacity};
ghost use Rattle.gas_terms.specs.Gas.{Gas};
ghost use Rattle.gas_seats.specs.Seats.{most_hall_seats};
ghost use Rattle.gas_seats.specs.TurnSeats.{TurnSeatView, made_in_all};
ghost use Rattle.gas_hall.specs.Busy.{busy_seats};
ghost use Rattle.gas_hall.specs.Served.{AreSame, AreSeats, HasMet};

use crate::serving::{Lobby, TurnServed, serve_turn};
use gas_lab::{Door, Lab, Stepper};
use gas_seats::{TurnDoor, TurnHall, TurnSeat};
use gas_snapshot::Shelf;
use gas_terms::Command;
use std::alloc::Global;
use std::sync::Wait;
use std::thread::Threads;

// Has the door take in a note of each seat.
fn meet_each<S: Stepper, R>(
    rt: &R,
    hall: &TurnHall<S>,
    door: &mut TurnDoor<'_, S, R>,
    seats: &mut Vec<TurnSeat<S>>,
)
    requires here { All (λ seat. seat.hall ≡ hall.now) seats.old.items }
    requires door { door.old.seat.hall ≡ hall.now }
    ensures seats { seats.new.items ≡ seats.old.items }
    ensures capacity { vec_capacity seats.new ≡ vec_capacity seats.old }
    ensures door { HasMet seats.old.items door.old.seat door.new.seat }
{
    let Some(seat) = seats.pop() else {
        return;
    };
    let mut other = hall.door(rt, seat);
    door.meet(other.note());
    let seat = other.end();
    meet_each(rt, hall, door, seats);
    seats.push_reserved(seat);
}

// Shows that the journal has room for all that the seats made, once they are back. The last of them takes in a note of each
// other one, so that the journal that it then finds at its turn begins with what each has seen.
fn meet_all<S: Stepper, R: Wait>(rt: &R, hall: &TurnHall<S>, seats: &mut Vec<TurnSeat<S>>)
    requires some { 0 < vec_len seats.old }
    requires here { All (λ seat. seat.hall ≡ hall.now) seats.old.items }
    requires numbers { (i : ℕ) (seat : TurnSeatView)
        → slice_get seats.old.items i ≡ Some seat → seat.number ≡ i }
    ensures same { AreSame seats.old.items seats.new.items }
    ensures room { (opened : Gas × ℕ)
        → All (λ seat. seat.opened ≡ Some opened) seats.old.items
        → made_in_all seats.new.items ≤ opened.1 }
{
    let Some(last) = seats.pop() else {
        unreachable!()
    };
    let mut door = hall.door(rt, last);
    meet_each(rt, hall, &mut door, seats);
    // This call finds a journal that has room for all that they made; `ledger` takes constant time.
    let _ = door.ask(Command::Ledger);
    seats.push_reserved(door.end());
}

/// Serves a laboratory: opens a hall whose seats take turns, a seat for each shelf, and serves each seat once, as `serve_turn`
/// does. The seats have the numbers 0, 1, .. and come back with what they have seen of the journal, which had room for all
/// that they made. `None` if memory runs out for the hall; then nothing was accepted.
pub fn serve_lab<S: Stepper + Send, L: Lobby, K: Shelf + Drop + Send, R: Threads + Wait + Sync>(
    rt: &R,
    alloc: Global,
    lab: Lab<S>,
    lobby: &mut L,
    shelves: Vec<K>,
) -> Option<TurnServed<S>>
    requires shelves { (0 < vec_len shelves) × (vec_len shelves ≤ most_hall_seats) }
    requires lab { lab.journal ≡ [] }
    ensures count { IfSome result (λ served. served.done + served.failed ≡ vec_len shelves) }
    ensures busy { IfSome result (λ served. busy_seats served.seats.items ≤ served.done) }
    ensures seats { IfSome result (λ served.
        AreSeats lab.start lab.cap (vec_len shelves) served.seats.items) }
    ensures entries { IfSome result (λ served. (served.entries ≤ lab.cap)
        × (served.entries ≡ made_in_all served.seats.items)) }
{
    let count = shelves.len() as u16;
    let Ok((hall, seats)) = TurnHall::open(alloc, lab, count) else {
        return None;
    };
    let mut served = serve_turn(rt, alloc, lobby, &hall, seats, shelves);
    meet_all(rt, &hall, &mut served.seats);
    Some(served)
}
