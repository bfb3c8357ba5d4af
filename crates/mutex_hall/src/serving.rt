//! Serves a `Hall`, with the sessions and threads of `gas_hall`.

ghost use Rattle.std.specs.Prelude.{◌≡◌, ◌+◌, ◌≤◌, ⊤, [], vec_len};
ghost use Rattle.std.specs.List.{sum_by};
ghost use Rattle.gas_terms.specs.Laboratory.{IsPrefix};
ghost use Rattle.gas_seats.specs.Seats.{most_hall_seats};
ghost use Rattle.gas_hall.specs.Busy.{busy};
ghost use Rattle.mutex_hall.specs.Seats.{Seat, numbers};

use crate::gate::HallGate;
use crate::hall::Hall;
use crate::name::HallName;
use crate::seat::HallSeat;
use gas_hall::{Lobby, Seating, Served, serve_seats};
use gas_lab::Stepper;
use gas_snapshot::Shelf;
use gas_talk::session::serve_door;
use std::alloc::Global;
use std::io::{Read, Write};
use std::sync::Wait;
use std::thread::Threads;

impl<N: HallName, S: Stepper, G: HallGate, R: Wait> Seating<HallSeat<N>, R> for Hall<N, S, G> {
    ghost kept = { λ seat. record seat { entries = 0 } };

    ghost has = { λ _ _. ⊤ };

    ghost made = { λ seat. seat.entries };

    ghost seen = { λ _. [] };

    fn number_of(seat: &HallSeat<N>) -> u16 {
        seat.number()
    }

    fn entries_of(seat: &HallSeat<N>) -> u32 {
        seat.entries()
    }

    fn serve_guest<In: Read, Out: Write, K: Shelf>(
        &self,
        rt: &R,
        alloc: Global,
        seat: HallSeat<N>,
        reader: &mut In,
        writer: &mut Out,
        shelf: &mut K,
    ) -> HallSeat<N>
        ensures kept { record result { entries = 0 } ≡ record seat { entries = 0 } }
        ensures seen { IsPrefix [] [] }
    {
        let mut door = self.door(rt, seat);
        serve_door(alloc, reader, writer, &mut door, shelf);
        door.end()
    }
}

/// Serves each seat once, as `serve_turn` does.
pub fn serve<
    N: HallName + Send + Sync,
    S: Stepper + Send,
    G: HallGate + Sync,
    L: Lobby,
    K: Shelf + Drop + Send,
    R: Threads + Wait + Sync,
>(
    rt: &R,
    alloc: Global,
    lobby: &mut L,
    hall: &Hall<N, S, G>,
    seats: Vec<HallSeat<N>>,
    shelves: Vec<K>,
) -> Served<HallSeat<N>>
    requires few { vec_len seats ≤ most_hall_seats }
    requires shelves { vec_len shelves ≡ vec_len seats }
    ensures count { result.done + result.failed ≡ vec_len seats }
    ensures busy { busy (λ seat. seat.entries) seats.items result.seats.items ≤ result.done }
    ensures all { vec_len result.seats ≡ vec_len seats }
    ensures seats { numbers result.seats.items ≡ numbers seats.items }
    ensures entries { result.entries ≡ sum_by (λ seat. seat.entries) result.seats.items }
{
    serve_seats(rt, alloc, lobby, hall, seats, shelves)
}
