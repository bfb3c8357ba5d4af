//! The desk and its seats.

ghost use Rattle.std.specs.Prelude.{◌≡◌, ℕ, ◌+◌, ◌<◌, ◌≤◌, Bool, true, false, List, [], ◌∷◌, ◌++◌, All, IfOk, IfSome, IfNone, replicate, vec_len, length, count_by, if◌then◌else◌};
ghost use Rattle.std.specs.List.{sum_by};
ghost use Rattle.claim_desk.specs.Draws.{times, once_below, most_seats};

use crate::draws::Draws;
use crate::rule::{DeskRule, Draw, JoinSeats, SplitSeat};
use atomic_table::{Seat, Table};
pub use std::alloc::AllocError as NoMemory;
use std::alloc::Global;
use std::marker::Model;

/// Hands out the numbers below its limit to the seats that were made with it. Contracts see which desk it is, its limit, and
/// its number of seats. `specs/Draws` lists the atomic steps (open, split, draw, join); after each of them counter and seats
/// are in a state `IsState`.
#[derive(Drop)]
pub struct Desk {
    table: Table<(), Draws, (u32, u32), DeskRule, Global>,
    limit: u32,
    seats: u32,
}

impl Model for Desk {
    ghost use Rattle.std.specs.Prelude.{◌≡◌, ◌<◌};
    ghost use Rattle.claim_desk.specs.Desk.{DeskView};

    ghost Value = { DeskView };

    ghost view = { λ d. record {
      id = record { table = d.table.shared.table_id; limit = d.limit };
      seats = d.seats;
    } };

    ghost invariant = { λ d. (d.table.shared.key ≡ (d.limit, d.seats))
        × (d.table.shared.table_id.words ≡ 1) × (d.table.shared.table_id.slots ≡ 0)
        × (0 < d.seats) };
}

/// A seat of a desk, with which one thread draws. Contracts see its desk, the numbers that it drew, in order, and whether it
/// has found none left.
#[derive(Drop)]
pub struct DeskSeat {
    ended: bool,
    seat: Seat<(), Draws>,
}

impl Model for DeskSeat {
    ghost use Rattle.std.specs.Prelude.{◌≡◌, [], if◌then◌else◌};
    ghost use Rattle.claim_desk.specs.Desk.{SeatView};

    ghost Value = { SeatView };

    ghost view = { λ s. record {
      desk = record { table = s.seat.table_id; limit = s.seat.me.0.limit };
      numbers = s.seat.me.0.numbers;
      ended = s.ended;
    } };

    ghost invariant = { λ s. (s.seat.me.1 ≡ []) × (s.seat.me.0.seats ≡ 1)
        × (s.seat.me.0.ended ≡ (if s.ended then 1 else 0)) };
}

ghost use Rattle.claim_desk.specs.Desk.{fresh};

impl Desk {
    /// A desk for the numbers below `n`, with 1 to 16 seats that have drawn nothing. Fails if memory runs out. No other call
    /// of a desk allocates.
    pub fn open(alloc: Global, n: u32, seats: u32) -> Result<(Desk, Vec<DeskSeat>), NoMemory>
        requires { (0 < seats) × (seats ≤ most_seats) }
        ensures desk { IfOk result (λ r. (r.0.id.limit ≡ n) × (r.0.seats ≡ seats)) }
        ensures seats { IfOk result (λ r. r.1.items ≡ replicate seats (fresh r.0.id)) }
    {
        let mut list = Vec::with_capacity(alloc, seats as usize)?;
        let (table, mut last) = Table::of_words(alloc, &[0], &(n, seats))?;
        for made in 1..seats {
            let seat = table.shared.split_seat::<SplitSeat>(&mut last);
            list.push(DeskSeat::of(seat))?;
        }
        list.push(DeskSeat::of(last))?;
        let desk = Desk {
            table,
            limit: n,
            seats,
        };
        Ok((desk, list))
    }

    /// Takes all seats back and returns `n`. One of them must have found no number left. Together they drew each number
    /// below `n` exactly once.
    pub fn close(self, mut seats: Vec<DeskSeat>) -> u32
        requires all { vec_len seats ≡ self.seats }
        requires same { All (λ s. s.desk ≡ self.id) seats.items }
        requires ended { 0 < count_by (λ s. s.ended) seats.items }
        ensures limit { result ≡ self.id.limit }
        ensures once { (x : ℕ) → sum_by (λ s. times x s.numbers) seats.items ≡ once_below result x }
    {
        let Desk { table, limit, .. } = self;
        let Some(first) = seats.pop() else {
            unreachable!()
        };
        let mut whole = first.into_seat();
        while let Some(next) = seats.pop() {
            let seat = next.into_seat();
            table.shared.join_seat::<JoinSeats>(&mut whole, seat);
        }
        table.close_with(whole).free();
        limit
    }
}

impl DeskSeat {
    fn of(seat: Seat<(), Draws>) -> DeskSeat
        requires own { (seat.me.1 ≡ []) × (seat.me.0.seats ≡ 1) }
        requires none { (seat.me.0.ended ≡ 0) × (seat.me.0.numbers ≡ []) }
        ensures { result ≡ fresh (record { table = seat.table_id; limit = seat.me.0.limit }) }
    {
        DeskSeat { ended: false, seat }
    }

    fn into_seat(self) -> Seat<(), Draws>
        ensures seat { (result.table_id ≡ self.desk.table) × (result.me.1 ≡ []) }
        ensures draws { (result.me.0.seats ≡ 1)
            × (result.me.0.ended ≡ (if self.ended then 1 else 0))
            × (result.me.0.numbers ≡ self.numbers) }
    {
        self.seat
    }

    /// Draws the next number, which no other seat draws, or returns `None` if all are drawn. After a `None` a seat returns
    /// `None` again without touching the counter. The desk must be the seat's own. Never waits.
    pub fn draw(&mut self, desk: &Desk) -> Option<u32>
        requires { self.old.desk ≡ desk.now.id }
        ensures desk { self.new.desk ≡ self.old.desk }
        ensures some { IfSome result (λ k. (k < desk.now.id.limit)
            × (self.new.numbers ≡ self.old.numbers ++ k ∷ []) × (self.new.ended ≡ false)) }
        ensures none { IfNone result
            ((self.new.numbers ≡ self.old.numbers) × (self.new.ended ≡ true)) }
        ensures later { IfSome result (λ k. length self.old.numbers ≤ k) }
        ensures again { self.old.ended ≡ true → result ≡ None }
    {
        if self.ended {
            return None;
        }
        let found = desk.table.shared.fetch_add::<Draw>(&mut self.seat, 0, 1);
        if found < u64::from(desk.limit) {
            Some(found as u32)
        } else {
            self.ended = true;
            None
        }
    }
}
