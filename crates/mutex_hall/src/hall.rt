//! A laboratory under a mutex, with its seats and doors.

ghost use Rattle.std.specs.Prelude.{◌≡◌, ◌<◌, ◌≤◌, [], true, IfOk, IfErr, length, vec_len};
ghost use Rattle.std.specs.List.{sum_by};
ghost use Rattle.gas_terms.specs.Cells.{extent};
ghost use Rattle.gas_seats.specs.Seats.{AreNumbered};
ghost use Rattle.mutex_hall.specs.Seats.{Seat, counted, fresh_seat};
ghost use Rattle.mutex_hall.specs.Halls.{IsNamed, AppliesToSome, CopiesSome};

use crate::gate::HallGate;
use crate::held::Held;
use crate::name::HallName;
use crate::seat::HallSeat;
use gas_lab::{Copied, Door, Lab, Stepper};
use gas_terms::{Answer, Command, NoMemory, Refusal, Size};
use std::alloc::Global;
use std::sync::ledger::{Blank, Share};
use std::sync::{Mutex, Wait};

/// A laboratory under a lock.
///
/// Whenever the lock is free, the laboratory has what its type keeps and the size and capacity of the hall's name, and
/// its journal is as long as the sum of what the seats made.
#[derive(Drop)]
pub struct Hall<N: HallName, S: Stepper, G: HallGate> {
    held: Mutex<Held<N, S>>,
    gate: G,
    size: Size,
    ghost named: { size ≡ N.size },
}

impl<N: HallName, S: Stepper, G: HallGate> Hall<N, S, G> {
    /// A hall with seats 0, 1, .. over a laboratory whose journal is empty. If memory runs out, the laboratory comes back as it
    /// was. `blank` has a part for each seat.
    pub fn open(
        alloc: Global,
        blank: Blank,
        lab: Lab<S>,
        seats: u16,
        gate: G,
    ) -> Result<(Hall<N, S, G>, Vec<HallSeat<N>>), Lab<S>>
        requires name { blank.name ≡ N.name }
        requires parts { (blank.parts ≡ N.parts) × (blank.parts ≡ seats) }
        requires some { 0 < seats }
        requires size { extent lab.start.particles ≡ N.size }
        requires cap { lab.cap ≡ N.cap }
        requires journal { lab.journal ≡ [] }
        ensures count { IfOk result (λ r. vec_len r.1 ≡ seats) }
        ensures seats { IfOk result (λ r. AreNumbered seats fresh_seat r.1.items) }
        ensures refused { IfErr result (λ back. back ≡ lab) }
    {
        let Ok(mut all) = Vec::with_capacity(alloc, seats as usize) else {
            return Err(lab);
        };
        let size = lab.size();
        let (book, mut rest) = blank.open::<N>();
        for number in 0..seats {
            all.push_reserved(HallSeat {
                number,
                entries: 0,
                calls: 0,
                share: rest.split_off(1, 0),
            });
        }
        let held = Mutex::new(Held { lab, book });
        Ok((Hall { held, gate, size }, all))
    }

    /// The seat's way to the laboratory.
    pub fn door<'h, R>(&'h self, rt: &'h R, seat: HallSeat<N>) -> HallDoor<'h, N, S, G, R>
        ensures { result.seat ≡ seat }
    {
        HallDoor {
            hall: self,
            rt,
            seat,
        }
    }

    /// The laboratory, once all seats are back: its journal has as many entries as they count.
    pub fn close(self, seats: Vec<HallSeat<N>>) -> Lab<S>
        requires all { vec_len seats ≡ N.parts }
        requires some { 0 < N.parts }
        ensures entries { length result.journal ≡ sum_by (λ seat. seat.entries) seats.items }
        ensures named { IsNamed N.size N.cap result }
    {
        let Held { lab, mut book } = self.held.into_inner();
        let mut all = merged(seats);
        book.audit(&mut all);
        lab
    }
}

// One share, with all that the shares of these seats have.
fn merged<N: HallName>(seats: Vec<HallSeat<N>>) -> Share<N>
    requires { 0 < vec_len seats }
    ensures parts { result.parts ≡ vec_len seats }
    ensures amount { result.amount ≡ sum_by (λ seat. seat.entries) seats.items }
{
    let mut seats = seats;
    let Some(first) = seats.pop() else {
        unreachable!()
    };
    let mut all = first.into_share();
    while let Some(seat) = seats.pop() {
        all.merge(seat.into_share());
    }
    all
}

/// A seat's way to the laboratory. Each call holds the lock once, and waits for it.
#[derive(Drop)]
pub struct HallDoor<'h, N: HallName, S: Stepper, G: HallGate, R> {
    hall: &'h Hall<N, S, G>,
    rt: &'h R,
    seat: HallSeat<N>,
}

impl<'h, N: HallName, S: Stepper, G: HallGate, R> HallDoor<'h, N, S, G, R> {
    /// The seat again, with what it counts.
    pub fn end(self) -> HallSeat<N>
        ensures { result ≡ self.entry.seat }
    {
        self.seat
    }
}

impl<'h, N: HallName, S: Stepper, G: HallGate, R: Wait> Door for HallDoor<'h, N, S, G, R> {
    ghost size_of = { λ d. N.size };

    ghost asks = { λ d command reply e. AppliesToSome N.size N.cap d.seat command reply
        × (e.seat ≡ counted d.seat reply) };

    ghost copies = { λ d copied e. CopiesSome N.size N.cap d.seat copied × (e.seat ≡ d.seat) };

    fn size(&self) -> Size {
        self.hall.size
    }

    fn ask(&mut self, command: Command) -> Result<Answer, Refusal> {
        let number = self.seat.number();
        let call = self.seat.next_call();
        self.hall.gate.before(number, call);
        let reply = self.hall.held.lock(self.rt).ask(&mut self.seat, command);
        self.hall.gate.after(number, call);
        reply
    }

    fn copy_gas(&mut self) -> Result<Copied, NoMemory> {
        let number = self.seat.number();
        let call = self.seat.next_call();
        self.hall.gate.before(number, call);
        let copied = self.hall.held.lock(self.rt).copy_gas(&mut self.seat);
        self.hall.gate.after(number, call);
        copied
    }
}
