//! Serves a hall: accepts a session for each seat, starts a thread for it, and joins all threads.

ghost use Rattle.std.specs.Prelude.{◌≡◌, ℕ, ◌+◌, ◌≤◌, List, All, IfOk, IfErr, length, vec_len, vec_capacity};
ghost use Rattle.std.specs.List.{sum_by};
ghost use Rattle.gas_terms.specs.Laboratory.{most_entries, IsPrefix};
ghost use Rattle.gas_terms.specs.declared.command.Entry.{Entry};
ghost use Rattle.gas_seats.specs.Seats.{most_hall_seats};
ghost use Rattle.gas_seats.specs.TurnSeats.{but_for_seen, entries_made, made_in_all};
ghost use Rattle.gas_hall.specs.Served.{ComeBack, ComeBackTo};

use gas_lab::Stepper;
use gas_seats::{TurnHall, TurnSeat};
use gas_snapshot::Shelf;
use gas_talk::session::serve_door;
use std::alloc::Global;
use std::io::{Read, Write};
use std::marker::PhantomData;
use std::snapshot::Snapshot;
use std::sync::Wait;
use std::sync::atomic::{AtomicU32, Ordering};
use std::thread;
use std::thread::{Promise, PromisedHandle, Scope, Threads};
use thiserror::Error;

/// No session came.
#[derive(Clone, Copy, Debug, PartialEq, Eq, Error)]
#[error("no session came")]
pub struct AcceptFault;

/// Where sessions come from.
pub trait Lobby {
    type R: Read + Drop + Send;

    type W: Write + Drop + Send;

    /// Waits for the next session: what it says, and where the replies go.
    fn accept(&mut self) -> Result<(Self::R, Self::W), AcceptFault>;
}

/// One session: its seat, what it says, where its replies go, and where it saves.
pub(crate) struct Guest<T, In, Out, K> {
    pub(crate) seat: T,
    pub(crate) reader: In,
    pub(crate) writer: Out,
    pub(crate) shelf: K,
}

/// What all sessions share: the hall, and the number of the seat whose thread was refused, if one was.
#[derive(Drop)]
pub(crate) struct House<'s, R, H> {
    pub(crate) rt: &'s R,
    pub(crate) alloc: Global,
    pub(crate) hall: &'s H,
    pub(crate) refused: &'s AtomicU32,
}

/// A hall whose seats `T` take sessions.
pub trait Seating<T, R> {
    // The seat without what its sessions change.
    ghost kept: { T → T };

    // Whether a seat, without what its sessions change, is one of the hall's.
    ghost has: { Self → T → Type 0 };

    // How many entries the seat made.
    ghost made: { T → ℕ };

    // What the seat has seen of the journal, if it knows that.
    ghost seen: { T → List Entry };

    /// The seat's number, by which a thread that could not be started is known.
    fn number_of(seat: &T) -> u16;

    /// How many entries the seat made.
    fn entries_of(seat: &T) -> u32
        ensures made { result ≡ made seat.now }
        ensures bound { result ≤ most_entries };

    /// Serves one session on the seat and returns the seat.
    fn serve_guest<In: Read, Out: Write, K: Shelf>(
        &self,
        rt: &R,
        alloc: Global,
        seat: T,
        reader: &mut In,
        writer: &mut Out,
        shelf: &mut K,
    ) -> T
        requires here { has self.now (kept seat) }
        ensures kept { kept result ≡ kept seat }
        ensures seen { IsPrefix (seen seat) (seen result) };
}

impl<S: Stepper, R: Wait> Seating<TurnSeat<S>, R> for TurnHall<S> {
    ghost kept = { but_for_seen };

    ghost has = { λ hall seat. seat.hall ≡ hall };

    ghost made = { entries_made };

    ghost seen = { λ seat. seat.seen };

    fn number_of(seat: &TurnSeat<S>) -> u16 {
        seat.number()
    }

    fn entries_of(seat: &TurnSeat<S>) -> u32 {
        seat.entries()
    }

    fn serve_guest<In: Read, Out: Write, K: Shelf>(
        &self,
        rt: &R,
        alloc: Global,
        seat: TurnSeat<S>,
        reader: &mut In,
        writer: &mut Out,
        shelf: &mut K,
    ) -> TurnSeat<S>
        requires here { seat.hall ≡ self.now }
        ensures kept { but_for_seen result ≡ but_for_seen seat }
        ensures seen { IsPrefix seat.seen result.seen }
    {
        let mut door = self.door(rt, seat);
        serve_door(alloc, reader, writer, &mut door, shelf);
        door.end()
    }
}

/// How many seats were served and how many were not, the entries that all of them made, and the seats in their order.
#[derive(Drop)]
pub struct Served<T> {
    pub done: u32,
    pub failed: u32,
    pub entries: u32,
    pub seats: Vec<T>,
}

/// The seat that a thread hands back is this one, except for what its session changed.
#[derive(Drop)]
struct SeatKept<H, T, R> {
    seat: Snapshot<T>,
    hall: PhantomData<(H, R)>,
}

impl<T, R, H: Seating<T, R>> Promise<T> for SeatKept<H, T, R> {
    ghost kept_by = { λ p seat. (H.kept seat ≡ H.kept p.seat.value)
        × IsPrefix (H.seen p.seat.value) (H.seen seat) };
}

// Serves the guest and returns the seat. If its thread could not be started, the caller runs this, and nobody is served.
pub(crate) fn sit<T, R, H: Seating<T, R>, In: Read + Drop, Out: Write + Drop, K: Shelf + Drop>(
    house: &House<'_, R, H>,
    guest: Guest<T, In, Out, K>,
) -> T
    requires here { H.has house.now.hall.now (H.kept guest.seat) }
    ensures kept { H.kept result ≡ H.kept guest.seat }
    ensures seen { IsPrefix (H.seen guest.seat) (H.seen result) }
{
    let Guest {
        seat,
        mut reader,
        mut writer,
        mut shelf,
    } = guest;
    if house.refused.load(Ordering::SeqCst) == H::number_of(&seat) as u32 {
        return seat;
    }
    let (rt, alloc, hall) = (house.rt, house.alloc, house.hall);
    hall.serve_guest(rt, alloc, seat, &mut reader, &mut writer, &mut shelf)
}

// Accepts a session for the seat and starts its thread, or hands the seat back.
fn start<'s, E, T: Drop + Send, R: Sync, H: Seating<T, R> + Sync, L: Lobby, K: Shelf + Drop + Send>(
    house: &House<'s, R, H>,
    scope: &Scope<'s, E>,
    lobby: &mut L,
    seat: T,
    shelf: K,
) -> Result<PromisedHandle<T, SeatKept<H, T, R>>, T>
where
    T: 's,
    L::R: 's,
    L::W: 's,
    K: 's,
    requires here { H.has house.now.hall.now (H.kept seat) }
    ensures ok { IfOk result (λ handle. handle.promise.seat.value ≡ seat) }
    ensures err { IfErr result (λ back. H.kept back ≡ H.kept seat) }
    ensures seen { IfErr result (λ back. IsPrefix (H.seen seat) (H.seen back)) }
{
    let Ok((reader, writer)) = lobby.accept() else {
        return Err(seat);
    };
    let (rt, alloc, hall, refused) = (house.rt, house.alloc, house.hall, house.refused);
    let number = H::number_of(&seat);
    let promise = SeatKept {
        seat: Snapshot::of(&seat),
        hall: PhantomData,
    };
    let job = move || -> T
        requires here { H.has hall.now (H.kept seat) }
        ensures kept { H.kept result ≡ H.kept seat }
        ensures seen { IsPrefix (H.seen seat) (H.seen result) }
    {
        let house = House {
            rt,
            alloc,
            hall,
            refused,
        };
        let guest = Guest {
            seat,
            reader,
            writer,
            shelf,
        };
        sit(&house, guest)
    };
    match scope.spawn_with(promise, job) {
        Ok(handle) => Ok(handle),
        Err(failed) => {
            refused.store(number as u32, Ordering::SeqCst);
            Err((failed.value)())
        }
    }
}

// Serves the seats from the last to the first, each with an accept and a thread of its own, and joins the threads. Tells
// how many were served.
fn serve_rest<
    's,
    E,
    T: Drop + Send + 's,
    R: Threads + Wait + Sync,
    H: Seating<T, R> + Sync,
    L: Lobby + 's,
    K: Shelf + Drop + Send + 's,
>(
    house: &House<'s, R, H>,
    scope: &Scope<'s, E>,
    lobby: &mut L,
    seats: &mut Vec<T>,
    shelves: &mut Vec<K>,
) -> u32
    requires few { vec_len seats.old ≤ most_hall_seats }
    requires shelves { vec_len shelves.old ≡ vec_len seats.old }
    requires here { All (λ seat. H.has house.now.hall.now (H.kept seat)) seats.old.items }
    ensures back { ComeBack H.kept H.made H.seen seats.old.items seats.new.items result }
    ensures capacity { vec_capacity seats.new ≡ vec_capacity seats.old }
{
    let Some(seat) = seats.pop() else {
        return 0;
    };
    let Some(shelf) = shelves.pop() else {
        unreachable!()
    };
    let made = H::entries_of(&seat);
    let seated = start(house, scope, lobby, seat, shelf);
    let done = serve_rest(house, scope, lobby, seats, shelves);
    match seated {
        Ok(handle) => {
            seats.push_reserved(handle.join(house.rt));
            done + 1
        }
        Err(seat) => {
            // No session ran, so this holds; the prover can't know that.
            let is_idle = H::entries_of(&seat) == made;
            seats.push_reserved(seat);
            if is_idle { done } else { done + 1 }
        }
    }
}

// The entries that the seats count.
fn entries_of<T, R, H: Seating<T, R>>(seats: &[T]) -> u32
    requires { length seats.now ≤ most_hall_seats }
    ensures { result ≡ sum_by H.made seats.now }
{
    let mut total = 0;
    for seat in seats {
        total += H::entries_of(seat);
    }
    total
}

/// Serves each seat of any such hall once, as `serve_turn` does. Each seat comes back as it was, except for what its session
/// changed.
pub fn serve_seats<
    T: Drop + Send,
    R: Threads + Wait + Sync,
    H: Seating<T, R> + Sync,
    L: Lobby,
    K: Shelf + Drop + Send,
>(rt: &R, alloc: Global, lobby: &mut L, hall: &H, seats: Vec<T>, shelves: Vec<K>) -> Served<T>
    requires few { vec_len seats ≤ most_hall_seats }
    requires shelves { vec_len shelves ≡ vec_len seats }
    requires here { All (λ seat. H.has hall.now (H.kept seat)) seats.items }
    ensures count { result.done + result.failed ≡ vec_len seats }
    ensures back { ComeBack H.kept H.made H.seen seats.items result.seats.items result.done }
    ensures entries { result.entries ≡ sum_by H.made result.seats.items }
{
    let count = seats.len() as u32;
    let refused = AtomicU32::new(u32::MAX);
    let flag = &refused;
    let mut seats = seats;
    let mut shelves = shelves;
    seats.reverse();
    shelves.reverse();
    let (done, mut seats) = thread::scope(
        thread::scope_env(),
        rt,
        move |scope| -> (u32, Vec<T>)
            requires few { vec_len seats ≤ most_hall_seats }
            requires shelves { vec_len shelves ≡ vec_len seats }
            requires here { All (λ seat. H.has hall.now (H.kept seat)) seats.items }
            ensures back { ComeBack H.kept H.made H.seen seats.items result.1.items result.0 }
        {
            let mut seats = seats;
            let mut shelves = shelves;
            let house = House {
                rt,
                alloc,
                hall,
                refused: flag,
            };
            let done = serve_rest(&house, scope, lobby, &mut seats, &mut shelves);
            (done, seats)
        },
    );
    seats.reverse();
    Served {
        done,
        failed: count - done,
        entries: entries_of::<T, R, H>(seats.as_slice()),
        seats,
    }
}

/// What `serve_turn` returns.
pub type TurnServed<S> = Served<TurnSeat<S>>;

/// Serves each seat once: one accept for each, in order, and a thread of its own for each session that is accepted, with
/// the shelf at the seat's place. It waits until all threads are done. A seat whose accept or thread failed is counted as
/// failed and served no further; each seat that made entries is counted as served. Each seat comes back as it was, except for
/// what it has seen, which begins with what it had seen.
pub fn serve_turn<S: Stepper + Send, L: Lobby, K: Shelf + Drop + Send, R: Threads + Wait + Sync>(
    rt: &R,
    alloc: Global,
    lobby: &mut L,
    hall: &TurnHall<S>,
    seats: Vec<TurnSeat<S>>,
    shelves: Vec<K>,
) -> TurnServed<S>
    requires few { vec_len seats ≤ most_hall_seats }
    requires shelves { vec_len shelves ≡ vec_len seats }
    requires here { All (λ seat. seat.hall ≡ hall.now) seats.items }
    ensures count { result.done + result.failed ≡ vec_len seats }
    ensures back { ComeBackTo hall.now seats.items result.seats.items result.done }
    ensures entries { result.entries ≡ made_in_all result.seats.items }
{
    serve_seats(rt, alloc, lobby, hall, seats, shelves)
}
