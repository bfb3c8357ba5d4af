//! Allocations that fail one by one: opening a hall returns the laboratory, a door's call leaves it, and a seat without a
//! thread comes back.

ghost use Rattle.std.specs.Prelude.{◌≡◌, [], true};
ghost use Rattle.gas_terms.specs.Cells.{extent};
ghost use Rattle.gas_terms.specs.Commands.{fits};

use crate::expected::{expect_same, expect_that};
use crate::gates::TestGate;
use crate::open_and_serve::{Left, serve_sessions};
use crate::small_labs::{look_at, no_puts, small_lab, summed, taken};
use gas_lab::{Lab, Serial};
use gas_talk::Door;
use gas_terms::{Answer, Command, Rect, Refusal, Size};
use mutex_hall::{Hall, HallGate, HallName, HallSeat};
use std::alloc::Global;
use std::marker::Brand;
use std::process::Abort;
use std::sync::ledger::Blank;
use std::sync::{Mutex, Wait};
use std::thread::Threads;
use std::time::Clock;
use test_types::pages::{Guests, OutputPage, shows};

/// One particle at the upper left cell.
pub fn one_particle(rt: &impl Abort, size: Size) -> Command
    ensures { fits size result ≡ true }
{
    let area = Rect::within(size, 0, 0, 1, 1).expect(rt, "a rectangle");
    let put = Command::Put(area);
    expect_that(&rt, put.fits(size));
    put
}

/// How many entries the reply to the first put tells of. It can only be refused for want of memory.
fn made_by(rt: &impl Abort, reply: &Result<Answer, Refusal>) -> u32 {
    match taken(reply) {
        Ok(k) => {
            expect_same(&rt, k, 0);
            1
        }
        Err(refusal) => {
            expect_same(&rt, refusal, Refusal::Memory);
            0
        }
    }
}

// The entry can only be missing if none was made, or be refused for want of memory.
fn entry_is_there(rt: &impl Abort, reply: &Result<Answer, Refusal>, made: u32) {
    match reply {
        Ok(_) => expect_same(&rt, made, 1),
        Err(Refusal::Memory) => {}
        Err(refusal) => expect_same(&rt, (*refusal, made), (Refusal::Entry, 0)),
    }
}

fn is_answered_or_wants_memory(reply: &Result<Answer, Refusal>) -> bool {
    match reply {
        Ok(_) => true,
        Err(refusal) => *refusal == Refusal::Memory,
    }
}

fn copied_entries<D: Door>(door: &mut D) -> Option<u32> {
    match door.copy_gas() {
        Ok(copied) => Some(copied.entries),
        Err(_) => None,
    }
}

// A put and its entry, each answered or refused for want of memory. Tells how many entries there are.
fn put_one<D: Door>(rt: &impl Abort, door: &mut D) -> u32 {
    let put = one_particle(rt, door.size());
    let made = made_by(rt, &door.ask(put));
    entry_is_there(rt, &door.ask(Command::Entry(0)), made);
    made
}

// A row, likewise.
fn read_row<D: Door>(rt: &impl Abort, door: &mut D) {
    let read = Command::Read(0);
    expect_that(rt, read.fits(door.size()));
    expect_that(rt, is_answered_or_wants_memory(&door.ask(read)));
}

// The sums, and a copy if memory is not refused, of a gas with so many particles and entries.
fn count_all<D: Door>(rt: &impl Abort, door: &mut D, made: u32) {
    let all = made as i64;
    expect_same(rt, summed(rt, &door.ask(Command::Tally)), (all, all, all));
    let copied = copied_entries(door);
    expect_that(rt, copied.is_none() || copied == Some(made));
}

/// A put, readings and a copy, each answered or refused for want of memory. Tells how many entries there are.
pub fn use_door<D: Door>(rt: &impl Abort, door: &mut D) -> u32 {
    let made = put_one(rt, door);
    read_row(rt, door);
    count_all(rt, door, made);
    made
}

/// No entry was made, and the gas is empty.
pub fn is_untouched(rt: &impl Abort, back: Lab<Serial>) {
    let seen = look_at(back, &[]);
    expect_same(rt, (seen.entries, seen.tally), (0, (0, 0, 0)));
}

// The last seat uses its door. Tells how many entries it made.
fn use_last<N: HallName, G: HallGate, R: Wait + Abort>(
    rt: &R,
    hall: &Hall<N, Serial, G>,
    seats: &mut Vec<HallSeat<N>>,
) -> u32 {
    let Some(seat) = seats.pop() else {
        panic!(rt; "no seats")
    };
    let mut door = hall.door(rt, seat);
    let made = use_door(rt, &mut door);
    let seat = door.end();
    expect_same(rt, (seat.number(), seat.entries()), (1, made));
    // There is room for the seat that was taken out.
    expect_that(rt, seats.push(seat).is_ok());
    made
}

// The last seat uses its door, and then the hall is closed.
fn use_and_close<N: HallName, G: HallGate, R: Wait + Abort>(
    rt: &R,
    hall: Hall<N, Serial, G>,
    mut seats: Vec<HallSeat<N>>,
)
    requires { N.parts ≡ 2 }
{
    let made = use_last(rt, &hall, &mut seats);
    expect_that(rt, seats.len() == 2);
    let seen = look_at(hall.close(seats), &[(1, 0)]);
    expect_same(
        rt,
        (seen.are_puts, seen.entries),
        (made == 1, made as usize),
    );
}

fn open_and_use<N: HallName, R: Wait + Clock + Abort + Copy>(
    rt: &R,
    alloc: Global,
    blank: Blank,
    lab: Lab<Serial>,
)
    requires name { blank.name ≡ N.name }
    requires parts { (blank.parts ≡ N.parts) × (blank.parts ≡ 2) }
    requires lab { (extent lab.start.particles ≡ N.size) × (lab.cap ≡ N.cap) × (lab.journal ≡ []) }
{
    let gate = TestGate::open(*rt);
    match Hall::<N, Serial, &TestGate<R>>::open(alloc, blank, lab, 2, &gate) {
        Ok((hall, seats)) => use_and_close(rt, hall, seats),
        Err(back) => is_untouched(rt, back),
    }
}

#[test]
fn refused_memory_leaves_the_laboratory(rt: HostRuntime) {
    if let Some(lab) = small_lab(rt.alloc()) {
        open_and_use::<Brand, HostRuntime>(&rt, rt.alloc(), Blank::new(2), lab);
    }
}

// One session over the page, which puts a particle, if memory is not refused before.
fn serve_one<R: Threads + Wait + Clock + Sync + Abort + AllocGlobal + Copy>(
    rt: &R,
    page: &[Mutex<OutputPage>],
) -> Option<Left> {
    let line: &[u8] = b"put 0 0 1 1\n";
    let inputs = [Some(line)];
    let mut lobby = Guests::new(&inputs, page);
    let gate = TestGate::open(*rt);
    let saved = no_puts();
    serve_sessions(rt, 64, &gate, &mut lobby, &saved, 1, &[(0, 0)])
}

// What the session was told, by the counts of its hall.
fn told(rt: &impl Abort, counts: (u32, u32, u32)) -> &'static [u8] {
    match counts {
        (1, 0, 1) => b"OK 0\n",
        (1, 0, 0) => b"ERR 14 memory\n",
        (0, 1, 0) => b"",
        _ => panic!(rt; "other counts"),
    }
}

/// A seat whose thread was refused comes back unserved.
#[test]
fn refused_thread_serves_nobody(rt: HostRuntime) {
    let page = [Mutex::new(OutputPage::new())];
    let Some(left) = serve_one(&rt, &page) else {
        return;
    };
    let entries = left.counts.2;
    expect_that(&rt, shows(&page[0], told(&rt, left.counts)));
    expect_same(&rt, left.of_seats, [entries, 0, 0, 0]);
    expect_same(&rt, left.lab.are_puts, entries == 1);
    expect_same(&rt, left.lab.entries, entries as usize);
}
