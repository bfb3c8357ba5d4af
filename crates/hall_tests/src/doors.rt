//! Two sessions in threads of their own, over the doors of one hall.

ghost use Rattle.std.specs.Prelude.{◌≡◌, [], vec_len};
ghost use Rattle.gas_terms.specs.Cells.{extent};

use crate::expected::{expect_same, expect_that};
use crate::gates::TestGate;
use crate::small_labs::{look_at, small_lab, sums_of};
use gas_lab::{Lab, Serial, Stepper};
use gas_snapshot::NoShelf;
use gas_talk::session::serve_door;
use gas_talk::{Door, SessionEnd};
use mutex_hall::{Hall, HallGate, HallName, HallSeat};
use std::alloc::Global;
use std::marker::Brand;
use std::process::Abort;
use std::sync::ledger::Blank;
use std::sync::{Mutex, Wait};
use std::thread;
use std::thread::Threads;
use std::time::Clock;
use test_types::pages::{OutputPage, PageWriter, shows};

// One session over memory, which writes to the page.
fn sit_down<N: HallName, S: Stepper, G: HallGate, R: Wait>(
    rt: &R,
    alloc: Global,
    hall: &Hall<N, S, G>,
    seat: HallSeat<N>,
    input: &[u8],
    page: &Mutex<OutputPage>,
) -> (HallSeat<N>, SessionEnd) {
    let mut reader = input;
    let mut writer = PageWriter::new(page);
    let mut door = hall.door(rt, seat);
    let mut shelf = NoShelf::new();
    let end = serve_door(alloc, &mut reader, &mut writer, &mut door, &mut shelf);
    (door.end(), end)
}

// What a copy through the seat's door holds.
fn copy_through<N: HallName, G: HallGate, R: Wait + Abort>(
    rt: &R,
    hall: &Hall<N, Serial, G>,
    seat: HallSeat<N>,
) -> (HallSeat<N>, ((i64, i64, i64), u32)) {
    let mut door = hall.door(rt, seat);
    let held = sums_of(rt, door.copy_gas());
    (door.end(), held)
}

// Seat 0 puts into columns 0 and 2, and seat 1 between the two into column 4.
fn take_turns<
    N: HallName + Send + Sync,
    G: HallGate + Sync,
    R: Threads + Wait + Abort + Sync + Send,
>(
    rt: &R,
    alloc: Global,
    hall: &Hall<N, Serial, G>,
    mut seats: Vec<HallSeat<N>>,
) -> Vec<HallSeat<N>> {
    let (Some(second), Some(first)) = (seats.pop(), seats.pop()) else {
        panic!(rt; "no seats")
    };
    expect_same(rt, (first.number(), second.number()), (0, 1));
    let (first_page, second_page) = (Mutex::new(OutputPage::new()), Mutex::new(OutputPage::new()));
    let (on_first, on_second) = (&first_page, &second_page);
    let (one, two) = thread::join(
        rt,
        move || sit_down(
            rt,
            alloc,
            hall,
            first,
            b"put 0 0 1 1\nput 2 0 1 1\n",
            on_first,
        ),
        move || sit_down(rt, alloc, hall, second, b"put 4 0 1 1\n", on_second),
    );
    expect_that(rt, shows(&first_page, b"OK 0\nOK 2\n"));
    expect_that(rt, shows(&second_page, b"OK 1\n"));
    come_back(rt, hall, &mut seats, one, (0, 2));
    come_back(rt, hall, &mut seats, two, (1, 1));
    seats
}

// The session ended with its input, the seat has this number and so many entries, and its copy holds the three puts. It is
// with the others again.
fn come_back<N: HallName, G: HallGate, R: Wait + Abort>(
    rt: &R,
    hall: &Hall<N, Serial, G>,
    seats: &mut Vec<HallSeat<N>>,
    back: (HallSeat<N>, SessionEnd),
    wanted: (u16, u32),
) {
    let (seat, end) = back;
    expect_same(rt, end, SessionEnd::InputEnd);
    expect_same(rt, (seat.number(), seat.entries()), wanted);
    let (seat, held) = copy_through(rt, hall, seat);
    expect_same(rt, held, ((3, 3, 3), 3));
    expect_that(rt, seats.push(seat).is_ok());
}

fn open_two<'g, N: HallName, R: Wait + Clock + Abort>(
    rt: &R,
    alloc: Global,
    blank: Blank,
    lab: Lab<Serial>,
    turns: &'g TestGate<R>,
) -> (Hall<N, Serial, &'g TestGate<R>>, Vec<HallSeat<N>>)
    requires name { blank.name ≡ N.name }
    requires parts { (blank.parts ≡ N.parts) × (blank.parts ≡ 2) }
    requires lab { (extent lab.start.particles ≡ N.size) × (lab.cap ≡ N.cap) × (lab.journal ≡ []) }
{
    match Hall::open(alloc, blank, lab, 2, turns) {
        Ok(opened) => opened,
        Err(_) => panic!(rt; "no memory"),
    }
}

fn close_two<N: HallName, G: HallGate>(
    rt: &impl Abort,
    hall: Hall<N, Serial, G>,
    seats: Vec<HallSeat<N>>,
)
    requires { N.parts ≡ 2 }
{
    expect_that(rt, seats.len() == 2);
    let seen = look_at(hall.close(seats), &[(0, 0), (1, 4), (0, 2)]);
    expect_same(rt, seen.tally, (3, 3, 3));
    expect_that(rt, seen.are_puts);
}

// The sessions, and the laboratory at the end.
fn both<N: HallName + Send + Sync, R: Threads + Wait + Clock + Abort + Sync + Copy + Send>(
    rt: &R,
    alloc: Global,
    blank: Blank,
    lab: Lab<Serial>,
)
    requires name { blank.name ≡ N.name }
    requires parts { (blank.parts ≡ N.parts) × (blank.parts ≡ 2) }
    requires lab { (extent lab.start.particles ≡ N.size) × (lab.cap ≡ N.cap) × (lab.journal ≡ []) }
{
    let turns = TestGate::turns(*rt);
    let (hall, seats) = open_two::<N, R>(rt, alloc, blank, lab, &turns);
    let seats = take_turns(rt, alloc, &hall, seats);
    expect_that(rt, !turns.met_limit());
    // Two puts and a copy.
    expect_same(rt, turns.last_call(), 2);
    close_two(rt, hall, seats);
}

// What a door's copy holds that is made between two changes of a session.
fn copied_between<
    N: HallName + Send + Sync,
    R: Threads + Wait + Clock + Abort + Sync + Copy + Send,
>(rt: &R, alloc: Global, blank: Blank, lab: Lab<Serial>) -> ((i64, i64, i64), u32)
    requires name { blank.name ≡ N.name }
    requires parts { (blank.parts ≡ N.parts) × (blank.parts ≡ 2) }
    requires lab { (extent lab.start.particles ≡ N.size) × (lab.cap ≡ N.cap) × (lab.journal ≡ []) }
{
    let turns = TestGate::turns(*rt);
    let (hall, seats) = open_two::<N, R>(rt, alloc, blank, lab, &turns);
    let copied = copy_between(rt, alloc, &hall, seats);
    expect_that(rt, !turns.met_limit());
    copied
}

// Seat 1 copies the gas between two changes of seat 0. Tells what the copy holds.
fn copy_between<
    N: HallName + Send + Sync,
    G: HallGate + Sync,
    R: Threads + Wait + Abort + Sync + Send,
>(
    rt: &R,
    alloc: Global,
    hall: &Hall<N, Serial, G>,
    mut seats: Vec<HallSeat<N>>,
) -> ((i64, i64, i64), u32) {
    let (Some(second), Some(first)) = (seats.pop(), seats.pop()) else {
        panic!(rt; "no seats")
    };
    let page = Mutex::new(OutputPage::new());
    let on_page = &page;
    let (_, (_, copied)) = thread::join(
        rt,
        move || sit_down(
            rt,
            alloc,
            hall,
            first,
            b"put 0 0 1 1\nput 2 0 1 1\n",
            on_page,
        ),
        move || copy_through(rt, hall, second),
    );
    expect_that(rt, shows(&page, b"OK 0\nOK 1\n"));
    copied
}

/// The copies after them and the laboratory of the closed hall hold their three puts.
#[test]
fn two_sessions_take_turns(rt: HostRuntime) {
    let lab = small_lab(rt.alloc()).expect(&rt, "memory");
    both::<Brand, HostRuntime>(&rt, rt.alloc(), Blank::new(2), lab);
}

#[test]
fn copy_between_two_changes(rt: HostRuntime) {
    let lab = small_lab(rt.alloc()).expect(&rt, "memory");
    let found = copied_between::<Brand, HostRuntime>(&rt, rt.alloc(), Blank::new(2), lab);
    expect_same(&rt, found, ((1, 1, 1), 1));
}
