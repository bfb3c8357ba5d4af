//! Two seats of a `TurnHall`, with its doors and notes.

ghost use Rattle.std.specs.Prelude.{◌≡◌, All, vec_len};

use crate::expected::{expect_same, expect_that};
use crate::refused::{is_untouched, one_particle, use_door};
use crate::small_labs::{is_put_at, small_lab, sums_of, taken};
use crate::turn_hall_serving::open_hall;
use gas_hall::{TurnHall, TurnNote, TurnSeat};
use gas_lab::Serial;
use gas_talk::Door;
use gas_terms::{Answer, Command, Refusal};
use std::process::Abort;
use std::sync::Wait;
use std::thread;
use std::thread::Threads;

fn open_two(
    rt: &(impl Abort + AllocGlobal),
) -> (TurnHall<Serial>, TurnSeat<Serial>, TurnSeat<Serial>)
    ensures { (result.1.hall ≡ result.0) × (result.2.hall ≡ result.0) }
{
    let (hall, mut seats) = open_hall(rt, 2);
    let first = seats.remove(0);
    let second = seats.remove(0);
    (hall, first, second)
}

// So many puts of the same cell. Tells the index of the last one's entry.
fn put_often<R: Wait + Abort>(
    rt: &R,
    hall: &TurnHall<Serial>,
    seat: TurnSeat<Serial>,
    times: u32,
) -> (TurnSeat<Serial>, Option<u32>)
    requires { seat.hall ≡ hall.now }
    ensures { result.0.hall ≡ hall.entry.now }
{
    let mut door = hall.door(rt, seat);
    let mut last = None;
    for _ in 0..times {
        let put = one_particle(rt, door.size());
        last = taken(&door.ask(put)).ok();
        expect_that(rt, last.is_some());
    }
    (door.end(), last)
}

// The seat that made the entry of which this tells, if that puts the cell.
fn putter(reply: &Result<Answer, Refusal>) -> Option<u16> {
    match reply {
        Ok(Answer::EntryIs(entry)) if is_put_at(&entry.command, 0) => Some(entry.seat),
        _ => None,
    }
}

// The second seat takes in the first's note. Tells who put the journal's first entry, what a copy holds, and how many entries each
// seat made.
fn meet<R: Wait + Abort>(
    rt: &R,
    hall: &TurnHall<Serial>,
    first: TurnSeat<Serial>,
    second: TurnSeat<Serial>,
) -> (Option<u16>, ((i64, i64, i64), u32), (u32, u32))
    requires { (first.hall ≡ hall.now) × (second.hall ≡ hall.now) }
{
    let mut one = hall.door(rt, first);
    let note: TurnNote<Serial> = one.note();
    let first_made = one.end().entries();
    let mut two = hall.door(rt, second);
    two.meet(note);
    let by = putter(&two.ask(Command::Entry(0)));
    let copied = sums_of(rt, two.copy_gas());
    (by, copied, (first_made, two.end().entries()))
}

fn pass_a_note<R: Wait + Abort>(
    rt: &R,
    hall: &TurnHall<Serial>,
    first: TurnSeat<Serial>,
    second: TurnSeat<Serial>,
)
    requires { (first.hall ≡ hall.now) × (second.hall ≡ hall.now) }
{
    expect_same(rt, (first.number(), second.number()), (0, 1));
    let (first, index) = put_often(rt, hall, first, 1);
    expect_same(rt, index, Some(0));
    let met = meet(rt, hall, first, second);
    expect_same(rt, met, (Some(0), ((1, 1, 1), 1), (1, 0)));
}

/// Seat 1 finds what seat 0's note tells of.
#[test]
fn note_carries_a_receipt(rt: HostRuntime) {
    let (hall, first, second) = open_two(&rt);
    pass_a_note(&rt, &hall, first, second);
}

fn both_put<R: Threads + Wait + Abort + Sync>(
    rt: &R,
    hall: &TurnHall<Serial>,
    first: TurnSeat<Serial>,
    second: TurnSeat<Serial>,
)
    requires { (first.hall ≡ hall.now) × (second.hall ≡ hall.now) }
{
    let ((first, _), (second, _)) = thread::join(
        rt,
        || put_often(rt, hall, first, 100),
        || put_often(rt, hall, second, 100),
    );
    let (by, copied, entries) = meet(rt, hall, first, second);
    expect_that(rt, by.is_some());
    expect_same(rt, (copied, entries), (((1, 1, 1), 200), (100, 100)));
}

/// Two threads each make a hundred entries, and one seat takes in the other's note.
#[test]
fn turn_doors_take_turns(rt: HostRuntime) {
    let (hall, first, second) = open_two(&rt);
    both_put(&rt, &hall, first, second);
}

// The second seat's door is used, and the seat tells of as many entries.
fn use_second<R: Wait + Abort>(rt: &R, hall: &TurnHall<Serial>, mut seats: Vec<TurnSeat<Serial>>)
    requires count { vec_len seats ≡ 2 }
    requires here { All (λ seat. seat.hall ≡ hall.now) seats.items }
{
    let seat = seats.remove(1);
    let mut door = hall.door(rt, seat);
    let made = use_door(rt, &mut door);
    expect_same(rt, door.end().entries(), made);
}

/// Whichever allocation is refused: the hall hands the laboratory back, and a door's call leaves it.
#[test]
fn refused_turn_hall_leaves_the_laboratory(rt: HostRuntime) {
    let Some(lab) = small_lab(rt.alloc()) else {
        return;
    };
    match TurnHall::open(rt.alloc(), lab, 2) {
        Ok((hall, seats)) => use_second(&rt, &hall, seats),
        Err(back) => is_untouched(&rt, back),
    }
}
