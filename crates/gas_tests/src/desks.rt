//! Drawing numbers, by one thread and by two.

ghost use Rattle.std.specs.Prelude.{◌≡◌, true, OnOk, IfOk};

use crate::expected::{expect_same, expect_that};
use claim_desk::{Desk, DeskSeat, NoMemory};
use std::alloc::Global;
use std::test::Fail;
use std::thread;

// Draws until no number is left.
fn draw_all(seat: &mut DeskSeat, desk: &Desk, alloc: Global) -> Result<Vec<u32>, NoMemory>
    requires { seat.old.desk ≡ desk.now.id }
    ensures { OnOk result ((seat.new.desk ≡ seat.old.desk) × (seat.new.ended ≡ true)) }
{
    let mut numbers = Vec::new(alloc);
    while let Some(number) = seat.draw(desk) {
        numbers.push(number)?;
    }
    Ok(numbers)
}

// The same in a thread of its own.
fn draw_there(
    mut seat: DeskSeat,
    desk: &Desk,
    alloc: Global,
) -> Result<(DeskSeat, Vec<u32>), NoMemory>
    requires { seat.desk ≡ desk.now.id }
    ensures { IfOk result (λ r. (r.0.desk ≡ seat.desk) × (r.0.ended ≡ true)) }
{
    let numbers = draw_all(&mut seat, desk, alloc)?;
    Ok((seat, numbers))
}

#[test]
fn desk_draws(rt: HostRuntime) -> Result<(), Fail> {
    let (desk, mut seats) = Desk::open(rt.alloc(), 5, 2)?;
    let mut first = seats.remove(0);
    let drawn = draw_all(&mut first, &desk, rt.alloc())?;
    let mut second = seats.remove(0);
    let none = second.draw(&desk);
    let again = first.draw(&desk);
    seats.push(first)?;
    seats.push(second)?;
    expect_same(&rt, drawn.as_slice(), [0, 1, 2, 3, 4].as_slice());
    expect_that(&rt, none.is_none());
    expect_that(&rt, again.is_none());
    expect_same(&rt, desk.close(seats), 5);
    Ok(())
}

#[test]
fn desk_draws_none_of_no_numbers(rt: HostRuntime) -> Result<(), Fail> {
    let (desk, mut seats) = Desk::open(rt.alloc(), 0, 1)?;
    let mut only = seats.remove(0);
    let drawn = draw_all(&mut only, &desk, rt.alloc())?;
    seats.push(only)?;
    expect_that(&rt, drawn.is_empty());
    expect_same(&rt, desk.close(seats), 0);
    Ok(())
}

#[test]
fn two_threads_draw_each_number_once(rt: HostRuntime) -> Result<(), Fail> {
    let alloc = rt.alloc();
    let (desk, mut seats) = Desk::open(alloc, 2000, 2)?;
    let first = seats.remove(0);
    let second = seats.remove(0);
    let shared = &desk;
    let (one, two) = thread::join(
        &rt,
        move || draw_there(first, shared, alloc),
        move || draw_there(second, shared, alloc),
    );
    let (first, ones) = one?;
    let (second, twos) = two?;
    seats.push(first)?;
    seats.push(second)?;
    expect_same(&rt, desk.close(seats), 2000);
    let mut drawn = [false; 2000];
    for number in ones.iter().chain(twos.iter()) {
        let place = drawn
            .get_mut(*number as usize)
            .expect(&rt, "a number below 2,000");
        expect_that(&rt, !*place);
        *place = true;
    }
    expect_that(&rt, drawn.iter().all(|place| *place));
    Ok(())
}

#[test]
fn refused_memory_opens_no_desk(rt: HostRuntime) {
    let (desk, mut seats) = match Desk::open(rt.alloc(), 2, 2) {
        Ok(opened) => opened,
        Err(NoMemory) => Desk::open(rt.alloc(), 2, 2).expect(&rt, "memory"),
    };
    let mut first = seats.remove(0);
    let mut second = seats.remove(0);
    let drawn = [
        first.draw(&desk),
        second.draw(&desk),
        first.draw(&desk),
        second.draw(&desk),
    ];
    expect_that(&rt, drawn == [Some(0), Some(1), None, None]);
    seats.push_reserved(first);
    seats.push_reserved(second);
    expect_same(&rt, desk.close(seats), 2);
}
