//! A list under a ticket lock that doors add their numbers to, by one thread and by two.

ghost use Rattle.std.specs.Prelude.{◌≡◌, ◌++◌, ◌∷◌, [], ◌⊎◌, ◌↔◌, ⊤, IsTrue, Contains, vec_len};
ghost use Rattle.ticket_lock.specs.Doors.{Adds};

use crate::expected::{expect_same, expect_that};
use std::alloc::AllocGlobal;
use std::process::Abort;
use std::sync::Wait;
use std::thread;
use std::thread::Threads;
use ticket_lock::rule::Journaled;
use ticket_lock::{Call, LockDoor, TicketLock};

// The numbers of those who signed, of at most so many.
#[derive(Drop)]
struct Roll {
    most: usize,
    numbers: Vec<u64>,
}

impl Journaled for Roll {
    type Entry = u64;

    type Fixed = usize;

    ghost entries = { λ r. r.numbers.items };

    ghost fixed = { λ r. r.most };

    ghost by = { λ e. e };
}

// Adds the door's number if there is room and memory, and returns how many there are.
#[derive(Drop)]
struct Sign;

impl Call<Roll> for Sign {
    type Answer = usize;

    ghost needs = { λ _ _ _. ⊤ };

    ghost does = { λ _ by x r y. (r ≡ vec_len y.numbers)
        × ((y.numbers.items ≡ x.numbers.items)
        ⊎ (y.numbers.items ≡ x.numbers.items ++ by ∷ [])) };

    fn call(self, by: u64, value: &mut Roll) -> usize {
        if value.numbers.len() < value.most {
            // Without memory the number does not sign, and the answer shows it.
            drop(value.numbers.push(by));
        }
        value.numbers.len()
    }
}

// Answers whether the number signed.
#[derive(Drop)]
struct HasSigned {
    number: u64,
}

impl Call<Roll> for HasSigned {
    type Answer = bool;

    ghost needs = { λ _ _ _. ⊤ };

    ghost does = { λ c _ x r y. (y ≡ x) × (IsTrue r ↔ Contains x.numbers.items c.number) };

    fn call(self, _by: u64, value: &mut Roll) -> bool {
        value.numbers.contains(&self.number)
    }
}

// A lock of a roll that nobody signed yet, with doors 0 and 1.
fn two_doors(
    rt: &(impl Abort + AllocGlobal),
    most: usize,
) -> (TicketLock<Roll>, LockDoor<Roll>, LockDoor<Roll>)
    ensures { (result.1.lock ≡ result.0) × (result.2.lock ≡ result.0) }
{
    let numbers = Vec::new(rt.alloc());
    let Ok((lock, mut doors)) = TicketLock::open(rt.alloc(), Roll { most, numbers }, 2) else {
        panic!(rt; "no memory")
    };
    let zero = doors.remove(0);
    let one = doors.remove(0);
    (lock, zero, one)
}

// Signs a hundred times, and gives the last answer.
fn sign_often<R: Wait>(
    rt: &R,
    lock: &TicketLock<Roll>,
    mut door: LockDoor<Roll>,
) -> (LockDoor<Roll>, usize)
    requires { door.lock ≡ lock.now }
    ensures { result.0.lock ≡ lock.entry.now }
{
    let mut last = 0;
    for _ in 0..100 {
        last = door.ask(rt, lock, Sign);
    }
    (door, last)
}

// Signs with one door, then with both in threads of their own, and then with the first, which has taken in a note of the
// other: its first and last answers.
fn sign_both<R: Threads + Wait + Sync>(
    rt: &R,
    lock: &TicketLock<Roll>,
    mut one: LockDoor<Roll>,
    other: LockDoor<Roll>,
) -> (usize, usize)
    requires { (one.lock ≡ lock.now) × (other.lock ≡ lock.now) }
{
    let first = one.ask(rt, lock, Sign);
    let ((mut one, _), (mut other, _)) = thread::join(
        rt,
        || sign_often(rt, lock, one),
        || sign_often(rt, lock, other),
    );
    let note = other.note(lock);
    one.meet(lock, note);
    (first, one.ask(rt, lock, Sign))
}

#[test]
fn two_doors_sign(rt: HostRuntime) {
    let (lock, zero, one) = two_doors(&rt, 150);
    expect_same(&rt, sign_both(&rt, &lock, zero, one), (1, 150));
}

#[test]
fn note_is_met_by_the_other_door(rt: HostRuntime) {
    let (lock, mut zero, mut one) = two_doors(&rt, 9);
    expect_same(&rt, zero.ask(&rt, &lock, Sign), 1);
    let note = zero.note(&lock);
    one.meet(&lock, note);
    expect_that(&rt, one.ask(&rt, &lock, HasSigned { number: 0 }));
    expect_that(&rt, !one.ask(&rt, &lock, HasSigned { number: 1 }));
    expect_same(&rt, one.ask(&rt, &lock, Sign), 2);
    expect_that(&rt, zero.ask(&rt, &lock, HasSigned { number: 1 }));
}

#[test]
fn full_roll_stays_as_it_is(rt: HostRuntime) {
    let (lock, mut zero, mut one) = two_doors(&rt, 1);
    expect_same(&rt, one.ask(&rt, &lock, Sign), 1);
    expect_same(&rt, zero.ask(&rt, &lock, Sign), 1);
    expect_that(&rt, zero.ask(&rt, &lock, HasSigned { number: 1 }));
    expect_that(&rt, !zero.ask(&rt, &lock, HasSigned { number: 0 }));
}

#[test]
fn refused_memory_gives_the_value_back(rt: HostRuntime) {
    let Ok(numbers) = Vec::with_capacity(rt.alloc(), 1) else {
        return;
    };
    match TicketLock::open(rt.alloc(), Roll { most: 5, numbers }, 3) {
        Ok((lock, mut doors)) => {
            expect_same(&rt, doors.len(), 3);
            let mut last = doors.remove(2);
            expect_same(&rt, last.ask(&rt, &lock, Sign), 1);
            expect_that(&rt, last.ask(&rt, &lock, HasSigned { number: 2 }));
        }
        Err(roll) => {
            expect_that(&rt, roll.most == 5);
            expect_that(&rt, roll.numbers.is_empty());
            expect_that(&rt, roll.numbers.capacity() >= 1);
        }
    }
}
