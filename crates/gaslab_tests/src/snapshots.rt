//! Runs that save, and runs that start from a snapshot. The bytes were written by hand from the format.

use crate::expected::{expect_same, expect_that};
use crate::loads::{Padded, WITH_PORTS};
use crate::script::{ALL, SMALL, gives_with};
use gas_ledger::Gas;
use gas_snapshot::{MaybeShelf, NoShelf, Shelf, decode};
use gaslab::load_from;
use std::process::Abort;
use std::thread::Threads;
use std::time::Clock;
use test_types::faults::{FaultAt, Store};

// The head of a gas of 64 by 64 at tick 0 without ports.
const HEAD: [u8; 22] = [
    0x48, 0x50, 0x50, 0x47, 0x41, 0x53, 0x32, 0x0a, 0, 0x40, 0, 0x40, 0, 0, 0, 0, 0, 0, 0, 0, 0, 0,
];

// The same at tick 2^40.
const LAST: [u8; 22] = [
    0x48, 0x50, 0x50, 0x47, 0x41, 0x53, 0x32, 0x0a, 0, 0x40, 0, 0x40, 0, 0, 1, 0, 0, 0, 0, 0, 0, 0,
];

/// The head, then zeros up to the length of a snapshot without ports, but for one byte.
pub fn snapshot(rt: &(impl Abort + AllocGlobal + Threads + Clock), at: usize, byte: u8) -> Vec<u8> {
    let mut bytes = Vec::from_slice(rt.alloc(), &HEAD).expect(rt, "memory");
    for i in HEAD.len()..1558 {
        let byte = if i == at { byte } else { 0 };
        bytes.push(byte).expect(rt, "memory");
    }
    bytes
}

// The one snapshot that is saved while the script gives this output.
fn saved_by(
    rt: &(impl Abort + AllocGlobal + Threads + Clock),
    script: &str,
    output: &str,
) -> Vec<u8> {
    let mut store = Store::new(rt.alloc(), FaultAt::never());
    gives_with(rt, SMALL, None, &mut store, script, output);
    expect_same(&rt, store.failures(), 0);
    let [bytes] = store.kept() else {
        panic!(rt; "one snapshot")
    };
    Vec::from_slice(rt.alloc(), bytes.as_slice()).expect(rt, "memory")
}

// The gas of a head, then zeros.
fn loaded(rt: &(impl Abort + AllocGlobal + Threads + Clock), head: &[u8], len: usize) -> Gas {
    let mut reader = Padded::new(head, len, ALL, FaultAt::never());
    load_from(rt.alloc(), &mut reader).expect(rt, "a gas")
}

/// A run from this gas, whose script gives this output.
pub fn goes_on(
    rt: &(impl Abort + AllocGlobal + Threads + Clock),
    start: Gas,
    script: &str,
    output: &str,
) {
    let mut store = Store::new(rt.alloc(), FaultAt::never());
    gives_with(rt, SMALL, Some(start), &mut store, script, output);
}

#[test]
fn save_to_a_shelf(rt: HostRuntime) {
    let bytes = saved_by(
        &rt,
        "put 0 0 1 1; save; tally",
        "OK 0; SAVED 1 1558; TALLY 0 1 1 1",
    );
    expect_same(&rt, bytes.as_slice(), snapshot(&rt, 22, 0x80).as_slice());
}

// The particles stand from byte 22 on, and row 1 of the obstacles from byte 1,054 on.
#[test]
fn obstacle_in_a_snapshot(rt: HostRuntime) {
    let bytes = saved_by(
        &rt,
        "put 0 0 1 1; block 1 1 1 1; save",
        "OK 0; OK 1; SAVED 2 1558",
    );
    let mut wanted = snapshot(&rt, 1054, 0x40);
    if wanted.len() > 22 {
        wanted[22] = 0x80;
    }
    expect_same(&rt, bytes.as_slice(), wanted.as_slice());
    goes_on(
        &rt,
        decode(rt.alloc(), bytes.as_slice()).expect(&rt, "a gas"),
        "step 1; ledger",
        "OK 0; LEDGER 1 0 0 1 0 0 0 2 1 0 0 0 2",
    );
}

#[test]
fn greatest_tick(rt: HostRuntime) {
    goes_on(
        &rt,
        loaded(&rt, &LAST, 1558),
        "step 1; back 1; tally",
        "ERR 12 tick; OK 0; TALLY 1099511627775 0 0 0",
    );
}

// Version 1, at tick -1, with a drain and a source of period 2, which acts at tick 0.
#[test]
fn old_snapshots_are_read(rt: HostRuntime) {
    goes_on(
        &rt,
        loaded(&rt, &WITH_PORTS, 1064),
        "tally; back 1; put 0 0 1 1; step 1; probe 10 10 1 1; tally",
        "TALLY -1 0 0 0; ERR 11 ports; OK 0; OK 1; PROBE 1 1 1; TALLY 0 2 0 0",
    );
}

#[test]
fn a_shelf_or_none(rt: HostRuntime) {
    let mut shelf = MaybeShelf::Shelf(Store::new(rt.alloc(), FaultAt::after(1)));
    expect_that(&rt, shelf.put(b"one".as_slice()).is_ok());
    expect_that(&rt, shelf.put(b"two".as_slice()).is_err());
    expect_same(&rt, shelf.failures(), 1);
    match shelf {
        MaybeShelf::Shelf(store) => expect_same(&rt, store.kept().len(), 1),
        MaybeShelf::Nothing(_) => panic!(rt; "no shelf"),
    }
    let mut nothing = MaybeShelf::<Store>::Nothing(NoShelf::new());
    expect_that(&rt, nothing.put(b"one".as_slice()).is_err());
    expect_that(&rt, nothing.put(b"two".as_slice()).is_err());
    expect_same(&rt, nothing.failures(), 2);
}
