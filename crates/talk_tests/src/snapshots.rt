//! Worked examples of snapshots. The bytes were written by hand from the format.

use crate::expected::{expect_same, expect_that};
use crate::fixtures::{empty, gas, has};
use gas_ledger::Gas;
use gas_plane::Plane;
use gas_snapshot::{NoShelf, Shelf, ShelfFault, SnapFault, decode, encode, write_to};
use gas_terms::Rect;
use std::process::Abort;
use test_types::faults::{FaultAt, Sink};

const ALL: usize = usize::MAX;

// The head of the empty gas of 64 by 64 at tick 0, in each version.
const OLD: [u8; 22] = [
    0x48, 0x50, 0x50, 0x47, 0x41, 0x53, 0x31, 0x0a, 0, 0x40, 0, 0x40, 0, 0, 0, 0, 0, 0, 0, 0, 0, 0,
];

const NEW: [u8; 22] = [
    0x48, 0x50, 0x50, 0x47, 0x41, 0x53, 0x32, 0x0a, 0, 0x40, 0, 0x40, 0, 0, 0, 0, 0, 0, 0, 0, 0, 0,
];

/// The same at tick -1, with the drain 1 1 1 1 and the source 10 10 1 1 of period 2, in version 1.
pub const WITH_PORTS: [u8; 40] = [
    0x48, 0x50, 0x50, 0x47, 0x41, 0x53, 0x31, 0x0a, 0, 0x40, 0, 0x40, 0xff, 0xff, 0xff, 0xff, 0xff,
    0xff, 0xff, 0xff, 1, 1, 0, 1, 0, 1, 0, 1, 0, 1, 0, 10, 0, 10, 0, 1, 0, 1, 0, 2,
];

// The first bytes, and zeros after them up to a length.
fn padded(rt: &(impl Abort + AllocGlobal), first: &[u8], len: usize) -> Vec<u8> {
    let mut bytes = Vec::new(rt.alloc());
    for i in 0..len {
        let byte = if i < first.len() { first[i] } else { 0 };
        bytes.push(byte).expect(rt, "memory");
    }
    bytes
}

fn set(bytes: &mut Vec<u8>, at: usize, byte: u8) {
    if at < bytes.len() {
        bytes[at] = byte;
    }
}

fn set_all(bytes: &mut Vec<u8>, at: usize, change: &[u8]) {
    let mut place = at;
    for byte in change {
        set(bytes, place, *byte);
        place = place.saturating_add(1);
    }
}

fn front(bytes: &[u8], len: usize) -> &[u8] {
    &bytes[..len.min(bytes.len())]
}

fn read(rt: &(impl Abort + AllocGlobal), bytes: &[u8]) -> Gas {
    decode(rt.alloc(), bytes).expect(rt, "a gas")
}

fn is_written_as(rt: &(impl Abort + AllocGlobal), gas: &Gas, wanted: &[u8]) {
    let bytes = encode(rt.alloc(), gas).expect(rt, "memory");
    expect_same(&rt, bytes.as_slice(), wanted);
}

// Its tick, and how many drains and sources it has.
fn numbers_of(gas: &Gas) -> (i64, usize, usize) {
    let ports = gas.ports();
    (
        gas.tick().get(),
        ports.drains().len(),
        ports.sources().len(),
    )
}

fn fault(rt: &impl AllocGlobal, bytes: &[u8]) -> Option<SnapFault> {
    decode(rt.alloc(), bytes).err()
}

// What is wrong with so many bytes when those from a place on are changed.
fn fault_in(
    rt: &(impl Abort + AllocGlobal),
    first: &[u8],
    len: usize,
    at: usize,
    change: &[u8],
) -> Option<SnapFault> {
    let mut bytes = padded(rt, first, len);
    set_all(&mut bytes, at, change);
    fault(rt, bytes.as_slice())
}

// The numbers of the gas of these bytes, which is written as those.
fn is_read_as(rt: &(impl Abort + AllocGlobal), bytes: &[u8], wanted: &[u8]) -> (i64, usize, usize) {
    let gas = read(rt, bytes);
    is_written_as(rt, &gas, wanted);
    numbers_of(&gas)
}

#[test]
fn empty_gas_is_written_and_read(rt: HostRuntime) {
    let wanted = padded(&rt, &NEW, 1558);
    let gas = gas(&rt);
    is_written_as(&rt, &gas, wanted.as_slice());
    let numbers = is_read_as(&rt, wanted.as_slice(), wanted.as_slice());
    expect_same(&rt, numbers, (0, 0, 0));
}

#[test]
fn short_snapshots(rt: HostRuntime) {
    let bytes = padded(&rt, &WITH_PORTS, 1064);
    expect_same(&rt, fault(&rt, bytes.as_slice()), None);
    for len in 0..bytes.len() {
        let found = fault(&rt, front(bytes.as_slice(), len));
        expect_same(&rt, (len, found), (len, Some(SnapFault::Short)));
    }
}

#[test]
fn old_snapshots_are_read(rt: HostRuntime) {
    for (first, ports, numbers) in [
        (OLD.as_slice(), 0, (0, 0, 0)),
        (WITH_PORTS.as_slice(), 18, (-1, 1, 1)),
    ] {
        let bytes = padded(&rt, first, 1046 + ports);
        let mut wanted = padded(&rt, first, 1558 + ports);
        set(&mut wanted, 6, 0x32);
        let found = is_read_as(&rt, bytes.as_slice(), wanted.as_slice());
        expect_same(&rt, found, numbers);
    }
}

#[test]
fn each_change_has_its_fault(rt: HostRuntime) {
    for (at, change, fault) in [
        (6, [0x32].as_slice(), Some(SnapFault::Short)),
        (6, [0x33].as_slice(), Some(SnapFault::Magic)),
        (8, [0, 0x41].as_slice(), Some(SnapFault::Size)),
        (8, [0x10, 0].as_slice(), Some(SnapFault::Size)),
        // The first fault from the left.
        (8, [0, 0x41, 0, 0x40, 1].as_slice(), Some(SnapFault::Size)),
        (10, [0, 0].as_slice(), Some(SnapFault::Size)),
        (
            12,
            [0, 0, 1, 0, 0, 0, 0, 1].as_slice(),
            Some(SnapFault::Tick),
        ),
        (12, [0, 0, 1, 0, 0, 0, 0, 0].as_slice(), None),
        (20, [17].as_slice(), Some(SnapFault::Port)),
        (
            20,
            [1, 0, 0, 0x3f, 0, 0x3f, 0, 2, 0, 1].as_slice(),
            Some(SnapFault::Port),
        ),
        (
            20,
            [0, 1, 0, 0, 0, 0, 0, 1, 0, 1, 0, 0].as_slice(),
            Some(SnapFault::Port),
        ),
    ] {
        let found = fault_in(&rt, &OLD, 1046, at, change);
        expect_same(&rt, (at, found), (at, fault));
    }
}

// Of either version.
#[test]
fn each_length_has_its_fault(rt: HostRuntime) {
    for (version, length, fault) in [
        (0x31, 1047, SnapFault::Trailing),
        (0x31, 1045, SnapFault::Short),
        (0x31, 5, SnapFault::Short),
        (0x32, 1559, SnapFault::Trailing),
        (0x32, 1557, SnapFault::Short),
    ] {
        let found = fault_in(&rt, &OLD, length, 6, &[version]);
        expect_same(&rt, (length, found), (length, Some(fault)));
    }
}

#[test]
fn sides_and_ticks_out_of_range(rt: HostRuntime) {
    // Version 2, 4,160 wide.
    expect_same(
        &rt,
        fault_in(&rt, &NEW, 1558, 8, &[0x10, 0x40]),
        Some(SnapFault::Size),
    );
    expect_same(
        &rt,
        fault_in(&rt, &WITH_PORTS, 1064, 8, &[0xff]),
        Some(SnapFault::Size),
    );
    expect_same(
        &rt,
        fault_in(&rt, &WITH_PORTS, 1064, 12, &[0]),
        Some(SnapFault::Tick),
    );
}

fn writes_an_obstacle(rt: &(impl Abort + AllocGlobal), gas: &mut Gas, wanted: &[u8]) {
    let area = Rect::within(gas.size(), 1, 1, 1, 1).expect(rt, "a rectangle");
    gas.add_obstacles(area);
    is_written_as(rt, gas, wanted);
}

fn has_an_obstacle(rt: &impl Abort, gas: &Gas) {
    let (walls, obstacles) = (gas.walls(), gas.obstacles());
    let found = (has(obstacles, 1, 1), has(walls, 1, 1), has(obstacles, 1, 0));
    expect_same(&rt, found, (true, false, false));
}

fn reads_an_obstacle(rt: &(impl Abort + AllocGlobal), bytes: &[u8]) {
    let gas = read(rt, bytes);
    has_an_obstacle(rt, &gas);
}

#[test]
fn obstacle_in_a_snapshot(rt: HostRuntime) {
    let mut wanted = padded(&rt, &NEW, 1558);
    set(&mut wanted, 1054, 0x40);
    let mut gas = gas(&rt);
    writes_an_obstacle(&rt, &mut gas, wanted.as_slice());
    reads_an_obstacle(&rt, wanted.as_slice());
}

// A gas without particles is read again, or memory is wanted.
fn reads_an_empty_gas(rt: &(impl Abort + AllocGlobal), bytes: &[u8]) {
    match decode(rt.alloc(), bytes) {
        Ok(again) => expect_that(&rt, !has(again.particles(), 0, 0)),
        Err(fault) => expect_same(&rt, fault, SnapFault::Memory),
    }
}

fn writes_and_reads(rt: &(impl Abort + AllocGlobal), gas: &Gas) {
    if let Ok(bytes) = encode(rt.alloc(), gas) {
        reads_an_empty_gas(rt, bytes.as_slice());
    }
}

// Whichever allocation is refused.
#[test]
fn refused_encode_and_decode(rt: HostRuntime) {
    if let Ok(gas) = empty(&rt) {
        writes_and_reads(&rt, &gas);
    }
    expect_same(&rt, fault(&rt, &OLD), Some(SnapFault::Short));
}

#[test]
fn no_shelf_counts_its_failures(rt: HostRuntime) {
    let mut shelf = NoShelf::new();
    expect_same(&rt, shelf.failures(), 0);
    expect_same(&rt, shelf.put(&OLD), Err(ShelfFault));
    expect_same(&rt, shelf.failures(), 1);
}

// A writer that takes `left` bytes gets just these.
fn writes_front(rt: &impl Abort, gas: &Gas, mut sink: Sink, wanted: &[u8], left: usize) {
    let answer = write_to(gas, &mut sink);
    expect_same(
        &rt,
        answer.ok(),
        if left < 1558 { None } else { Some(1558) },
    );
    expect_same(&rt, sink.taken(), front(wanted, left));
}

// A write beyond that fails, or takes none.
fn writes_fronts(rt: &(impl Abort + AllocGlobal), gas: &Gas, wanted: &[u8]) {
    for left in 0..1560 {
        let failing = Sink::new(rt.alloc(), 100, left, FaultAt::never());
        writes_front(rt, gas, failing, wanted, left);
        let taking_none = Sink::new(rt.alloc(), 1, ALL, FaultAt::nothing_after(left as u64));
        writes_front(rt, gas, taking_none, wanted, left);
    }
}

#[test]
fn snapshot_to_a_short_writer(rt: HostRuntime) {
    let wanted = padded(&rt, &NEW, 1558);
    let gas = gas(&rt);
    writes_fronts(&rt, &gas, wanted.as_slice());
}

fn set_ports(bytes: &mut Vec<u8>) {
    set_all(bytes, 20, &[16, 16]);
    for i in 0..16 {
        set_all(bytes, 22 + 8 * i, &[0, i as u8, 0, 0, 0, 1, 0, 1]);
        let source = [0, i as u8, 0, 1, 0, 2, 0, 3, 0, i as u8 + 1];
        set_all(bytes, 150 + 10 * i, &source);
    }
}

fn set_corners(bytes: &mut Vec<u8>) {
    for cells in 0..3 {
        let start = 310 + 1024 * cells;
        set(bytes, start, 0x80);
        set(bytes, start + 15, 0x01);
        set(bytes, start + 1008, 0x80);
        set(bytes, start + 1023, 0x01);
    }
}

fn has_four_corners(rt: &impl Abort, cells: &Plane) {
    for (x, y, held) in [
        (0, 0, true),
        (127, 0, true),
        (0, 63, true),
        (127, 63, true),
        (1, 0, false),
        (126, 0, false),
        (7, 63, false),
    ] {
        expect_same(&rt, (x, y, has(cells, x, y)), (x, y, held));
    }
}

fn has_ports_and_corners(rt: &impl Abort, gas: &Gas) {
    expect_same(&rt, numbers_of(gas), (0, 16, 16));
    has_four_corners(rt, gas.particles());
    has_four_corners(rt, gas.walls());
    has_four_corners(rt, gas.obstacles());
}

// 128 by 64, 16 drains, 16 sources, and all four corners in all three sets.
#[test]
fn sixteen_ports_and_four_corners(rt: HostRuntime) {
    let mut bytes = padded(&rt, &NEW, 3382);
    set(&mut bytes, 9, 0x80);
    set_ports(&mut bytes);
    set_corners(&mut bytes);
    let gas = read(&rt, bytes.as_slice());
    has_ports_and_corners(&rt, &gas);
    is_written_as(&rt, &gas, bytes.as_slice());
}
