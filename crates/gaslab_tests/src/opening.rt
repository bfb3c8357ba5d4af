//! Opening a laboratory from a setup.

use crate::expected::expect_same;
use crate::snapshots::snapshot;
use gas_lab::{Gas, Lab, Serial};
use gas_run::{Setup, opened};
use gas_snapshot::decode;
use gas_terms::Size;
use std::process::Abort;

// A laboratory of 128 by 64 cells, or else of this gas, with room for seven entries.
fn set_up(rt: &(impl Abort + AllocGlobal), start: Option<Gas>) -> Lab<Serial> {
    let setup = Setup {
        size: Size::new(128, 64).expect(rt, "a size"),
        workers: 1,
        cap: 7,
    };
    opened(rt.alloc(), setup, start, Serial).expect(rt, "memory")
}

// The width, height and capacity, and the count and the momentum that it started with.
fn numbers_of(lab: &Lab<Serial>) -> [i64; 6] {
    let (size, cap, start) = (lab.size(), lab.cap(), lab.ledger().start);
    [
        size.width() as i64,
        size.height() as i64,
        cap as i64,
        start.count,
        start.px,
        start.py,
    ]
}

fn opening(rt: &(impl Abort + AllocGlobal), start: Option<Gas>) -> [i64; 6] {
    let lab = set_up(rt, start);
    numbers_of(&lab)
}

/// The gas has a size of its own.
#[test]
fn opened_empty_and_with_a_gas(rt: HostRuntime) {
    expect_same(&rt, opening(&rt, None), [128, 64, 7, 0, 0, 0]);
    let gas = decode(rt.alloc(), snapshot(&rt, 22, 0x80).as_slice()).expect(&rt, "a gas");
    expect_same(&rt, opening(&rt, Some(gas)), [64, 64, 7, 1, 1, 1]);
}
