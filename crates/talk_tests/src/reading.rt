//! Lines and their requests, or the first of their faults.

use crate::expected::{expect_same, expect_that};
use crate::fixtures::size;
use gas_talk::{Request, read_command};
use gas_terms::{Command, Refusal, Size};
use std::process::Abort;

const FAULTS: [(&str, Refusal); 22] = [
    ("", Refusal::Word),
    ("jump", Refusal::Word),
    ("Put 0 0 1 1", Refusal::Word),
    ("put 0 0 1", Refusal::Count),
    ("put a 0 1", Refusal::Count),
    ("put 0 0 1 4294967296", Refusal::Number),
    ("put 00000000000 0 1 1", Refusal::Number),
    ("put 0 0 1 4294967295", Refusal::Rect),
    ("put 63 63 2 1", Refusal::Rect),
    ("source 0 0 1 1 0", Refusal::Period),
    ("source 60 0 8 1 0", Refusal::Rect),
    // Numbers of steps.
    ("step 0", Refusal::Steps),
    ("step 4097", Refusal::Steps),
    ("back 0", Refusal::Steps),
    ("back 4294967295", Refusal::Steps),
    ("back", Refusal::Count),
    // Rows and their digits.
    ("row 0 80000000", Refusal::Row),
    ("row 0 80000000000000010", Refusal::Row),
    ("row 0 800000000000000100", Refusal::Row),
    ("row 0 zzzzzzzzzzzzzzzz", Refusal::Row),
    ("row 64 8000000000000000", Refusal::Rect),
    ("read 64", Refusal::Rect),
];

// Of which one is first.
const ORDER: [(&str, Refusal); 15] = [
    ("tally x", Refusal::Count),
    ("probe 0 0 1 -1", Refusal::Number),
    ("probe 0 0 0 1", Refusal::Rect),
    ("source 0 0 65 1 0", Refusal::Rect),
    ("row 64 zz", Refusal::Rect),
    ("step 4294967296", Refusal::Number),
    ("+tally", Refusal::Word),
    ("tally\r", Refusal::Word),
    ("tally\t", Refusal::Word),
    ("   ", Refusal::Word),
    ("row x zz zz", Refusal::Count),
    ("row x zz", Refusal::Number),
    ("source 64 0 1 1 x", Refusal::Number),
    ("source 0 0 1 1 65536", Refusal::Period),
    ("put +0 0 1 1", Refusal::Number),
];

// What stands against a line for a lattice of this size.
fn fault_on(rt: &impl AllocGlobal, size: Size, line: &str) -> Option<Refusal> {
    read_command(rt.alloc(), line, size).err()
}

fn is_fault(rt: &(impl Abort + AllocGlobal), line: &str, refusal: Refusal) {
    let fault = fault_on(rt, size(rt), line);
    expect_same(&rt, (line, fault), (line, Some(refusal)));
}

#[test]
fn refused_lines(rt: HostRuntime) {
    for (line, refusal) in FAULTS {
        is_fault(&rt, line, refusal);
    }
}

#[test]
fn order_of_refusals(rt: HostRuntime) {
    for (line, refusal) in ORDER {
        is_fault(&rt, line, refusal);
    }
}

/// Whether a line gives this row.
pub fn gives_row(
    rt: &impl AllocGlobal,
    size: Size,
    line: &str,
    number: u16,
    bytes: &[u8],
) -> Result<bool, Refusal> {
    match read_command(rt.alloc(), line, size) {
        Ok(Request::Ask(Command::Row(y, bits))) => Ok(y == number && bits.bytes() == bytes),
        Ok(_) => Ok(false),
        Err(refusal) => Err(refusal),
    }
}

#[test]
fn rows_and_hex(rt: HostRuntime) {
    let size = size(&rt);
    for (line, y, bytes) in [
        ("row 0 8000000000000001", 0, [0x80, 0, 0, 0, 0, 0, 0, 1]),
        ("row 0 C000000000000000", 0, [0xc0, 0, 0, 0, 0, 0, 0, 0]),
        (
            "row 28 0000000ff0000000",
            28,
            [0, 0, 0, 0x0f, 0xf0, 0, 0, 0],
        ),
        (
            "row 63 FfffFFFFFFFFaB01",
            63,
            [255, 255, 255, 255, 255, 255, 0xab, 1],
        ),
    ] {
        let given = gives_row(&rt, size, line, y, &bytes);
        expect_same(&rt, (line, given), (line, Ok(true)));
    }
}

#[test]
fn widest_lattice(rt: HostRuntime) {
    let wide = Size::new(4096, 64).expect(&rt, "a size");
    let beyond = fault_on(&rt, wide, "put 4096 0 1 1");
    let last = fault_on(&rt, wide, "put 4095 63 1 1");
    expect_same(&rt, (beyond, last), (Some(Refusal::Rect), None));
}

// Passes too if the allocation is refused.
#[test]
fn refused_row_reading(rt: HostRuntime) {
    let bytes = [0xff, 0, 0, 0, 0, 0, 0, 0x55];
    let given = gives_row(&rt, size(&rt), "row 7 ff00000000000055", 7, &bytes);
    expect_that(&rt, matches!(given, Ok(true) | Err(Refusal::Memory)));
    is_fault(&rt, "row 7 ff000000000000", Refusal::Row);
    is_fault(&rt, "row 64 ff00000000000055", Refusal::Rect);
    for line in ["put 0 0 1 1", "entry 0"] {
        expect_same(&rt, fault_on(&rt, size(&rt), line), None);
    }
}
