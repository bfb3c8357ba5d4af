//! Lines that are refused, and inputs that end within a line, come in pieces, or never end.

use crate::expected::{expect_same, expect_that};
use crate::script::{ALL, LabShape, SMALL, answers, gives, lines, status_on};
use std::process::Abort;
use std::thread::Threads;
use std::time::Clock;
use test_types::faults::{FaultAt, Feed, Sink, Store};

const REFUSED: &str =
    "; jump; Put 0 0 1 1; put 0 0 1; put a 0 1; put 0 0 1 4294967296; put 00000000000 0 1 1; put 0 0 1 4294967295; step 4097; source 0 0 1 1 0; source 60 0 8 1 0; entry 0; quit; tally";

const REFUSALS: &str =
    "ERR 2 word; ERR 2 word; ERR 2 word; ERR 3 count; ERR 3 count; ERR 4 number; ERR 4 number; ERR 5 rect; ERR 6 steps; ERR 7 period; ERR 5 rect; ERR 9 entry; BYE";

#[test]
fn empty_input(rt: HostRuntime) {
    answers(&rt, SMALL, b"", ALL, b"", 0);
}

#[test]
fn torn_last_line(rt: HostRuntime) {
    answers(&rt, SMALL, b"put 0 0 1 1", ALL, b"", 0);
}

#[test]
fn refused_lines(rt: HostRuntime) {
    gives(&rt, REFUSED, REFUSALS);
}

#[test]
fn any_cut_of_the_input(rt: HostRuntime) {
    let input = lines(&rt, REFUSED);
    let output = lines(&rt, REFUSALS);
    for step in [1, 7, 4096] {
        answers(&rt, SMALL, input.as_slice(), step, output.as_slice(), 0);
    }
}

#[test]
fn bad_numbers_of_steps(rt: HostRuntime) {
    gives(
        &rt,
        "put 0 0 1 1; step 0; step 4097; put 63 63 2 1; back 1; tally",
        "OK 0; ERR 6 steps; ERR 6 steps; ERR 5 rect; OK 1; TALLY -1 1 1 1",
    );
}

#[test]
fn order_of_refusals(rt: HostRuntime) {
    gives(
        &rt,
        "tally x; probe 0 0 1 -1; probe 0 0 0 1; source 0 0 65 1 0; row 64 zz; step 4294967296; entry 65536; +tally",
        "ERR 3 count; ERR 4 number; ERR 5 rect; ERR 5 rect; ERR 5 rect; ERR 4 number; ERR 9 entry; ERR 2 word",
    );
    answers(&rt, SMALL, b"tally\r\r\n", ALL, b"ERR 2 word\n", 0);
}

fn push_all(rt: &impl Abort, bytes: &mut Vec<u8>, byte: u8, count: u32) {
    for _ in 0..count {
        bytes.push(byte).expect(rt, "memory");
    }
}

#[test]
fn widest_lattice(rt: HostRuntime) {
    let mut input = lines(
        &rt,
        "put 4095 63 1 1; step 1; probe 4094 62 1 1; put 4096 0 1 1",
    );
    input.extend_from_slice(b"row 0 ").expect(&rt, "memory");
    push_all(&rt, &mut input, b'f', 1024);
    input.extend_from_slice(b"\nread 0\n").expect(&rt, "memory");
    let mut output = lines(&rt, "OK 0; OK 1; PROBE 1 -1 -1; ERR 5 rect; OK 2");
    output.extend_from_slice(b"ROW ").expect(&rt, "memory");
    push_all(&rt, &mut output, b'f', 1024);
    output.push(b'\n').expect(&rt, "memory");
    let shape = LabShape {
        width: 4096,
        ..SMALL
    };
    answers(&rt, shape, input.as_slice(), ALL, output.as_slice(), 0);
}

// A line of 2,049 bytes, with a newline or without; and `tally` with spaces and a carriage return, of 2,048 bytes.
#[test]
fn too_long_line(rt: HostRuntime) {
    let mut long = Vec::new(rt.alloc());
    push_all(&rt, &mut long, b'x', 2049);
    answers(&rt, SMALL, long.as_slice(), ALL, b"ERR 1 line\n", 5);
    long.extend_from_slice(b"\ntally\n").expect(&rt, "memory");
    answers(&rt, SMALL, long.as_slice(), ALL, b"ERR 1 line\n", 5);
    let mut fits = Vec::from_slice(rt.alloc(), b"tally").expect(&rt, "memory");
    push_all(&rt, &mut fits, b' ', 2042);
    fits.extend_from_slice(b"\r\n").expect(&rt, "memory");
    answers(&rt, SMALL, fits.as_slice(), ALL, b"TALLY 0 0 0 0\n", 0);
}

#[test]
fn not_utf8_line(rt: HostRuntime) {
    answers(&rt, SMALL, b"\xff\ntally\n", ALL, b"ERR 1 line\n", 5);
}

const TALLY: &[u8] = b"tally\n";

const TALLIED: &[u8] = b"TALLY 0 0 0 0\n";

// How many replies were written, each of which has to be the tally of nothing.
fn count_tallies(rt: &impl Abort, output: &[u8]) -> usize {
    let mut rest = output;
    let mut count = 0usize;
    for _ in 0..u64::MAX {
        match rest.strip_prefix(TALLIED) {
            Some(more) => rest = more,
            None => break,
        }
        count = count.saturating_add(1);
    }
    expect_that(&rt, rest.is_empty());
    count
}

// The status of a run over this feed, and how many tallies it writes.
fn tallied(rt: &(impl Abort + AllocGlobal + Threads + Clock), feed: &mut Feed<'_>) -> (u8, usize) {
    let mut sink = Sink::new(rt.alloc(), ALL, ALL, FaultAt::never());
    let mut store = Store::new(rt.alloc(), FaultAt::never());
    let status = status_on(rt, SMALL, None, feed, &mut sink, &mut store);
    (status, count_tallies(rt, sink.taken()))
}

// 2^24 reads of one byte each.
#[test]
fn too_many_reads(rt: HostRuntime) {
    let mut feed = Feed::endless(TALLY, 1);
    expect_same(&rt, tallied(&rt, &mut feed), (1, 2_796_202));
    expect_same(&rt, feed.reads(), 16_777_216);
}

// 12,000 bytes.
#[test]
fn reads_ask_for_at_most_a_page(rt: HostRuntime) {
    let mut input = Vec::new(rt.alloc());
    for _ in 0..2000u32 {
        input.extend_from_slice(TALLY).expect(&rt, "memory");
    }
    let mut feed = Feed::new(input.as_slice(), ALL, FaultAt::never());
    expect_same(&rt, tallied(&rt, &mut feed), (0, 2000));
    expect_that(&rt, 0 < feed.asked() && feed.asked() <= 4096);
}
