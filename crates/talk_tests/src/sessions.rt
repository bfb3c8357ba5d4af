//! Worked examples of sessions on a laboratory that nobody else uses.

ghost use Rattle.std.specs.Prelude.{◌≡◌};

use crate::expected::{expect_same, expect_that};
use crate::fixtures::{has, lab, opened};
use gas_lab::{Lab, Serial};
use gas_talk::session::session;
use gas_talk::{Alone, ReadCount, SessionEnd, serve_alone};
use gas_terms::Command;
use std::marker::Brand;
use std::process::Abort;
use std::sync::ledger::{Blank, Ledger};
use test_types::faults::{FaultAt, Feed, Sink, Store};

const ALL: usize = usize::MAX;

fn sink(rt: &impl AllocGlobal) -> Sink {
    Sink::new(rt.alloc(), ALL, ALL, FaultAt::never())
}

// How a session of seat 5 ends, and what it writes.
fn ends_so(
    rt: &(impl Abort + AllocGlobal),
    lab: &mut Lab<Serial>,
    feed: &mut Feed<'_>,
    sink: &mut Sink,
    replies: &[u8],
    end: SessionEnd,
) {
    let found = end_of(rt, lab, feed, sink);
    expect_same(&rt, (found, sink.taken()), (end, replies));
}

fn end_of(
    rt: &impl AllocGlobal,
    lab: &mut Lab<Serial>,
    feed: &mut Feed<'_>,
    sink: &mut Sink,
) -> SessionEnd {
    let mut store = Store::new(rt.alloc(), FaultAt::never());
    serve_alone(rt.alloc(), feed, sink, lab, 5, &mut store)
}

// An input that comes in pieces.
fn served_on(
    rt: &(impl Abort + AllocGlobal),
    lab: &mut Lab<Serial>,
    input: &[u8],
    step: usize,
    replies: &[u8],
    end: SessionEnd,
) {
    let mut feed = Feed::new(input, step, FaultAt::never());
    let mut sink = sink(rt);
    ends_so(rt, lab, &mut feed, &mut sink, replies, end);
}

fn served(
    rt: &(impl Abort + AllocGlobal),
    input: &[u8],
    step: usize,
    replies: &[u8],
    end: SessionEnd,
) {
    let mut lab = lab(rt);
    served_on(rt, &mut lab, input, step, replies, end);
}

#[test]
fn one_particle_steps(rt: HostRuntime) {
    for step in [1, 7, ALL] {
        served(
            &rt,
            b"put 0 0 1 1\nstep 1\nprobe 1 1 1 1\ntally\n",
            step,
            b"OK 0\nOK 1\nPROBE 1 1 1\nTALLY 1 1 1 1\n",
            SessionEnd::InputEnd,
        );
    }
}

#[test]
fn quit_is_answered(rt: HostRuntime) {
    served(
        &rt,
        b"tally\nquit\ntally\n",
        ALL,
        b"TALLY 0 0 0 0\nBYE\n",
        SessionEnd::Quit,
    );
}

#[test]
fn not_utf8_line(rt: HostRuntime) {
    served(
        &rt,
        b"\xff\ntally\n",
        ALL,
        b"ERR 1 line\n",
        SessionEnd::BadLine,
    );
}

// The first two puts are there, and are seat 3's.
fn has_two_puts(rt: &impl Abort, lab: &Lab<Serial>) {
    expect_same(&rt, lab.journal().len(), 2);
    for entry in lab.journal() {
        expect_that(&rt, entry.seat == 3);
        expect_that(&rt, matches!(&entry.command, Command::Put(_)));
    }
    let particles = lab.gas().particles();
    expect_same(
        &rt,
        (has(particles, 0, 0), has(particles, 2, 2)),
        (true, true),
    );
}

// Seat 3 asks for three puts, and its writer fails within the second reply.
fn answered_in_part<R: Abort + AllocGlobal, L: Ledger>(rt: &R, lab: &mut Lab<Serial>, blank: Blank)
    requires name { blank.name ≡ L.name }
    requires parts { (blank.parts ≡ L.parts) × (blank.parts ≡ 1) }
{
    let input = b"put 0 0 1 1\nput 2 2 1 1\nput 4 4 1 1\n".as_slice();
    let mut feed = Feed::new(input, ALL, FaultAt::never());
    let mut sink = Sink::new(rt.alloc(), ALL, 7, FaultAt::never());
    let mut store = Store::new(rt.alloc(), FaultAt::never());
    let mut door = Alone {
        lab: &mut *lab,
        seat: 3,
    };
    let mut count = ReadCount::<L>::new(blank);
    let end = session(
        rt.alloc(),
        &mut feed,
        &mut sink,
        &mut door,
        &mut store,
        &mut count,
    );
    expect_same(&rt, end, SessionEnd::WriteFault);
    expect_same(&rt, sink.taken(), b"OK 0\nOK".as_slice());
    has_two_puts(rt, lab);
}

// Each reply is flushed.
fn read_fails(rt: &(impl Abort + AllocGlobal), lab: &mut Lab<Serial>) {
    let mut feed = Feed::new(b"tally\ntally\n", 6, FaultAt::after(1));
    let mut sink = sink(rt);
    let replies = b"TALLY 0 0 0 0\n".as_slice();
    let end = SessionEnd::ReadFault;
    ends_so(rt, lab, &mut feed, &mut sink, replies, end);
    expect_same(&rt, sink.flushes(), 1);
}

fn write_fails(
    rt: &(impl Abort + AllocGlobal),
    lab: &mut Lab<Serial>,
    fault: FaultAt,
    replies: &[u8],
) {
    let mut feed = Feed::new(b"tally\ntally\n", ALL, FaultAt::never());
    let mut sink = Sink::new(rt.alloc(), ALL, ALL, fault);
    let end = SessionEnd::WriteFault;
    ends_so(rt, lab, &mut feed, &mut sink, replies, end);
}

fn calls_fail(rt: &(impl Abort + AllocGlobal), lab: &mut Lab<Serial>) {
    read_fails(rt, lab);
    let replies = b"TALLY 0 0 0 0\n".as_slice();
    write_fails(rt, lab, FaultAt::after(1), replies);
    write_fails(rt, lab, FaultAt::after(2), replies);
    write_fails(rt, lab, FaultAt::nothing_after(2), replies);
}

#[test]
fn failing_calls_end_a_session(rt: HostRuntime) {
    let mut lab = lab(&rt);
    calls_fail(&rt, &mut lab);
    answered_in_part::<HostRuntime, Brand>(&rt, &mut lab, Blank::new(1));
}

// A byte a read: 2^24 reads are made, and another is needed.
fn reads_too_often(rt: &(impl Abort + AllocGlobal), lab: &mut Lab<Serial>) {
    let mut feed = Feed::endless(b"tally\n", 1);
    let mut sink = sink(rt);
    expect_same(
        &rt,
        end_of(rt, lab, &mut feed, &mut sink),
        SessionEnd::TooManyReads,
    );
    expect_same(
        &rt,
        (feed.reads(), sink.taken().len()),
        (16_777_216, 39_146_828),
    );
}

#[test]
fn too_many_reads(rt: HostRuntime) {
    let mut lab = lab(&rt);
    reads_too_often(&rt, &mut lab);
}

fn cannot_write(rt: &(impl Abort + AllocGlobal), lab: &mut Lab<Serial>) {
    write_fails(rt, lab, FaultAt::after(0), b"");
    expect_that(&rt, lab.journal().is_empty());
}

// Whichever allocation is refused, that of the line reader too: if nothing can be written, the session ends so.
#[test]
fn refused_memory_to_a_session_that_cannot_write(rt: HostRuntime) {
    if let Ok(mut lab) = opened(&rt) {
        cannot_write(&rt, &mut lab);
    }
}
