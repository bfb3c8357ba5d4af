//! Readers, writers and shelves that fail at one of their calls. What was done and written before stays.

use crate::expected::expect_same;
use crate::script::{ALL, SMALL, gives_with, lines, status_on};
use gas_lab::{Gas, Lab};
use gas_snapshot::Shelf;
use gas_talk::{SessionEnd, serve_alone};
use gas_terms::Size;
use phase_strips::StripTeam;
use std::process::Abort;
use std::thread::Threads;
use std::time::Clock;
use test_types::faults::{FaultAt, Feed, Sink, Store};

const CHANNEL: &str =
    "wall 0 20 64 1; wall 0 29 64 1; put 28 21 8 8; step 100; back 100; tally; ledger; read 21; read 28; read 29";

const CHANNEL_REPLIES: &str =
    "OK 0; OK 1; OK 2; OK 3; OK 4; TALLY 0 64 0 0; LEDGER 0 64 0 0 0 0 0 0 0 0 0 0 0; ROW 0000000ff0000000; ROW 0000000ff0000000; ROW 0000000000000000";

const SAVING: &str = "put 0 0 1 1; save; tally";

const SAVING_REPLIES: &str = "OK 0; SAVED 1 1558; TALLY 0 1 1 1";

// What a run reads, and what it writes if nothing fails.
#[derive(Drop)]
struct Dialogue {
    input: Vec<u8>,
    output: Vec<u8>,
}

fn dialogue_of(
    rt: &(impl Abort + AllocGlobal + Threads + Clock),
    input: &str,
    output: &str,
) -> Dialogue {
    Dialogue {
        input: lines(rt, input),
        output: lines(rt, output),
    }
}

// How much a read gives and a write takes, and which of them fails.
#[derive(Clone, Copy)]
struct Failing {
    reads: FaultAt,
    read_step: usize,
    writes: FaultAt,
    write_step: usize,
}

fn no_fault() -> Failing {
    Failing {
        reads: FaultAt::never(),
        read_step: ALL,
        writes: FaultAt::never(),
        write_step: ALL,
    }
}

// How many lines are asked, how many bytes are written, and how the session ends.
#[derive(Clone, Copy)]
struct FailingOutcome {
    asked: usize,
    written: usize,
    end: SessionEnd,
}

fn outcome(asked: usize, written: usize, end: SessionEnd) -> FailingOutcome {
    FailingOutcome {
        asked,
        written,
        end,
    }
}

fn status_of(end: SessionEnd) -> u8 {
    if end == SessionEnd::InputEnd { 0 } else { 1 }
}

fn count_lines(text: &[u8]) -> usize {
    let mut count = 0usize;
    for byte in text {
        if *byte == b'\n' {
            count = count.saturating_add(1);
        }
    }
    count
}

fn front(text: &[u8], len: usize) -> &[u8] {
    &text[..len.min(text.len())]
}

fn first_lines(text: &[u8], count: usize) -> &[u8] {
    let mut left = count;
    let mut len = 0usize;
    for byte in text {
        if left == 0 {
            return front(text, len);
        }
        if *byte == b'\n' {
            left = left.saturating_sub(1);
        }
        len = len.saturating_add(1);
    }
    text
}

fn opened<R: Abort + AllocGlobal + Threads + Clock>(rt: &R) -> Lab<StripTeam<&R>> {
    let size = Size::new(64, 64).expect(rt, "a size");
    let gas = Gas::empty(rt.alloc(), size).expect(rt, "memory");
    Lab::open(rt.alloc(), gas, 1024, StripTeam::new(rt, rt.alloc(), 1)).expect(rt, "memory")
}

// What a session wrote, what its shelf took, and how it ended.
#[derive(Drop)]
struct Session {
    sink: Sink,
    store: Store,
    end: SessionEnd,
}

fn sits<R: Abort + AllocGlobal + Threads + Clock>(
    rt: &R,
    lab: &mut Lab<StripTeam<&R>>,
    input: &[u8],
    failing: Failing,
) -> Session {
    let mut feed = Feed::new(input, failing.read_step, failing.reads);
    let mut sink = Sink::new(rt.alloc(), failing.write_step, ALL, failing.writes);
    let mut store = Store::new(rt.alloc(), FaultAt::never());
    let end = serve_alone(rt.alloc(), &mut feed, &mut sink, lab, 0, &mut store);
    Session { sink, store, end }
}

// All that can be seen of a laboratory: its tick, accounts and journal, and its gas as a snapshot.
fn view_of<R: Abort + AllocGlobal + Threads + Clock>(
    rt: &R,
    lab: &mut Lab<StripTeam<&R>>,
) -> Vec<u8> {
    let questions = lines(
        rt,
        "tally; ledger; entry 0; entry 1; entry 2; entry 3; entry 4; entry 5; save",
    );
    seen_by(rt, &sits(rt, lab, questions.as_slice(), no_fault()))
}

// What a session wrote, and the one snapshot that its shelf took.
fn seen_by(rt: &(impl Abort + AllocGlobal), session: &Session) -> Vec<u8> {
    expect_same(&rt, session.end, SessionEnd::InputEnd);
    let mut view = Vec::from_slice(rt.alloc(), session.sink.taken()).expect(rt, "memory");
    expect_same(&rt, session.store.kept().len(), 1);
    for bytes in session.store.kept() {
        view.extend_from_slice(bytes.as_slice())
            .expect(rt, "memory");
    }
    view
}

// A session on an empty laboratory, and what is then seen of that.
fn session_and_view(
    rt: &(impl Abort + AllocGlobal + Threads + Clock),
    input: &[u8],
    failing: Failing,
) -> (Session, Vec<u8>) {
    let mut lab = opened(rt);
    let session = sits(rt, &mut lab, input, failing);
    (session, view_of(rt, &mut lab))
}

/// Both shelves have taken the same.
pub fn are_same(rt: &impl Abort, found: &[Vec<u8>], wanted: &[Vec<u8>]) {
    expect_same(&rt, found.len(), wanted.len());
    for (found, wanted) in found.iter().zip(wanted) {
        expect_same(&rt, found.as_slice(), wanted.as_slice());
    }
}

// The laboratory is as after the lines, and the shelf has taken what it then has.
fn is_as_after(
    rt: &(impl Abort + AllocGlobal + Threads + Clock),
    found: &[u8],
    store: &Store,
    input: &[u8],
) {
    let (session, wanted) = session_and_view(rt, input, no_fault());
    expect_same(&rt, session.end, SessionEnd::InputEnd);
    expect_same(&rt, found, wanted.as_slice());
    are_same(rt, store.kept(), session.store.kept());
}

fn runs(
    rt: &(impl Abort + AllocGlobal + Threads + Clock),
    dialogue: &Dialogue,
    failing: Failing,
    wanted: FailingOutcome,
) {
    let mut feed = Feed::new(dialogue.input.as_slice(), failing.read_step, failing.reads);
    let mut sink = Sink::new(rt.alloc(), failing.write_step, ALL, failing.writes);
    let mut store = Store::new(rt.alloc(), FaultAt::never());
    let status = status_on(rt, SMALL, None, &mut feed, &mut sink, &mut store);
    expect_same(&rt, status, status_of(wanted.end));
    expect_same(
        &rt,
        sink.taken(),
        front(dialogue.output.as_slice(), wanted.written),
    );
}

// The run, and a session on a laboratory that is then looked at, go like this.
fn goes(
    rt: &(impl Abort + AllocGlobal + Threads + Clock),
    dialogue: &Dialogue,
    failing: Failing,
    wanted: FailingOutcome,
) {
    runs(rt, dialogue, failing, wanted);
    let (session, found) = session_and_view(rt, dialogue.input.as_slice(), failing);
    expect_same(&rt, session.end, wanted.end);
    expect_same(
        &rt,
        session.sink.taken(),
        front(dialogue.output.as_slice(), wanted.written),
    );
    let asked = first_lines(dialogue.input.as_slice(), wanted.asked);
    is_as_after(rt, found.as_slice(), &session.store, asked);
}

// So many bytes were read.
fn after_bytes(dialogue: &Dialogue, len: usize, end: SessionEnd) -> FailingOutcome {
    let asked = count_lines(front(dialogue.input.as_slice(), len));
    let output = first_lines(dialogue.output.as_slice(), asked);
    outcome(asked, output.len(), end)
}

// One byte a read, and this fault.
fn reading_fails(reads: FaultAt) -> Failing {
    Failing {
        read_step: 1,
        reads,
        ..no_fault()
    }
}

// This fault, and writes of at most so many bytes.
fn writing_fails(writes: FaultAt, write_step: usize) -> Failing {
    Failing {
        writes,
        write_step,
        ..no_fault()
    }
}

// How a session ends that fails at the read after so many, of which each gives a byte and one is for the end.
fn end_after(dialogue: &Dialogue, calls: usize) -> SessionEnd {
    if calls <= dialogue.input.len() {
        SessionEnd::ReadFault
    } else {
        SessionEnd::InputEnd
    }
}

fn readers_fail(rt: &(impl Abort + AllocGlobal + Threads + Clock), dialogue: &Dialogue) {
    for calls in 0..dialogue.input.len().saturating_add(2) {
        let cut = after_bytes(dialogue, calls, end_after(dialogue, calls));
        goes(
            rt,
            dialogue,
            reading_fails(FaultAt::after(calls as u64)),
            cut,
        );
        let ended = after_bytes(dialogue, calls, SessionEnd::InputEnd);
        goes(
            rt,
            dialogue,
            reading_fails(FaultAt::nothing_after(calls as u64)),
            ended,
        );
    }
}

// One read gives all, and a second is the end.
fn whole_readers_fail(rt: &(impl Abort + AllocGlobal + Threads + Clock), dialogue: &Dialogue) {
    let ends = [
        (0, SessionEnd::ReadFault),
        (ALL, SessionEnd::ReadFault),
        (ALL, SessionEnd::InputEnd),
    ];
    let mut calls = 0u64;
    for (len, end) in ends {
        let failing = Failing {
            reads: FaultAt::after(calls),
            ..no_fault()
        };
        goes(rt, dialogue, failing, after_bytes(dialogue, len, end));
        calls = calls.saturating_add(1);
    }
}

// Each reply is a write and a flush.
fn cut_by_replies(output: &[u8], calls: usize) -> FailingOutcome {
    let begun = (calls / 2).saturating_add(1);
    if begun > count_lines(output) {
        return outcome(count_lines(output), output.len(), SessionEnd::InputEnd);
    }
    let whole = if calls % 2 == 0 { calls / 2 } else { begun };
    let written = first_lines(output, whole).len();
    outcome(begun, written, SessionEnd::WriteFault)
}

// Each byte is a write, and after each newline there is a flush.
fn cut_by_bytes(output: &[u8], calls: usize) -> FailingOutcome {
    let mut left = calls;
    let mut written = 0usize;
    let mut whole = 0usize;
    for byte in output {
        if left == 0 {
            return outcome(whole.saturating_add(1), written, SessionEnd::WriteFault);
        }
        left = left.saturating_sub(1);
        written = written.saturating_add(1);
        if *byte == b'\n' {
            whole = whole.saturating_add(1);
            if left == 0 {
                return outcome(whole, written, SessionEnd::WriteFault);
            }
            left = left.saturating_sub(1);
        }
    }
    outcome(whole, written, SessionEnd::InputEnd)
}

// A write or flush fails in this way, be replies written whole or byte by byte.
fn writer_fails(
    rt: &(impl Abort + AllocGlobal + Threads + Clock),
    dialogue: &Dialogue,
    writes: FaultAt,
    calls: usize,
) {
    let output = dialogue.output.as_slice();
    goes(
        rt,
        dialogue,
        writing_fails(writes, ALL),
        cut_by_replies(output, calls),
    );
    goes(
        rt,
        dialogue,
        writing_fails(writes, 1),
        cut_by_bytes(output, calls),
    );
}

// A write or flush fails, or takes nothing.
fn writers_fail(rt: &(impl Abort + AllocGlobal + Threads + Clock), dialogue: &Dialogue) {
    let output = dialogue.output.as_slice();
    let all_calls = output.len().saturating_add(count_lines(output));
    for calls in 0..all_calls.saturating_add(1) {
        writer_fails(rt, dialogue, FaultAt::after(calls as u64), calls);
        writer_fails(rt, dialogue, FaultAt::nothing_after(calls as u64), calls);
        let end = cut_by_bytes(output, calls).end;
        expect_same(&rt, end == SessionEnd::InputEnd, calls == all_calls);
    }
}

#[test]
fn readers_fail_in_a_channel(rt: HostRuntime) {
    let dialogue = dialogue_of(&rt, CHANNEL, CHANNEL_REPLIES);
    readers_fail(&rt, &dialogue);
    whole_readers_fail(&rt, &dialogue);
}

#[test]
fn readers_fail_before_a_save(rt: HostRuntime) {
    let dialogue = dialogue_of(&rt, SAVING, SAVING_REPLIES);
    readers_fail(&rt, &dialogue);
    whole_readers_fail(&rt, &dialogue);
}

#[test]
fn writers_fail_in_a_channel(rt: HostRuntime) {
    writers_fail(&rt, &dialogue_of(&rt, CHANNEL, CHANNEL_REPLIES));
}

#[test]
fn writers_fail_at_a_save(rt: HostRuntime) {
    writers_fail(&rt, &dialogue_of(&rt, SAVING, SAVING_REPLIES));
}

// The output where the put after so many fails, and how many puts fail.
fn puts(
    rt: &(impl Abort + AllocGlobal + Threads + Clock),
    input: &str,
    calls: u64,
    output: &str,
    failures: u64,
    kept: usize,
) {
    let mut store = Store::new(rt.alloc(), FaultAt::after(calls));
    gives_with(rt, SMALL, None, &mut store, input, output);
    expect_same(
        &rt,
        (store.failures(), store.kept().len()),
        (failures, kept),
    );
}

#[test]
fn shelves_fail(rt: HostRuntime) {
    let failed = "OK 0; ERR 15 save; TALLY 0 1 1 1";
    puts(&rt, SAVING, 0, failed, 1, 0);
    puts(&rt, SAVING, 1, SAVING_REPLIES, 0, 1);
    puts(&rt, CHANNEL, 0, CHANNEL_REPLIES, 0, 0);
    let thrice = "save; put 0 0 1 1; save; step 1; save; tally";
    let outputs = [
        "ERR 15 save; OK 0; SAVED 1 1558; OK 1; SAVED 2 1558; TALLY 1 1 1 1",
        "SAVED 0 1558; OK 0; ERR 15 save; OK 1; SAVED 2 1558; TALLY 1 1 1 1",
        "SAVED 0 1558; OK 0; SAVED 1 1558; OK 1; ERR 15 save; TALLY 1 1 1 1",
    ];
    let mut calls = 0u64;
    for output in outputs {
        puts(&rt, thrice, calls, output, 1, 2);
        calls = calls.saturating_add(1);
    }
    let saved = "SAVED 0 1558; OK 0; SAVED 1 1558; OK 1; SAVED 2 1558; TALLY 1 1 1 1";
    puts(&rt, thrice, calls, saved, 0, 3);
}
