//! The laboratories that tests start from, and what is seen of them.

ghost use Rattle.std.specs.Prelude.{◌≡◌, [], IfSome, length};

use gas_lab::{Answer, Gas, Lab, Serial};
use gas_talk::Copied;
use gas_terms::{Command, Entry, NoMemory, Refusal, Size, Sums};
use std::alloc::Global;
use std::process::Abort;
use std::sync::atomic::{AtomicU32, Ordering};
use test_types::faults::Counter;

/// An empty laboratory of 64 by 64.
pub fn small_lab(alloc: Global) -> Option<Lab<Serial>>
    ensures { IfSome result (λ lab. lab.journal ≡ []) }
{
    empty_lab(alloc, 64)
}

/// An empty laboratory of this width, and 64 high.
pub fn empty_lab(alloc: Global, width: u32) -> Option<Lab<Serial>>
    ensures { IfSome result (λ lab. lab.journal ≡ []) }
{
    let size = Size::new(width, 64)?;
    let gas = Gas::empty(alloc, size).ok()?;
    Lab::open(alloc, gas, 1024, Serial).ok()
}

/// So many shelves, each of which counts what it takes in its own place, or in the last place if there are no more.
pub fn counters<'a>(
    alloc: Global,
    puts: &'a [AtomicU32],
    count: usize,
) -> Option<Vec<Counter<'a>>> {
    let mut shelves = Vec::new(alloc);
    for i in 0..count {
        if let Some(own) = puts.get(i).or(puts.last()) {
            shelves.push(Counter::new(own)).ok()?;
        }
    }
    Some(shelves)
}

/// A place for each of three shelves to count in.
pub fn no_puts() -> [AtomicU32; 3] {
    [AtomicU32::new(0), AtomicU32::new(0), AtomicU32::new(0)]
}

/// What they counted.
pub fn counted(puts: &[AtomicU32; 3]) -> [u32; 3] {
    let [first, second, third] = puts;
    [
        first.load(Ordering::SeqCst),
        second.load(Ordering::SeqCst),
        third.load(Ordering::SeqCst),
    ]
}

/// Whether it puts one cell of row 0, in this column.
pub fn is_put_at(command: &Command, x: u16) -> bool {
    match command {
        Command::Put(area) => (area.x(), area.y(), area.w(), area.h()) == (x, 0, 1, 1),
        _ => false,
    }
}

/// Whether the journal has just these entries: each a seat, and the column of the one cell that it put into row 0.
pub fn are_puts(journal: &[Entry], wanted: &[(u16, u16)]) -> bool {
    let mut same = journal.len() == wanted.len();
    for (entry, (seat, x)) in journal.iter().zip(wanted) {
        same = same && entry.seat == *seat && is_put_at(&entry.command, *x);
    }
    same
}

/// What the reply to `tally` tells: count and momentum.
pub fn summed(rt: &impl Abort, reply: &Result<Answer, Refusal>) -> (i64, i64, i64) {
    match reply {
        Ok(Answer::Tallied(_, Sums { count, px, py })) => (*count, *px, *py),
        _ => panic!(rt; "no tally"),
    }
}

fn tally(gas: &Gas) -> (i64, i64, i64) {
    let Sums { count, px, py } = gas.particles().total(gas.tick().parity());
    (count, px, py)
}

/// What is seen of a laboratory: count and momentum of its gas, how many entries its journal has, and whether they are the
/// puts that were looked for.
#[derive(Clone, Copy)]
pub struct Seen {
    pub tally: (i64, i64, i64),
    pub entries: usize,
    pub are_puts: bool,
}

/// What is seen of this laboratory, with these puts looked for.
pub fn look_at(lab: Lab<Serial>, puts: &[(u16, u16)]) -> Seen
    ensures { result.entries ≡ length lab.journal }
{
    let journal = lab.journal();
    Seen {
        tally: tally(lab.gas()),
        entries: journal.len(),
        are_puts: are_puts(journal, puts),
    }
}

/// The sums of a copy's gas, and how many entries the journal had.
pub fn sums_of(rt: &impl Abort, copied: Result<Copied, NoMemory>) -> ((i64, i64, i64), u32) {
    let Copied { gas, entries } = copied.expect(rt, "memory");
    (tally(&gas), entries)
}

/// The index of the entry that an answer tells of, or why it was refused.
pub fn taken(reply: &Result<Answer, Refusal>) -> Result<u32, Refusal> {
    match reply {
        Ok(Answer::Taken(k)) => Ok(*k),
        Ok(_) => Ok(u32::MAX),
        Err(refusal) => Err(*refusal),
    }
}
