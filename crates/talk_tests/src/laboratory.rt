//! A laboratory that is called directly, with allocations that fail one by one: a change is done whole or not at all.

use crate::commands::{Word, parts_of};
use crate::expected::{expect_same, expect_that};
use crate::fixtures::{CAP, lab, opened};
use gas_lab::{Gas, Lab, Serial};
use gas_ledger::Source;
use gas_plane::Plane;
use gas_terms::{Answer, Command, Entry, Ledger, Rect, Refusal, RowBits};
use std::process::Abort;

// The bytes of the rows of 64 by 64 cells.
const CELLS: usize = 512;

// What a gas shows. Nothing here takes memory that could be refused.
#[derive(Clone, Copy, PartialEq, Eq)]
struct ShownGas {
    tick: i64,
    particles: [u8; CELLS],
    walls: [u8; CELLS],
    obstacles: [u8; CELLS],
    drains: [Option<Rect>; 16],
    sources: [Option<Source>; 16],
}

// An entry: its seat and its command, by the command's word, its rectangle, its number and its row.
#[derive(Clone, Copy, PartialEq, Eq)]
struct ShownEntry {
    seat: u16,
    parts: (Word, Option<Rect>, u32),
    row: [Option<u8>; 16],
}

#[derive(Clone, Copy, PartialEq, Eq)]
struct Shown {
    start: ShownGas,
    cap: u32,
    gas: ShownGas,
    ledger: Ledger,
    entries: usize,
    journal: [Option<ShownEntry>; CAP],
}

fn cells_of(rt: &impl Abort, plane: &Plane) -> [u8; CELLS] {
    let mut cells = [0; CELLS];
    for y in 0..64u32 {
        let size = plane.size();
        expect_that(&rt, size.width() == 64);
        expect_that(&rt, size.height() == 64);
        let from = y as usize * 8;
        plane.row_bytes(y, &mut cells[from..from + 8]);
    }
    cells
}

// The first of a list, with room for more.
fn few<T: Copy>(list: &[T]) -> [Option<T>; 16] {
    let mut shown = [None; 16];
    for (place, item) in shown.iter_mut().zip(list) {
        *place = Some(*item);
    }
    shown
}

fn gas_view(rt: &impl Abort, gas: &Gas) -> ShownGas {
    ShownGas {
        tick: gas.tick().get(),
        particles: cells_of(rt, gas.particles()),
        walls: cells_of(rt, gas.walls()),
        obstacles: cells_of(rt, gas.obstacles()),
        drains: few(gas.ports().drains()),
        sources: few(gas.ports().sources()),
    }
}

fn row_bytes(command: &Command) -> &[u8] {
    match command {
        Command::Row(_, bits) => bits.bytes(),
        _ => &[],
    }
}

fn entry_view(entry: &Entry) -> ShownEntry {
    ShownEntry {
        seat: entry.seat,
        parts: parts_of(&entry.command),
        row: few(row_bytes(&entry.command)),
    }
}

fn journal_view(journal: &[Entry]) -> [Option<ShownEntry>; CAP] {
    let mut shown = [None; CAP];
    for (place, entry) in shown.iter_mut().zip(journal) {
        *place = Some(entry_view(entry));
    }
    shown
}

fn view_of(rt: &impl Abort, lab: &Lab<Serial>) -> Shown {
    Shown {
        start: gas_view(rt, lab.start()),
        cap: lab.cap(),
        gas: gas_view(rt, lab.gas()),
        ledger: *lab.ledger(),
        entries: lab.journal().len(),
        journal: journal_view(lab.journal()),
    }
}

fn ask(
    rt: &impl Abort,
    lab: &mut Lab<Serial>,
    seat: u16,
    command: Command,
) -> Result<Answer, Refusal> {
    expect_that(&rt, command.fits(lab.size()));
    lab.apply(seat, command)
}

// The seat, the command's word and the number of entry k, whoever asks for it.
fn entry_at(rt: &impl Abort, lab: &mut Lab<Serial>, k: u32) -> Result<(u16, Word, u32), Refusal> {
    match ask(rt, lab, 7, Command::Entry(k)) {
        Ok(Answer::EntryIs(entry)) => {
            let (word, _, number) = parts_of(&entry.command);
            Ok((entry.seat, word, number))
        }
        Ok(_) => panic!(rt; "no entry"),
        Err(refusal) => Err(refusal),
    }
}

// Changes, of which none is refused but for memory.
fn change(number: u32, area: Rect) -> Command {
    match number {
        0 => Command::Put(area),
        1 => Command::Wall(area),
        2 => Command::Block(area),
        3 => Command::Step(3),
        4 => Command::Back(1),
        5 => Command::Source(area, 1),
        6 => Command::Drain(area),
        _ => Command::Unport,
    }
}

// The place of a change of seat 3 in the journal.
fn taken(rt: &impl Abort, lab: &mut Lab<Serial>, change: Command) -> Result<u32, Refusal> {
    match ask(rt, lab, 3, change) {
        Ok(Answer::Taken(k)) => Ok(k),
        Ok(_) => panic!(rt; "a reading"),
        Err(refusal) => Err(refusal),
    }
}

fn stays(rt: &impl Abort, lab: &Lab<Serial>, before: &Shown) {
    expect_that(&rt, view_of(rt, lab) == *before);
}

// A change is taken, or memory is wanted and nothing changes.
fn changes_or_not(rt: &impl Abort, lab: &mut Lab<Serial>, number: u32, area: Rect) {
    let before = view_of(rt, lab);
    match taken(rt, lab, change(number, area)) {
        Ok(k) => {
            expect_same(&rt, k as usize, before.entries);
            let entry = entry_at(rt, lab, k);
            expect_that(&rt, matches!(entry, Ok((3, _, _)) | Err(Refusal::Memory)));
        }
        Err(refusal) => {
            expect_same(&rt, refusal, Refusal::Memory);
            stays(rt, lab, &before);
        }
    }
}

fn take_changes_or_not(rt: &impl Abort, lab: &mut Lab<Serial>) {
    let area = Rect::within(lab.size(), 0, 0, 2, 2).expect(rt, "a rectangle");
    for number in 0..8u32 {
        changes_or_not(rt, lab, number, area);
    }
}

#[test]
fn refused_changes_leave_the_laboratory(rt: HostRuntime) {
    if let Ok(mut lab) = opened(&rt) {
        take_changes_or_not(&rt, &mut lab);
    }
}

fn put_a_row(rt: &(impl Abort + AllocGlobal), lab: &mut Lab<Serial>) {
    if let Ok(row) = RowBits::zero(rt.alloc(), 8) {
        if let Err(refusal) = ask(rt, lab, 0, Command::Row(3, row)) {
            expect_same(&rt, refusal, Refusal::Memory);
        }
    }
}

// A row without cells is read, or memory is wanted.
fn is_an_empty_row(rt: &impl Abort, reply: &Result<Answer, Refusal>) {
    match reply {
        Ok(Answer::RowIs(row)) => expect_same(&rt, row.bytes(), [0; 8].as_slice()),
        Ok(_) => panic!(rt; "no row"),
        Err(refusal) => expect_same(&rt, *refusal, Refusal::Memory),
    }
}

// Seat 0's entry of the row is answered, or memory is wanted, or there is none.
fn reads_the_entry(rt: &impl Abort, lab: &mut Lab<Serial>) {
    let none = lab.journal().is_empty();
    match entry_at(rt, lab, 0) {
        Ok(entry) => expect_same(&rt, entry, (0, Word::Row, 3)),
        Err(refusal) => expect_that(&rt, none || refusal == Refusal::Memory),
    }
}

// The tick of a gas, and the particles of a rectangle.
fn numbers_of(rt: &impl Abort, gas: &Gas, area: Rect) -> (i64, [u64; 4]) {
    expect_that(&rt, area.fits(gas.size()));
    (gas.tick().get(), gas.particles().counts_in(area))
}

// So in a copy.
fn copied(rt: &impl Abort, lab: &Lab<Serial>, area: Rect) -> Option<(i64, [u64; 4])> {
    let gas = lab.copy_gas().ok()?;
    Some(numbers_of(rt, &gas, area))
}

// A row is read, an entry is asked for and the gas is copied, and the laboratory stays as it was.
fn readings_leave(rt: &(impl Abort + AllocGlobal), lab: &mut Lab<Serial>) {
    put_a_row(rt, lab);
    let area = Rect::within(lab.size(), 0, 3, 64, 1).expect(rt, "a rectangle");
    let before = view_of(rt, lab);
    is_an_empty_row(rt, &ask(rt, lab, 0, Command::Read(3)));
    stays(rt, lab, &before);
    reads_the_entry(rt, lab);
    stays(rt, lab, &before);
    let copy = copied(rt, lab, area);
    expect_that(&rt, copy.is_none() || copy == Some((0, [0; 4])));
    stays(rt, lab, &before);
}

#[test]
fn refused_readings_leave_the_laboratory(rt: HostRuntime) {
    if let Ok(mut lab) = opened(&rt) {
        readings_leave(&rt, &mut lab);
    }
}

fn puts_and_copies(rt: &impl Abort, lab: &mut Lab<Serial>) {
    let area = Rect::within(lab.size(), 5, 6, 3, 2).expect(rt, "a rectangle");
    expect_that(&rt, ask(rt, lab, 0, Command::Put(area)).is_ok());
    // Columns 5 to 7 and rows 6 and 7.
    expect_same(&rt, copied(rt, lab, area), Some((0, [1, 2, 1, 2])));
    expect_same(&rt, (lab.start().tick().get(), lab.cap()), (0, 8));
}

#[test]
fn a_gas_is_copied(rt: HostRuntime) {
    let mut lab = lab(&rt);
    puts_and_copies(&rt, &mut lab);
}
