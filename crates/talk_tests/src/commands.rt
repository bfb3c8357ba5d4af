//! Each command: its line is read as it, and an entry has its canonical text.

use crate::expected::{expect_same, expect_that};
use crate::fixtures::size;
use gas_talk::{Reply, ReplyPage, Request, read_command, reply_text};
use gas_terms::{Answer, Command, Entry, Rect, Size};
use std::process::Abort;

/// What a line asks for, by its first word.
#[derive(Clone, Copy, Debug, PartialEq, Eq)]
pub enum Word {
    Put,
    Erase,
    Wall,
    Block,
    Unwall,
    Row,
    Source,
    Drain,
    Unport,
    Step,
    Back,
    Probe,
    Tally,
    Ledger,
    Read,
    Entry,
}

/// A command's word, its rectangle, and its number or 0.
pub fn parts_of(command: &Command) -> (Word, Option<Rect>, u32) {
    match command {
        Command::Put(area) => (Word::Put, Some(*area), 0),
        Command::Erase(area) => (Word::Erase, Some(*area), 0),
        Command::Wall(area) => (Word::Wall, Some(*area), 0),
        Command::Block(area) => (Word::Block, Some(*area), 0),
        Command::Unwall(area) => (Word::Unwall, Some(*area), 0),
        Command::Row(y, _) => (Word::Row, None, u32::from(*y)),
        Command::Source(area, period) => (Word::Source, Some(*area), u32::from(*period)),
        Command::Drain(area) => (Word::Drain, Some(*area), 0),
        Command::Unport => (Word::Unport, None, 0),
        Command::Step(n) => (Word::Step, None, u32::from(*n)),
        Command::Back(n) => (Word::Back, None, u32::from(*n)),
        Command::Probe(area) => (Word::Probe, Some(*area), 0),
        Command::Tally => (Word::Tally, None, 0),
        Command::Ledger => (Word::Ledger, None, 0),
        Command::Read(y) => (Word::Read, None, u32::from(*y)),
        Command::Entry(k) => (Word::Entry, None, *k),
    }
}

// A line, its word, its rectangle, its number or 0, whether it changes the laboratory, and its entry.
const COMMANDS: [(&str, Word, Option<(u32, u32, u32, u32)>, u32, bool, &str); 19] = [
    (
        "put 1 2 3 4",
        Word::Put,
        Some((1, 2, 3, 4)),
        0,
        true,
        "ENTRY 0 put 1 2 3 4\n",
    ),
    (
        "  put 0000000000  0 1   1  ",
        Word::Put,
        Some((0, 0, 1, 1)),
        0,
        true,
        "ENTRY 0 put 0 0 1 1\n",
    ),
    (
        "erase 1 2 3 4",
        Word::Erase,
        Some((1, 2, 3, 4)),
        0,
        true,
        "ENTRY 0 erase 1 2 3 4\n",
    ),
    (
        "wall 0 20 64 1",
        Word::Wall,
        Some((0, 20, 64, 1)),
        0,
        true,
        "ENTRY 0 wall 0 20 64 1\n",
    ),
    (
        "block 4095 63 1 1",
        Word::Block,
        Some((4095, 63, 1, 1)),
        0,
        true,
        "ENTRY 0 block 4095 63 1 1\n",
    ),
    (
        "unwall 0 0 4096 64",
        Word::Unwall,
        Some((0, 0, 4096, 64)),
        0,
        true,
        "ENTRY 0 unwall 0 0 4096 64\n",
    ),
    (
        "source 10 20 30 40 65535",
        Word::Source,
        Some((10, 20, 30, 40)),
        65535,
        true,
        "ENTRY 0 source 10 20 30 40 65535\n",
    ),
    (
        " drain  007 0 00000001 01 ",
        Word::Drain,
        Some((7, 0, 1, 1)),
        0,
        true,
        "ENTRY 0 drain 7 0 1 1\n",
    ),
    ("unport", Word::Unport, None, 0, true, "ENTRY 0 unport\n"),
    (
        "step 4096",
        Word::Step,
        None,
        4096,
        true,
        "ENTRY 0 step 4096\n",
    ),
    ("back 1", Word::Back, None, 1, true, "ENTRY 0 back 1\n"),
    (
        "back 0000000100",
        Word::Back,
        None,
        100,
        true,
        "ENTRY 0 back 100\n",
    ),
    (
        "probe 0 0 64 64",
        Word::Probe,
        Some((0, 0, 64, 64)),
        0,
        false,
        "ENTRY 0 probe 0 0 64 64\n",
    ),
    ("tally", Word::Tally, None, 0, false, "ENTRY 0 tally\n"),
    ("ledger", Word::Ledger, None, 0, false, "ENTRY 0 ledger\n"),
    ("read 63", Word::Read, None, 63, false, "ENTRY 0 read 63\n"),
    ("entry 0", Word::Entry, None, 0, false, "ENTRY 0 entry 0\n"),
    (
        "entry 65536",
        Word::Entry,
        None,
        65536,
        false,
        "ENTRY 0 entry 65536\n",
    ),
    (
        "entry 4294967295",
        Word::Entry,
        None,
        4_294_967_295,
        false,
        "ENTRY 0 entry 4294967295\n",
    ),
];

// A lattice of 4,096 by 64.
pub fn wide(rt: &impl Abort) -> Size {
    Size::new(4096, 64).expect(rt, "a size")
}

/// The command that a line asks for.
pub fn command_of(rt: &(impl Abort + AllocGlobal), line: &str, size: Size) -> Command {
    match read_command(rt.alloc(), line, size) {
        Ok(Request::Ask(command)) => command,
        _ => panic!(rt; "{line}"),
    }
}

/// Prints the entry of a seat.
pub fn print_entry(page: &mut ReplyPage, seat: u16, command: Command) {
    let entry = Entry { seat, command };
    reply_text(&Reply::Answered(Answer::EntryIs(entry)), page);
}

fn area_of(rt: &impl Abort, area: Option<(u32, u32, u32, u32)>) -> Option<Rect> {
    let (x, y, w, h) = area?;
    let area = Rect::within(wide(rt), x, y, w, h);
    expect_that(rt, area.is_some());
    area
}

#[test]
fn commands_are_read(rt: HostRuntime) {
    for (line, word, area, number, is_change, _) in COMMANDS {
        let command = command_of(&rt, line, wide(&rt));
        let parts = (word, area_of(&rt, area), number);
        expect_same(&rt, (line, parts_of(&command)), (line, parts));
        expect_same(&rt, (line, command.is_change()), (line, is_change));
    }
}

#[test]
fn commands_fit_where_they_are_read(rt: HostRuntime) {
    let small = size(&rt);
    for (line, _, _, _, _, _) in COMMANDS {
        let command = command_of(&rt, line, wide(&rt));
        let is_read = read_command(rt.alloc(), line, small).is_ok();
        expect_that(&rt, command.fits(wide(&rt)));
        expect_same(&rt, (line, command.fits(small)), (line, is_read));
    }
}

#[test]
fn entries_print_their_command(rt: HostRuntime) {
    let mut page = ReplyPage::empty();
    for (line, _, _, _, _, entry) in COMMANDS {
        print_entry(&mut page, 0, command_of(&rt, line, wide(&rt)));
        expect_same(&rt, (line, page.text()), (line, entry.as_bytes()));
    }
}

#[test]
fn save_and_quit_are_read(rt: HostRuntime) {
    for (line, is_save) in [("save", true), ("quit", false), (" quit ", false)] {
        let found = match read_command(rt.alloc(), line, size(&rt)) {
            Ok(Request::Save) => Some(true),
            Ok(Request::Quit) => Some(false),
            _ => None,
        };
        expect_same(&rt, (line, found), (line, Some(is_save)));
    }
}
