//! Sizes, ticks, rectangles, rows and refusals, at their limits.

ghost use Rattle.std.specs.Prelude.{◌≡◌, true};
ghost use Rattle.gas_terms.specs.Cells.{lies_within};

use crate::expected::{expect_same, expect_that};
use crate::gases::{sums, tick};
use gas_terms::{
    Command, Entry, Ledger, Moved, NoMemory, Pair, Rect, Refusal, RowBits, Size, Tick, Took, Vel,
    vel,
};
use std::process::Abort;
use std::test::Fail;

fn size(rt: &impl Abort, width: u32, height: u32) -> Size {
    Size::new(width, height).expect(rt, "a size")
}

#[test]
fn sides_are_multiples_of_64_to_4096(rt: HostRuntime) {
    for (width, height, is_size) in [
        (64, 64, true),
        (4096, 64, true),
        (128, 4096, true),
        (0, 64, false),
        (64, 0, false),
        (65, 64, false),
        (64, 96, false),
        (64, 4160, false),
        (4_294_967_232, 64, false),
    ] {
        expect_same(
            &rt,
            (width, height, Size::new(width, height).is_some()),
            (width, height, is_size),
        );
    }
    let wide = size(&rt, 2048, 192);
    expect_same(&rt, wide.width(), 2048);
    expect_same(&rt, wide.height(), 192);
    expect_same(&rt, wide.tiles(), 96);
}

#[test]
fn rectangles_lie_within_the_lattice(rt: HostRuntime) {
    let small = size(&rt, 64, 128);
    for (x, y, w, h, is_within) in [
        (0, 0, 64, 128, true),
        (63, 127, 1, 1, true),
        (63, 63, 2, 1, false),
        (60, 0, 8, 1, false),
        (0, 127, 1, 2, false),
        (0, 0, 0, 1, false),
        (0, 0, 1, 0, false),
        (0, 0, 1, 4_294_967_295, false),
        (4_294_967_295, 0, 1, 1, false),
    ] {
        expect_same(
            &rt,
            (x, y, w, h, Rect::within(small, x, y, w, h).is_some()),
            (x, y, w, h, is_within),
        );
    }
    let area = Rect::within(small, 3, 70, 5, 2).expect(&rt, "a rectangle");
    expect_same(&rt, (area.x(), area.y(), area.w(), area.h()), (3, 70, 5, 2));
    expect_that(&rt, area.fits(small));
    expect_that(&rt, !area.fits(size(&rt, 64, 64)));
    for (x, y, held) in [
        (3, 70, true),
        (7, 71, true),
        (2, 70, false),
        (8, 70, false),
        (3, 69, false),
        (3, 72, false),
    ] {
        expect_same(&rt, (x, y, area.holds(x, y)), (x, y, held));
    }
}

#[test]
fn ticks_stay_in_their_range(rt: HostRuntime) {
    let greatest = 1_099_511_627_776;
    expect_that(&rt, Tick::new(greatest).is_some());
    expect_that(&rt, Tick::new(greatest + 1).is_none());
    expect_that(&rt, Tick::new(-greatest).is_some());
    expect_that(&rt, Tick::new(-greatest - 1).is_none());
    let last = tick(&rt, greatest);
    expect_that(&rt, last.ahead(1).is_none());
    expect_same(
        &rt,
        last.behind(4096).expect(&rt, "a tick").get(),
        1_099_511_623_680,
    );
    let first = tick(&rt, -greatest);
    expect_that(&rt, first.behind(1).is_none());
    expect_same(
        &rt,
        first.ahead(3).expect(&rt, "a tick").get(),
        -1_099_511_627_773,
    );
    for (number, parity) in [(0, 0), (1, 1), (-1, 1), (-2, 0), (7, 1)] {
        expect_same(&rt, (number, tick(&rt, number).parity()), (number, parity));
    }
}

#[test]
fn velocities_lead_across_the_block(rt: HostRuntime) {
    for (x, y, number, right, down) in [
        (0, 0, 0, 1, 1),
        (1, 0, 0, -1, 1),
        (0, 1, 0, 1, -1),
        (1, 1, 0, -1, -1),
        (1, 1, 1, 1, 1),
        (63, 63, -1, 1, 1),
        (0, 3, -1, -1, 1),
    ] {
        expect_same(
            &rt,
            (x, y, number, vel(x, y, tick(&rt, number))),
            (x, y, number, Vel { x: right, y: down }),
        );
    }
}

#[test]
fn sums_add_up(rt: HostRuntime) {
    let (some, others, both) = (sums(5, -3, 1), sums(2, 2, -2), sums(7, -1, -1));
    expect_same(&rt, some.plus(others), both);
    expect_same(&rt, both.minus(others), some);
}

#[test]
fn accounts_add_up(rt: HostRuntime) {
    let by_walls = Pair { x: 2, y: -4 };
    let by_obstacles = Pair { x: -6, y: 8 };
    expect_same(&rt, by_walls.plus(by_obstacles), Pair { x: -4, y: 4 });
    expect_same(&rt, by_walls.minus(by_obstacles), Pair { x: 8, y: -12 });
    let took = Took {
        walls: by_walls,
        obstacles: by_obstacles,
    };
    expect_same(
        &rt,
        took.plus(took),
        Took {
            walls: Pair { x: 4, y: -8 },
            obstacles: Pair { x: -12, y: 16 },
        },
    );
    let before = Ledger {
        start: sums(5, -3, 1),
        injected: sums(2, 2, -2),
        drained: sums(7, -1, -1),
        walls: Pair { x: 1, y: 1 },
        obstacles: Pair { x: 0, y: 10 },
    };
    let after = Ledger {
        walls: Pair { x: 3, y: -3 },
        obstacles: Pair { x: -6, y: 18 },
        ..before
    };
    expect_same(&rt, before.with_taken(took), after);
    expect_same(&rt, after.with_given_back(took), before);
    let moved = Moved {
        injected: sums(1, 1, -1),
        drained: sums(4, 2, -4),
    };
    let after = Ledger {
        injected: sums(3, 3, -3),
        drained: sums(11, 1, -5),
        ..before
    };
    expect_same(&rt, before.with_moved(moved), after);
}

#[test]
fn refusals_are_numbered_in_their_order(rt: HostRuntime) {
    for (refusal, number, word) in [
        (Refusal::Line, 1, "line"),
        (Refusal::Word, 2, "word"),
        (Refusal::Count, 3, "count"),
        (Refusal::Number, 4, "number"),
        (Refusal::Rect, 5, "rect"),
        (Refusal::Steps, 6, "steps"),
        (Refusal::Period, 7, "period"),
        (Refusal::Row, 8, "row"),
        (Refusal::Entry, 9, "entry"),
        (Refusal::Full, 10, "full"),
        (Refusal::Ports, 11, "ports"),
        (Refusal::Tick, 12, "tick"),
        (Refusal::Journal, 13, "journal"),
        (Refusal::Memory, 14, "memory"),
        (Refusal::Save, 15, "save"),
    ] {
        expect_same(&rt, (word, refusal.number()), (word, number));
        expect_same(&rt, refusal.word(), word);
    }
}

#[test]
fn rows_are_written_and_copied(rt: HostRuntime) -> Result<(), Fail> {
    let mut row = RowBits::zero(rt.alloc(), 8)?;
    expect_same(&rt, row.bytes(), [0; 8].as_slice());
    row.bytes_mut()
        .copy_from_slice(&[0x80, 0, 0, 0x0f, 0xf0, 0, 0, 1]);
    let copy = row.copy(rt.alloc())?;
    expect_same(
        &rt,
        copy.bytes(),
        [0x80, 0, 0, 0x0f, 0xf0, 0, 0, 1].as_slice(),
    );
    expect_same(&rt, row.bytes(), copy.bytes());
    let widest = RowBits::zero(rt.alloc(), 512)?;
    expect_same(&rt, widest.bytes().len(), 512);
    Ok(())
}

// Where memory is refused, the source is as before.
fn is_copied(rt: &HostRuntime, command: &Command, bytes: &[u8]) -> bool {
    let copied = match command.copy(rt.alloc()) {
        Ok(Command::Row(7, copy)) => copy.bytes() == bytes,
        Ok(_) => false,
        Err(NoMemory) => true,
    };
    copied && matches!(command, Command::Row(7, row) if row.bytes() == bytes)
}

#[test]
fn refused_copies_leave_their_source(rt: HostRuntime) {
    if let Ok(mut row) = RowBits::zero(rt.alloc(), 8) {
        let bytes = [0xff, 0, 0, 0, 0, 0, 0, 0x55];
        row.bytes_mut().copy_from_slice(&bytes);
        if let Ok(copy) = row.copy(rt.alloc()) {
            expect_same(&rt, copy.bytes(), bytes.as_slice());
        }
        expect_same(&rt, row.bytes(), bytes.as_slice());
        let command = Command::Row(7, row);
        expect_that(&rt, is_copied(&rt, &command, &bytes));
    }
}

#[test]
fn commands_fit_their_lattice(rt: HostRuntime) -> Result<(), Fail> {
    let small = size(&rt, 64, 64);
    let large = size(&rt, 128, 192);
    let area = Rect::within(large, 60, 0, 8, 1).expect(&rt, "a rectangle");
    let row = RowBits::zero(rt.alloc(), 8)?;
    for (command, in_small, in_large) in [
        (Command::Put(area), false, true),
        (Command::Erase(area), false, true),
        (Command::Wall(area), false, true),
        (Command::Block(area), false, true),
        (Command::Unwall(area), false, true),
        (Command::Drain(area), false, true),
        (Command::Probe(area), false, true),
        (Command::Source(area, 1), false, true),
        (Command::Source(area, 0), false, false),
        (Command::Row(63, row), true, false),
        (Command::Unport, true, true),
        (Command::Step(0), false, false),
        (Command::Step(1), true, true),
        (Command::Step(4096), true, true),
        (Command::Back(4097), false, false),
        (Command::Back(4096), true, true),
        (Command::Tally, true, true),
        (Command::Ledger, true, true),
        (Command::Read(63), true, true),
        (Command::Read(64), false, true),
        (Command::Entry(4_294_967_295), true, true),
    ] {
        expect_same(&rt, command.fits(small), in_small);
        expect_same(&rt, command.fits(large), in_large);
    }
    Ok(())
}

fn source_of(command: &Command) -> Option<(u16, u16, u16, u16, u16)> {
    match command {
        Command::Source(area, period) => { Some((area.x(), area.y(), area.w(), area.h(), *period)) }
        _ => None,
    }
}

#[test]
fn readings_are_no_changes(rt: HostRuntime) {
    let area = Rect::within(size(&rt, 64, 64), 0, 0, 1, 1).expect(&rt, "a rectangle");
    for (command, is_change) in [
        (Command::Put(area), true),
        (Command::Block(area), true),
        (Command::Unport, true),
        (Command::Back(1), true),
        (Command::Probe(area), false),
        (Command::Tally, false),
        (Command::Ledger, false),
        (Command::Read(0), false),
        (Command::Entry(0), false),
    ] {
        expect_same(&rt, command.is_change(), is_change);
    }
}

#[test]
fn commands_are_copied(rt: HostRuntime) -> Result<(), Fail> {
    let area = Rect::within(size(&rt, 64, 64), 1, 2, 3, 4).expect(&rt, "a rectangle");
    let source = Command::Source(area, 9).copy(rt.alloc())?;
    expect_same(&rt, source_of(&source), Some((1, 2, 3, 4, 9)));
    let back = Command::Back(17).copy(rt.alloc())?;
    expect_that(&rt, matches!(back, Command::Back(17)));
    let mut row = RowBits::zero(rt.alloc(), 8)?;
    let bytes = [1, 2, 3, 4, 5, 6, 7, 8];
    row.bytes_mut().copy_from_slice(&bytes);
    let command = Command::Row(7, row);
    expect_that(&rt, is_copied(&rt, &command, &bytes));
    expect_that(&rt, command.copy(rt.alloc()).is_ok());
    Ok(())
}
