//! Worked examples of runs with an action after each phase, with values found by hand.

use crate::expected::{expect_same, expect_that};
use crate::gases::{Piece, flow, moves, pair, run, sums, tick, took};
use crate::lattices::{plane, same_cells, solids};
use crate::strips::stroke;
use gas_ledger::{Flow, Sums, tally};
use gas_plane::{Plane, Tile};
use gas_terms::{Pair, Rect, Size, Took};
use phase_step::{
    Action, ActionFrom, CellCounts, Exchange, Listed, PortArray, Run, Serial, Stepper, Still,
    act_on, add_tiles_of,
};
use std::process::Abort;

fn count(rt: &impl Abort, plane: &Plane) -> i64 {
    tally(plane, tick(rt, 0)).count
}

// A source that acts at each tick: at tick 1 its particle goes up and to the left, and at tick 2 the next one down and to
// the right.
#[test]
fn source_acts_at_each_tick_of_a_run(rt: HostRuntime) {
    let source = [(Piece::Source(1), 10, 10, 1, 1)];
    let cells = [(9, 9, true), (10, 10, true)];
    expect_same(
        &rt,
        run(&rt, 0, &source, 2, &cells, 2),
        flow(Took::ZERO, sums(2, 0, 0), sums(0, 0, 0)),
    );
}

#[test]
fn source_of_a_run_keeps_its_period(rt: HostRuntime) {
    for (start, n, times) in [
        (0, 1, 0),
        (0, 2, 1),
        (0, 3, 1),
        (1, 1, 1),
        (1, 3, 2),
        (-3, 3, 2),
    ] {
        let source = [(Piece::Source(2), 20, 30, 1, 1)];
        let moved = run(&rt, start, &source, n, &[], times).moved;
        expect_same(&rt, (n, start, moved.injected.count), (n, start, times));
    }
}

// A particle crosses its block, is drained at tick 1, and is gone.
#[test]
fn drain_of_a_run_takes_once(rt: HostRuntime) {
    let parts = [(Piece::Drain, 1, 1, 1, 1), (Piece::Particles, 0, 0, 1, 1)];
    let moved = run(&rt, 0, &parts, 3, &[], 0).moved;
    expect_same(&rt, moved, moves(sums(0, 0, 0), sums(1, 1, 1)));
}

// A wall takes what it turns back, before the port acts.
#[test]
fn wall_takes_in_a_run_with_ports(rt: HostRuntime) {
    let parts = [
        (Piece::Drain, 100, 100, 1, 1),
        (Piece::Particles, 0, 0, 1, 1),
        (Piece::Wall, 1, 1, 1, 1),
    ];
    let found = run(&rt, 0, &parts, 1, &[(0, 0, true)], 1);
    expect_same(&rt, found.took, took(pair(2, 2), Pair::ZERO));
    expect_same(&rt, found.moved.drained, sums(0, 0, 0));
}

fn emptied(rt: &impl Abort, size: Size) -> Exchange {
    let (w, h) = (u32::from(size.width()), u32::from(size.height()));
    let all = Rect::within(size, 0, 0, w, h).expect(rt, "a rectangle");
    let mut drains = PortArray::none(all);
    drains.push(all);
    let mut met = Tile::empty();
    add_tiles_of(&mut met, all);
    Exchange::among(drains, PortArray::none(all), met)
}

// Two particles at tick 0, which both go right and down.
fn two(rt: &(impl Abort + AllocGlobal)) -> Plane {
    plane(rt, 128, 128, &[(0, 0), (70, 90)])
}

// A run of three phases on one thread, the first at an even tick.
fn act_thrice(rt: &(impl Abort + AllocGlobal), particles: &mut Plane, action: &Listed<'_>) -> Flow {
    let size = particles.size();
    let none = Plane::empty(rt.alloc(), size).expect(rt, "memory");
    let solids = solids(rt, &none, &none);
    let run = Run {
        solids: &solids,
        parity: 0,
        n: 3,
        action,
    };
    Serial.run_with(particles, run)
}

#[test]
fn action_after_the_first_phase(rt: HostRuntime) {
    let mut particles = two(&rt);
    let exchanges = [emptied(&rt, particles.size())];
    let found = act_thrice(
        &rt,
        &mut particles,
        &Listed {
            exchanges: &exchanges,
        },
    );
    expect_same(&rt, found, flow(Took::ZERO, sums(0, 0, 0), sums(2, 2, 2)));
    expect_same(&rt, count(&rt, &particles), 0);
}

#[test]
fn action_at_a_tick_of_each_parity(rt: HostRuntime) {
    let mut particles = two(&rt);
    let all = emptied(&rt, particles.size());
    let moved = act_on(&mut particles, &all, 0);
    expect_same(&rt, moved.drained, sums(2, 2, 2));
    expect_same(&rt, count(&rt, &particles), 0);
    let mut others = two(&rt);
    let moved = act_on(&mut others, &all, 1);
    expect_same(&rt, moved.drained, sums(2, -2, -2));
}

#[test]
fn sums_by_classes(rt: HostRuntime) {
    expect_same(&rt, Sums::of_counts([1, 2, 3, 4], 0), sums(10, -2, -4));
    expect_same(&rt, Sums::of_counts([1, 2, 3, 4], 1), sums(10, 2, 4));
    let change = CellCounts {
        gained: [1, 0, 0, 0],
        lost: [0, 0, 0, 2],
    };
    let moved = change.moved(1);
    expect_same(&rt, moved.injected, sums(1, -1, -1));
    expect_same(&rt, moved.drained, sums(2, 2, 2));
}

#[test]
fn changes_add_up(rt: HostRuntime) {
    let some = moves(sums(9, 1, -3), sums(80, 20, -40));
    let more = moves(sums(700, -500, 600), sums(6000, 4000, -2000));
    let both = moves(sums(709, -499, 597), sums(6080, 4020, -2040));
    expect_same(&rt, some.plus(more), both);
}

#[test]
fn flows_add_up(rt: HostRuntime) {
    let some_took = took(pair(2, -4), pair(6, -8));
    let more_took = took(pair(20, 400), pair(-60, -600));
    let both_took = took(pair(22, 396), pair(-54, -608));
    let some = flow(some_took, sums(9, 1, -3), sums(7, -5, -1));
    let more = flow(more_took, sums(70, -50, 30), sums(900, 300, 700));
    let both = flow(both_took, sums(79, -49, 27), sums(907, 295, 699));
    expect_same(&rt, some.plus(more), both);
}

fn area(rt: &impl Abort, x: u32, w: u32) -> Rect {
    let size = Size::new(128, 64).expect(rt, "a size");
    Rect::within(size, x, 0, w, 1).expect(rt, "a rectangle")
}

// Empties the first two cells of row 0, and fills the second of them and the third.
fn shift(rt: &impl Abort) -> Exchange {
    stroke(area(rt, 0, 2), area(rt, 1, 2))
}

#[test]
fn exchange_of_a_tile(rt: HostRuntime) {
    let old = Tile::rect(0, 0, 2, 2);
    let mut want = Tile::rect(1, 0, 2, 1);
    want.join(&Tile::rect(0, 1, 2, 1));
    for exchange in [shift(&rt), shift(&rt).copy()] {
        expect_that(&rt, !exchange.is_still());
        expect_that(&rt, !exchange.keeps(0, 0, &old));
        expect_that(&rt, exchange.keeps(64, 0, &old));
        let mut tile = old;
        let change = exchange.on_tile(0, 0, &mut tile);
        expect_that(&rt, same_cells(&tile, &want));
        // (0, 0) goes and (2, 0) comes; (1, 0) is drained and filled again.
        expect_same(&rt, change.gained, [1, 0, 0, 0]);
        expect_same(&rt, change.lost, [1, 0, 0, 0]);
        let change = exchange.on_tile(0, 0, &mut tile);
        expect_that(&rt, same_cells(&tile, &want));
        expect_same(&rt, change.gained, [0; 4]);
        expect_same(&rt, change.lost, [0; 4]);
    }
}

// The tile at the left, or the one at the right.
fn whole_tile(rt: &impl Abort, x: u32) -> Rect {
    let size = Size::new(128, 64).expect(rt, "a size");
    Rect::within(size, x, 0, 64, 64).expect(rt, "a rectangle")
}

// A tile has 1,024 cells of each class. Six are held at first.
#[test]
fn exchange_of_a_whole_tile(rt: HostRuntime) {
    let (here, beside) = (whole_tile(&rt, 0), whole_tile(&rt, 64));
    let filled = [1022, 1023, 1022, 1023];
    let cases = [
        (stroke(here, beside), Tile::empty(), [0; 4], [2, 1, 2, 1]),
        (stroke(beside, here), Tile::full(), filled, [0; 4]),
        (stroke(here, here), Tile::full(), filled, [0; 4]),
    ];
    for (exchange, want, gained, lost) in cases {
        let mut tile = Tile::rect(0, 0, 3, 2);
        expect_that(&rt, !exchange.keeps(0, 0, &tile));
        let change = exchange.on_tile(0, 0, &mut tile);
        expect_that(&rt, same_cells(&tile, &want));
        expect_same(&rt, change.gained, gained);
        expect_same(&rt, change.lost, lost);
        expect_that(&rt, exchange.keeps(0, 0, &tile));
    }
}

#[test]
fn exchange_without_ports_is_still(rt: HostRuntime) {
    let none = Exchange::none();
    expect_that(&rt, none.is_still());
    expect_that(&rt, none.keeps(0, 0, &Tile::rect(0, 0, 2, 2)));
}

#[test]
fn tiles_of_a_rectangle(rt: HostRuntime) {
    let size = Size::new(4096, 4096).expect(&rt, "a size");
    let area = Rect::within(size, 60, 127, 10, 2).expect(&rt, "a rectangle");
    let mut met = Tile::rect(9, 9, 1, 1);
    add_tiles_of(&mut met, area);
    // Columns 60 to 69 are in two tiles, and so are rows 127 and 128.
    let mut want = Tile::rect(0, 1, 2, 2);
    want.set(9, 9, true);
    expect_that(&rt, same_cells(&met, &want));
}

#[test]
fn few_rectangles(rt: HostRuntime) {
    let (first, second) = (area(&rt, 3, 1), area(&rt, 5, 1));
    let mut array = PortArray::none(first);
    expect_that(&rt, array.len() == 0);
    array.push(second);
    let before = array.copy();
    expect_that(&rt, before.len() == 1);
    expect_that(&rt, before.as_slice().iter().all(|area| area.x() == 5));
    array.clear();
    expect_that(&rt, array.len() == 0);
    expect_that(&rt, before.len() == 1);
}

#[test]
fn listed_exchanges_end(rt: HostRuntime) {
    let exchanges = [Exchange::none(), shift(&rt)];
    let listed = Listed {
        exchanges: &exchanges,
    };
    let later = ActionFrom {
        action: &listed,
        by: 1,
    };
    let found = [
        listed.after_phase(0).is_still(),
        listed.after_phase(1).is_still(),
        listed.after_phase(2).is_still(),
        later.after_phase(0).is_still(),
        later.after_phase(1).is_still(),
    ];
    expect_same(&rt, found, [true, false, true, false, true]);
    expect_that(&rt, later.acts() && !Still.acts());
}
