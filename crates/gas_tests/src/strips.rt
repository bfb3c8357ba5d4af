//! Runs by strips of teams, with values found by hand and by the second implementation, and beside those of one thread.

use crate::expected::expect_that;
use crate::gases::{flow, pair, sums, took};
use crate::lattices::{are_same, fit, holds, plane, same_cells, scattered, solids};
use crate::steppers::{add_taken, step, team};
use gas_plane::Plane;
use gas_terms::{Pair, Rect, Size, Took};
use phase_step::{
    Action, Exchange, Flow, Listed, PortArray, Run, Serial, Stepper, Still, parity_at,
};
use phase_strips::{LeastRun, StripTeam};
use phase_team::NoGate;
use std::process::Abort;
use std::thread::Threads;
use std::time::Clock;

// Walls and obstacles of a run of n phases, the first of this parity.
#[derive(Clone, Copy)]
struct Setting<'a> {
    walls: &'a Plane,
    obstacles: &'a Plane,
    parity: u8,
    n: u16,
}

fn among<'a>(walls: &'a Plane, obstacles: &'a Plane, parity: u8, n: u16) -> Setting<'a> {
    Setting {
        walls,
        obstacles,
        parity,
        n,
    }
}

// A run as a laboratory makes it.
fn act_along<S: Stepper, A: Action>(
    rt: &(impl Abort + AllocGlobal),
    stepper: &mut S,
    setting: Setting<'_>,
    action: &A,
    particles: &mut Plane,
) -> Flow {
    expect_that(&rt, setting.parity < 2);
    fit(rt, particles, setting.walls, setting.obstacles, particles);
    let solids = solids(rt, setting.walls, setting.obstacles);
    let run = Run {
        solids: &solids,
        parity: setting.parity,
        n: setting.n,
        action,
    };
    stepper.run_with(particles, run)
}

// A team that makes each run by strips, however short and low, on a busy machine too.
const EACH_BY_STRIPS: LeastRun = LeastRun {
    phases: 0,
    tiles: 0,
    patience: 60_000,
};

// A run by strips of so many workers.
fn by_strips<R: Threads + Clock + Abort + AllocGlobal + Copy + Drop, A: Action>(
    rt: &R,
    workers: u8,
    setting: Setting<'_>,
    action: &A,
    particles: &mut Plane,
) -> Flow {
    expect_that(&rt, 0 < workers && workers <= 16);
    let mut team = StripTeam::with_least_run(*rt, rt.alloc(), workers, EACH_BY_STRIPS);
    let flow = act_along(rt, &mut team, setting, action, particles);
    expect_that(&rt, team.was_by_strips());
    flow
}

// The same on one thread, phase by phase.
fn by_phases(rt: &(impl Abort + AllocGlobal), run: Setting<'_>, particles: &mut Plane) -> Took {
    expect_that(&rt, run.parity < 2);
    let mut out = Plane::empty(rt.alloc(), particles.size()).expect(rt, "memory");
    let mut took = Took::ZERO;
    for k in 0..run.n {
        let turn = parity_at(run.parity, k);
        let more = step(
            rt,
            &mut Serial,
            particles,
            run.walls,
            run.obstacles,
            turn,
            &mut out,
        );
        add_taken(&mut took, more);
        std::mem::swap(particles, &mut out);
    }
    took
}

// A run ends the same phase by phase and by strips of so many workers each, at either parity of its first phase.
fn strips_agree<R: Threads + Clock + Abort + AllocGlobal + Copy + Drop>(
    rt: &R,
    size: Size,
    n: u16,
    workers: &[u8],
) {
    let walls = seeded(rt, size, 77172645463325252, 7);
    let obstacles = seeded(rt, size, 66172645463325252, 8);
    for parity in [0, 1] {
        let run = among(&walls, &obstacles, parity, n);
        let mut alone = seeded(rt, size, 88172645463325252, 1);
        let by_one = by_phases(rt, run, &mut alone);
        for workers in workers {
            let mut now = seeded(rt, size, 88172645463325252, 1);
            let took = by_strips(rt, *workers, run, &Still, &mut now).took;
            expect_that(&rt, took == by_one && have_same_rows(&now, &alone));
        }
    }
}

// A run by one thread, two phases in a sweep, the same by strips, and phase by phase.
fn sweeps_agree<R: Threads + Clock + Abort + AllocGlobal + Copy + Drop>(
    rt: &R,
    size: Size,
    walls: &Plane,
    obstacles: &Plane,
    n: u16,
) {
    let mut one = team(rt, *rt, rt.alloc(), 1, NoGate);
    for parity in [0, 1] {
        let run = among(walls, obstacles, parity, n);
        let mut alone = seeded(rt, size, 88172645463325252, 1);
        let mut now = seeded(rt, size, 88172645463325252, 1);
        let by_one = by_phases(rt, run, &mut alone);
        let took = act_along(rt, &mut one, run, &Still, &mut now).took;
        expect_that(&rt, took == by_one && have_same_rows(&now, &alone));
        // No run of no phase is made by strips.
        for workers in 1..if n == 0 { 1 } else { 4 } {
            let mut now = seeded(rt, size, 88172645463325252, 1);
            let took = by_strips(rt, workers, run, &Still, &mut now).took;
            expect_that(&rt, took == by_one && have_same_rows(&now, &alone));
        }
    }
}

// Without obstacles one account is kept, theirs, and there is nothing to count. With both a sweep counts each row of tiles twice. One
// row of tiles is its own neighbor.
#[test]
fn two_phases_in_a_sweep_are_two_phases(rt: HostRuntime) {
    for (width, height) in [(64, 64), (192, 64), (64, 128), (128, 192)] {
        let size = Size::new(width, height).expect(&rt, "a size");
        let none = Plane::empty(rt.alloc(), size).expect(&rt, "memory");
        let walls = seeded(&rt, size, 77172645463325252, 7);
        let obstacles = seeded(&rt, size, 66172645463325252, 8);
        for n in [0, 1, 2, 3, 6, 7] {
            sweeps_agree(&rt, size, &none, &none, n);
            sweeps_agree(&rt, size, &walls, &none, n);
            sweeps_agree(&rt, size, &walls, &obstacles, n);
        }
    }
}

// One strip is its own neighbor, and each of two is the other's above and below. Rows are shown before each second phase, in
// two places by turns.
#[test]
fn runs_by_strips_are_the_phases(rt: HostRuntime) {
    for height in [64, 128] {
        let size = Size::new(128, height).expect(&rt, "a size");
        for n in [1, 2, 3, 4, 5, 6, 65] {
            strips_agree(&rt, size, n, &[1, 2, 5]);
        }
    }
}

// Sixteen rows of tiles: strips of one row each, of several, and of unequal heights.
#[test]
fn long_and_high_runs_by_strips_are_the_phases(rt: HostRuntime) {
    let low = Size::new(64, 128).expect(&rt, "a size");
    strips_agree(&rt, low, 4096, &[2]);
    let high = Size::new(64, 1024).expect(&rt, "a size");
    let workers = [1, 2, 3, 4, 5, 6, 7, 8, 9, 10, 11, 12, 13, 14, 15, 16];
    strips_agree(&rt, high, 7, &workers);
}

// Sixty-four rows of tiles: strips of 32, of 21 and 22, and of 4 rows.
#[test]
fn strips_are_put_together(rt: HostRuntime) {
    let size = Size::new(64, 4096).expect(&rt, "a size");
    let none = Plane::empty(rt.alloc(), size).expect(&rt, "memory");
    let run = among(&none, &none, 1, 64);
    let mut alone = seeded(&rt, size, 88172645463325252, 1);
    by_phases(&rt, run, &mut alone);
    for workers in [2, 3, 16] {
        let mut now = seeded(&rt, size, 88172645463325252, 1);
        by_strips(&rt, workers, run, &Still, &mut now);
        expect_that(&rt, have_same_rows(&now, &alone));
    }
}

// How many cells a plane has, and the sum of their places, row by row.
fn places(plane: &Plane, height: u32) -> (u64, u64) {
    let mut sums = (0u64, 0u64);
    for y in 0..height {
        for x in 0..256u32 {
            if holds(plane, x, y) {
                let place = u64::from(x) + 256 * u64::from(y);
                sums = (sums.0.wrapping_add(1), sums.1.wrapping_add(place));
            }
        }
    }
    sums
}

// The sums are those of tools/channel_gas.py.
#[test]
fn run_of_sixty_five_by_two_strips(rt: HostRuntime) {
    let walls = scattered(&rt, 256, 128, 2, 400);
    let obstacles = scattered(&rt, 256, 128, 3, 700);
    let mut now = scattered(&rt, 256, 128, 1, 3);
    let run = among(&walls, &obstacles, 0, 65);
    let found = by_strips(&rt, 2, run, &Still, &mut now).took;
    expect_that(&rt, found == took(pair(-82, 18), pair(0, -80)));
    expect_that(&rt, places(&now, 128) == (10959, 179345058));
}

/// Empties one rectangle and fills another.
pub fn stroke(drained: Rect, filled: Rect) -> Exchange {
    let mut drains = PortArray::none(drained);
    drains.push(drained);
    let mut sources = PortArray::none(filled);
    sources.push(filled);
    Exchange::new(drains, sources)
}

// That after each third phase of n, from the second on.
fn strokes(rt: &(impl Abort + AllocGlobal), drained: Rect, filled: Rect, n: u16) -> Vec<Exchange> {
    let mut exchanges = Vec::with_capacity(rt.alloc(), n as usize).expect(rt, "memory");
    for k in 0..n {
        let exchange = if k % 3 == 1 {
            stroke(drained, filled)
        } else {
            Exchange::none()
        };
        exchanges.push(exchange).expect(rt, "memory");
    }
    exchanges
}

// More exchanges than are listed at once. The sums are those of tools/channel_gas.py, with such an action after its steps.
#[test]
fn strokes_in_a_run_by_two_strips(rt: HostRuntime) {
    let walls = scattered(&rt, 256, 128, 2, 400);
    let obstacles = scattered(&rt, 256, 128, 3, 700);
    let mut now = scattered(&rt, 256, 128, 1, 3);
    let size = now.size();
    let drained = Rect::within(size, 60, 50, 10, 30).expect(&rt, "a rectangle");
    let filled = Rect::within(size, 120, 118, 20, 8).expect(&rt, "a rectangle");
    let exchanges = strokes(&rt, drained, filled, 257);
    let action = Listed {
        exchanges: exchanges.as_slice(),
    };
    let run = among(&walls, &obstacles, 0, 257);
    let found = by_strips(&rt, 2, run, &action, &mut now);
    let taken = took(pair(260, 772), pair(-174, -346));
    expect_that(
        &rt,
        found == flow(taken, sums(5469, -13, 437), sums(5216, -178, 30)),
    );
    expect_that(&rt, places(&now, 128) == (11212, 184767851));
}

// On 64 by 128 cells, three particles at an even tick: two on their way to the wall, one to the obstacle in the tile below.
const START: [(u32, u32); 3] = [(10, 10), (4, 25), (41, 60)];

const WALL: &[(u32, u32)] = &[(14, 14)];

const OBSTACLE: &[(u32, u32)] = &[(31, 70)];

// A run of 17 phases comes to this on one thread, by a team of one, and by strips of one worker and of two.
fn comes_to<R: Threads + Clock + Abort + AllocGlobal + Copy + Drop, A: Action>(
    rt: &R,
    walls: &[(u32, u32)],
    obstacles: &[(u32, u32)],
    action: &A,
    flow: Flow,
    cells: &[(u32, u32)],
) {
    let walls = plane(rt, 64, 128, walls);
    let obstacles = plane(rt, 64, 128, obstacles);
    let want = plane(rt, 64, 128, cells);
    let run = among(&walls, &obstacles, 0, 17);
    for way in 0..4u8 {
        let mut now = plane(rt, 64, 128, &START);
        let found = match way {
            0 => act_along(rt, &mut Serial, run, action, &mut now),
            1 => {
                let mut alone = team(rt, *rt, rt.alloc(), 1, NoGate);
                act_along(rt, &mut alone, run, action, &mut now)
            }
            _ => {
                let workers = way.saturating_sub(1);
                expect_that(&rt, 0 < workers && workers <= 16);
                let mut team = StripTeam::with_least_run(*rt, rt.alloc(), workers, EACH_BY_STRIPS);
                act_along(rt, &mut team, run, action, &mut now)
            }
        };
        expect_that(&rt, found == flow);
        expect_that(&rt, are_same(&now, &want, 64, 128));
    }
}

// Nothing came in or went out.
fn only_took(walls: Pair, obstacles: Pair) -> Flow {
    flow(took(walls, obstacles), sums(0, 0, 0), sums(0, 0, 0))
}

// A particle goes one cell along its diagonal in each phase. It stays in the phase in which it is turned back, which takes twice
// its momentum, and goes back from the next phase on. (10, 10) is turned back at (13, 13) in phase 3, (4, 25) at (14, 15) in
// phase 10, and (41, 60) at (32, 69) in phase 9. If memory or a thread is refused to strips, the run is made without.
#[test]
fn refused_long_runs_find_both_accounts(rt: HostRuntime) {
    let (none, by_walls, by_obstacles) = (Pair::ZERO, pair(4, 0), pair(-2, 2));
    let both = only_took(by_walls, by_obstacles);
    let cells = &[(0, 0), (8, 21), (39, 62)];
    comes_to(&rt, WALL, OBSTACLE, &Still, both, cells);
    let cells = &[(0, 0), (8, 21), (24, 77)];
    comes_to(&rt, WALL, &[], &Still, only_took(by_walls, none), cells);
    let cells = &[(27, 27), (21, 8), (39, 62)];
    let alone = only_took(none, by_obstacles);
    comes_to(&rt, &[], OBSTACLE, &Still, alone, cells);
}

// After phase 12 the particle from (4, 25) is at (12, 17), on its way left and down, and is drained. One on its way left and up
// is injected at (50, 100).
#[test]
fn long_run_with_an_action_finds_both_accounts(rt: HostRuntime) {
    let size = Size::new(64, 128).expect(&rt, "a size");
    let drained = Rect::within(size, 12, 17, 1, 1).expect(&rt, "a cell");
    let filled = Rect::within(size, 50, 100, 1, 1).expect(&rt, "a cell");
    let mut exchanges = Vec::new(rt.alloc());
    for _ in 0..12u8 {
        exchanges.push(Exchange::none()).expect(&rt, "memory");
    }
    exchanges
        .push(stroke(drained, filled))
        .expect(&rt, "memory");
    let action = Listed {
        exchanges: exchanges.as_slice(),
    };
    let taken = took(pair(4, 0), pair(-2, 2));
    let wanted = flow(taken, sums(1, -1, -1), sums(1, -1, 1));
    let cells = &[(0, 0), (39, 62), (46, 96)];
    comes_to(&rt, WALL, OBSTACLE, &action, wanted, cells);
}

// Rows of shifted and mixed words, of which so many are put together by `and`.
fn seeded(rt: &(impl Abort + AllocGlobal), size: Size, seed: u64, words: u32) -> Plane {
    let mut plane = Plane::empty(rt.alloc(), size).expect(rt, "memory");
    let mut word = seed;
    for i in 0..size.tiles() {
        expect_that(&rt, i < plane.size().tiles());
        let tile = plane.tile_mut(i);
        for y in 0..64 {
            let mut row = u64::MAX;
            for _ in 0..words {
                word ^= word << 13;
                word ^= word >> 7;
                word ^= word << 17;
                row &= word;
            }
            tile.set_row(y, row);
        }
    }
    plane
}

fn have_same_rows(some: &Plane, others: &Plane) -> bool {
    let tiles = some.size().tiles().min(others.size().tiles());
    (0..tiles).all(|i| same_cells(some.tile(i), others.tile(i)))
}

#[test]
fn team_runs_as_one_thread(rt: HostRuntime) {
    let size = Size::new(640, 4096).expect(&rt, "a size");
    let walls = seeded(&rt, size, 77172645463325252, 7);
    let obstacles = seeded(&rt, size, 66172645463325252, 10);
    let mut now = seeded(&rt, size, 88172645463325252, 1);
    let mut alone = seeded(&rt, size, 88172645463325252, 1);
    let mut team = team(&rt, rt, rt.alloc(), 16, NoGate);
    // The strips of the first run serve the second.
    for (n, parity) in [(64, 0), (65, 1)] {
        let run = among(&walls, &obstacles, parity, n);
        let took = act_along(&rt, &mut team, run, &Still, &mut now).took;
        let by_one = act_along(&rt, &mut Serial, run, &Still, &mut alone).took;
        expect_that(&rt, took == by_one && have_same_rows(&now, &alone));
    }
}

// By hand: 131,072 tiles fewer for each worker are enough. On 32 by 32 tiles each of two workers turns 32 * 16 * 256 = 131,072
// fewer in 256 phases and 130,560 in 255, and each of four 32 * 24 * 171 = 131,328 in 171. Of 64 by 64 tiles each of two turns
// 64 * 32 * 64 = 131,072 fewer in 64 phases. Of 16 by 16 tiles each of 16 turns 16 * 15 * 512 = 122,880 fewer in 512 phases, and
// more are not counted. If no tile is asked for, 16 phases are enough.
#[test]
fn team_parts_large_runs_into_strips(rt: HostRuntime) {
    let usual = LeastRun::USUAL.tiles;
    for (side, workers, n, tiles, in_strips) in [
        (2048, 1, 256, usual, false),
        (2048, 2, 255, usual, false),
        (2048, 2, 256, usual, true),
        (2048, 4, 171, usual, true),
        (4096, 2, 64, usual, true),
        (1024, 16, 1024, usual, false),
        (1024, 16, 15, 0, false),
        (1024, 16, 16, 0, true),
    ] {
        let size = Size::new(side, side).expect(&rt, "a size");
        let none = Plane::empty(rt.alloc(), size).expect(&rt, "memory");
        let run = among(&none, &none, 0, n);
        expect_that(&rt, 0 < workers && workers <= 16);
        let least = LeastRun {
            tiles,
            patience: 60_000,
            ..LeastRun::USUAL
        };
        let mut team = StripTeam::with_least_run(rt, rt.alloc(), workers, least);
        let mut now = seeded(&rt, size, 88172645463325252, 1);
        act_along(&rt, &mut team, run, &Still, &mut now);
        expect_that(&rt, team.was_by_strips() == in_strips);
    }
}

// Three rows of tiles, and exchanges that are listed once, twice and three times, 256 at a time.
#[test]
fn small_runs_by_strips_are_those_of_one_thread(rt: HostRuntime) {
    let size = Size::new(128, 192).expect(&rt, "a size");
    let walls = seeded(&rt, size, 77172645463325252, 7);
    let obstacles = seeded(&rt, size, 66172645463325252, 8);
    let drained = Rect::within(size, 30, 50, 60, 30).expect(&rt, "a rectangle");
    let filled = Rect::within(size, 20, 100, 70, 80).expect(&rt, "a rectangle");
    let exchanges = strokes(&rt, drained, filled, 513);
    let action = Listed {
        exchanges: exchanges.as_slice(),
    };
    for n in [1, 5, 257, 513] {
        let run = among(&walls, &obstacles, 1, n);
        let mut alone = seeded(&rt, size, 88172645463325252, 1);
        let by_one = act_along(&rt, &mut Serial, run, &action, &mut alone);
        for workers in [2, 3, 7] {
            let mut now = seeded(&rt, size, 88172645463325252, 1);
            let flow = by_strips(&rt, workers, run, &action, &mut now);
            expect_that(&rt, flow == by_one && have_same_rows(&now, &alone));
        }
        let moved = by_one.moved.injected.count > 0 && by_one.moved.drained.count > 0;
        expect_that(&rt, moved == (n > 1));
    }
}
