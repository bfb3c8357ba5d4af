//! A phase of one tile at even parity, and what walls and obstacles take in a phase of either parity.

ghost use Rattle.std.specs.Prelude.{◌≡◌, ℕ, ◌+◌, ◌*◌, ◌<◌, Bool, ◌&&◌, slice_index};
ghost use Rattle.bit_tile.specs.Tile.{has, HasCells};
ghost use Rattle.block_rule.specs.Around.{turned_window, either, is_walled_at, is_for_walls, twice_momentum_in, taken_in_tile};
ghost use Rattle.gas_terms.specs.Accounts.{IsTakenOfAtMost};
ghost use Rattle.block_rule.specs.Accounts.{if_counted, counted_of};
ghost use Rattle.block_rule.specs.Rows.{ShowsTile};
ghost use Rattle.block_rule.specs.Shown.{TellsRows};
ghost use Rattle.block_rule.specs.NamedBlocks.{AreEvenBlocksOf, AreOddBlocksOf};
ghost use Rattle.block_rule.specs.TileBlocks.{NamesBlocks, AreGivenBlocks, walled_by};

use crate::blocks::Collision;
use crate::blocks_in_tile::{OddBlocks, SetBlocks};
use crate::collide_even::{collide_even, make_even};
use crate::count::{Classes, count_class, momentum};
use crate::walled::{Counted, OfSet};
use bit_tile::Tile;
use gas_terms::{Pair, Took};

// The first 32 of these words.
fn first_words(words: &[u32; 33]) -> &[u32; 32]
    ensures { (j : ℕ) → j < 32 → slice_index result.now j ≡ slice_index words.now j }
{
    words.first_chunk().unwrap()
}

// And the last 32.
fn last_words(words: &[u32; 33]) -> &[u32; 32]
    ensures { (j : ℕ) → j < 32 → slice_index result.now j ≡ slice_index words.now (j + 1) }
{
    words.last_chunk().unwrap()
}

// Twice the momentum of a tile's particles in blocks that words name, of even parity.
fn momentum_even(tile: &Tile, words: &[u32; 32]) -> Pair
    ensures is { (window : ℕ → ℕ → Bool) → AreEvenBlocksOf words.now (is_walled_at 0 window) →
        result ≡ twice_momentum_in 0 (λ x y. has tile.now x y && is_walled_at 0 window x y) }
    ensures few { IsTakenOfAtMost 4096 result }
{
    let counts = Classes {
        even_even: count_class(&tile.even_even, words),
        odd_even: count_class(&tile.odd_even, words),
        even_odd: count_class(&tile.even_odd, words),
        odd_odd: count_class(&tile.odd_odd, words),
    };
    momentum(counts, 0)
}

// And of odd parity.
fn momentum_odd(tile: &Tile, words: &OddBlocks) -> Pair
    ensures is { (window : ℕ → ℕ → Bool) → AreOddBlocksOf words.now (is_walled_at 1 window) →
        result ≡ twice_momentum_in 1 (λ x y. has tile.now x y && is_walled_at 1 window x y) }
    ensures few { IsTakenOfAtMost 4096 result }
{
    let counts = Classes {
        even_even: count_class(&tile.even_even, first_words(&words.end)),
        odd_even: count_class(&tile.odd_even, first_words(&words.begin)),
        even_odd: count_class(&tile.even_odd, last_words(&words.end)),
        odd_odd: count_class(&tile.odd_odd, last_words(&words.begin)),
    };
    momentum(counts, 1)
}

// Twice the momentum of a tile's particles in blocks with a cell of the set.
#[inline(never)]
fn momentum_by_set(tile: &Tile, set: SetBlocks<'_>, parity: u8) -> Pair
    requires { parity < 2 }
    ensures is { (window : ℕ → ℕ → Bool) →
        NamesBlocks set.entry.rows set.entry.blocks.now (walled_by window) →
        result ≡ twice_momentum_in parity (λ x y. has tile.now x y &&
        is_walled_at parity window x y) }
    ensures few { IsTakenOfAtMost 4096 result }
{
    if parity == 0 {
        momentum_even(tile, &set.blocks.even)
    } else {
        momentum_odd(tile, &set.blocks.odd)
    }
}

// These, if they are counted.
#[inline(always)]
fn taken_by_obstacles(
    tile: &Tile,
    obstacles: Option<SetBlocks<'_>>,
    parity: u8,
    counted: bool,
) -> Pair
    requires { parity < 2 }
    ensures { (obstructed : ℕ → ℕ → Bool) → AreGivenBlocks obstacles.entry (walled_by obstructed) →
        result ≡ if_counted counted
        (twice_momentum_in parity (λ x y. has tile.now x y && is_walled_at parity obstructed x y)) }
{
    if !counted {
        return Pair::ZERO;
    }
    match obstacles {
        Some(obstacles) => momentum_by_set(tile, obstacles, parity),
        None => Pair::ZERO,
    }
}

// And those in blocks with a wall and no obstacle: of all walled blocks, less those with an obstacle.
#[inline(always)]
fn taken_by_walls(
    tile: &Tile,
    all: Option<SetBlocks<'_>>,
    obstacles: Option<SetBlocks<'_>>,
    parity: u8,
    counted: bool,
) -> Pair
    requires { parity < 2 }
    ensures { (walled obstructed : ℕ → ℕ → Bool) →
        AreGivenBlocks all.entry (walled_by (either walled obstructed)) →
        AreGivenBlocks obstacles.entry (walled_by obstructed) →
        result ≡ if_counted counted
        (twice_momentum_in parity
        (λ x y. has tile.now x y && is_for_walls parity walled obstructed x y)) }
{
    if !counted {
        return Pair::ZERO;
    }
    match (all, obstacles) {
        (None, _) => Pair::ZERO,
        (Some(all), None) => momentum_by_set(tile, all, parity),
        (Some(all), Some(obstacles)) => {
            let rest = momentum_by_set(tile, obstacles, parity);
            momentum_by_set(tile, all, parity).minus(rest)
        }
    }
}

/// The momentum that walls and obstacles take in a phase of a tile's own particles: twice that of the particles in their blocks.
/// `all` names the walled blocks, and `obstacles` those of them that have an obstacle. An account that is not kept has 0.
#[inline(always)]
pub fn taken_among(
    tile: &Tile,
    all: Option<SetBlocks<'_>>,
    obstacles: Option<SetBlocks<'_>>,
    parity: u8,
    counted: Counted,
) -> Took
    requires { parity < 2 }
    ensures { (walled obstructed : ℕ → ℕ → Bool) →
        AreGivenBlocks all.entry (walled_by (either walled obstructed)) →
        AreGivenBlocks obstacles.entry (walled_by obstructed) →
        result ≡ counted_of counted (taken_in_tile parity tile.now walled obstructed) }
{
    Took {
        walls: taken_by_walls(tile, all, obstacles, parity, counted.walls),
        obstacles: taken_by_obstacles(tile, obstacles, parity, counted.obstacles),
    }
}

/// Turns the blocks of a tile in place, at even parity, among these walled blocks.
#[inline(always)]
pub fn turn_tile_even(tile: &mut Tile, walled: Option<SetBlocks<'_>>)
    ensures { (window solid : ℕ → ℕ → Bool) → ShowsTile window tile.old →
        AreGivenBlocks walled.entry (walled_by solid) →
        HasCells tile.new (turned_window 0 window solid) }
{
    match walled {
        None => make_even(Collision, tile),
        Some(set) => collide_even(OfSet { set }, tile),
    }
}
