//! The momentum of particles in given places, by their counts.

ghost use Rattle.std.specs.Prelude.{◌≡◌, ℕ, ◌+◌, ◌*◌, ◌<◌, ◌≤◌, ◌&&◌, Bool, false, slice_index, pos, ◌-ℤ◌, nat_abs};
ghost use Rattle.gas_terms.specs.Accounts.{IsTakenOfAtMost};
ghost use Rattle.block_rule.specs.Around.{twice_momentum_in};
ghost use Rattle.block_rule.specs.Classes.{HasAtMost, AreClassCounts, particles_among};

use bit_tile::joined;
use gas_terms::Pair;

/// How many of a class's cells there are in these places.
#[inline(always)]
pub fn count_class(cells: &[u32; 32], places: &[u32; 32]) -> u32
    ensures count { result ≡ particles_among cells.now places.now 32 }
    ensures bound { result ≤ 1024 }
{
    let mut n = 0;
    // Two rows at a time.
    for k in 0..16usize {
        let j = 2 * k;
        n += (joined(cells[j], cells[j + 1]) & joined(places[j], places[j + 1])).count_ones();
    }
    n
}

/// How many particles there are in even columns of even rows, in odd of even, even of odd, and odd of odd.
#[derive(Clone, Copy)]
pub struct Classes {
    pub even_even: u32,
    pub odd_even: u32,
    pub even_odd: u32,
    pub odd_odd: u32,
}

// Twice the difference.
fn twice(forward: u32, back: u32) -> i64
    requires forward { forward ≤ 2048 }
    requires back { back ≤ 2048 }
    ensures is { result ≡ pos (2 * forward) -ℤ pos (2 * back) }
    ensures few { nat_abs result ≤ 8192 }
{
    2 * i64::from(forward) - 2 * i64::from(back)
}

/// Twice their momentum. If blocks begin at even places, particles in even columns go right and those in even rows go down. If
/// blocks begin at odd places, those in odd columns and odd rows do.
pub fn momentum(counts: Classes, parity: u8) -> Pair
    requires counts { HasAtMost 1024 counts }
    requires parity { parity < 2 }
    ensures is { (cells : ℕ → ℕ → Bool) → AreClassCounts counts cells →
        result ≡ twice_momentum_in parity cells }
    ensures few { IsTakenOfAtMost 4096 result }
{
    let even_columns = counts.even_even + counts.even_odd;
    let odd_columns = counts.odd_even + counts.odd_odd;
    let even_rows = counts.even_even + counts.odd_even;
    let odd_rows = counts.even_odd + counts.odd_odd;
    if parity == 0 {
        return Pair {
            x: twice(even_columns, odd_columns),
            y: twice(even_rows, odd_rows),
        };
    }
    Pair {
        x: twice(odd_columns, even_columns),
        y: twice(odd_rows, even_rows),
    }
}
