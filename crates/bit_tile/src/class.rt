//! A class of a tile's cells: 32 words of 32 cells, all of one parity of column and row.

ghost use Rattle.std.specs.Prelude.{◌≡◌, ℕ, ◌+◌, ◌*◌, ◌/◌, ◌<◌, ◌≤◌, not, ◌&&◌, ◌||◌, ◌==◌, nat_lt, nat_le, if◌then◌else◌, slice_index, IsTrue};
ghost use Rattle.bit_tile.specs.Bit.{bit};
ghost use Rattle.bit_tile.specs.Sums.{sum_below, count_below};
ghost use Rattle.bit_tile.specs.Tile.{in_class, is_among_rows, cell_changes};

use crate::word::joined;

/// The bits from `first` up to `end`.
#[inline(always)]
pub fn span(first: u32, end: u32) -> u32
    requires order { first ≤ end }
    requires within { end ≤ 32 }
    ensures { (i : ℕ) → i < 32 → bit result i ≡ (nat_le first i && nat_lt i end) }
{
    if first == end {
        0
    } else {
        (u32::MAX >> (32 - (end - first))) << first
    }
}

/// Fills or empties the cells of the columns in the word in the rows of a class from the first number up to the second. Returns how
/// many change.
pub fn set_rows(class: &mut [u32; 32], word: u32, rows: (u32, u32), held: bool) -> u32
    requires order { rows.0 ≤ rows.1 }
    requires within { rows.1 ≤ 32 }
    ensures cells { (i j : ℕ) → i < 32 → j < 32 → in_class class.new i j ≡
        (if is_among_rows word rows.0 rows.1 i j then held else in_class class.old i j) }
    ensures count { result ≡ sum_below 32 (λ j. count_below 32 (λ i.
        is_among_rows word rows.0 rows.1 i j && cell_changes held (in_class class.old i j))) }
    ensures bound { result ≤ 1024 }
{
    let lowest = word & word.wrapping_neg();
    if word == 0 {
        set_each(class, 0, rows, held)
    } else if rows.0 != 0 || rows.1 != 32 {
        set_each(class, word, rows, held)
    } else if word == lowest {
        set_each(class, lowest, (0, 32), held)
    } else {
        set_each(class, word, (0, 32), held)
    }
}

// The loop of `set_rows`, compiled for each call: LLVM drops it for the word 0, and doesn't count the ones of a lone bit.
#[inline(always)]
fn set_each(class: &mut [u32; 32], word: u32, rows: (u32, u32), held: bool) -> u32
    requires order { rows.0 ≤ rows.1 }
    requires within { rows.1 ≤ 32 }
    ensures cells { (i j : ℕ) → i < 32 → j < 32 → in_class class.new i j ≡
        (if is_among_rows word rows.0 rows.1 i j then held else in_class class.old i j) }
    ensures count { result ≡ sum_below 32 (λ j. count_below 32 (λ i.
        is_among_rows word rows.0 rows.1 i j && cell_changes held (in_class class.old i j))) }
    ensures bound { result ≤ 1024 }
{
    let (first, end) = rows;
    let flip = if held { u32::MAX } else { 0 };
    let mut n = 0;
    for j in first as usize..end as usize {
        let changed = (class[j] ^ flip) & word;
        n += changed.count_ones();
        class[j] ^= changed;
    }
    n
}

/// Puts a cell of a class in, or takes it out.
pub fn put(class: &mut [u32; 32], i: u32, j: u32, held: bool)
    requires i { i < 32 }
    requires j { j < 32 }
    ensures { (k m : ℕ) → k < 32 → in_class class.new k m ≡
        (if k == i && m == j then held else in_class class.old k m) }
{
    let row = class[j as usize];
    class[j as usize] = if held {
        row | (1 << i)
    } else {
        row & !(1 << i)
    };
}

/// How many cells a class has: those of two rows at a time.
pub fn ones(class: &[u32; 32]) -> u32
    ensures count { result ≡ sum_below 32 (λ j. count_below 32 (bit (slice_index class.now j))) }
    ensures bound { result ≤ 1024 }
{
    let mut n = 0;
    for j in 0..16usize {
        n += joined(class[2 * j], class[2 * j + 1]).count_ones();
    }
    n
}

/// The cells that both classes have.
pub fn both(class: &[u32; 32], other: &[u32; 32]) -> [u32; 32]
    ensures { (i j : ℕ) → j < 32 →
        in_class result i j ≡ (in_class class.now i j && in_class other.now i j) }
{
    let mut rows = [0; 32];
    for j in 0..32usize {
        rows[j] = class[j] & other[j];
    }
    rows
}

/// Adds the cells of the other to a class.
pub fn add(class: &mut [u32; 32], other: &[u32; 32])
    ensures { (i j : ℕ) → j < 32 →
        in_class class.new i j ≡ (in_class class.old i j || in_class other.now i j) }
{
    for j in 0..32usize {
        class[j] |= other[j];
    }
}

/// Takes the cells of the other out of a class.
pub fn remove(class: &mut [u32; 32], other: &[u32; 32])
    ensures { (i j : ℕ) → i < 32 → j < 32 → in_class class.new i j ≡
        (in_class class.old i j && not (in_class other.now i j)) }
{
    for j in 0..32usize {
        class[j] &= !other[j];
    }
}
