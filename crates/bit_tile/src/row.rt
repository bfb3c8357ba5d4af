//! Counts of the cells of a row.

ghost use Rattle.std.specs.Prelude.{◌≡◌, ℕ, ◌+◌, ◌*◌, ◌%◌, ◌<◌, ◌≤◌, ◌&&◌, ◌==◌, slice_index};
ghost use Rattle.bit_tile.specs.Bit.{bit};
ghost use Rattle.bit_tile.specs.Sums.{count_below};

const EVEN_COLUMNS: u64 = 0x5555_5555_5555_5555;

const ODD_COLUMNS: u64 = 0xaaaa_aaaa_aaaa_aaaa;

/// How many cells of row y there are in each class of columns and rows: even column and even row, odd and even, even and
/// odd, odd and odd. Bit x of the word is column x.
pub fn counts_in_row(word: u64, y: u32) -> [u32; 4]
    ensures counts { (i j : ℕ) → i < 2 → j < 2 → slice_index result (2 * j + i) ≡
        count_below 64 (λ x. bit word x && x % 2 == i && y % 2 == j) }
    ensures bound { (k : ℕ) → slice_index result k ≤ 64 }
{
    let even = (word & EVEN_COLUMNS).count_ones();
    let odd = (word & ODD_COLUMNS).count_ones();
    if y % 2 == 0 {
        [even, odd, 0, 0]
    } else {
        [0, 0, even, odd]
    }
}
