//! Rows of cells as bytes, read and written.

ghost use Rattle.std.specs.Prelude.{◌≡◌, ℕ, ◌+◌, ◌*◌, ◌/◌, ◌%◌, ◌<◌, ◌-◌, length, slice_index};
ghost use Rattle.bit_tile.specs.Bit.{bit};
ghost use Rattle.gas_terms.specs.Cells.{has};
ghost use Rattle.gas_terms.specs.Rows.{row_has, row_replaced, row_bytes};
ghost use Rattle.gas_plane.specs.Planes.{with_row_word};

use crate::Plane;

const EVEN_BITS: u64 = 0x5555_5555_5555_5555;

const EVEN_PAIRS: u64 = 0x3333_3333_3333_3333;

const LOW_HALVES: u64 = 0x0f0f_0f0f_0f0f_0f0f;

impl Plane {
    /// Writes the cells of row y, eight in a byte: the leftmost is the highest bit of the first.
    pub fn row_bytes(&self, y: u32, out: &mut [u8])
        requires y { y < self.now.height }
        requires out { length out.old ≡ self.now.width / 8 }
        ensures { out.new ≡ row_bytes self.now y }
    {
        for column in 0..self.across() {
            let from = column as usize * 8;
            out[from..from + 8].copy_from_slice(&bytes_of(self.word(column, y)));
        }
    }

    /// Replaces the cells of row y by those of the bytes.
    pub fn set_row(&mut self, y: u32, bytes: &[u8])
        requires y { y < self.old.height }
        requires bytes { length bytes.now ≡ self.old.width / 8 }
        ensures { self.new ≡ row_replaced self.old y bytes.now }
    {
        let across = self.across();
        for column in 0..across {
            let from = column as usize * 8;
            let word = word_of(&bytes[from..from + 8]);
            self.set_word(column, y, word);
        }
    }

    /// The 64 cells of row y from column 64 * column on: the lowest bit is the leftmost.
    pub fn word(&self, column: u32, y: u32) -> u64
        requires column { column < self.now.width / 64 }
        requires y { y < self.now.height }
        ensures { (x : ℕ) → x < 64 → bit result x ≡ has self.now (column * 64 + x) y }
    {
        let across = self.across();
        self.tile(y / 64 * across + column).row((y % 64) as usize)
    }

    fn set_word(&mut self, column: u32, y: u32, word: u64)
        requires column { column < self.old.width / 64 }
        requires y { y < self.old.height }
        ensures { self.new ≡ with_row_word self.old column y word }
    {
        let across = self.across();
        // Most rows that are loaded have not changed, and then the tile is not lent.
        if self.word(column, y) != word {
            let tile = self.tile_mut(y / 64 * across + column);
            tile.set_row((y % 64) as usize, word);
        }
    }
}

// The cells of a word, eight in a byte: the leftmost is the highest bit of the first.
fn bytes_of(word: u64) -> [u8; 8]
    ensures { (k i : ℕ) → k < 8 → i < 8 →
        bit (slice_index result k) (7 - i) ≡ bit word (8 * k + i) }
{
    mirrored(word).to_le_bytes()
}

/// The 64 cells of eight bytes of a row, as a word whose lowest bit is the leftmost.
pub fn word_of(bytes: &[u8]) -> u64
    requires { length bytes.now ≡ 8 }
    ensures { (x : ℕ) → x < 64 → bit result x ≡ row_has bytes.now x }
{
    mirrored(u64::from_le_bytes([
        bytes[0], bytes[1], bytes[2], bytes[3], bytes[4], bytes[5], bytes[6], bytes[7],
    ]))
}

// The word with the bits of each byte in reverse.
fn mirrored(word: u64) -> u64
    ensures { (i : ℕ) → i < 64 → bit result i ≡ bit word (i / 8 * 8 + (7 - i % 8)) }
{
    let ones = ((word >> 1) & EVEN_BITS) | ((word & EVEN_BITS) << 1);
    let pairs = ((ones >> 2) & EVEN_PAIRS) | ((ones & EVEN_PAIRS) << 2);
    ((pairs >> 4) & LOW_HALVES) | ((pairs & LOW_HALVES) << 4)
}
