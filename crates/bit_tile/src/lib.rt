//! A tile: a set of 64 by 64 cells, one bit for each, in 128 words of 32 cells sorted by the parities of column and row.
//!
//! The program uses all of it but `Tile::set` and `Tile::count`, which are for callers of the library.
#![tactic(auto)]

ghost use Rattle.std.specs.Prelude.{◌≡◌, ℕ, ◌+◌, ◌*◌, ◌/◌, ◌<◌, ◌≤◌, Bool, true, false, not, ◌&&◌, ◌||◌, ◌==◌, ◌%◌, ◌↔◌, nat_lt, nat_le, if◌then◌else◌, slice_index, IsTrue};
ghost use Rattle.bit_tile.specs.Bit.{bit};

mod class;
mod row;
mod word;

pub use class::span;
use class::{add, both, ones, put, remove, set_rows};
pub use row::counts_in_row;
pub use word::joined;
use word::{gather, in_turn};

/// A set of 64 by 64 cells, in four classes by the parities of column and row (`odd_even`: odd columns of even rows). Bit i
/// of word j of a class is the cell in the class's column i and row j: the cell in column 5 of row 8 is bit 2 of
/// `odd_even[4]`.
#[derive(Clone, Copy)]
pub struct Tile {
    pub even_even: [u32; 32],
    pub odd_even: [u32; 32],
    pub even_odd: [u32; 32],
    pub odd_odd: [u32; 32],
}

impl Tile {
    ghost use Rattle.bit_tile.specs.Tile.{has, HasCells, is_inside, class_of, count_cells, cell_changes};

    /// No cells.
    pub fn empty() -> Tile
        ensures { HasCells result (λ _ _. false) }
    {
        Tile {
            even_even: [0; 32],
            odd_even: [0; 32],
            even_odd: [0; 32],
            odd_odd: [0; 32],
        }
    }

    /// All cells.
    pub fn full() -> Tile
        ensures { HasCells result (λ _ _. true) }
    {
        Tile {
            even_even: [u32::MAX; 32],
            odd_even: [u32::MAX; 32],
            even_odd: [u32::MAX; 32],
            odd_odd: [u32::MAX; 32],
        }
    }

    /// The cells of the rectangle of width w and height h from (x, y).
    pub fn rect(x: u32, y: u32, w: u32, h: u32) -> Tile
        requires right { x + w ≤ 64 }
        requires bottom { y + h ≤ 64 }
        ensures { HasCells result (is_inside x y w h) }
    {
        let mut tile = Tile::empty();
        tile.set_rect(x, y, w, h, true);
        tile
    }

    /// Fills or empties the cells of the rectangle of width w and height h from (x, y). Returns how many change in each class of
    /// columns and rows: even column and even row, odd and even, even and odd, odd and odd.
    pub fn set_rect(&mut self, x: u32, y: u32, w: u32, h: u32, held: bool) -> [u32; 4]
        requires right { x + w ≤ 64 }
        requires bottom { y + h ≤ 64 }
        ensures cells { HasCells self.new (λ i j.
            if is_inside x y w h i j then held else has self.old i j) }
        ensures changed { (a b : ℕ) → a < 2 → b < 2 → slice_index result (2 * b + a) ≡
            count_cells (λ i j. is_inside x y w h i j && cell_changes held (has self.old i j)
            && i % 2 == a && j % 2 == b) }
        ensures bound { (k : ℕ) → slice_index result k ≤ 2048 }
    {
        let even_columns = span((x + 1) / 2, (x + w + 1) / 2);
        let odd_columns = span(x / 2, (x + w) / 2);
        let even_rows = ((y + 1) / 2, (y + h + 1) / 2);
        let odd_rows = (y / 2, (y + h) / 2);
        [
            set_rows(&mut self.even_even, even_columns, even_rows, held),
            set_rows(&mut self.odd_even, odd_columns, even_rows, held),
            set_rows(&mut self.even_odd, even_columns, odd_rows, held),
            set_rows(&mut self.odd_odd, odd_columns, odd_rows, held),
        ]
    }

    /// Whether the tile has the cell in column x of row y.
    pub fn get(&self, x: u32, y: u32) -> bool
        requires x { x < 64 }
        requires y { y < 64 }
        ensures { result ≡ has self.now x y }
    {
        (self.class_of(x, y)[(y / 2) as usize] >> (x / 2)) & 1 == 1
    }

    // The class that has the cell in column x of row y.
    fn class_of(&self, x: u32, y: u32) -> &[u32; 32]
        ensures { result.now ≡ class_of self.now x y }
    {
        if y % 2 == 0 {
            if x % 2 == 0 {
                &self.even_even
            } else {
                &self.odd_even
            }
        } else if x % 2 == 0 {
            &self.even_odd
        } else {
            &self.odd_odd
        }
    }

    /// Puts the cell in or takes it out.
    pub fn set(&mut self, x: u32, y: u32, held: bool)
        requires x { x < 64 }
        requires y { y < 64 }
        ensures { HasCells self.new (λ i j. if i == x && j == y then held else has self.old i j) }
    {
        if y % 2 == 0 {
            if x % 2 == 0 {
                put(&mut self.even_even, x / 2, y / 2, held);
            } else {
                put(&mut self.odd_even, x / 2, y / 2, held);
            }
        } else if x % 2 == 0 {
            put(&mut self.even_odd, x / 2, y / 2, held);
        } else {
            put(&mut self.odd_odd, x / 2, y / 2, held);
        }
    }

    /// The cells of row y: bit x is column x.
    #[inline]
    pub fn row(&self, y: usize) -> u64
        requires { y < 64 }
        ensures { (x : ℕ) → x < 64 → bit result x ≡ has self.now x y }
    {
        if y % 2 == 0 {
            in_turn(self.even_even[y / 2], self.odd_even[y / 2])
        } else {
            in_turn(self.even_odd[y / 2], self.odd_odd[y / 2])
        }
    }

    /// Replaces the cells of row y: bit x of the word is column x.
    #[inline]
    pub fn set_row(&mut self, y: usize, word: u64)
        requires { y < 64 }
        ensures { HasCells self.new (λ i j. if j == y then bit word i else has self.old i j) }
    {
        let even = gather(word);
        let odd = gather(word >> 1);
        if y % 2 == 0 {
            self.even_even[y / 2] = even;
            self.odd_even[y / 2] = odd;
        } else {
            self.even_odd[y / 2] = even;
            self.odd_odd[y / 2] = odd;
        }
    }

    /// The cells that both tiles have.
    pub fn meet(&self, other: &Tile) -> Tile
        ensures { HasCells result (λ i j. has self.now i j && has other.now i j) }
    {
        Tile {
            even_even: both(&self.even_even, &other.even_even),
            odd_even: both(&self.odd_even, &other.odd_even),
            even_odd: both(&self.even_odd, &other.even_odd),
            odd_odd: both(&self.odd_odd, &other.odd_odd),
        }
    }

    /// Adds the cells of the other.
    pub fn join(&mut self, other: &Tile)
        ensures { HasCells self.new (λ i j. has self.old i j || has other.now i j) }
    {
        add(&mut self.even_even, &other.even_even);
        add(&mut self.odd_even, &other.odd_even);
        add(&mut self.even_odd, &other.even_odd);
        add(&mut self.odd_odd, &other.odd_odd);
    }

    /// Removes the cells of the other.
    pub fn cut(&mut self, other: &Tile)
        ensures { HasCells self.new (λ i j. has self.old i j && not (has other.now i j)) }
    {
        remove(&mut self.even_even, &other.even_even);
        remove(&mut self.odd_even, &other.odd_even);
        remove(&mut self.even_odd, &other.even_odd);
        remove(&mut self.odd_odd, &other.odd_odd);
    }

    /// Whether there are no cells.
    pub fn is_empty(&self) -> bool
        ensures { IsTrue result ↔ HasCells self.now (λ _ _. false) }
    {
        for j in 0..32usize {
            if self.any_in_rows(j) != 0 {
                return false;
            }
        }
        true
    }

    // 0 exactly if rows 2 * j and 2 * j + 1 have no cells.
    #[inline]
    fn any_in_rows(&self, j: usize) -> u32
        requires { j < 32 }
        ensures empty { result ≡ 0 → (x y : ℕ) → x < 64 → y / 2 ≡ j → has self.now x y ≡ false }
        ensures known { ((x y : ℕ) → x < 64 → y / 2 ≡ j → has self.now x y ≡ false) → result ≡ 0 }
    {
        self.even_even[j] | self.odd_even[j] | self.even_odd[j] | self.odd_odd[j]
    }

    /// How many cells there are.
    pub fn count(&self) -> u32
        ensures { result ≡ count_cells (has self.now) }
    {
        ones(&self.even_even) + ones(&self.odd_even) + ones(&self.even_odd) + ones(&self.odd_odd)
    }

    /// How many cells there are in each class of columns and rows: even column and even row, odd and even, even and
    /// odd, odd and odd.
    pub fn count_by_parity(&self) -> [u32; 4]
        ensures counts { (i j : ℕ) → i < 2 → j < 2 → slice_index result (2 * j + i) ≡
            count_cells (λ x y. has self.now x y && x % 2 == i && y % 2 == j) }
        ensures bound { (k : ℕ) → slice_index result k ≤ 2048 }
    {
        [
            ones(&self.even_even),
            ones(&self.odd_even),
            ones(&self.even_odd),
            ones(&self.odd_odd),
        ]
    }
}
