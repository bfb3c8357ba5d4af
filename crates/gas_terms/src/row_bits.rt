//! The cells of a row, as bytes.

ghost use Rattle.std.specs.Prelude.{◌≡◌, ◌≤◌, IfOk, replicate, length};
ghost use Rattle.std.specs.Borrow.{Lends, Array, sem, u8};
ghost use Rattle.gas_terms.specs.Rows.{most_row_bytes, overwritten};
ghost use Rattle.gas_terms.specs.contracts.row_bits.RowBits.{the_row};

use crate::NoMemory;
use std::alloc::Global;
use std::marker::Model;

/// The cells of a row, as at most `MOST_ROW_BYTES` bytes.
#[derive(Drop)]
pub struct RowBits {
    bytes: Vec<u8>,
}

impl Model for RowBits {
    ghost use Rattle.std.specs.Prelude.{ℕ, ◌≤◌, List, length};
    ghost use Rattle.gas_terms.specs.Rows.{most_row_bytes};

    ghost Value = { List ℕ };

    ghost view = { λ b. b.bytes.items };

    ghost invariant = { λ b. length b.bytes.items ≤ most_row_bytes };
}

impl RowBits {
    /// A row without particles.
    pub fn zero(alloc: Global, len: usize) -> Result<RowBits, NoMemory>
        requires { len ≤ most_row_bytes }
        ensures { IfOk result (λ row. row ≡ replicate len 0) }
    {
        Ok(RowBits {
            bytes: vec![in alloc; 0; len]?,
        })
    }

    /// An equal row of its own.
    pub fn copy(&self, alloc: Global) -> Result<RowBits, NoMemory>
        ensures { IfOk result (λ row. row ≡ self.now) }
    {
        Ok(RowBits {
            bytes: Vec::from_slice(alloc, self.bytes.as_slice())?,
        })
    }

    /// The bytes: of eight cells each, with the left one highest.
    pub fn bytes(&self) -> &[u8]
        ensures bytes { result.now ≡ self.now }
        ensures short { length self.now ≤ most_row_bytes }
    {
        self.bytes.as_slice()
    }

    /// The bytes, for writing. Their number cannot change.
    pub fn bytes_mut(&mut self) -> &mut [u8]
        ensures* writes_back { sem 𝓛
            (Lends the_row (Array u8 0) self.entry result (overwritten self.old)) }
        ensures value { result.now ≡ self.old }
    {
        self.bytes.as_mut_slice()
    }
}
