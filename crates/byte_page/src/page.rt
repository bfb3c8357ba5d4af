//! A page of bytes, and writing bytes to the end.

ghost use Rattle.std.specs.Prelude.{◌≡◌, ◌≤◌, ◌+◌, ◌++◌, [], length, OnOk, OnErr};
ghost use Rattle.std.specs.Io.KnownBytes.{Appends};
ghost use Rattle.byte_page.specs.Pages.{page_limit};
ghost use Rattle.byte_page.specs.Written.{WritesFront};

use std::error::Error;
use std::fmt;
use std::io::Write;
use std::marker::Model;

const PAGE_LIMIT: usize = 2048;

/// A buffer for at most `PAGE_LIMIT` bytes, which are added at its end. It never allocates.
#[derive(Drop)]
pub struct BytePage {
    bytes: [u8; PAGE_LIMIT],
    len: usize,
}

impl Model for BytePage {
    ghost use Rattle.std.specs.Prelude.{ℕ, List, ◌≤◌, take};
    ghost use Rattle.byte_page.specs.Pages.{page_limit};

    ghost Value = { List ℕ };

    ghost view = { λ p. take p.len p.bytes };

    ghost invariant = { λ p. p.len ≤ page_limit };
}

impl BytePage {
    /// A page without bytes.
    pub fn empty() -> BytePage
        ensures { result ≡ [] }
    {
        BytePage {
            bytes: [0; PAGE_LIMIT],
            len: 0,
        }
    }

    /// The bytes that were added.
    pub fn text(&self) -> &[u8]
        ensures { result.now ≡ self.now }
    {
        &self.bytes[..self.len]
    }

    /// Removes all bytes.
    pub fn clear(&mut self)
        ensures { self.new ≡ [] }
    {
        self.len = 0;
    }

    /// Adds bytes, for which there must be room.
    #[inline]
    pub fn push(&mut self, bytes: &[u8])
        requires { length self.old + length bytes.now ≤ page_limit }
        ensures bytes { self.new ≡ self.old ++ bytes.now }
        ensures len { length self.new ≡ length self.old + length bytes.now }
    {
        let end = self.len + bytes.len();
        self.bytes[self.len..end].copy_from_slice(bytes);
        self.len = end;
    }
}

/// The writer failed, or took no bytes.
#[derive(Clone, Copy, Debug, PartialEq, Eq)]
pub struct WriteFault;

impl fmt::Display for WriteFault {
    ghost use Rattle.std.specs.Prelude.{codes, Some};

    ghost output = { λ _. Some (codes "the bytes were not written whole") };

    fn fmt<W: fmt::Write>(&self, f: &mut fmt::Formatter<W>) -> fmt::Result {
        write!(f, "the bytes were not written whole")
    }
}

impl Error for WriteFault {}

/// Writes all of these bytes. If that fails, a prefix of them is written.
pub fn put_all<W: Write>(writer: &mut W, bytes: &[u8]) -> Result<(), WriteFault>
    ensures ok { OnOk result (Appends (W.contents writer.old) (W.contents writer.new) bytes.now) }
    ensures err { OnErr result
        (WritesFront (W.contents writer.old) (W.contents writer.new) bytes.now) }
{
    let mut from = 0;
    while from < bytes.len() {
        match writer.write(&bytes[from..]) {
            Ok(0) => return Err(WriteFault),
            Ok(n) => from += n,
            Err(_) => return Err(WriteFault),
        }
    }
    Ok(())
}
