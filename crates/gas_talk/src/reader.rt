//! Reads an input, a limited number of times, and cuts it into lines.

ghost use Rattle.std.specs.Prelude.{◌≡◌, ℕ, ◌+◌, ◌<◌, ◌≤◌, List, [], nat_lt, length, IfOk, OnErr};
ghost use Rattle.std.specs.Io.{ReadsAtMost};
ghost use Rattle.std.specs.Io.KnownBytes.{ReadConsumes};
ghost use Rattle.gas_talk.specs.Ends.{read_limit};
ghost use Rattle.gas_talk.specs.Private.{KeepsUnread, kept_len, Finds, IsShorter, HasRead, HasReadNothing, reads_made};

use bytes::BytesMut;
use std::alloc::Global;
use std::io;
use std::io::Read;
use std::marker::Model;
use std::sync::ledger::{Blank, Book, Ledger, Share};
use tokio_util::codec::{Decoder, LinesCodec, LinesCodecError};

// How many bytes a read asks for at most.
const READ_LIMIT: usize = 4096;

/// A zero-sized counter of reads; only `SessionReads::read` advances it.
#[derive(Drop)]
pub struct ReadCount<L: Ledger> {
    book: Book<L>,
    share: Share<L>,
}

impl<L: Ledger> Model for ReadCount<L> {
    ghost use Rattle.std.specs.Prelude.{ℕ, ◌<◌};

    ghost Value = { ℕ };

    ghost view = { λ c. c.book.total };

    ghost invariant = { λ c. 0 < c.share.parts };
}

impl<L: Ledger> ReadCount<L> {
    /// None is made yet.
    pub fn new(blank: Blank) -> ReadCount<L>
        requires name { blank.name ≡ L.name }
        requires parts { (blank.parts ≡ L.parts) × (0 < blank.parts) }
        ensures { result ≡ 0 }
    {
        let (book, share) = blank.open::<L>();
        ReadCount { book, share }
    }

    fn add_one(&mut self)
        ensures { self.new ≡ self.old + 1 }
    {
        self.book.add(&mut self.share, 1);
    }
}

/// A reader, how many reads of it a session has left, and the count of those that it makes.
#[derive(Drop)]
pub struct SessionReads<'a, R, L: Ledger> {
    reader: &'a mut R,
    left: u32,
    count: &'a mut ReadCount<L>,
}

impl<'a, R: Read, L: Ledger> SessionReads<'a, R, L> {
    /// `left` reads may be made.
    pub fn new(reader: &'a mut R, left: u32, count: &'a mut ReadCount<L>) -> SessionReads<'a, R, L>
        ensures same { result.reader.ghost_name ≡ reader.entry.ghost_name }
        ensures bytes { result.reader.now ≡ reader.old }
        ensures left { result.left ≡ left }
        ensures same_count { result.count.ghost_name ≡ count.entry.ghost_name }
        ensures count { result.count.now ≡ count.old }
    {
        SessionReads {
            reader,
            left,
            count,
        }
    }

    /// Whether another may be made.
    pub fn any_left(&self) -> bool
        ensures { result ≡ nat_lt 0 self.now.left }
    {
        self.left > 0
    }

    /// Reads once into a page.
    pub fn read(&mut self, page: &mut [u8]) -> io::Result<usize>
        requires left { 0 < self.old.left }
        requires page { length page.old ≤ read_limit }
        ensures same { (self.new.reader.ghost_name ≡ self.old.reader.ghost_name)
            × (self.new.count.ghost_name ≡ self.old.count.ghost_name) }
        ensures counted { (self.new.left + 1 ≡ self.old.left)
            × (self.new.count.now ≡ self.old.count.now + 1) }
        ensures bound { ReadsAtMost result page.new }
        ensures bytes { ReadConsumes (R.remaining self.old.reader.now)
            (R.remaining self.new.reader.now) result page.new }
    {
        self.left -= 1;
        self.count.add_one();
        self.reader.read(page)
    }
}

// How many bytes a line may have before its newline.
const LINE_LIMIT: usize = 2048;

/// Cuts an input that comes in pieces into lines.
#[derive(Drop)]
pub struct LineReader {
    codec: LinesCodec,
    buffer: BytesMut,
}

/// What is next in the input so far.
#[derive(Drop)]
pub enum Found {
    Line(String),
    /// A line that is too long or is not UTF-8.
    Bad,
    NoMemory,
    /// No whole line.
    More,
}

/// Why a read gave nothing.
#[derive(Clone, Copy, Debug)]
pub enum ReadFault {
    Reader,
    NoMemory,
}

impl LineReader {
    /// Nothing is read yet.
    pub fn new(alloc: Global) -> LineReader
        ensures { KeepsUnread result [] }
    {
        LineReader {
            codec: LinesCodec::new_with_max_length(LINE_LIMIT),
            buffer: BytesMut::new(alloc),
        }
    }

    /// Takes the next line.
    pub fn next_line(&mut self) -> Found
        ensures found { (unread : List ℕ) → KeepsUnread self.old unread →
            Finds unread result self.new }
        ensures shorter { IsShorter result (kept_len self.old) (kept_len self.new) }
    {
        match self.codec.decode(&mut self.buffer) {
            Ok(Some(line)) => Found::Line(line),
            Ok(None) => Found::More,
            Err(LinesCodecError::MaxLineLengthExceeded) => Found::Bad,
            Err(LinesCodecError::Io(e)) => match e.kind() {
                io::ErrorKind::OutOfMemory => Found::NoMemory,
                _ => Found::Bad,
            },
        }
    }

    /// Reads once, at most `READ_LIMIT` bytes, and keeps what the read gives.
    pub fn read_more<R: Read, L: Ledger>(
        &mut self,
        reads: &mut SessionReads<'_, R, L>,
    ) -> Result<usize, ReadFault>
        requires { 0 < reads.old.left }
        ensures same { (reads.new.reader.ghost_name ≡ reads.old.reader.ghost_name)
            × (reads.new.count.ghost_name ≡ reads.old.count.ghost_name) }
        ensures counted { let made = reads_made result in
            (reads.new.left + made ≡ reads.old.left)
            × (reads.new.count.now ≡ reads.old.count.now + made) }
        ensures read { IfOk result (λ n. HasRead n
            (R.remaining reads.old.reader.now) self.old
            (R.remaining reads.new.reader.now) self.new) }
        ensures err { OnErr result (HasReadNothing
            (R.remaining reads.old.reader.now) self.old
            (R.remaining reads.new.reader.now) self.new) }
    {
        if self.buffer.reserve(READ_LIMIT).is_err() {
            return Err(ReadFault::NoMemory);
        }
        let kept = self.buffer.len();
        self.buffer.advance_mut(READ_LIMIT);
        match reads.read(&mut self.buffer.as_mut_slice()[kept..]) {
            Ok(n) => {
                self.buffer.truncate(kept + n);
                Ok(n)
            }
            Err(_) => {
                self.buffer.truncate(kept);
                Err(ReadFault::Reader)
            }
        }
    }
}
