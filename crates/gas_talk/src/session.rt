//! A session: reads lines, asks each of the door, and writes each reply.

ghost use Rattle.std.specs.Prelude.{◌≡◌, ◌≢◌, false, IfSome, Result, ℕ, List, ◌+◌, ◌++◌};
ghost use Rattle.std.specs.Io.KnownBytes.{Appends};
ghost use Rattle.std.specs.declared.alloc.AllocError.{AllocError as NoMemory};
ghost use Rattle.gas_lab.specs.declared.door.Copied.{Copied};
ghost use Rattle.gas_snapshot.specs.Shelved.{Gains};
ghost use Rattle.gas_text.specs.Requests.{request_of};
ghost use Rattle.gas_text.specs.Texts.{is_bye, reply_line};
ghost use Rattle.gas_talk.specs.Lines.{text};
ghost use Rattle.gas_talk.specs.Ends.{Place, place, is_quit, bytes_put, failed_by, failures_after, IsSession};
ghost use Rattle.gas_talk.specs.Talk.{Put, Takes, Saves, calls};
ghost use Rattle.gas_talk.specs.Private.{WritesPart, EndsWith, Progress, AnswersLines};

use crate::end::SessionEnd;
use crate::reader::{Found, LineReader, ReadCount, ReadFault, SessionReads};
use byte_page::put_all;
use gas_lab::{Copied, Door};
use gas_snapshot::{Shelf, encode};
use gas_terms::{NoMemory, Refusal};
use gas_text::{Reply, ReplyPage, Request, read_command, reply_text};
use std::alloc::Global;
use std::io::{Read, Write};
use std::marker::Brand;
use std::sync::ledger::{Blank, Ledger};

// How many reads a session makes at most.
const READS: u32 = 1 << 24;

// Copies, encodes, and puts the snapshot on the shelf.
fn save<D: Door, K: Shelf>(alloc: Global, door: &mut D, shelf: &mut K) -> Reply
    ensures saved { (copied : Result Copied NoMemory) × (put : Put)
        × D.copies door.old copied door.new × Saves copied result put
        × (K.failures shelf.new ≡ failures_after (K.failures shelf.old) (failed_by put))
        × Gains (K.shelved shelf.old) (K.shelved shelf.new) (bytes_put put) }
    ensures size { D.size_of door.new ≡ D.size_of door.old }
    ensures goes_on { is_bye result ≡ false }
{
    let copied = match door.copy_gas() {
        Ok(copied) => copied,
        Err(_) => return Reply::Refused(Refusal::Memory),
    };
    let bytes = match encode(alloc, &copied.gas) {
        Ok(bytes) => bytes,
        Err(_) => return Reply::Refused(Refusal::Memory),
    };
    match shelf.put(bytes.as_slice()) {
        Ok(()) => Reply::Saved(copied.entries, bytes.len() as u64),
        Err(_) => Reply::Refused(Refusal::Save),
    }
}

// Does what the line asks, and returns the reply: `Bye` exactly if the line asks to quit.
fn reply_of<D: Door, K: Shelf>(alloc: Global, line: &str, door: &mut D, shelf: &mut K) -> Reply
    ensures taken { (put : Put) × Takes (calls D.size_of D.asks D.copies) door.old
        (record { item = text line.now; reply = result; put = put }) door.new
        × (K.failures shelf.new ≡ failures_after (K.failures shelf.old) (failed_by put))
        × Gains (K.shelved shelf.old) (K.shelved shelf.new) (bytes_put put) }
    ensures quit { is_bye result ≡ is_quit (request_of (D.size_of door.old) line.now) }
{
    match read_command(alloc, line, door.size()) {
        Ok(Request::Ask(command)) => match door.ask(command) {
            Ok(answer) => Reply::Answered(answer),
            Err(refusal) => Reply::Refused(refusal),
        },
        Ok(Request::Save) => save(alloc, door, shelf),
        Ok(Request::Quit) => Reply::Bye,
        Err(refusal) => Reply::Refused(refusal),
    }
}

// Writes the text and flushes. If that fails, a part of the text is written.
fn send<W: Write>(writer: &mut W, text: &[u8]) -> bool
    ensures { WritesPart (W.contents writer.old) (W.contents writer.new) text.now result }
{
    match put_all(writer, text) {
        Ok(()) => writer.flush().is_ok(),
        Err(_) => false,
    }
}

// Writes the line of a reply and flushes. If that fails, a part of the line is written.
fn send_reply<W: Write>(writer: &mut W, reply: &Reply, page: &mut ReplyPage) -> bool
    ensures { let line = reply_line reply.now in
        WritesPart (W.contents writer.old) (W.contents writer.new) line result }
{
    reply_text(reply, page);
    send(writer, page.text())
}

// Sends the last reply. Returns `end`, or `WriteFault` if writing fails.
fn last<W: Write>(
    writer: &mut W,
    page: &mut ReplyPage,
    refusal: Refusal,
    end: SessionEnd,
) -> SessionEnd
    ensures { (part : List ℕ) × (rest : List ℕ)
        × (reply_line (Reply.Refused refusal) ≡ part ++ rest)
        × Appends (W.contents writer.old) (W.contents writer.new) part × EndsWith rest end result }
{
    if send_reply(writer, &Reply::Refused(refusal), page) {
        end
    } else {
        SessionEnd::WriteFault
    }
}

// Answers each line that is there.
fn answer_lines<W: Write, D: Door, K: Shelf>(
    alloc: Global,
    lines: &mut LineReader,
    writer: &mut W,
    door: &mut D,
    shelf: &mut K,
    page: &mut ReplyPage,
) -> Option<SessionEnd>
    ensures answered { (input : List ℕ) (from : Place _)
        → Progress (calls D.size_of D.asks D.copies) input from lines.old
        (place door.old (W.contents writer.old) (K.failures shelf.old) (K.shelved shelf.old))
        → AnswersLines (calls D.size_of D.asks D.copies) input from result lines.new
        (place door.new (W.contents writer.new) (K.failures shelf.new) (K.shelved shelf.new)) }
    ensures end { IfSome result (λ end. end ≢ SessionEnd.InputEnd) }
    ensures in_time { IfSome result (λ end. end ≢ SessionEnd.TooManyReads) }
    ensures no_fault { IfSome result (λ end. end ≢ SessionEnd.ReadFault) }
{
    'lines: loop {
        match lines.next_line() {
            Found::Line(line) => {
                let reply = reply_of(alloc, line.as_str(), door, shelf);
                let is_quit = reply.is_bye();
                let is_sent = send_reply(writer, &reply, page);
                if !is_sent {
                    return Some(SessionEnd::WriteFault);
                }
                if is_quit {
                    return Some(SessionEnd::Quit);
                }
            }
            Found::Bad => return Some(last(writer, page, Refusal::Line, SessionEnd::BadLine)),
            Found::NoMemory => return Some(last(writer, page, Refusal::Memory, SessionEnd::Memory)),
            Found::More => return None,
        }
    }
}

/// Serves one session: cuts what the reader gives into lines of at most 2,048 bytes, asks each of the door, and writes and
/// flushes its reply before the next is taken. It reads again only if no whole line is left, at most 4,096 bytes at once and at
/// most 2^24 times. What is after the last newline is not asked. A snapshot is put on the shelf after the door's call has ended.
/// `count` counts the reads; `serve_door` is the same for a caller that doesn't count them.
pub fn session<R: Read, W: Write, D: Door, K: Shelf, L: Ledger>(
    alloc: Global,
    reader: &mut R,
    writer: &mut W,
    door: &mut D,
    shelf: &mut K,
    count: &mut ReadCount<L>,
) -> SessionEnd
    ensures { (session : IsSession (calls D.size_of D.asks D.copies)
        (R.remaining reader.old) (R.remaining reader.new)
        (place door.old (W.contents writer.old) (K.failures shelf.old) (K.shelved shelf.old))
        result
        (place door.new (W.contents writer.new) (K.failures shelf.new) (K.shelved shelf.new)))
        × (count.new ≡ count.old + session.reads) }
{
    let mut reads = SessionReads::new(reader, READS, count);
    let mut lines = LineReader::new(alloc);
    let mut page = ReplyPage::empty();
    while reads.any_left() {
        match lines.read_more(&mut reads) {
            Ok(0) => return SessionEnd::InputEnd,
            Ok(_) => {}
            Err(ReadFault::Reader) => return SessionEnd::ReadFault,
            Err(ReadFault::NoMemory) => {
                return last(writer, &mut page, Refusal::Memory, SessionEnd::Memory);
            }
        }
        match answer_lines(alloc, &mut lines, writer, door, shelf, &mut page) {
            Some(end) => return end,
            None => {}
        }
    }
    SessionEnd::TooManyReads
}

// A session with a count of its own.
fn serve_counted<R: Read, W: Write, D: Door, K: Shelf, L: Ledger>(
    alloc: Global,
    reader: &mut R,
    writer: &mut W,
    door: &mut D,
    shelf: &mut K,
    blank: Blank,
) -> SessionEnd
    requires name { blank.name ≡ L.name }
    requires parts { (blank.parts ≡ L.parts) × (blank.parts ≡ 1) }
    ensures { IsSession (calls D.size_of D.asks D.copies)
        (R.remaining reader.old) (R.remaining reader.new)
        (place door.old (W.contents writer.old) (K.failures shelf.old) (K.shelved shelf.old))
        result
        (place door.new (W.contents writer.new) (K.failures shelf.new) (K.shelved shelf.new)) }
{
    let mut count = ReadCount::<L>::new(blank);
    session(alloc, reader, writer, door, shelf, &mut count)
}

/// Serves one session over a door, as `session` does, and doesn't tell how many reads it made.
pub fn serve_door<R: Read, W: Write, D: Door, K: Shelf>(
    alloc: Global,
    reader: &mut R,
    writer: &mut W,
    door: &mut D,
    shelf: &mut K,
) -> SessionEnd
    ensures { IsSession (calls D.size_of D.asks D.copies)
        (R.remaining reader.old) (R.remaining reader.new)
        (place door.old (W.contents writer.old) (K.failures shelf.old) (K.shelved shelf.old))
        result
        (place door.new (W.contents writer.new) (K.failures shelf.new) (K.shelved shelf.new)) }
{
    serve_counted::<R, W, D, K, Brand>(alloc, reader, writer, door, shelf, Blank::new(1))
}
