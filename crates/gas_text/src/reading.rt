//! Reads a line: its request, or the first of its faults.

ghost use Rattle.std.specs.Prelude.{◌≡◌, true, nat_lt, ◌≤◌, ◌/◌, ◌*◌, ◌⊎◌, ℕ, List, [], ◌∷◌, length, take, Ok, Err, IfOk, IsOk};
ghost use Rattle.hex.specs.Hex.{decode_sized};
ghost use Rattle.gas_terms.specs.Cells.{lies_within};
ghost use Rattle.gas_terms.specs.Rows.{most_row_bytes};
ghost use Rattle.gas_terms.specs.Commands.{is_step_count, is_period};
ghost use Rattle.gas_terms.specs.declared.refusal.Refusal.TheVariants.{Memory};
ghost use Rattle.gas_text.specs.declared.verb.Verb.TheVariants.{Row, Source};
ghost use Rattle.gas_text.specs.Words.{words};
ghost use Rattle.gas_text.specs.Requests.{number_count, area, row_number, step_count, period, spelled, verb_request, request_of, Reads, IsAskable};

use crate::request::Request;
use crate::verb::Verb;
use crate::word::{count_words, next_word, read_numbers};
use gas_terms::{Command, MOST_PERIOD, MOST_ROW_BYTES, MOST_STEPS, Rect, Refusal, RowBits, Size};
use hex::decode_to_slice;
use std::alloc::Global;

fn read_area(size: Size, x: u32, y: u32, w: u32, h: u32) -> Result<Rect, Refusal>
    ensures exact { result ≡ area size (x ∷ y ∷ w ∷ h ∷ []) }
    ensures fits { IfOk result (λ r. lies_within size r ≡ true) }
{
    match Rect::within(size, x, y, w, h) {
        Some(area) => Ok(area),
        None => Err(Refusal::Rect),
    }
}

fn read_row_number(size: Size, y: u32) -> Result<u16, Refusal>
    ensures exact { result ≡ row_number size (y ∷ []) }
    ensures fits { IfOk result (λ y. nat_lt y size.height ≡ true) }
{
    if y >= size.height() as u32 {
        return Err(Refusal::Rect);
    }
    Ok(y as u16)
}

fn read_step_count(n: u32) -> Result<u16, Refusal>
    ensures exact { result ≡ step_count (n ∷ []) }
    ensures fits { IfOk result (λ n. is_step_count n ≡ true) }
{
    if n < 1 || u32::from(MOST_STEPS) < n {
        return Err(Refusal::Steps);
    }
    Ok(n as u16)
}

fn read_period(n: u32) -> Result<u16, Refusal>
    ensures exact { result ≡ period (n ∷ []) }
    ensures fits { IfOk result (λ n. is_period n ≡ true) }
{
    if n < 1 || u32::from(MOST_PERIOD) < n {
        return Err(Refusal::Period);
    }
    Ok(n as u16)
}

fn copied(alloc: Global, bytes: &[u8]) -> Result<RowBits, Refusal>
    requires { length bytes.now ≤ most_row_bytes }
    ensures { (result ≡ Ok bytes.now) ⊎ (result ≡ Err Memory) }
{
    match RowBits::zero(alloc, bytes.len()) {
        Ok(mut row) => {
            row.bytes_mut().copy_from_slice(bytes);
            Ok(row)
        }
        Err(_) => Err(Refusal::Memory),
    }
}

// How many bytes a row has.
fn row_length(size: Size) -> usize
    ensures value { result ≡ size.width / 8 }
    ensures whole { 8 * result ≡ size.width }
    ensures short { result ≤ most_row_bytes }
{
    size.width() as usize / 8
}

// Reads into a page of the longest row first, so that only a row without fault allocates.
fn read_row_bits(alloc: Global, size: Size, digits: &[u8]) -> Result<RowBits, Refusal>
    ensures exact { let read = spelled (decode_sized digits.now (size.width / 8)) in
        (result ≡ read) ⊎ ((result ≡ Err Memory) × IsOk read) }
    ensures fits { IfOk result (λ bits. 8 * length bits ≡ size.width) }
{
    let mut page = [0; MOST_ROW_BYTES];
    let bytes = &mut page[..row_length(size)];
    match decode_to_slice(digits, bytes) {
        Ok(()) => copied(alloc, bytes),
        Err(_) => Err(Refusal::Row),
    }
}

fn read_row(alloc: Global, size: Size, y: u32, more: &[u8]) -> Result<Request, Refusal>
    ensures exact { Reads result (verb_request size Row (y ∷ []) (words more.now)) }
    ensures fits { IfOk result (IsAskable size) }
{
    let y = read_row_number(size, y)?;
    let (digits, _) = next_word(more).ok_or(Refusal::Count)?;
    let bits = read_row_bits(alloc, size, digits)?;
    Ok(Request::Ask(Command::Row(y, bits)))
}

fn read_source(size: Size, numbers: [u32; 5]) -> Result<Request, Refusal>
    ensures exact { result ≡ verb_request size Source numbers [] }
    ensures fits { IfOk result (IsAskable size) }
{
    let [x, y, w, h, period] = numbers;
    let area = read_area(size, x, y, w, h)?;
    let period = read_period(period)?;
    Ok(Request::Ask(Command::Source(area, period)))
}

// The request of a verb and its numbers, of a row also its digits.
fn read_request(
    alloc: Global,
    size: Size,
    verb: Verb,
    numbers: [u32; 5],
    more: &[u8],
) -> Result<Request, Refusal>
    ensures exact { let own = take (number_count verb) numbers in
        Reads result (verb_request size verb own (words more.now)) }
    ensures fits { IfOk result (IsAskable size) }
{
    let [x, y, w, h, _] = numbers;
    Ok(Request::Ask(match verb {
        Verb::Put => Command::Put(read_area(size, x, y, w, h)?),
        Verb::Erase => Command::Erase(read_area(size, x, y, w, h)?),
        Verb::Wall => Command::Wall(read_area(size, x, y, w, h)?),
        Verb::Block => Command::Block(read_area(size, x, y, w, h)?),
        Verb::Unwall => Command::Unwall(read_area(size, x, y, w, h)?),
        Verb::Drain => Command::Drain(read_area(size, x, y, w, h)?),
        Verb::Probe => Command::Probe(read_area(size, x, y, w, h)?),
        Verb::Source => return read_source(size, numbers),
        Verb::Row => return read_row(alloc, size, x, more),
        Verb::Step => Command::Step(read_step_count(x)?),
        Verb::Back => Command::Back(read_step_count(x)?),
        Verb::Read => Command::Read(read_row_number(size, x)?),
        Verb::Entry => Command::Entry(x),
        Verb::Unport => Command::Unport,
        Verb::Tally => Command::Tally,
        Verb::Ledger => Command::Ledger,
        Verb::Save => return Ok(Request::Save),
        Verb::Quit => return Ok(Request::Quit),
    }))
}

/// Reads one line for a lattice of this size: its request, or the first of its faults in the order word, count, number,
/// rectangle, steps, period, row. Only a `row` allocates; a `row` without fault fails with `Refusal::Memory` if memory runs
/// out.
#[tactic(auto, unfolding(crate::specs::Requests::request_of))]
pub fn read_command(alloc: Global, line: &str, size: Size) -> Result<Request, Refusal>
    ensures exact { Reads result (request_of size line.now) }
    ensures fits { IfOk result (IsAskable size) }
{
    let Some((word, args)) = next_word(line.as_bytes()) else {
        return Err(Refusal::Word);
    };
    let Some(verb) = Verb::named(word) else {
        return Err(Refusal::Word);
    };
    if count_words(args) != verb.word_count() {
        return Err(Refusal::Count);
    }
    let mut numbers = [0; 5];
    let Some(more) = read_numbers(args, verb.number_count(), &mut numbers) else {
        return Err(Refusal::Number);
    };
    read_request(alloc, size, verb, numbers, more)
}
