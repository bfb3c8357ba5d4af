//! Splits a line into words, and reads and writes the numbers among them.

ghost use Rattle.std.specs.Prelude.{◌≡◌, ◌<◌, ◌≤◌, ◌+◌, ◌*◌, ◌^◌, ℕ, List, [], ◌∷◌, ◌++◌, length, map, take, drop, MatchOption, Some, None, IfSome};
ghost use Rattle.std.specs.Fmt.{decimal, signed_decimal};
ghost use Rattle.std.specs.List.{position_or_len};
ghost use Rattle.byte_page.specs.Pages.{page_limit};
ghost use Rattle.gas_text.specs.Words.{is_space, words, with_word, number_of, numbers_of, spaced};

use byte_page::BytePage;
use itoa::Buffer;

// The index of the first space, or the length if there is none.
fn space_at(line: &[u8]) -> usize
    ensures { result ≡ position_or_len is_space line.now }
{
    for (i, b) in line.iter().enumerate() {
        if *b == b' ' {
            return i;
        }
    }
    line.len()
}

// What is before the first space, and what is after it.
fn cut_at_space(line: &[u8]) -> (&[u8], &[u8])
    requires { 0 < length line.now }
    ensures words { words line.now ≡ with_word result.0.now (words result.1.now) }
    ensures shorter { length result.1.now < length line.now }
{
    let at = space_at(line);
    if at < line.len() {
        (&line[..at], &line[at + 1..])
    } else {
        (line, &[])
    }
}

/// The first word, and what is after it.
pub fn next_word(line: &[u8]) -> Option<(&[u8], &[u8])>
    ensures words { MatchOption result (words line.now ≡ [])
        (λ found. words line.now ≡ found.0.now ∷ words found.1.now) }
    ensures shorter { IfSome result (λ found. length found.1.now < length line.now) }
{
    let mut rest = line;
    while !rest.is_empty() {
        let (word, after) = cut_at_space(rest);
        if !word.is_empty() {
            return Some((word, after));
        }
        rest = after;
    }
    None
}

/// How many words there are.
pub fn count_words(line: &[u8]) -> usize
    ensures { result ≡ length (words line.now) }
{
    let mut rest = line;
    let mut count = 0;
    while let Some((_, after)) = next_word(rest) {
        count += 1;
        rest = after;
    }
    count
}

/// The number that a word is: 1 to 10 digits, of at most 4,294,967,295.
pub fn number_of(word: &[u8]) -> Option<u32>
    ensures { result ≡ number_of word.now }
{
    if word.is_empty() || word.len() > 10 {
        return None;
    }
    let mut value: u64 = 0;
    for b in word {
        if !b.is_ascii_digit() {
            return None;
        }
        value = value * 10 + (*b - b'0') as u64;
        if value > u32::MAX as u64 {
            return None;
        }
    }
    Some(value as u32)
}

/// Reads the first words as numbers, to the front of `numbers`, and returns the rest of the line.
pub fn read_numbers<'a>(line: &'a [u8], count: usize, numbers: &mut [u32; 5]) -> Option<&'a [u8]>
    requires room { count ≤ 5 }
    requires enough { count ≤ length (words line.now) }
    ensures { let read = numbers_of (take count (words line.now)) in
        MatchOption result (read ≡ None)
        (λ rest. (read ≡ Some (take count numbers.new))
        × (words rest.now ≡ drop count (words line.now))) }
{
    let mut rest = line;
    for i in 0..count {
        let (word, after) = next_word(rest)?;
        numbers[i] = number_of(word)?;
        rest = after;
    }
    Some(rest)
}

/// Writes a space, and the number.
pub fn push_number(page: &mut BytePage, n: u64)
    requires { length page.old + 21 ≤ page_limit }
    ensures text { page.new ≡ page.old ++ spaced (decimal n ∷ []) }
    ensures short { length page.new ≤ length page.old + 21 }
{
    page.push(b" ");
    let mut digits = Buffer::new();
    page.push(digits.format(n).as_bytes());
}

/// Writes a space, and the number, with a sign if it is negative.
pub fn push_signed(page: &mut BytePage, n: i64)
    requires { length page.old + 21 ≤ page_limit }
    ensures text { page.new ≡ page.old ++ spaced (signed_decimal n ∷ []) }
    ensures short { length page.new ≤ length page.old + 21 }
{
    page.push(b" ");
    let mut signed = Buffer::new();
    page.push(signed.format(n).as_bytes());
}

/// Writes each number after a space.
pub fn push_numbers(page: &mut BytePage, numbers: &[u32])
    requires { length page.old + 21 * length numbers.now ≤ page_limit }
    ensures text { page.new ≡ page.old ++ spaced (map decimal numbers.now) }
    ensures short { length page.new ≤ length page.old + 21 * length numbers.now }
{
    for n in numbers {
        push_number(page, *n as u64);
    }
}

/// Writes each number after a space, with a sign if it is negative.
pub fn push_all_signed(page: &mut BytePage, numbers: &[i64])
    requires { length page.old + 21 * length numbers.now ≤ page_limit }
    ensures text { page.new ≡ page.old ++ spaced (map signed_decimal numbers.now) }
    ensures short { length page.new ≤ length page.old + 21 * length numbers.now }
{
    for n in numbers {
        push_signed(page, *n);
    }
}
