//! The verbs of lines, how many words follow each, and the text of a command.

ghost use Rattle.std.specs.Prelude.{◌≡◌, ◌≤◌, ◌+◌, ◌*◌, [], ◌∷◌, ◌++◌, length, map};
ghost use Rattle.std.specs.Fmt.{decimal};
ghost use Rattle.std.specs.List.{find};
ghost use Rattle.std.specs.Str.{bytes_eq};
ghost use Rattle.hex.specs.Hex.{encode_lower};
ghost use Rattle.byte_page.specs.Pages.{page_limit};
ghost use Rattle.gas_text.specs.Words.{parted, spaced};
ghost use Rattle.gas_text.specs.Requests.{verb_word, verbs, verb_of, number_count, word_count, area_words, command_text};

use crate::word::{push_number, push_numbers};
use byte_page::BytePage;
use gas_terms::{Command, MOST_ROW_BYTES, Rect, RowBits};
use hex::encode_to_slice;

/// The first word of a line, which names what is asked.
#[derive(Clone, Copy, Debug)]
pub enum Verb {
    Put,
    Erase,
    Wall,
    Block,
    Unwall,
    Drain,
    Probe,
    Source,
    Row,
    Step,
    Back,
    Read,
    Entry,
    Unport,
    Tally,
    Ledger,
    Save,
    Quit,
}

const VERBS: [Verb; 18] = [
    Verb::Put,
    Verb::Erase,
    Verb::Wall,
    Verb::Block,
    Verb::Unwall,
    Verb::Drain,
    Verb::Probe,
    Verb::Source,
    Verb::Row,
    Verb::Step,
    Verb::Back,
    Verb::Read,
    Verb::Entry,
    Verb::Unport,
    Verb::Tally,
    Verb::Ledger,
    Verb::Save,
    Verb::Quit,
];

fn first_named(verbs: &[Verb], word: &[u8]) -> Option<Verb>
    ensures { result ≡ find (λ verb. bytes_eq word.now (verb_word verb)) verbs.now }
{
    for verb in verbs {
        if word == verb.word() {
            return Some(*verb);
        }
    }
    None
}

impl Verb {
    /// The word itself, in lower case.
    pub fn word(self) -> &'static [u8]
        ensures { result.now ≡ verb_word self }
    {
        match self {
            Verb::Put => b"put",
            Verb::Erase => b"erase",
            Verb::Wall => b"wall",
            Verb::Block => b"block",
            Verb::Unwall => b"unwall",
            Verb::Drain => b"drain",
            Verb::Probe => b"probe",
            Verb::Source => b"source",
            Verb::Row => b"row",
            Verb::Step => b"step",
            Verb::Back => b"back",
            Verb::Read => b"read",
            Verb::Entry => b"entry",
            Verb::Unport => b"unport",
            Verb::Tally => b"tally",
            Verb::Ledger => b"ledger",
            Verb::Save => b"save",
            Verb::Quit => b"quit",
        }
    }

    /// The verb whose word it is.
    #[tactic(auto, unfolding(crate::specs::Requests::verb_of))]
    pub fn named(word: &[u8]) -> Option<Verb>
        ensures { result ≡ verb_of word.now }
    {
        first_named(&VERBS, word)
    }

    /// How many numbers follow it.
    pub fn number_count(self) -> usize
        ensures { result ≡ number_count self }
    {
        match self {
            Verb::Put
            | Verb::Erase
            | Verb::Wall
            | Verb::Block
            | Verb::Unwall
            | Verb::Drain
            | Verb::Probe => 4,
            Verb::Source => 5,
            Verb::Row | Verb::Step | Verb::Back | Verb::Read | Verb::Entry => 1,
            Verb::Unport | Verb::Tally | Verb::Ledger | Verb::Save | Verb::Quit => 0,
        }
    }

    /// How many words follow it: the numbers, and the digits of a row.
    pub fn word_count(self) -> usize
        ensures { result ≡ word_count self }
    {
        match self {
            Verb::Row => 2,
            other => other.number_count(),
        }
    }
}

/// Writes a space, and a row's digits in hex, in lower case.
pub fn push_row(page: &mut BytePage, bits: &RowBits)
    requires { length page.old + 1025 ≤ page_limit }
    ensures text { page.new ≡ page.old ++ spaced (encode_lower bits.now ∷ []) }
    ensures short { length page.new ≤ length page.old + 1025 }
{
    let bytes = bits.bytes();
    let mut digits = [0; 2 * MOST_ROW_BYTES];
    let digits = &mut digits[..2 * bytes.len()];
    encode_to_slice(bytes, digits).unwrap();
    page.push(b" ");
    page.push(digits);
}

// A verb, and its numbers.
fn push_verb(page: &mut BytePage, verb: Verb, numbers: &[u32])
    requires { length page.old + 21 * length numbers.now + 10 ≤ page_limit }
    ensures text { page.new ≡ page.old ++ parted (verb_word verb ∷ map decimal numbers.now) }
    ensures short { length page.new ≤ length page.old + 21 * length numbers.now + 10 }
{
    page.push(verb.word());
    push_numbers(page, numbers);
}

fn push_area(page: &mut BytePage, verb: Verb, area: Rect)
    requires { length page.old + 100 ≤ page_limit }
    ensures text { page.new ≡ page.old ++ parted (area_words verb area) }
    ensures short { length page.new ≤ length page.old + 100 }
{
    let numbers = [area.x(), area.y(), area.w(), area.h()];
    push_verb(page, verb, &numbers.map(u32::from));
}

/// Writes the canonical text of a command.
pub fn push_command(page: &mut BytePage, command: &Command)
    requires { length page.old + 1100 ≤ page_limit }
    ensures text { page.new ≡ page.old ++ command_text command.now }
    ensures short { length page.new ≤ length page.old + 1100 }
{
    match command {
        Command::Put(area) => push_area(page, Verb::Put, *area),
        Command::Erase(area) => push_area(page, Verb::Erase, *area),
        Command::Wall(area) => push_area(page, Verb::Wall, *area),
        Command::Block(area) => push_area(page, Verb::Block, *area),
        Command::Unwall(area) => push_area(page, Verb::Unwall, *area),
        Command::Row(y, bits) => {
            push_verb(page, Verb::Row, &[*y as u32]);
            push_row(page, bits);
        }
        Command::Source(area, period) => {
            push_area(page, Verb::Source, *area);
            push_number(page, *period as u64);
        }
        Command::Drain(area) => push_area(page, Verb::Drain, *area),
        Command::Unport => push_verb(page, Verb::Unport, &[]),
        Command::Step(n) => push_verb(page, Verb::Step, &[*n as u32]),
        Command::Back(n) => push_verb(page, Verb::Back, &[*n as u32]),
        Command::Probe(area) => push_area(page, Verb::Probe, *area),
        Command::Tally => push_verb(page, Verb::Tally, &[]),
        Command::Ledger => push_verb(page, Verb::Ledger, &[]),
        Command::Read(y) => push_verb(page, Verb::Read, &[*y as u32]),
        Command::Entry(k) => push_verb(page, Verb::Entry, &[*k]),
    }
}
