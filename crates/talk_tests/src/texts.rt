//! Replies and their lines.

ghost use Rattle.std.specs.Prelude.{◌≤◌, length};

use crate::commands::{command_of, print_entry, wide};
use crate::expected::expect_same;
use crate::reading::gives_row;
use gas_talk::{Reply, ReplyPage, reply_text};
use gas_terms::{Answer, Ledger, Pair, Refusal, RowBits, Sums, Tick};
use std::process::Abort;

const LEAST: i64 = -9_223_372_036_854_775_808;

const GREATEST: i64 = 9_223_372_036_854_775_807;

fn sums(count: i64, px: i64, py: i64) -> Sums {
    Sums { count, px, py }
}

fn is_line(rt: &impl Abort, page: &mut ReplyPage, reply: Reply, line: &str) {
    reply_text(&reply, page);
    expect_same(&rt, (line, page.text()), (line, line.as_bytes()));
}

fn is_answer(rt: &impl Abort, page: &mut ReplyPage, answer: Answer, line: &str) {
    is_line(rt, page, Reply::Answered(answer), line);
}

fn tallied(rt: &impl Abort, tick: i64, sums: Sums) -> Answer {
    Answer::Tallied(Tick::new(tick).expect(rt, "a tick"), sums)
}

#[test]
fn entries_taken_and_probes_in_replies(rt: HostRuntime) {
    let mut page = ReplyPage::empty();
    expect_same(&rt, page.text(), b"".as_slice());
    for (number, line) in [
        (0, "OK 0\n"),
        (9, "OK 9\n"),
        (10, "OK 10\n"),
        (4_294_967_295, "OK 4294967295\n"),
    ] {
        is_answer(&rt, &mut page, Answer::Taken(number), line);
    }
    for (sums, line) in [
        (sums(1, 1, -1), "PROBE 1 1 -1\n"),
        (sums(0, 0, 0), "PROBE 0 0 0\n"),
        (
            sums(GREATEST, LEAST, -10),
            "PROBE 9223372036854775807 -9223372036854775808 -10\n",
        ),
    ] {
        is_answer(&rt, &mut page, Answer::Probed(sums), line);
    }
}

#[test]
fn tallies_in_replies(rt: HostRuntime) {
    let mut page = ReplyPage::empty();
    let least = sums(LEAST, LEAST, LEAST);
    for (tick, sums, line) in [
        (0, sums(64, 0, 0), "TALLY 0 64 0 0\n"),
        (
            1_099_511_627_776,
            sums(0, 0, 0),
            "TALLY 1099511627776 0 0 0\n",
        ),
        (
            -1_099_511_627_776,
            least,
            "TALLY -1099511627776 -9223372036854775808 -9223372036854775808 -9223372036854775808\n",
        ),
    ] {
        is_answer(&rt, &mut page, tallied(&rt, tick, sums), line);
    }
}

#[test]
fn accounts_in_replies(rt: HostRuntime) {
    let mut page = ReplyPage::empty();
    let ledger = Ledger {
        start: sums(1, 4, 9),
        injected: sums(2, 5, 10),
        drained: sums(3, 6, 11),
        walls: Pair { x: -7, y: -12 },
        obstacles: Pair { x: 8, y: 13 },
    };
    let line = "LEDGER 1 2 3 4 5 6 -7 8 9 10 11 -12 13\n";
    is_answer(&rt, &mut page, Answer::Accounts(ledger), line);
    let least = sums(LEAST, LEAST, LEAST);
    let taken = Pair { x: LEAST, y: LEAST };
    let ledger = Ledger {
        start: least,
        injected: least,
        drained: least,
        walls: taken,
        obstacles: taken,
    };
    reply_text(&Reply::Answered(Answer::Accounts(ledger)), &mut page);
    expect_same(&rt, page.text().len(), 280);
}

const REFUSALS: [(Refusal, &str); 15] = [
    (Refusal::Line, "ERR 1 line\n"),
    (Refusal::Word, "ERR 2 word\n"),
    (Refusal::Count, "ERR 3 count\n"),
    (Refusal::Number, "ERR 4 number\n"),
    (Refusal::Rect, "ERR 5 rect\n"),
    (Refusal::Steps, "ERR 6 steps\n"),
    (Refusal::Period, "ERR 7 period\n"),
    (Refusal::Row, "ERR 8 row\n"),
    (Refusal::Entry, "ERR 9 entry\n"),
    (Refusal::Full, "ERR 10 full\n"),
    (Refusal::Ports, "ERR 11 ports\n"),
    (Refusal::Tick, "ERR 12 tick\n"),
    (Refusal::Journal, "ERR 13 journal\n"),
    (Refusal::Memory, "ERR 14 memory\n"),
    (Refusal::Save, "ERR 15 save\n"),
];

#[test]
fn other_replies(rt: HostRuntime) {
    let mut page = ReplyPage::empty();
    is_line(&rt, &mut page, Reply::Saved(1, 1558), "SAVED 1 1558\n");
    let line = "SAVED 4294967295 18446744073709551615\n";
    let most = Reply::Saved(4_294_967_295, 18_446_744_073_709_551_615);
    is_line(&rt, &mut page, most, line);
    is_line(&rt, &mut page, Reply::Bye, "BYE\n");
    for (refusal, line) in REFUSALS {
        is_line(&rt, &mut page, Reply::Refused(refusal), line);
    }
}

fn row(rt: &(impl Abort + AllocGlobal), bytes: &[u8]) -> Answer
    requires { length bytes.now ≤ 512 }
{
    let mut row = RowBits::zero(rt.alloc(), bytes.len()).expect(rt, "memory");
    row.bytes_mut().copy_from_slice(bytes);
    Answer::RowIs(row)
}

#[test]
fn rows_in_replies(rt: HostRuntime) {
    let mut page = ReplyPage::empty();
    for (bytes, line) in [
        ([0; 8], "ROW 0000000000000000\n"),
        ([0x40, 0, 0, 0, 0, 0, 0, 0], "ROW 4000000000000000\n"),
        ([0, 0, 0, 0x0f, 0xf0, 0, 0, 0], "ROW 0000000ff0000000\n"),
        ([0x80, 0, 0, 0, 0, 0, 0, 1], "ROW 8000000000000001\n"),
        ([0xab, 0xcd, 0xef, 0, 0, 0, 0, 0], "ROW abcdef0000000000\n"),
    ] {
        is_answer(&rt, &mut page, row(&rt, &bytes), line);
    }
    is_answer(&rt, &mut page, row(&rt, &[]), "ROW \n");
}

fn prints_the_widest_row(rt: &(impl Abort + AllocGlobal), page: &mut ReplyPage) {
    reply_text(&Reply::Answered(row(rt, &[255; 512])), page);
    let text = page.text();
    expect_same(
        &rt,
        (text.len(), text.ends_with(b"ffffffff\n")),
        (1029, true),
    );
}

// The longest reply.
fn prints_the_widest_entry(rt: &(impl Abort + AllocGlobal), page: &mut ReplyPage, line: &str) {
    print_entry(page, 65535, command_of(rt, line, wide(rt)));
    let text = page.text();
    let begins = text.starts_with(b"ENTRY 65535 row 63 ffff");
    expect_same(&rt, (text.len(), begins), (1044, true));
}

#[test]
fn widest_row_is_read_and_printed(rt: HostRuntime) {
    let mut line = [b'F'; 1031];
    line[..7].copy_from_slice(b"row 63 ");
    let line = str::from_utf8(&line).expect(&rt, "text");
    expect_same(
        &rt,
        gives_row(&rt, wide(&rt), line, 63, &[255; 512]),
        Ok(true),
    );
    let mut page = ReplyPage::empty();
    prints_the_widest_row(&rt, &mut page);
    prints_the_widest_entry(&rt, &mut page, line);
    is_line(&rt, &mut page, Reply::Bye, "BYE\n");
}
