//! Writes a reply as its line.

ghost use Rattle.std.specs.Prelude.{◌≡◌, ◌<◌, ◌≤◌, ◌+◌, [], ◌++◌, length, map};
ghost use Rattle.std.specs.Fmt.{signed_decimal};
ghost use Rattle.byte_page.specs.Pages.{page_limit};
ghost use Rattle.gas_text.specs.declared.reply.Reply.TheVariants.{Answered};
ghost use Rattle.gas_text.specs.Words.{parted, spaced};
ghost use Rattle.gas_text.specs.Texts.{sums_numbers, ledger_numbers, reply_words, reply_line};

use crate::reply::Reply;
use crate::verb::{push_command, push_row};
use crate::word::{push_all_signed, push_number, push_signed};
use byte_page::BytePage;
use gas_terms::{Answer, Ledger, Sums};

fn push_ledger(page: &mut BytePage, ledger: Ledger)
    requires { length page.old + 273 ≤ page_limit }
    ensures text { page.new ≡ page.old ++ spaced (map signed_decimal (ledger_numbers ledger)) }
    ensures short { length page.new ≤ length page.old + 273 }
{
    push_all_signed(
        page,
        &[
            ledger.start.count,
            ledger.injected.count,
            ledger.drained.count,
            ledger.start.px,
            ledger.injected.px,
            ledger.drained.px,
            ledger.walls.x,
            ledger.obstacles.x,
            ledger.start.py,
            ledger.injected.py,
            ledger.drained.py,
            ledger.walls.y,
            ledger.obstacles.y,
        ],
    );
}

fn push_sums(page: &mut BytePage, sums: Sums)
    requires { length page.old + 63 ≤ page_limit }
    ensures text { page.new ≡ page.old ++ spaced (map signed_decimal (sums_numbers sums)) }
    ensures short { length page.new ≤ length page.old + 63 }
{
    push_all_signed(page, &[sums.count, sums.px, sums.py]);
}

fn push_answer(page: &mut BytePage, answer: &Answer)
    requires { page.old ≡ [] }
    ensures text { page.new ≡ parted (reply_words (Answered answer.now)) }
    ensures short { length page.new < page_limit }
{
    match answer {
        Answer::Taken(k) => {
            page.push(b"OK");
            push_number(page, *k as u64);
        }
        Answer::Probed(sums) => {
            page.push(b"PROBE");
            push_sums(page, *sums);
        }
        Answer::Tallied(tick, sums) => {
            page.push(b"TALLY");
            push_signed(page, tick.get());
            push_sums(page, *sums);
        }
        Answer::Accounts(ledger) => {
            page.push(b"LEDGER");
            push_ledger(page, *ledger);
        }
        Answer::RowIs(bits) => {
            page.push(b"ROW");
            push_row(page, bits);
        }
        Answer::EntryIs(entry) => {
            page.push(b"ENTRY");
            push_number(page, entry.seat as u64);
            page.push(b" ");
            push_command(page, &entry.command);
        }
    }
}

fn push_reply(page: &mut BytePage, reply: &Reply)
    requires { page.old ≡ [] }
    ensures text { page.new ≡ parted (reply_words reply.now) }
    ensures short { length page.new < page_limit }
{
    match reply {
        Reply::Answered(answer) => push_answer(page, answer),
        Reply::Saved(k, bytes) => {
            page.push(b"SAVED");
            push_number(page, *k as u64);
            push_number(page, *bytes);
        }
        Reply::Bye => page.push(b"BYE"),
        Reply::Refused(refusal) => {
            page.push(b"ERR");
            push_number(page, refusal.number() as u64);
            page.push(b" ");
            page.push(refusal.word().as_bytes());
        }
    }
}

/// Writes the line of a reply to the page, in place of the last.
#[tactic(auto, unfolding(crate::specs::Texts::reply_line))]
pub fn reply_text(reply: &Reply, page: &mut BytePage)
    ensures { page.new ≡ reply_line reply.now }
{
    page.clear();
    push_reply(page, reply);
    page.push(b"\n");
}
