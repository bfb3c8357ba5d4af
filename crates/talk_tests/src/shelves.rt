//! A shelf in memory that keeps what it took.

ghost use Rattle.std.specs.Prelude.{◌≡◌, ◌++◌, List};
ghost use Rattle.gas_talk.specs.Ends.{shelved_by};
ghost use Rattle.gas_talk.specs.LabTalk.{Outcome, talk};
ghost use Rattle.gas_talk.specs.Lines.{Item};
ghost use Rattle.test_types.specs.Stores.{kept_by};

use crate::expected::expect_that;
use crate::fixtures::lab;
use gas_lab::{Lab, Serial};
use gas_talk::serve_alone;
use std::process::Abort;
use test_types::faults::{FaultAt, Feed, Sink, Store};

// A session with the laboratory. What the store then has besides is the snapshots that the session's talk takes, in order.
fn speak(rt: &impl AllocGlobal, input: &[u8], lab: &mut Lab<Serial>, store: &mut Store)
    ensures { (asked : List (Item × Outcome))
        × (kept_by store.new ≡ kept_by store.old ++ shelved_by (talk 0 lab.old asked).0) }
{
    let mut feed = Feed::new(input, usize::MAX, FaultAt::never());
    let mut sink = Sink::new(rt.alloc(), usize::MAX, usize::MAX, FaultAt::never());
    serve_alone(rt.alloc(), &mut feed, &mut sink, lab, 0, store);
}

// The empty gas of 64 by 64, but for its first cell.
fn is_one_particle(bytes: &[u8]) -> bool {
    let head = [
        0x48, 0x50, 0x50, 0x47, 0x41, 0x53, 0x32, 0x0a, 0, 0x40, 0, 0x40,
    ];
    bytes.len() == 1558 && bytes.starts_with(&head) && bytes.get(22) == Some(&0x80)
}

fn keeps_one_particle(rt: &(impl Abort + AllocGlobal), lab: &mut Lab<Serial>) {
    let mut store = Store::new(rt.alloc(), FaultAt::never());
    speak(rt, b"put 0 0 1 1\nsave\n", lab, &mut store);
    expect_that(&rt, store.kept().len() == 1);
    for bytes in store.kept() {
        expect_that(&rt, is_one_particle(bytes.as_slice()));
    }
}

#[test]
fn store_tells_what_a_session_saved(rt: HostRuntime) {
    let mut lab = lab(&rt);
    keeps_one_particle(&rt, &mut lab);
}
