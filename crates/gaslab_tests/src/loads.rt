//! Loading from readers that give a snapshot in pieces, fail, or never end.

use crate::expected::expect_same;
use gas_snapshot::{SnapFault, encode};
use gaslab::{LoadFault, load_from};
use std::io;
use std::io::Read;
use std::process::Abort;
use std::thread::Threads;
use std::time::Clock;
use test_types::faults::FaultAt;

/// The head of a snapshot of version 1: 64 by 64, tick -1, the drain 1 1 1 1 and the source 10 10 1 1 of period 2.
pub const WITH_PORTS: [u8; 40] = [
    0x48, 0x50, 0x50, 0x47, 0x41, 0x53, 0x31, 0x0a, 0, 0x40, 0, 0x40, 0xff, 0xff, 0xff, 0xff, 0xff,
    0xff, 0xff, 0xff, 1, 1, 0, 1, 0, 1, 0, 1, 0, 1, 0, 10, 0, 10, 0, 1, 0, 1, 0, 2,
];

const GREATEST: [u8; 22] = [
    0x48, 0x50, 0x50, 0x47, 0x41, 0x53, 0x32, 0x0a, 0x10, 0, 0x10, 0, 0, 0, 0, 0, 0, 0, 0, 0, 0, 0,
];

/// Gives a head, and zeros after it up to a length, at most `step` bytes a read. It holds no memory.
#[derive(Drop)]
pub struct Padded<'a> {
    head: &'a [u8],
    len: usize,
    step: usize,
    fault: FaultAt,
    given: usize,
}

impl<'a> Padded<'a> {
    pub fn new(head: &'a [u8], len: usize, step: usize, fault: FaultAt) -> Padded<'a> {
        Padded {
            head,
            len,
            step,
            fault,
            given: 0,
        }
    }
}

impl<'a> Read for Padded<'a> {
    fn read(&mut self, buf: &mut [u8]) -> io::Result<usize> {
        let most = self.len.saturating_sub(self.given).min(self.step);
        let n = self.fault.room(most)?.min(buf.len());
        for slot in &mut buf[..n] {
            *slot = match self.head.get(self.given) {
                Some(byte) => *byte,
                None => 0,
            };
            self.given = self.given.saturating_add(1);
        }
        Ok(n)
    }
}

// The fault of a load, or none if it gives a gas.
fn fault_of(rt: &impl AllocGlobal, reader: &mut Padded<'_>) -> Option<LoadFault> {
    load_from(rt.alloc(), reader).err()
}

fn cut(rt: &impl AllocGlobal, len: usize) -> Option<LoadFault> {
    fault_of(
        rt,
        &mut Padded::new(&WITH_PORTS, len, 100, FaultAt::never()),
    )
}

/// The snapshot of the same gas as it is written now: version 2, without obstacles.
pub fn written_now(rt: &(impl Abort + AllocGlobal + Threads + Clock)) -> Vec<u8> {
    let mut bytes = Vec::from_slice(rt.alloc(), &WITH_PORTS).expect(rt, "memory");
    if bytes.len() > 6 {
        bytes[6] = 0x32;
    }
    for _ in 0..1536u32 {
        bytes.push(0).expect(rt, "memory");
    }
    bytes
}

#[test]
fn load_in_pieces(rt: HostRuntime) {
    for step in [1, 7, 100, usize::MAX] {
        let mut reader = Padded::new(&WITH_PORTS, 1064, step, FaultAt::never());
        let gas = load_from(rt.alloc(), &mut reader).expect(&rt, "a gas");
        let bytes = encode(rt.alloc(), &gas).expect(&rt, "memory");
        expect_same(&rt, bytes.as_slice(), written_now(&rt).as_slice());
    }
}

// Eleven reads give bytes, and the twelfth is the end.
#[test]
fn load_from_a_failing_reader(rt: HostRuntime) {
    for calls in 0..13u64 {
        let mut reader = Padded::new(&WITH_PORTS, 1064, 100, FaultAt::after(calls));
        let wanted = if calls < 12 {
            Some(LoadFault::Read)
        } else {
            None
        };
        expect_same(&rt, fault_of(&rt, &mut reader), wanted);
    }
}

#[test]
fn load_cut_short(rt: HostRuntime) {
    for len in [0, 1, 7, 22, 39, 40, 1063] {
        expect_same(&rt, cut(&rt, len), Some(LoadFault::Snap(SnapFault::Short)));
    }
    expect_same(&rt, cut(&rt, 1064), None);
    expect_same(
        &rt,
        cut(&rt, 1065),
        Some(LoadFault::Snap(SnapFault::Trailing)),
    );
}

#[test]
fn load_reads_no_more_than_a_snapshot(rt: HostRuntime) {
    let mut whole = Padded::new(&GREATEST, 6_291_478, usize::MAX, FaultAt::never());
    expect_same(&rt, fault_of(&rt, &mut whole), None);
    let mut endless = Padded::new(&GREATEST, usize::MAX, usize::MAX, FaultAt::never());
    expect_same(
        &rt,
        fault_of(&rt, &mut endless),
        Some(LoadFault::Snap(SnapFault::Trailing)),
    );
    expect_same(&rt, endless.given, 6_291_767);
}

#[test]
fn texts_of_load_faults(rt: HostRuntime) {
    let faults = [
        (LoadFault::Read, "read"),
        (LoadFault::Snap(SnapFault::Short), "short"),
        (LoadFault::Snap(SnapFault::Magic), "magic"),
        (LoadFault::Snap(SnapFault::Size), "size"),
        (LoadFault::Snap(SnapFault::Tick), "tick"),
        (LoadFault::Snap(SnapFault::Port), "port"),
        (LoadFault::Snap(SnapFault::Trailing), "trailing"),
    ];
    for (fault, word) in faults {
        let text = format!(in rt.alloc(); "{fault}").expect(&rt, "memory");
        expect_same(&rt, text.as_str(), word);
    }
}
