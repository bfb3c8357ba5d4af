//! Opens a hall, serves it and closes it.

ghost use Rattle.std.specs.Prelude.{◌≡◌, ◌+◌, ◌<◌, ◌≤◌, [], IfSome, vec_len};
ghost use Rattle.gas_terms.specs.Cells.{extent};

use crate::small_labs::{Seen, counters, empty_lab, look_at};
use gas_hall::{Lobby, Served};
use gas_lab::{Lab, Serial};
use mutex_hall::{Hall, HallGate, HallName, HallSeat, serve};
use std::marker::Brand;
use std::process::Abort;
use std::sync::Wait;
use std::sync::atomic::AtomicU32;
use std::sync::ledger::Blank;
use std::thread::Threads;
use test_types::faults::Counter;

/// What is left of a hall: how many seats were served and how many were not, and the entries that all made; those of the first
/// four seats; and what is seen of the laboratory.
#[derive(Clone, Copy)]
pub struct Left {
    pub counts: (u32, u32, u32),
    pub of_seats: [u32; 4],
    pub lab: Seen,
}

fn first_counts<N: HallName>(seats: &[HallSeat<N>]) -> [u32; 4] {
    let mut counts = [0; 4];
    for (count, seat) in counts.iter_mut().zip(seats) {
        *count = seat.entries();
    }
    counts
}

// Serves each seat, closes the hall, and looks for these puts. Serves nobody if memory runs out.
fn serve_named<
    N: HallName + Send + Sync,
    G: HallGate + Sync,
    L: Lobby,
    R: Threads + Wait + Sync + Abort + AllocGlobal,
>(
    rt: &R,
    blank: Blank,
    lab: Lab<Serial>,
    gate: G,
    lobby: &mut L,
    shelves: Vec<Counter<'_>>,
    puts: &[(u16, u16)],
) -> Option<Left>
    requires name { blank.name ≡ N.name }
    requires parts { (blank.parts ≡ N.parts) × (blank.parts ≡ vec_len shelves) }
    requires seats { (0 < vec_len shelves) × (vec_len shelves ≤ 64) }
    requires lab { (extent lab.start.particles ≡ N.size) × (lab.cap ≡ N.cap) × (lab.journal ≡ []) }
    ensures count { IfSome result (λ left.
        left.counts.0 + left.counts.1 ≡ vec_len shelves.entry) }
    ensures entries { IfSome result (λ left. left.lab.entries ≡ left.counts.2) }
{
    let count = shelves.len() as u16;
    let Ok((hall, seats)) = Hall::<N, Serial, G>::open(rt.alloc(), blank, lab, count, gate) else {
        return None;
    };
    let Served {
        done,
        failed,
        entries,
        seats,
    } = serve(rt, rt.alloc(), lobby, &hall, seats, shelves);
    let of_seats = first_counts(seats.as_slice());
    Some(Left {
        counts: (done, failed, entries),
        of_seats,
        lab: look_at(hall.close(seats), puts),
    })
}

/// Serves so many sessions of the lobby, each with a shelf that counts, on an empty laboratory of this width, and looks for
/// these puts. Serves nobody if memory runs out.
pub fn serve_sessions<G: HallGate + Sync, L: Lobby, R: Threads + Wait + Sync + Abort + AllocGlobal>(
    rt: &R,
    width: u32,
    gate: G,
    lobby: &mut L,
    saved: &[AtomicU32],
    count: usize,
    puts: &[(u16, u16)],
) -> Option<Left> {
    let shelves = counters(rt.alloc(), saved, count)?;
    let seats = shelves.len();
    if seats == 0 || seats > 64 {
        return None;
    }
    let lab = empty_lab(rt.alloc(), width)?;
    let blank = Blank::new(seats as u64);
    serve_named::<Brand, G, L, R>(rt, blank, lab, gate, lobby, shelves, puts)
}
