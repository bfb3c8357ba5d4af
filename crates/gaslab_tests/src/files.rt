//! Snapshots in files.

use crate::expected::{expect_same, expect_that};
use crate::loads::written_now;
use crate::script::{LabShape, SMALL, gives_with};
use crate::snapshots::goes_on;
use gas_ledger::Gas;
use gas_snapshot::{FileShelf, MaybeShelf, Shelf, encode};
use gaslab::load_from;
use std::process::Abort;
use std::rt::Files as HasFiles;
use std::thread::Threads;
use std::time::Clock;
use std::{fs, process};

/// A shelf that is a file, or none: all shelves of files here are of this type.
pub type Files<R> = MaybeShelf<FileShelf<R>>;

/// A folder of one test alone.
pub fn new_folder(rt: &(impl Abort + HasFiles + AllocGlobal), name: &str, id: u32) -> String {
    let folder = format!(in rt.alloc(); "/tmp/gaslab_{name}_{id}").expect(rt, "memory");
    fs::create_dir_all(rt, folder.as_str()).expect(rt, "a new folder");
    folder
}

/// The seat's shelf: the file of this folder that has its number for a name.
pub fn file_of<R: Abort + HasFiles + AllocGlobal + Copy + Drop>(
    rt: &R,
    folder: &str,
    seat: u16,
) -> Files<R> {
    let path = format!(in rt.alloc(); "{folder}/{seat}").expect(rt, "memory");
    MaybeShelf::Shelf(FileShelf::new(rt.alloc(), *rt, path.as_str(), seat).expect(rt, "memory"))
}

/// The seat's file holds these bytes.
pub fn file_holds(
    rt: &(impl Abort + AllocGlobal + HasFiles),
    folder: &str,
    seat: u16,
    bytes: &[u8],
) {
    let path = format!(in rt.alloc(); "{folder}/{seat}").expect(rt, "memory");
    let read = fs::read(rt, path.as_str()).expect(rt, "a file");
    expect_that(&rt, read.as_slice() == bytes);
}

// The gas in the file of seat 0.
fn loaded(rt: &(impl Abort + HasFiles + AllocGlobal), folder: &str) -> Gas {
    let path = format!(in rt.alloc(); "{folder}/0").expect(rt, "memory");
    let mut file = fs::open(rt, path.as_str()).expect(rt, "a file");
    load_from(rt.alloc(), &mut file).expect(rt, "a gas")
}

/// The gas is at tick -1, and has a drain in the cell (1, 1) and a source in (10, 10).
#[test]
fn load_from_a_file_of_seat_0(rt: HostRuntime) {
    let folder = new_folder(&rt, "loaded", process::id(rt.process()));
    let wanted = written_now(&rt);
    let mut shelf = file_of(&rt, folder.as_str(), 0);
    expect_that(&rt, shelf.put(wanted.as_slice()).is_ok());
    let gas = loaded(&rt, folder.as_str());
    let bytes = encode(rt.alloc(), &gas).expect(&rt, "memory");
    expect_same(&rt, bytes.as_slice(), wanted.as_slice());
    goes_on(
        &rt,
        gas,
        "tally; back 1; put 2 2 1 1; step 1; tally; ledger",
        "TALLY -1 0 0 0; ERR 11 ports; OK 0; OK 1; TALLY 0 1 1 1; LEDGER 0 2 1 0 0 -1 0 0 0 0 -1 0 0",
    );
    fs::remove_dir_all(&rt, folder.as_str()).expect(&rt, "no folder");
}

// A run from this gas whose shelf is the file of seat 0.
fn runs_in(
    rt: &(impl Abort + AllocGlobal + HasFiles + Threads + Clock + Copy + Drop),
    folder: &str,
    shape: LabShape,
    start: Option<Gas>,
    script: &str,
    output: &str,
) {
    let mut shelf = file_of(rt, folder, 0);
    gives_with(rt, shape, start, &mut shelf, script, output);
}

/// What `--load` and `--save` ask of a run: it starts from the gas of a file, which has the size, and saves into the file. The
/// replies are those of `tools/channel_gas.py`.
#[test]
fn run_goes_on_from_a_file(rt: HostRuntime) {
    let folder = new_folder(&rt, "continued", process::id(rt.process()));
    let wide = LabShape {
        width: 128,
        ..SMALL
    };
    runs_in(
        &rt,
        folder.as_str(),
        wide,
        None,
        "wall 0 20 128 1; wall 0 29 128 1; put 28 21 8 8; step 7; save",
        "OK 0; OK 1; OK 2; OK 3; SAVED 4 3094",
    );
    runs_in(
        &rt,
        folder.as_str(),
        SMALL,
        Some(loaded(&rt, folder.as_str())),
        "put 0 0 1 1; step 1; probe 1 1 1 1; tally; back 8; probe 28 21 8 8; save; quit",
        "OK 0; OK 1; PROBE 0 0 0; TALLY 8 65 -1 -1; OK 2; PROBE 64 0 0; SAVED 3 3094; BYE",
    );
    goes_on(
        &rt,
        loaded(&rt, folder.as_str()),
        "probe 28 21 8 8; tally",
        "PROBE 64 0 0; TALLY 0 65 -1 -1",
    );
    fs::remove_dir_all(&rt, folder.as_str()).expect(&rt, "no folder");
}
