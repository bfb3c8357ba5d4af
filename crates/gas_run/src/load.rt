//! Loads a gas from a reader that gives a snapshot.

ghost use Rattle.std.specs.Prelude.{◌≡◌, ◌≤◌, [], IsTrue, vec_capacity};
ghost use Rattle.gas_run.specs.Loading.{most, IsRead, Loads};

use gas_ledger::Gas;
use gas_snapshot::{SnapFault, decode};
use std::alloc::Global;
use std::io::Read;
use thiserror::Error;

/// Why no gas was loaded: a read failed, or the bytes are not a snapshot. Memory that runs out counts as a fault of the
/// snapshot.
#[derive(Clone, Copy, Debug, PartialEq, Eq, Error)]
pub enum LoadFault {
    #[error("read")]
    Read,
    #[error("{0}")]
    Snap(SnapFault),
}

// One byte more than the longest snapshot has.
const MOST: usize = 6_291_767;

const PAGE: usize = 4096;

// Reads to the reader's end, but at most `MOST` bytes. Returns whether no read failed.
fn read_all<R: Read>(reader: &mut R, bytes: &mut Vec<u8>) -> bool
    requires empty { bytes.old.items ≡ [] }
    requires room { most ≤ vec_capacity bytes.old }
    ensures { IsTrue result
        → IsRead (R.remaining reader.old) (R.remaining reader.new) bytes.new.items }
{
    let mut page = [0; PAGE];
    while bytes.len() < MOST {
        let room = PAGE.min(MOST - bytes.len());
        match reader.read(&mut page[..room]) {
            Ok(0) => return true,
            Ok(n) => {
                let Ok(()) = bytes.extend_from_slice(&page[..n]) else {
                    unreachable!()
                };
            }
            Err(_) => return false,
        }
    }
    true
}

/// Reads to the reader's end, but at most 6,291,767 bytes, and returns the gas of the snapshot in them, of either version. It
/// allocates room for all of them first: memory runs out before the first read, or after the last.
pub fn load_from<R: Read>(alloc: Global, reader: &mut R) -> Result<Gas, LoadFault>
    ensures { Loads R.remaining reader.old reader.new result }
{
    let Ok(mut bytes) = Vec::with_capacity(alloc, MOST) else {
        return Err(LoadFault::Snap(SnapFault::Memory));
    };
    if !read_all(reader, &mut bytes) {
        return Err(LoadFault::Read);
    }
    match decode(alloc, bytes.as_slice()) {
        Ok(gas) => Ok(gas),
        Err(fault) => Err(LoadFault::Snap(fault)),
    }
}
