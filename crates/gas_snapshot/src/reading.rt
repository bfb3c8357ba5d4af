//! Reads bytes as a gas.

ghost use Rattle.std.specs.Prelude.{◌≡◌, ◌-◌, ◌*◌, ◌/◌, Ok, IfOk, length};
ghost use Rattle.gas_terms.specs.Gas.{Gas as GasTerm};
ghost use Rattle.gas_snapshot.specs.Spelling.{Spells};
ghost use Rattle.gas_snapshot.specs.Reading.{Gives, reading, layers, obstacles_in};

use crate::cells::plane_of;
use crate::fault::SnapFault;
use crate::fields::read_head;
use crate::version::Version;
use gas_ledger::{Gas, Ports};
use gas_plane::Plane;
use gas_terms::{NoMemory, Size};
use std::alloc::Global;

// How many planes the cells of a version are.
fn layers(version: Version) -> usize
    ensures { result ≡ layers version }
{
    match version {
        Version::One => 2,
        Version::Two => 3,
    }
}

// The third plane, which the first version leaves empty.
fn obstacles_of(
    alloc: Global,
    version: Version,
    size: Size,
    bytes: &[u8],
) -> Result<Plane, NoMemory>
    requires { length bytes.now ≡ (layers version - 2) * (size.height * (size.width / 8)) }
    ensures { IfOk result (λ plane. plane ≡ obstacles_in version size bytes.now) }
{
    match version {
        Version::One => Plane::empty(alloc, size),
        Version::Two => plane_of(alloc, size, bytes),
    }
}

fn gas_in(alloc: Global, bytes: &[u8]) -> Result<Gas, SnapFault>
    ensures { Gives result (reading bytes.now) }
{
    let mut ports = Ports::none();
    let (head, cells) = match read_head(bytes, &mut ports) {
        Ok(read) => read,
        Err(fault) => return Err(fault),
    };
    let size = head.size;
    let len = size.height() as usize * (size.width() as usize / 8);
    let needed = layers(head.version) * len;
    if cells.len() < needed {
        return Err(SnapFault::Short);
    }
    if cells.len() > needed {
        return Err(SnapFault::Trailing);
    }
    let (first, rest) = cells.split_at(len);
    let (second, third) = rest.split_at(len);
    let particles = plane_of(alloc, size, first)?;
    let walls = plane_of(alloc, size, second)?;
    let obstacles = obstacles_of(alloc, head.version, size, third)?;
    let gas = Gas::new(alloc, head.tick, particles, walls, obstacles, ports)?;
    Ok(gas)
}

/// The gas whose snapshot the bytes are, in either version. Fails with the first fault from the left, or, in bytes without
/// fault, if memory runs out.
pub fn decode(alloc: Global, bytes: &[u8]) -> Result<Gas, SnapFault>
    // What is read is spelled so.
    ensures found { IfOk result (λ gas. Spells bytes.now gas) }
    // What is spelled so is read, unless memory runs out.
    ensures only { (g : GasTerm) → Spells bytes.now g → Gives result (Ok g) }
    // Which fault it is.
    ensures exact { Gives result (reading bytes.now) }
{
    gas_in(alloc, bytes)
}
