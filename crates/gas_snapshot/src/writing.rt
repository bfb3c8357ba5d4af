//! Writes a gas as bytes in memory.

ghost use Rattle.std.specs.Prelude.{◌≡◌, ◌≤◌, ◌+◌, ◌*◌, ◌/◌, ◌++◌, IfOk, length, take};
ghost use Rattle.gas_ledger.specs.Gases.{IsSoundGas};
ghost use Rattle.gas_snapshot.specs.declared.version.Version.TheVariants.{Two};
ghost use Rattle.gas_snapshot.specs.Spelling.{cell_rows, head, spelling};

use crate::cells::put_rows;
use crate::page::head_of;
use gas_ledger::Gas;
use gas_plane::Plane;
use gas_terms::NoMemory;
use std::alloc::Global;

// Writes the rows from the place on.
fn put_plane(plane: &Plane, at: usize, part: usize, out: &mut [u8])
    requires part { part ≡ plane.now.height * (plane.now.width / 8) }
    requires room { at + part ≤ length out.old }
    ensures { take (at + part) out.new ≡ take at out.old ++ cell_rows plane.now }
{
    put_rows(plane, &mut out[at..at + part]);
}

// Writes the whole snapshot, of which the head is given.
fn fill(gas: &Gas, first: &[u8], part: usize, out: &mut [u8])
    requires part { part ≡ gas.now.particles.height * (gas.now.particles.width / 8) }
    requires sound { IsSoundGas gas.now }
    requires first { first.now ≡ head Two gas.now }
    requires room { length out.old ≡ length first.now + 3 * part }
    ensures { out.new ≡ spelling Two gas.now }
{
    let start = first.len();
    out[..start].copy_from_slice(first);
    put_plane(gas.particles(), start, part, out);
    put_plane(gas.walls(), start + part, part, out);
    put_plane(gas.obstacles(), start + 2 * part, part, out);
}

/// The gas's snapshot of version 2, in one allocation of its length. Fails if memory runs out.
pub fn encode(alloc: Global, gas: &Gas) -> Result<Vec<u8>, NoMemory>
    ensures { IfOk result (λ bytes. bytes.items ≡ spelling Two gas.now) }
{
    let page = head_of(gas);
    let head = page.text();
    let size = gas.size();
    let part = size.height() as usize * (size.width() as usize / 8);
    let mut out = vec![in alloc; 0; head.len() + 3 * part]?;
    fill(gas, head, part, out.as_mut_slice());
    Ok(out)
}
