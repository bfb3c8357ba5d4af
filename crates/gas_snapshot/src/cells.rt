//! The cells of a plane as bytes, row by row.

ghost use Rattle.std.specs.Prelude.{◌≡◌, ◌*◌, ◌/◌, IfOk, length};
ghost use Rattle.gas_snapshot.specs.Spelling.{cell_rows};
ghost use Rattle.gas_snapshot.specs.Reading.{cells_in};

use gas_plane::Plane;
use gas_terms::{NoMemory, Size};
use std::alloc::Global;

/// The plane whose rows the bytes are. Fails if memory runs out.
pub fn plane_of(alloc: Global, size: Size, bytes: &[u8]) -> Result<Plane, NoMemory>
    requires { length bytes.now ≡ size.height * (size.width / 8) }
    ensures { IfOk result (λ plane. plane ≡ cells_in size bytes.now) }
{
    let mut plane = Plane::empty(alloc, size)?;
    let len = plane.size().width() as usize / 8;
    for y in 0..size.height() {
        let from = y as usize * len;
        plane.set_row(y as u32, &bytes[from..from + len]);
    }
    Ok(plane)
}

/// Writes all rows.
pub fn put_rows(plane: &Plane, out: &mut [u8])
    requires { length out.old ≡ plane.now.height * (plane.now.width / 8) }
    ensures { out.new ≡ cell_rows plane.now }
{
    let size = plane.size();
    let len = size.width() as usize / 8;
    for y in 0..size.height() {
        let from = y as usize * len;
        plane.row_bytes(y as u32, &mut out[from..from + len]);
    }
}
