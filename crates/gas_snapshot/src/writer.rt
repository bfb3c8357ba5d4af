//! Writes a gas as bytes to a writer, without allocating. The program does not: this is for callers of the library.

ghost use Rattle.std.specs.Prelude.{◌≡◌, length, IfOk, OnOk, OnErr};
ghost use Rattle.std.specs.Io.KnownBytes.{Appends};
ghost use Rattle.gas_snapshot.specs.declared.version.Version.TheVariants.{Two};
ghost use Rattle.gas_snapshot.specs.Spelling.{cell_rows, spelling};
ghost use Rattle.byte_page.specs.Written.{WritesFront};

use crate::page::head_of;
use byte_page::{WriteFault, put_all};
use gas_ledger::Gas;
use gas_plane::Plane;
use gas_terms::MOST_ROW_BYTES;
use std::io::Write;

fn write_rows<W: Write>(writer: &mut W, plane: &Plane) -> Result<(), WriteFault>
    ensures ok { OnOk result
        (Appends (W.contents writer.old) (W.contents writer.new) (cell_rows plane.now)) }
    ensures err { OnErr result
        (WritesFront (W.contents writer.old) (W.contents writer.new) (cell_rows plane.now)) }
{
    let size = plane.size();
    let len = size.width() as usize / 8;
    let mut row = [0; MOST_ROW_BYTES];
    for y in 0..size.height() {
        plane.row_bytes(y as u32, &mut row[..len]);
        put_all(writer, &row[..len])?;
    }
    Ok(())
}

/// Writes the bytes that `encode` returns, without allocating. Returns their number. After a fault, the bytes written so far
/// are the first of them.
pub fn write_to<W: Write>(gas: &Gas, writer: &mut W) -> Result<u64, WriteFault>
    ensures ok { IfOk result (λ n.
        Appends (W.contents writer.old) (W.contents writer.new) (spelling Two gas.now)
        × (n ≡ length (spelling Two gas.now))) }
    ensures err { OnErr result
        (WritesFront (W.contents writer.old) (W.contents writer.new) (spelling Two gas.now)) }
{
    let page = head_of(gas);
    let head = page.text();
    let size = gas.size();
    let part = size.height() as u64 * (size.width() as u64 / 8);
    put_all(writer, head)?;
    write_rows(writer, gas.particles())?;
    write_rows(writer, gas.walls())?;
    write_rows(writer, gas.obstacles())?;
    Ok(head.len() as u64 + 3 * part)
}
