//! The empty gas and laboratory of 64 by 64 cells, and views that take no memory.

use gas_lab::{Gas, Lab, Serial};
use gas_plane::Plane;
use gas_terms::{NoMemory, Size};
use std::process::Abort;

/// How many entries the journal may have.
pub const CAP: usize = 8;

pub fn size(rt: &impl Abort) -> Size {
    Size::new(64, 64).expect(rt, "a size")
}

pub fn empty(rt: &(impl Abort + AllocGlobal)) -> Result<Gas, NoMemory> {
    Gas::empty(rt.alloc(), size(rt))
}

pub fn gas(rt: &(impl Abort + AllocGlobal)) -> Gas {
    empty(rt).expect(rt, "memory")
}

pub fn opened(rt: &(impl Abort + AllocGlobal)) -> Result<Lab<Serial>, NoMemory> {
    Lab::open(rt.alloc(), empty(rt)?, CAP as u32, Serial)
}

pub fn lab(rt: &(impl Abort + AllocGlobal)) -> Lab<Serial> {
    opened(rt).expect(rt, "memory")
}

pub fn has(cells: &Plane, x: u32, y: u32) -> bool {
    let size = cells.size();
    x < size.width() as u32 && y < size.height() as u32 && cells.get(x, y)
}
