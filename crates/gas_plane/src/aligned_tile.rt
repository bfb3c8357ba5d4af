//! Where a plane keeps its tiles: each begins at a multiple of 64 bytes, if the C library does what it does with large blocks.

ghost use Rattle.std.specs.Prelude.{◌≡◌, ℕ, IfOk, length, replicate};
ghost use Rattle.gas_plane.specs.declared.aligned_tile.AlignedTile.{AlignedTile as AlignedTileOf};

use bit_tile::Tile;
use gas_terms::NoMemory;
use std::alloc::Global;

/// A tile with bytes round it. The C library begins a block that it maps at 16 bytes after a page. A vector of these begins there,
/// and so each tile begins at a multiple of 64 bytes, where AVX2 reads it fastest. If the block is elsewhere, nothing but time is
/// lost.
#[derive(Clone, Copy)]
pub struct AlignedTile {
    before: [u32; 12],
    pub tile: Tile,
    after: [u32; 4],
}

// The C library maps blocks of 128 KiB or more, unless it has freed a larger one.
const LEAST: usize = 256;

impl AlignedTile {
    /// This tile.
    pub fn of(tile: Tile) -> AlignedTile
        ensures { result.tile ≡ tile }
    {
        AlignedTile {
            before: [0; 12],
            tile,
            after: [0; 4],
        }
    }
}

/// The same tile n times. Fails if memory runs out.
pub fn rooms(alloc: Global, tile: Tile, n: usize) -> Result<Vec<AlignedTile>, NoMemory>
    ensures { IfOk result (λ v.
        (room : AlignedTileOf) × (room.tile ≡ tile) × (v.items ≡ replicate n room)) }
{
    let mut rooms = Vec::with_capacity(alloc, n.max(LEAST))?;
    rooms.resize(n, AlignedTile::of(tile))?;
    Ok(rooms)
}

/// A copy. Fails if memory runs out.
pub fn copied(alloc: Global, from: &[AlignedTile]) -> Result<Vec<AlignedTile>, NoMemory>
    ensures { IfOk result (λ v. v.items ≡ from.now) }
{
    let mut rooms = Vec::with_capacity(alloc, from.len().max(LEAST))?;
    rooms.extend_from_slice(from)?;
    Ok(rooms)
}
