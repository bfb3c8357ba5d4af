//! The tiles of a row turn, one after another.

ghost use Rattle.std.specs.Prelude.{ℕ, ◌≡◌, ◌+◌, ◌/◌, ◌<◌, length};
ghost use Rattle.bit_tile.specs.declared.Tile.{Tile as TileWords};
ghost use Rattle.gas_plane.specs.Tiles.{tiled, tiles_of, Cover};
ghost use Rattle.gas_plane.specs.Turning.{IsRoomTurned, IsTileRowTurned};

use crate::Plane;
use crate::aligned_tile::AlignedTile;
use bit_tile::Tile;
use gas_terms::Size;

/// Turns the tiles of a row from left to right, each beside the one to its right, and carries something on from tile to tile.
/// `turns` relates, for a turner in a column, what was carried, the tile before, the one to its right, the tile after, and what is
/// carried on. `can_turn` says in which columns it can.
pub trait Turner: Copy {
    type Carried;

    ghost turns: { Self → ℕ → Self.Carried → TileWords → TileWords → TileWords → Self.Carried
        → Type 0 };

    ghost can_turn: { Self → ℕ → Type 0 };

    /// Turns the tile in this column of a row, beside the one to its right.
    fn turn(self, column: u32, tile: &mut Tile, right: &Tile, carried: &mut Self::Carried)
        requires { can_turn self column }
        ensures { turns self column carried.old tile.old right.now tile.new carried.new };
}

// Turns the tile in room i, in this column of its row, beside that in the next room.
#[inline(always)]
fn turn_room<T: Turner>(
    rooms: &mut [AlignedTile],
    i: usize,
    column: u32,
    turner: T,
    carried: &mut T::Carried,
)
    requires room { i + 1 < length rooms.old }
    requires turner { T.can_turn turner column }
    ensures { IsRoomTurned (T.turns turner column carried.old) carried.new
        rooms.old i rooms.new }
{
    let (head, tail) = rooms.split_at_mut(i + 1);
    turner.turn(column, &mut head[i].tile, &tail[0].tile, carried);
}

// Turns the tiles of a row of a plane, which is kept in these rooms. Their address is a value of its own here, and not read anew for
// each tile.
#[inline(always)]
fn turn_rooms<T: Turner>(
    rooms: &mut [AlignedTile],
    size: Size,
    row: u32,
    turner: T,
    carried: &mut T::Carried,
)
    requires covered { Cover (tiles_of rooms.old) size }
    requires row { row < size.height / 64 }
    requires turner { (k : ℕ) → k < size.width / 64 → T.can_turn turner k }
    ensures covered { Cover (tiles_of rooms.new) size }
    ensures turned { IsTileRowTurned (T.turns turner) row carried.old
        (tiled (tiles_of rooms.old) size) carried.new (tiled (tiles_of rooms.new) size) }
{
    let across = size.width() as usize / 64;
    let begin = row as usize * across;
    let first = rooms[begin].tile;
    let last = across - 1;
    for column in 0..last {
        turn_room(rooms, begin + column, column as u32, turner, carried);
    }
    let tile = &mut rooms[begin + last].tile;
    turner.turn(last as u32, tile, &first, carried);
}

impl Plane {
    /// Turns the tiles of a row, from left to right.
    #[inline(always)]
    pub fn turn_row<T: Turner>(&mut self, row: u32, turner: T, carried: &mut T::Carried)
        requires row { row < self.old.height / 64 }
        requires turner { (k : ℕ) → k < self.old.width / 64 → T.can_turn turner k }
        ensures { IsTileRowTurned (T.turns turner) row carried.old self.old
            carried.new self.new }
    {
        self.is_counted = false;
        let size = self.size;
        turn_rooms(self.tiles.as_mut_slice(), size, row, turner, carried);
    }
}
