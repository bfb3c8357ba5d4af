//! The invariant of the desk's table, and the atomic steps that seats make.

use crate::draws::Draws;
use atomic_table::{Join, Play, Split, TableRule};

/// The key is the limit and the number of seats.
pub struct DeskRule;

impl TableRule<(), Draws, (u32, u32)> for DeskRule {
    ghost use Rattle.std.specs.Prelude.{[]};
    ghost use Rattle.claim_desk.specs.Draws.{draws};
    ghost use Rattle.claim_desk.specs.Rule.{Keeps};

    ghost holds = { Keeps };

    ghost first = { λ key. draws key.0 key.1 0 [] };
}

/// A draw.
pub struct Draw;

impl Play<(), Draws> for Draw {
    ghost use Rattle.claim_desk.specs.Rule.{Drew};

    ghost then = { Drew };
}

/// A seat beside a seat.
pub struct SplitSeat;

impl Split<Draws> for SplitSeat {
    ghost use Rattle.claim_desk.specs.Draws.{less_one, new_beside};

    ghost left = { less_one };

    ghost right = { new_beside };
}

/// Two seats made one.
pub struct JoinSeats;

impl Join<Draws> for JoinSeats {
    ghost use Rattle.claim_desk.specs.Draws.{together, spent};

    ghost both = { together };

    ghost spent = { spent };
}
