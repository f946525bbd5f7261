//! What a thread calls a table with.
use crate::knowledge::Knowledge;
use atomic_table::Seat;
use std::marker::Model;

/// What a thread calls a table with. It is of one table, has a number that no other pass has, and contracts see the
/// history that it has seen.
///
/// In memory it is the move that the thread makes next: the number from which it goes, and that number's distance.
#[derive(Drop)]
pub struct Pass {
    pub(crate) seat: Seat<u8, Knowledge>,
    pub(crate) distance: u32,
    pub(crate) source: u32,
}

impl Model for Pass {
    ghost use Rattle.std.specs.Prelude.{◌≡◌, Some, []};
    ghost use Rattle.dist_table.specs.Tables.{PassView};
    ghost use Rattle.dist_table.specs.inside.Steps.{pass_number};

    ghost Value = { PassView };

    ghost view = { λ p. record {
      table = record { id = p.seat.table_id; origin = p.seat.me.0.origin; lists = p.seat.me.0.lists };
      number = pass_number p.seat.me.0;
      seen = p.seat.me.0.seen;
    } };

    ghost invariant = { λ p.
        (p.seat.me.1 ≡ [])
        × (p.seat.me.0.number ≡ Some (pass_number p.seat.me.0))
        × (p.seat.me.0.distance ≡ p.distance)
        × (p.seat.me.0.source ≡ p.source) };
}
