//! A block of a pool, as its owner holds it. It can't be copied, so what was given back can't be used again.
ghost use Rattle.std.specs.Prelude.{◌≡◌};

use std::marker::Model;

/// Some cells of a pool, seen as their place and their number.
#[derive(Debug, Drop)]
pub struct Block {
    place: u32,
    len: u32,
}

impl Model for Block {
    ghost use Rattle.edge_pool.specs.Pools.{Extent};

    ghost Value = { Extent };

    ghost view = { λ b. record { place = b.place; len = b.len } };
}

impl Block {
    /// A block of so many cells from this place on.
    pub(crate) fn new(place: u32, len: u32) -> Block
        ensures { result ≡ record { place = place; len = len } }
    {
        Block { place, len }
    }

    /// Its first cell.
    pub(crate) fn place(&self) -> u32
        ensures { result ≡ self.now.place }
    {
        self.place
    }

    /// How many cells it has.
    pub(crate) fn len(&self) -> u32
        ensures { result ≡ self.now.len }
    {
        self.len
    }
}
