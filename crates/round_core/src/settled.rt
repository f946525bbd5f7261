//! What a search gives.
ghost use Rattle.std.specs.Prelude.{◌≡◌};

use std::marker::Model;

/// The settled words of a graph's numbers, with the rounds and the moves that it took to find them.
#[derive(Drop)]
pub struct Settled {
    words: Vec<u64>,
    rounds: u32,
    relaxed: u64,
}

impl Model for Settled {
    ghost use Rattle.round_core.specs.Searches.{SettledView};

    ghost Value = { SettledView };

    ghost view = { λ s. record { words = s.words.items; rounds = s.rounds; relaxed = s.relaxed } };
}

impl Settled {
    /// These settled words, rounds and moves as they are: it is the search that says what they mean.
    pub fn new(words: Vec<u64>, rounds: u32, relaxed: u64) -> Settled
        ensures { result ≡ record { words = words.items; rounds = rounds; relaxed = relaxed } }
    {
        Settled {
            words,
            rounds,
            relaxed,
        }
    }

    /// The settled word of each number.
    pub fn words(&self) -> &[u64]
        ensures { result.now ≡ self.now.words }
    {
        self.words.as_slice()
    }

    /// One more than the greatest least distance of a reached number.
    pub fn rounds(&self) -> u32
        ensures { result ≡ self.now.rounds }
    {
        self.rounds
    }

    /// How many moves were made: the sum of the lengths of the reached numbers' lists.
    pub fn relaxed(&self) -> u64
        ensures { result ≡ self.now.relaxed }
    {
        self.relaxed
    }
}
