//! One stroke: a set of keys, kept as a number with a bit for each key.

ghost use Rattle.std.specs.Prelude.{◌≡◌, ◌<◌, ◌↔◌, IsTrue, IsBitSet, SomeIff};
ghost use Rattle.steno_rules.specs.Outlines.{IsStroke, key_count};

use std::marker::Model;

/// A set of keys that isn't empty, seen as its code. Strokes are ordered by their codes.
#[derive(Clone, Copy, Debug, PartialEq, Eq, PartialOrd, Ord, Hash)]
pub struct Stroke {
    code: u32,
}

impl Model for Stroke {
    ghost use Rattle.std.specs.Prelude.{ℕ};
    ghost use Rattle.steno_rules.specs.Outlines.{IsStroke};

    ghost Value = { ℕ };

    ghost view = { λ s. s.code };

    ghost invariant = { λ s. IsStroke s.code };

    ghost inverse = { λ n. record { code = n } };
}

impl Stroke {
    /// How many keys there are.
    pub const KEYS: u8 = 23;

    /// The stroke of a code from 1 to 8,388,607, which has one bit for each of the 23 keys.
    pub fn new(code: u32) -> Option<Stroke>
        ensures { SomeIff result (IsStroke code) code }
    {
        if code == 0 || code >= 1 << Stroke::KEYS {
            return None;
        }
        Some(Stroke { code })
    }

    /// The sum of `2^k` over the keys `k`.
    pub fn code(self) -> u32
        ensures code { result ≡ self }
        ensures range { IsStroke result }
    {
        self.code
    }

    /// Whether the key of this number is pressed. The keys have the numbers from 0 in steno order.
    #[tactic(auto, using(std::proofs::lemmas::Nat::bit_set_by_shift))]
    pub fn has(self, key: u8) -> bool
        ensures { IsTrue result ↔ ((key < key_count) × IsBitSet self key) }
    {
        key < Stroke::KEYS && (self.code >> key) & 1 == 1
    }
}

/// The key `#` alone: what an unused place of a `SmallVec` of strokes holds.
impl Default for Stroke {
    ghost is_default = { λ s. s ≡ 1 };

    fn default() -> Stroke {
        Stroke { code: 1 }
    }
}
