//! The settled word that a move puts.
ghost use Rattle.std.specs.Prelude.{◌≡◌, ◌+◌, ◌<◌};
ghost use Rattle.graph_rules.specs.Graphs.{moved, word_half};

/// The settled word of a number that was reached from `source`, to which a walk of `distance` moves goes: one move more
/// in the high half, the source in the low half. The lesser settled word is the shorter walk, and of two walks as long
/// that from the lesser source.
pub fn word_after(distance: u32, source: u32) -> u64
    requires { distance + 1 < word_half }
    ensures { result ≡ moved distance source }
{
    (u64::from(distance) + 1) * 4294967296 + u64::from(source)
}
