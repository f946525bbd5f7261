//! How many numbers the states of a trie need.
ghost use Rattle.std.specs.Prelude.{◌≡◌};
ghost use Rattle.steno_rules.specs.StateNumbers.{number_count};

use crate::part::size_of;
use outline_trie::Trie;

/// The most numbers that states may need.
pub const MAX_STATES: u64 = 33_554_432;

/// How many numbers there are.
pub(crate) fn count_numbers(trie: &Trie) -> u64
    ensures { result ≡ number_count trie.now }
{
    let mut count = 0;
    for node in 0..trie.node_count() {
        count += u64::from(size_of(trie.depth(node)));
    }
    count
}
