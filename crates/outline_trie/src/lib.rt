//! A finite set of outlines as a tree of strokes, so that what an outline continues to is found stroke by stroke.
//!
//! A translator asks of a run of strokes whether some entry begins with it, and which entry it is. Each distinct
//! beginning of an entry is a node; its number is its place among all of them in outline order, so numbers mean the
//! same to whoever has the entries. A trie (Fredkin, Trie memory, 1960) over the sorted entries is built in time linear
//! in their strokes: consecutive entries have a beginning in common, and each stroke after it makes a node. A node's
//! children stand in a row sorted by stroke, all rows in one pool of cells, and a look-up is a binary search in a row.
//!
//! A node takes 17 bytes and 8 more if it has children, a cell of a row 8.
#![tactic(auto)]

ghost use Rattle.std.specs.Prelude.{◌≡◌};
ghost use Rattle.outline_trie.specs.Tries.{most_nodes};
ghost use Rattle.outline_trie.specs.declared.trie.TheConstants.Trie.{MAX_NODES};

mod count;
mod room;
mod rows;
mod shared;
mod table;
#[cfg(test)]
mod tests;
mod trie;

pub use trie::{Trie, TrieFault};

/// The limit on the nodes of a trie.
pub fn limits()
    ensures { (MAX_NODES ≡ most_nodes) × (most_nodes ≡ 4194304) }
{}
