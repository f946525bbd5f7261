//! The part of a node: the numbers of the states of which the node is the longer list.
ghost use Rattle.std.specs.Prelude.{◌≡◌, ◌≤◌, IfOk};
ghost use Rattle.steno_rules.specs.StateNumbers.{number_count, part_size};
ghost use Rattle.state_numbering.specs.Causes.{most_states};
ghost use Rattle.state_numbering.specs.inside.Parts.{AreNodeParts};

use outline_trie::Trie;
use std::alloc::{AllocError, Global};

/// The first number of a node's part, and how many strokes the node has.
#[derive(Clone, Copy, Debug, PartialEq, Eq)]
pub(crate) struct Part {
    pub(crate) start: u32,
    pub(crate) depth: u32,
}

/// How many numbers the part of a node of so many strokes has.
pub(crate) fn size_of(depth: u32) -> u32
    requires { depth ≤ 64 }
    ensures size { result ≡ part_size depth }
    ensures some { 1 ≤ result }
    ensures most { result ≤ 2209 }
{
    2 * depth + 1 + depth * (depth + 1) / 2
}

/// The parts of all nodes, in order.
pub(crate) fn parts_of(alloc: Global, trie: &Trie) -> Result<Vec<Part>, AllocError>
    requires { number_count trie.now ≤ most_states }
    ensures { IfOk result (λ parts. AreNodeParts trie.now parts.items) }
{
    let mut parts = Vec::with_capacity(alloc, trie.node_count() as usize)?;
    let mut start = 0;
    for node in 0..trie.node_count() {
        let depth = trie.depth(node);
        parts.push(Part { start, depth })?;
        start += size_of(depth);
    }
    Ok(parts)
}
