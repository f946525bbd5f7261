//! The nodes of last strokes alone, a column beside the others.
ghost use Rattle.std.specs.Prelude.{◌≡◌, IfOk};
ghost use Rattle.match_window.specs.inside.Alone.{AreAlone};

use outline_trie::Trie;
use std::alloc::{AllocError, Global};

/// For each node the node of its last stroke alone, 0 where there is none. One look-up at the root a node.
pub(crate) fn alone_of(alloc: Global, trie: &Trie) -> Result<Vec<u32>, AllocError>
    ensures { IfOk result (λ alone. AreAlone trie.now alone.items) }
{
    let mut alone = Vec::with_capacity(alloc, trie.node_count() as usize)?;
    for node in 0..trie.node_count() {
        alone.push(trie.suffix(node, 1).unwrap_or(0))?;
    }
    Ok(alone)
}
