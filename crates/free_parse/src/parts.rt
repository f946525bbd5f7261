//! The numbers of the forks of each node, and the node of a number.
ghost use Rattle.std.specs.Prelude.{◌≡◌, ◌++◌, ◌≤◌, IfOk, OnOk, replicate};
ghost use Rattle.graph_rules.specs.Graphs.{most_numbers};
ghost use Rattle.reading_laws.specs.ForkNumbers.{fork_count, end_number};
ghost use Rattle.free_parse.specs.inside.Parts.{AreForkParts};

use outline_trie::Trie;
use std::alloc::{AllocError, Global};

/// The first number of each node, and the node of each number.
#[derive(Drop)]
pub(crate) struct Parts {
    pub(crate) starts: Vec<u32>,
    pub(crate) nodes: Vec<u32>,
}

/// How many numbers the forks of all nodes have, which is the number of the end.
pub(crate) fn end_of(trie: &Trie) -> u64
    ensures { result ≡ end_number trie.now }
{
    let mut count = 0;
    for node in 0..trie.node_count() {
        count += u64::from(trie.depth(node) + 1);
    }
    count
}

/// Adds a node as often as it has numbers.
fn push_part(nodes: &mut Vec<u32>, node: u32, size: u32) -> Result<(), AllocError>
    ensures { OnOk result (nodes.new.items ≡ nodes.old.items ++ replicate size node) }
{
    for _ in 0..size {
        nodes.push(node)?;
    }
    Ok(())
}

/// The parts of a trie's nodes, one behind the other.
pub(crate) fn parts_of(alloc: Global, trie: &Trie) -> Result<Parts, AllocError>
    requires { fork_count trie.now ≤ most_numbers }
    ensures { IfOk result (λ parts. AreForkParts trie.now parts.starts.items parts.nodes.items) }
{
    let mut starts = Vec::with_capacity(alloc, trie.node_count() as usize)?;
    let mut nodes = Vec::with_capacity(alloc, end_of(trie) as usize)?;
    for node in 0..trie.node_count() {
        starts.push(nodes.len() as u32)?;
        push_part(&mut nodes, node, trie.depth(node) + 1)?;
    }
    Ok(Parts { starts, nodes })
}
