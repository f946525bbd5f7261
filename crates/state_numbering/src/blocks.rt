//! An index of the numbers, so that the part of a number is found without a search over all parts.
ghost use Rattle.std.specs.Prelude.{◌≡◌, ◌<◌, ◌≤◌, ◌+◌, ◌*◌, ◌/◌, ◌^◌, length, IfOk};
ghost use Rattle.state_numbering.specs.Causes.{most_states};
ghost use Rattle.state_numbering.specs.inside.Blocks.{starts_at, AreBlockStarts, BeginsBy, IsLastBegun};
ghost use Rattle.state_numbering.specs.inside.Invariants.{AreBlocksOf};

use crate::part::Part;
use std::alloc::{AllocError, Global};

/// Blocks of 2 to the power of `bits` numbers, each with the node in whose part its first number lies. There are at
/// most as many as nodes.
#[derive(Drop)]
pub(crate) struct Blocks {
    pub(crate) bits: u32,
    pub(crate) nodes: Vec<u32>,
}

/// The last part from one on that begins at or before a number.
pub(crate) fn last_begun(parts: &[Part], from: u32, number: u32) -> u32
    requires from { BeginsBy parts.now number from }
    requires few { length parts.now < 2 ^ 32 }
    ensures { IsLastBegun parts.now number result }
{
    let mut node = from as usize;
    while node + 1 < parts.len() && parts[node + 1].start <= number {
        node += 1;
    }
    node as u32
}

/// How large blocks are: at least 16 numbers, and so many that there are no more blocks than nodes.
fn block_bits(nodes: usize, count: u32) -> u32
    requires some { 0 < nodes }
    requires nodes { nodes < 2 ^ 32 }
    requires count { count ≤ most_states }
    ensures bits { result < 32 }
    ensures few { count < nodes * 2 ^ result }
{
    for bits in 4..26 {
        if u64::from(count) < (nodes as u64) << bits {
            return bits;
        }
    }
    26
}

/// The blocks of so many numbers.
pub(crate) fn blocks_of(alloc: Global, parts: &[Part], count: u32) -> Result<Blocks, AllocError>
    requires some { 0 < length parts.now }
    requires few { length parts.now < 2 ^ 32 }
    requires first { starts_at parts.now 0 ≡ 0 }
    requires count { count ≤ most_states }
    ensures blocks { IfOk result (AreBlocksOf parts.now count) }
    ensures few { IfOk result (λ blocks. length blocks.nodes.items ≤ length parts.now) }
{
    let bits = block_bits(parts.len(), count);
    let last = count >> bits;
    let mut nodes = Vec::with_capacity(alloc, last as usize + 1)?;
    let mut node = 0;
    for block in 0..last + 1 {
        node = last_begun(parts, node, block << bits);
        nodes.push(node)?;
    }
    Ok(Blocks { bits, nodes })
}
