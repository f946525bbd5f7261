//! The order in which the numbers of a round are worked.

ghost use Rattle.std.specs.Prelude.{◌≡◌, ◌<◌, All, length, map, IfOk};
ghost use Rattle.steal_rounds.specs.inside.Orders.{low_half, AreKeys, IsOrdered};

use round_core::StepGraph;
use std::alloc::{AllocError, Global};

/// The same numbers by rising rank, and those of one rank by rising number.
pub(crate) fn in_order<G: StepGraph>(
    alloc: Global,
    graph: &G,
    frontier: &[u32],
) -> Result<Vec<u32>, AllocError>
    requires { All (λ s. s < length (G.lists graph.now)) frontier.now }
    ensures { IfOk result (λ order. IsOrdered (G.has_rank graph.now) frontier.now order.items) }
{
    let mut keys = keys_of(alloc, graph, frontier)?;
    keys.sort_unstable();
    numbers_of(alloc, keys.as_slice())
}

/// A key for each number: its rank in the high half, and the number in the low half.
fn keys_of<G: StepGraph>(alloc: Global, graph: &G, frontier: &[u32]) -> Result<Vec<u64>, AllocError>
    requires { All (λ s. s < length (G.lists graph.now)) frontier.now }
    ensures { IfOk result (λ keys. AreKeys (G.has_rank graph.now) frontier.now keys.items) }
{
    let mut keys = Vec::with_capacity(alloc, frontier.len())?;
    for number in frontier {
        let rank = graph.rank(*number);
        keys.push(u64::from(rank) * 4294967296 + u64::from(*number))?;
    }
    Ok(keys)
}

/// The numbers of keys.
fn numbers_of(alloc: Global, keys: &[u64]) -> Result<Vec<u32>, AllocError>
    ensures { IfOk result (λ numbers. numbers.items ≡ map low_half keys.now) }
{
    let mut numbers = Vec::with_capacity(alloc, keys.len())?;
    for key in keys {
        numbers.push((*key % 4294967296) as u32)?;
    }
    Ok(numbers)
}
