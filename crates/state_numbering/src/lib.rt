//! States as numbers, so that a search can keep a word for each of them in one table.
//!
//! A state is one of finitely many, and most of what a search does is to look at the word of a target. So each state
//! has a number: each node of the trie has a part of the numbers, for the states of which it is the longer list, and
//! within the part the lengths and the mark tell the number. Not every number has a state, but most have.
//!
//! [`Numbering`] leads from states to numbers and back; [`ClosureGraph`] is the graph of the kept moves, to be searched
//! by `round_core`: `search_plain(alloc, &ClosureGraph::new(&Numbering::new(alloc, &trie, &windows, &words)?))`.
//!
//! To number a state takes no look-up. A number is decoded by an index of blocks, a short scan and one look-up a stroke
//! of the shorter list. A node takes at most 12 bytes.
#![tactic(auto)]

ghost use Rattle.std.specs.Prelude.{◌≡◌};
ghost use Rattle.graph_rules.specs.Graphs.{most_numbers};
ghost use Rattle.state_numbering.specs.Causes.{most_states};
ghost use Rattle.state_numbering.specs.declared.count.TheConstants.{MAX_STATES};

mod blocks;
mod count;
mod fault;
mod graph;
mod numbering;
mod offset;
mod part;
mod parts;
#[cfg(test)]
mod tests;

pub use count::MAX_STATES;
pub use fault::NumberFault;
pub use graph::ClosureGraph;
pub use numbering::Numbering;

/// The limit on numbers of states, which is that of a graph that is searched.
pub fn limits()
    ensures { (MAX_STATES ≡ most_states) × (most_states ≡ most_numbers) }
{}
