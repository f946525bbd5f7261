//! Searches a graph of numbers by rounds, and says what the search has found as one settled word a number.
//!
//! A graph is a start and, for each number, a list of targets ([`StepGraph`]). The settled word of a number says how
//! far it is from the start and by which number it is reached: 0 for the start, `distance * 2^32 + source` for another
//! reached number, where the source is the least number that is one move nearer, and `u64::MAX` for a number that isn't
//! reached. So the settled words alone lead from each reached number back to the start along a shortest walk, and they
//! are the same whoever searches, in whatever order.
//!
//! - [`search_plain`] finds them on one thread, in time linear in numbers and moves:
//!   `search_plain(alloc, &graph)?.words()[state]`.
//! - [`RoundState`] is the machine of which each search by rounds is a schedule: workers take batches of the frontier
//!   and make one move at a time, in any order. [`round_law`] says that each finished schedule finds the settled words.
//!
//! Both take all their memory at the beginning: 12 bytes a number for the search, 17 for the machine.
#![tactic(auto)]

ghost use Rattle.std.specs.Prelude.{◌≡◌, ℕ, ◌<◌, List, [], length, false, slice_index};
ghost use Rattle.graph_rules.specs.Graphs.{AreSettled, Stands, most_numbers};
ghost use Rattle.round_core.specs.declared.step_graph.TheConstants.{MAX_NUMBERS};
ghost use Rattle.round_core.specs.declared.event.Event.{Event};
ghost use Rattle.round_core.specs.Machines.{IsGraph, IsBetweenRounds, opening, run};
ghost use Rattle.round_core.specs.Searches.{IsSearched, SettledView};

mod event;
mod hand;
mod machine;
mod round;
mod search;
mod settled;
mod step_graph;
#[cfg(test)]
mod tests;
mod word;

pub use event::Event;
pub use machine::RoundState;
pub use search::search_plain;
pub use settled::Settled;
pub use step_graph::{MAX_NUMBERS, StepGraph};
pub use word::word_after;

/// What a search gives is one value: the graph alone decides it.
pub fn one_search()
    ensures { (origin : ℕ) (lists : List (List ℕ)) (v w : SettledView) →
        IsSearched origin lists v → IsSearched origin lists w → v ≡ w }
{}

/// Whatever the graph, the number of workers and the schedule: between rounds exactly the numbers at most as far as the
/// rounds that were closed are settled, and the frontier has those at that distance. So where nothing is left in the
/// frontier all words are settled. At each moment each settled word stands.
pub fn round_law()
    ensures between { (origin : ℕ) (lists : List (List ℕ)) (workers : ℕ) (events : List Event) →
        IsGraph origin lists → (run lists (opening origin lists workers) events).begun ≡ false →
        IsBetweenRounds origin lists (run lists (opening origin lists workers) events) }
    ensures settled { (origin : ℕ) (lists : List (List ℕ)) (workers : ℕ) (events : List Event) →
        IsGraph origin lists → (run lists (opening origin lists workers) events).begun ≡ false →
        (run lists (opening origin lists workers) events).front ≡ [] →
        AreSettled origin lists (run lists (opening origin lists workers) events).words }
    ensures stand { (origin : ℕ) (lists : List (List ℕ)) (workers : ℕ) (events : List Event)
        (s : ℕ) → IsGraph origin lists → s < length lists → Stands origin lists s
        (slice_index (run lists (opening origin lists workers) events).words s) }
{}

/// The limit on the numbers of a graph.
pub fn limits()
    ensures { (MAX_NUMBERS ≡ most_numbers) × (most_numbers ≡ 33554432) }
{}
