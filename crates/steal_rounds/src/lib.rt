//! The search by rounds, worked by threads that steal batches from one another.
//!
//! A round makes all moves of the numbers at one distance, its frontier. They are worked by rising rank, and those of
//! one rank by rising number: a graph gives one rank to numbers whose targets lie close together in memory, so that
//! what one of them loads serves the next. In this order the frontier is cut into batches of 64 numbers, which are
//! offered in turn to the workers' deques. Each worker works its own batches and then those of the others, and notes
//! the numbers that it reaches; sorted, and each once, they are the next frontier. All settled words lie in a
//! `dist_table`, so it makes no difference who makes a move when: [`search`] gives the same [`round_core::Settled`] as
//! `search_plain`, for every number of workers, every schedule and all ranks.
//!
//! - [`search`] makes the table, searches, and gives the settled words: `search(&rt, alloc, &graph, 4,
//!   &NoGate)?.words()`.
//! - [`search_on`] searches on the caller's table with the caller's pass, whose history has every move afterwards.
//! - A [`Gate`] is called before each batch is worked. [`NoGate`] returns at once.
//!
//! Two halves of the workers are always forked in two, so many workers are an induction over forks of two. One worker,
//! and a round of one batch, is worked by the calling thread with the calling pass alone: no deque, thief, pass or
//! thread is made.
#![tactic(auto)]

ghost use Rattle.std.specs.Prelude.{◌≡◌};
ghost use Rattle.steal_rounds.specs.declared.searches.TheConstants.{MAX_WORKERS};

mod alone;
mod gate;
mod gather;
mod give_back;
mod make;
mod member;
mod order;
mod round;
#[cfg(test)]
mod samples;
mod searches;
mod spread;
#[cfg(test)]
mod tests;
mod turn;
mod work;

pub use gate::{Gate, NoGate};
pub use searches::{MAX_WORKERS, Searched, search, search_on};

/// The limit on the workers of a search.
pub fn limits()
    ensures { MAX_WORKERS ≡ 32 }
{}
