//! Batches of work in deques from which idle workers steal, so that each batch is worked by one of them.
//!
//! In a round of a search the work is cut into batches, each worker has a deque of its own, and whoever has emptied its
//! own steals from the others (Blumofe and Leiserson, Scheduling multithreaded computations by work stealing, 1999).
//! The deque itself is `crossbeam_deque`'s. This crate adds the count: contracts see which batches were offered and
//! which were taken, and once all thieves have come back each batch was taken as often as it was offered.
//!
//! One worker owns a [`BatchDeque`], offers batches and takes them. Each other worker has a [`BatchThief`] of it, made
//! by the owner and given back to it at the end. All memory is taken when the deque and its thieves are made. Only
//! [`BatchThief::steal`] may wait: an attempt that lost against another thread is made again.
#![tactic(auto)]

mod deque;
mod hand;
mod rule;
#[cfg(test)]
mod tests;
mod thief;

pub use deque::{BatchDeque, MOST_ROOM, Receipt};
pub use hand::Hand;
pub use thief::BatchThief;
