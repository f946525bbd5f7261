//! A table of distances that threads lower beside each other. Each of its settled words stands for the shortest walk
//! found so far.
//!
//! In a search with several workers all of them find walks to the same numbers. Here each number has one atomic settled
//! word, `distance * 2^32 + source`, and a walk that was found is put by one fetch-min. No lock is taken, nobody waits,
//! and the order in which workers come makes no difference to the settled words that are left.
//!
//! A thread calls the table with a [`Pass`], of which contracts know the history that it has seen: a list of [`Call`]s.
//! There is one history of all calls of all passes. It is legal: each call replied what one thread alone would have
//! been told. What a pass has seen is a beginning of it, and each call of a pass stands in it once, in the order in
//! which the pass made them. [`DistTable::split`] makes a pass for another thread, [`DistTable::join`] takes it in
//! again with all that it has seen, and [`DistTable::close`] gives the settled words that the one history leaves. So
//! whoever knows which calls were made knows the settled words, whatever the schedule was.
//!
//! The table takes 8 bytes a number, and as many again for a moment when it is made and when it is closed. A pass takes
//! no memory of its own.
#![tactic(auto)]

mod call;
mod knowledge;
mod pass;
mod rule;
mod table;
#[cfg(test)]
mod tests;

pub use call::Call;
pub use knowledge::Knowledge;
pub use pass::Pass;
pub use table::{DISTANCES, DistTable};
