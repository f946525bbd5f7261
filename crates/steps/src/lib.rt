//! A counter of steps, by which a contract bounds how much work a call does.
//!
//! A call that promises a bound takes `steps: &mut Steps<L>` as its last argument and ticks at each step. The counter
//! takes no bytes and ticking does nothing when the program runs: what it counts is a number of the contracts alone.
#![tactic(auto)]

mod steps;
#[cfg(test)]
mod tests;

pub use steps::Steps;
