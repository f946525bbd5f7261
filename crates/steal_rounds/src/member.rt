//! What one worker has in a round.

use dist_table::Pass;
use steal_batches::{BatchDeque, BatchThief};

/// All that one worker has in a round: a pass of the table, a deque of batches, a thief of each other worker's deque,
/// the numbers that it noted, and how many moves it made. `short` says that memory was refused to it.
#[derive(Drop)]
pub struct CrewMember {
    pub worker: u32,
    pub pass: Pass,
    pub deque: BatchDeque,
    pub thieves: Vec<BatchThief>,
    pub notes: Vec<u32>,
    pub moves: u64,
    pub short: bool,
}
