//! What a thread knows of a deque between its steps.
use std::collections::LinkedList;

/// What a thread knows of a deque. Proofs alone speak of it; the program makes no value of this type.
///
/// `owns` says whether it is the deque's worker, `live` is 1 for a thief that is out, else 0, and `number` is the
/// thief's. The owner has `made` so many thieves, of which `thieves` are out. `offered` and `taken` are the batches
/// that it offered and took.
pub struct Hand {
    pub owns: bool,
    pub live: u64,
    pub number: u64,
    pub made: u64,
    pub thieves: u64,
    pub offered: LinkedList<u32>,
    pub taken: LinkedList<u32>,
}
