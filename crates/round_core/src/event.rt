//! What may happen in the round machine.

/// An event of the round machine.
#[derive(Clone, Copy)]
pub enum Event {
    /// A round is begun, and the frontier is cut into batches of `size` numbers, of which the last may be shorter.
    Begin { size: u32 },
    /// The worker, whose hand is empty, takes the batch, which nobody took.
    Take { worker: u32, batch: u32 },
    /// The worker makes the next move of the batch in its hand, or lets the batch go where no move is left.
    Relax { worker: u32 },
    /// The round, of which all batches are done, is closed. What was noted in it is the next frontier.
    Close,
}
