//! What the workers of the round machine hold.
ghost use Rattle.std.specs.Prelude.{◌≡◌, ◌<◌, [], ◌∷◌, length, true, None, replicate, drop, take, slice_get, MatchOption, IfOk};
ghost use Rattle.round_core.specs.Hands.{hand_moves, hand_view, moves_held, AreBelow, NextMove, OwnsHand};
ghost use Rattle.round_core.specs.Machines.{all_free, is_busy, is_free, moves_in, Move};

use crate::step_graph::StepGraph;
use std::alloc::{AllocError, Global};

/// A batch in hand: the number whose targets are left in the cursor, where the next one stands in the frontier, and how
/// many more the batch has.
#[derive(Drop)]
pub(crate) struct Hand<C: Drop> {
    pub(crate) state: u32,
    pub(crate) at: usize,
    pub(crate) more: u32,
    pub(crate) cursor: C,
}

/// A batch of so many numbers from this place of the frontier on, before its first move.
pub(crate) fn hand_at<G: StepGraph>(
    graph: &G,
    front: &[u32],
    at: usize,
    size: u32,
) -> Hand<G::Cursor>
    requires place { at < length front.now }
    requires size { 0 < size }
    requires front { AreBelow (length (G.lists graph.now)) front.now }
    ensures owned { G.owns graph.now result.cursor }
    ensures moves { let left = G.left graph.now in
        let lists = G.lists graph.now in
        hand_moves left lists front.now result ≡ moves_in lists (take size (drop at front.now)) }
{
    let state = front[at];
    Hand {
        state,
        at: at + 1,
        more: size - 1,
        cursor: graph.first(state),
    }
}

/// The target of the next move of the batch. Its source is the number in the hand afterwards.
fn advance<G: StepGraph>(graph: &G, front: &[u32], hand: &mut Hand<G::Cursor>) -> Option<u32>
    requires owned { G.owns graph.now hand.old.cursor }
    requires front { AreBelow (length (G.lists graph.now)) front.now }
    ensures owned { G.owns graph.now hand.new.cursor }
    ensures next { let moves = hand_moves (G.left graph.now) (G.lists graph.now) front.now in
        MatchOption result (moves hand.old ≡ [])
        (λ t. moves hand.old ≡ record { source = hand.new.state; target = t } ∷ moves hand.new) }
{
    let mut next = graph.next(&mut hand.cursor);
    while next.is_none() && hand.more > 0 && hand.at < front.len() {
        let state = front[hand.at];
        hand.state = state;
        hand.at += 1;
        hand.more -= 1;
        hand.cursor = graph.first(state);
        next = graph.next(&mut hand.cursor);
    }
    next
}

/// The next move of the batch that is held, its source and its target. Where none is left the batch is let go.
pub(crate) fn next_move<G: StepGraph>(
    graph: &G,
    front: &[u32],
    held: &mut Option<Hand<G::Cursor>>,
) -> Option<(u32, u32)>
    requires owned { OwnsHand (G.owns graph.now) held.old }
    requires front { AreBelow (length (G.lists graph.now)) front.now }
    ensures owned { OwnsHand (G.owns graph.now) held.new }
    ensures next { let view = hand_view (G.left graph.now) (G.lists graph.now) front.now in
        MatchOption result ((moves_held (view held.old) ≡ []) × (held.new ≡ None))
        (λ move. NextMove (view held.old) (view held.new) move.0 move.1) }
{
    let Some(mut hand) = held.take() else {
        return None;
    };
    let Some(target) = advance(graph, front, &mut hand) else {
        return None;
    };
    let source = hand.state;
    *held = Some(hand);
    Some((source, target))
}

/// Hands that hold nothing.
pub(crate) fn free_hands<C: Drop>(
    alloc: Global,
    count: usize,
) -> Result<Vec<Option<Hand<C>>>, AllocError>
    ensures { IfOk result (λ hands. hands.items ≡ replicate count None) }
{
    let mut hands = Vec::with_capacity(alloc, count)?;
    for worker in 0..count {
        hands.push(None)?;
    }
    Ok(hands)
}

/// Whether there is such a worker, and it holds nothing.
pub(crate) fn is_free_hand<C: Drop>(hands: &[Option<Hand<C>>], worker: usize) -> bool
    ensures { result ≡ is_free (slice_get hands.now worker) }
{
    worker < hands.len() && hands[worker].is_none()
}

/// Whether there is such a worker, and it holds a batch.
pub(crate) fn is_busy_hand<C: Drop>(hands: &[Option<Hand<C>>], worker: usize) -> bool
    ensures { result ≡ is_busy (slice_get hands.now worker) }
{
    worker < hands.len() && hands[worker].is_some()
}

/// Whether no worker holds anything.
pub(crate) fn are_free_hands<C: Drop>(hands: &[Option<Hand<C>>]) -> bool
    ensures { result ≡ all_free hands.now }
{
    for hand in hands {
        if hand.is_some() {
            return false;
        }
    }
    true
}
