//! The round machine. It is driven by events from outside, so that each order in which workers could search is one of
//! its schedules.
ghost use Rattle.std.specs.Prelude.{◌≡◌, ◌≤◌, ◌<◌, length, slice_index, true, IfOk};
ghost use Rattle.graph_rules.specs.Graphs.{Stands};
ghost use Rattle.round_core.specs.Machines.{is_enabled, opening};
ghost use Rattle.round_core.specs.Hands.{stepped};

use crate::event::Event;
use crate::hand::{
    Hand, are_free_hands, free_hands, hand_at, is_busy_hand, is_free_hand, next_move,
};
use crate::round::{are_taken, is_untaken, lower, refill, rise};
use crate::step_graph::StepGraph;
use crate::word::word_after;
use std::alloc::{AllocError, Global};
use std::marker::Model;
use std::mem;

/// The round machine over a graph, which it borrows.
///
/// All its memory is taken when it is made: for each number its settled word, a place in the frontier, one among the
/// noted and a flag of a batch, and for each worker a hand.
#[derive(Drop)]
pub struct RoundState<'a, G: StepGraph> {
    graph: &'a G,
    words: Vec<u64>,
    front: Vec<u32>,
    closed: u32,
    begun: bool,
    noted: Vec<u32>,
    size: u32,
    untaken: Vec<bool>,
    hands: Vec<Option<Hand<G::Cursor>>>,
}

impl<'a, G: StepGraph> Model for RoundState<'a, G> {
    ghost use Rattle.std.specs.Prelude.{◌≡◌, ◌≤◌, ℕ, length, map, slice_get, Option, Some};
    ghost use Rattle.std.specs.Vec.{vec_capacity};
    ghost use Rattle.round_core.specs.Machines.{IsGraph};
    ghost use Rattle.round_core.specs.Hands.{machine_of, IsReached, RoundView, Owned};

    ghost Value = { RoundView };

    ghost view = { λ s. record {
      origin = G.origin s.graph.now;
      lists = G.lists s.graph.now;
      now = machine_of (G.left s.graph.now) (G.lists s.graph.now)
          s.words.items s.front.items s.closed s.begun s.noted.items s.size s.untaken.items s.hands.items;
    } };

    ghost invariant = { λ s. record {
      graph : IsGraph (G.origin s.graph.now) (G.lists s.graph.now);
      reached : IsReached (G.origin s.graph.now) (G.lists s.graph.now)
          (machine_of (G.left s.graph.now) (G.lists s.graph.now)
          s.words.items s.front.items s.closed s.begun s.noted.items s.size s.untaken.items s.hands.items);
      owned : Owned (G.owns s.graph.now) s.hands.items;
      front : length (G.lists s.graph.now) ≤ vec_capacity s.front;
      noted : length (G.lists s.graph.now) ≤ vec_capacity s.noted;
      untaken : length (G.lists s.graph.now) ≤ vec_capacity s.untaken;
    } };
}

impl<'a, G: StepGraph> RoundState<'a, G> {
    ghost use Rattle.round_core.specs.declared.event.Event.TheVariants.{Begin, Take, Relax, Close};

    /// The machine as it opens, for 1 to 32 workers: the frontier is the start, and no round is begun. `AllocError`
    /// where the memory for its numbers was refused.
    pub fn new(alloc: Global, graph: &'a G, workers: u32) -> Result<RoundState<'a, G>, AllocError>
        requires { (1 ≤ workers) × (workers ≤ 32) }
        ensures { IfOk result (λ s. s ≡ record {
          origin = G.origin graph.now;
          lists = G.lists graph.now;
          now = opening (G.origin graph.now) (G.lists graph.now) workers;
        }) }
    {
        let count = graph.count() as usize;
        let start = graph.start();
        let mut words = Vec::from_elem(alloc, u64::MAX, count)?;
        words[start as usize] = 0;
        let mut front = Vec::with_capacity(alloc, count)?;
        front.push(start)?;
        let noted = Vec::with_capacity(alloc, count)?;
        let untaken = Vec::with_capacity(alloc, count)?;
        let hands = free_hands(alloc, workers as usize)?;
        Ok(RoundState {
            graph,
            words,
            front,
            closed: 0,
            begun: false,
            noted,
            size: 0,
            untaken,
            hands,
        })
    }

    /// The settled word of a number below the count. At each moment it stands for a walk that was found.
    pub fn word(&self, state: u32) -> u64
        requires { state < length self.now.lists }
        ensures word { result ≡ slice_index self.now.now.words state }
        ensures stands { Stands self.now.origin self.now.lists state result }
    {
        self.words[state as usize]
    }

    /// The numbers at the distance of the rounds that were closed, in rising order.
    pub fn frontier(&self) -> &[u32]
        ensures { result.now ≡ self.now.now.front }
    {
        self.front.as_slice()
    }

    /// Does an event where it is enabled. False exactly where it isn't, and then nothing changes. It takes no memory.
    ///
    /// `Begin` and `Close` cost time for each number of the frontier, `Take` is constant, and all `Relax` of a round
    /// together cost time for each number and each target of its frontier.
    pub fn step(&mut self, event: Event) -> bool
        ensures enabled { result ≡ is_enabled self.old.now event }
        ensures done { self.new ≡ stepped self.old event }
    {
        if !self.is_enabled(event) {
            return false;
        }
        match event {
            Event::Begin { size } => self.begin(size),
            Event::Take { worker, batch } => self.take(worker as usize, batch as usize),
            Event::Relax { worker } => self.relax(worker as usize),
            Event::Close => self.close(),
        }
        true
    }

    /// Whether the event may happen now.
    fn is_enabled(&self, event: Event) -> bool
        ensures { result ≡ is_enabled self.now.now event }
    {
        match event {
            Event::Begin { size } => !self.begun && !self.front.is_empty() && size > 0,
            Event::Take { worker, batch } => {
                is_free_hand(self.hands.as_slice(), worker as usize)
                    && is_untaken(self.untaken.as_slice(), batch as usize)
            }
            Event::Relax { worker } => is_busy_hand(self.hands.as_slice(), worker as usize),
            Event::Close => {
                self.begun
                    && are_taken(self.untaken.as_slice())
                    && are_free_hands(self.hands.as_slice())
            }
        }
    }

    /// Cuts the frontier into batches of this size, none of which is taken.
    fn begin(&mut self, size: u32)
        requires { is_enabled self.old.now (Begin size) ≡ true }
        ensures { self.new ≡ stepped self.old (Begin size) }
    {
        let batches = (self.front.len() + (size as usize - 1)) / size as usize;
        refill(&mut self.untaken, batches);
        self.begun = true;
        self.size = size;
    }

    /// Puts a batch into a worker's hand.
    fn take(&mut self, worker: usize, batch: usize)
        requires { is_enabled self.old.now (Take worker batch) ≡ true }
        ensures { self.new ≡ stepped self.old (Take worker batch) }
    {
        let at = batch * self.size as usize;
        let hand = hand_at(self.graph, self.front.as_slice(), at, self.size);
        self.untaken[batch] = false;
        self.hands[worker] = Some(hand);
    }

    /// Makes the next move of the batch in a worker's hand.
    fn relax(&mut self, worker: usize)
        requires { is_enabled self.old.now (Relax worker) ≡ true }
        ensures { self.new ≡ stepped self.old (Relax worker) }
    {
        let found = next_move(self.graph, self.front.as_slice(), &mut self.hands[worker]);
        if let Some((source, target)) = found {
            let word = word_after(self.closed, source);
            lower(&mut self.words, &mut self.noted, target, word);
        }
    }

    /// Ends the round: what was noted, in rising order, is the next frontier.
    fn close(&mut self)
        requires { is_enabled self.old.now Close ≡ true }
        ensures { self.new ≡ stepped self.old Close }
    {
        mem::swap(&mut self.front, &mut self.noted);
        self.noted.clear();
        rise(&mut self.front);
        self.begun = false;
        self.closed += 1;
    }
}
