//! What one worker does in a round.

ghost use Rattle.std.specs.Prelude.{◌≡◌, ℕ, ◌+◌, ◌≤◌, ◌⊎◌, length, false, IfSome, IfNone, IsSome};
ghost use Rattle.steal_batches.specs.Deques.{AreAllTaken};
ghost use Rattle.steal_rounds.specs.MadeMoves.{HasGraph};
ghost use Rattle.steal_rounds.specs.inside.Moves.{batch_states_of, IsLegalPass};
ghost use Rattle.steal_rounds.specs.inside.Crews.{stolen_by, taken_by, IsRound, SameTools, SameThieves, Stole, Took, Turned, Works};

use crate::gate::Gate;
use crate::member::CrewMember;
use crate::spread::spread_all;
use crate::turn::Turn;
use dist_table::DistTable;
use round_core::StepGraph;
use std::alloc::Global;
use std::sync::Wait;
use steal_batches::{BatchThief, Receipt};

/// What all workers of a round share.
#[derive(Drop)]
pub(crate) struct Round<'a, 't, G: StepGraph, K: Gate> {
    pub(crate) alloc: Global,
    pub(crate) graph: &'a G,
    pub(crate) table: &'a DistTable<'t, G>,
    pub(crate) gate: &'a K,
    pub(crate) frontier: &'a [u32],
    pub(crate) distance: u32,
}

impl<'a, 't, G: StepGraph, K: Gate> Turn<CrewMember> for Round<'a, 't, G, K> {
    ghost use Rattle.std.specs.Prelude.{◌≡◌};
    ghost use Rattle.steal_rounds.specs.inside.Crews.{IsRound, Turned};

    ghost may_turn = { λ r m.
        HasGraph r.table.now (G.origin r.graph.now) (G.lists r.graph.now)
        × IsRound r.table.now r.distance r.frontier.now
        × IsLegalPass r.table.now m.pass };

    ghost turns = { λ r m n. Turned r.table.now r.distance r.frontier.now m n };

    fn turn<R: Wait>(&self, rt: &R, member: &mut CrewMember) {
        work(
            rt,
            self.alloc,
            self.graph,
            self.table,
            self.gate,
            self.frontier,
            self.distance,
            member,
        );
        member.notes.sort_unstable();
    }
}

/// Works batches until there is none to take.
pub(crate) fn work<R: Wait, G: StepGraph, K: Gate>(
    rt: &R,
    alloc: Global,
    graph: &G,
    table: &DistTable<G>,
    gate: &K,
    frontier: &[u32],
    distance: u32,
    member: &mut CrewMember,
)
    requires graph { HasGraph table.now (G.origin graph.now) (G.lists graph.now) }
    requires round { IsRound table.now distance frontier.now }
    requires pass { IsLegalPass table.now member.old.pass }
    ensures { Turned table.now distance frontier.now member.old member.new }
{
    let mut targets = Vec::new(alloc);
    for _ in rt.forever() {
        if !work_one(
            rt,
            graph,
            table,
            gate,
            frontier,
            distance,
            &mut targets,
            member,
        ) {
            return;
        }
    }
    unreachable!()
}

/// Takes a batch and works it. False where there was none to take, or no memory.
fn work_one<R: Wait, G: StepGraph, K: Gate>(
    rt: &R,
    graph: &G,
    table: &DistTable<G>,
    gate: &K,
    frontier: &[u32],
    distance: u32,
    targets: &mut Vec<u32>,
    member: &mut CrewMember,
) -> bool
    requires graph { HasGraph table.now (G.origin graph.now) (G.lists graph.now) }
    requires round { IsRound table.now distance frontier.now }
    requires pass { IsLegalPass table.now member.old.pass }
    ensures works { Works table.now distance frontier.now member.old member.new }
    ensures emptied { result ≡ false → member.new.short ≡ false → member.old.deque.thieves ≡ 0
        → AreAllTaken member.new.deque }
{
    let Some(receipt) = next_batch(rt, member) else {
        return false;
    };
    gate.before(rt, distance, receipt.worker, receipt.batch);
    let states = batch_states(frontier, receipt.batch);
    match spread_all(
        graph,
        table,
        distance,
        states,
        &mut member.pass,
        targets,
        &mut member.notes,
    ) {
        Ok(moves) => match member.moves.checked_add(moves) {
            Some(sum) => {
                member.moves = sum;
                return true;
            }
            None => {
                member.short = true;
                return false;
            }
        },
        Err(_) => {
            member.short = true;
            return false;
        }
    }
}

/// The states of a batch.
fn batch_states(frontier: &[u32], batch: u32) -> &[u32]
    ensures states { result.now ≡ batch_states_of frontier.entry.now batch }
    ensures few { length result.now ≤ 64 }
{
    let from = 64 * batch as usize;
    if from >= frontier.len() {
        return &[];
    }
    if frontier.len() - from <= 64 {
        return &frontier[from..];
    }
    &frontier[from..from + 64]
}

/// The next batch of the worker's own, or else of another's.
fn next_batch<R: Wait>(rt: &R, member: &mut CrewMember) -> Option<Receipt>
    ensures took { (b : ℕ) → Took member.new b
        → (IfSome result (λ r. r.batch ≡ b) × IsSome result) ⊎ Took member.old b }
    ensures some { IfSome result (λ r. (f : ℕ → ℕ) →
        taken_by f member.new ≡ taken_by f member.old + f r.batch) }
    ensures none { IfNone result ((f : ℕ → ℕ) → taken_by f member.new ≡ taken_by f member.old) }
    ensures emptied { IfNone result (member.old.deque.thieves ≡ 0 → AreAllTaken member.new.deque) }
    ensures same { SameTools member.old member.new }
{
    if let Some(receipt) = member.deque.take() {
        return Some(receipt);
    }
    steal_any(rt, &mut member.thieves)
}

/// The first batch that a thief finds.
fn steal_any<R: Wait>(rt: &R, thieves: &mut Vec<BatchThief>) -> Option<Receipt>
    ensures took { (b : ℕ) → Stole thieves.new.items b
        → (IfSome result (λ r. r.batch ≡ b) × IsSome result) ⊎ Stole thieves.old.items b }
    ensures some { IfSome result (λ r. (f : ℕ → ℕ) →
        stolen_by f thieves.new.items ≡ stolen_by f thieves.old.items + f r.batch) }
    ensures none { IfNone result ((f : ℕ → ℕ) →
        stolen_by f thieves.new.items ≡ stolen_by f thieves.old.items) }
    ensures same { SameThieves thieves.old.items thieves.new.items }
{
    for i in 0..thieves.len() {
        if let Some(receipt) = thieves[i].steal(rt) {
            return Some(receipt);
        }
    }
    None
}
