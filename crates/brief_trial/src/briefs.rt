//! Some briefs, tried beside each other.

ghost use Rattle.std.specs.Prelude.{◌≡◌, ◌≤◌, ◌<◌, ◌+◌, ◌++◌, ◌∷◌, [], All, ℕ, List, IfErr, IfOk, None, OnOk, length, slice_index_or};
ghost use Rattle.std.specs.List.{AllZip};
ghost use Rattle.conflict_example.specs.Chosen.{words_in_stack};
ghost use Rattle.brief_trial.specs.Limits.{IsTrialCause, trial_limit};
ghost use Rattle.brief_trial.specs.Trials.{AreTrials, IsSmallTrial};
ghost use Rattle.brief_trial.specs.inside.Adding.{AddsTrials, IsTried};
ghost use Rattle.brief_trial.specs.declared.briefs.TheConstants.{MAX_BRIEFS, MAX_TRIERS};

use crate::faults::TrialFault;
use crate::one::try_one;
use crate::trial::Trial;
use dict_stack::Stack;
use std::alloc::{AllocError, Global};
use std::marker::Sync;
use std::sync::Wait;
use std::thread;
use std::thread::Threads;
use steal_rounds::Gate;
use stroke::Outline;

/// The most briefs that are tried in one call.
pub const MAX_BRIEFS: usize = 32;

/// The most workers that try briefs beside each other.
pub const MAX_TRIERS: u32 = 4;

/// The trial of a brief, after its gate.
fn try_at_gate<R: Wait, K: Gate>(
    rt: &R,
    alloc: Global,
    stack: &Stack,
    brief: &Outline,
    worker: u32,
    number: u32,
    gate: &K,
) -> Result<Trial, TrialFault>
    requires { 0 < length brief.now }
    ensures { IsTried stack.now.outlines (words_in_stack stack.now) brief.now result }
{
    gate.before(rt, 0, worker, number);
    try_one(alloc, stack, brief)
}

/// Adds a trial.
fn push(trial: Trial, trials: &mut Vec<Trial>) -> Result<(), AllocError>
    ensures { OnOk result (trials.new.items ≡ trials.old.items ++ trial ∷ []) }
{
    trials.push(trial)?;
    Ok(())
}

/// Adds the trials of a group, up to the first fault among its outcomes.
fn push_tried(
    tried: Vec<Result<Trial, TrialFault>>,
    trials: &mut Vec<Trial>,
) -> Result<(), TrialFault>
    ensures adds { (entries words group : List (List ℕ)) →
        AllZip (IsTried entries words) group tried.items →
        OnOk result (AddsTrials entries words group trials.old.items trials.new.items) }
    ensures cause { (entries words group : List (List ℕ)) →
        AllZip (IsTried entries words) group tried.items →
        IfErr result (IsTrialCause entries group) }
{
    for trial in tried {
        push(trial?, trials)?;
    }
    Ok(())
}

/// Tries a group of briefs beside each other, each by a worker of its own, and adds the trials.
fn try_group<R: Threads + Wait + Sync, K: Gate + Sync>(
    rt: &R,
    alloc: Global,
    stack: &Stack,
    group: &[Outline],
    gate: &K,
    trials: &mut Vec<Trial>,
) -> Result<(), TrialFault>
    requires some { All (λ brief. 0 < length brief) group.now }
    requires few { length trials.old.items + length group.now ≤ MAX_BRIEFS }
    ensures adds { OnOk result (AddsTrials stack.now.outlines (words_in_stack stack.now) group.now
        trials.old.items trials.new.items) }
    ensures cause { IfErr result (IsTrialCause stack.now.outlines group.now) }
{
    let first = trials.len();
    let work = |worker: usize| -> Result<Trial, TrialFault>
        requires { (worker < length group.now) × (first + length group.now ≤ MAX_BRIEFS)
            × All (λ brief. 0 < length brief) group.now }
        ensures { (d : List ℕ) → IsTried stack.entry.now.outlines
            (words_in_stack stack.entry.now) (slice_index_or group.entry.now worker d) result }
    {
        let number = (first + worker) as u32;
        try_at_gate(
            rt,
            alloc,
            stack,
            &group[worker],
            worker as u32,
            number,
            gate,
        )
    };
    let tried = thread::map_indices(rt, alloc, group.len(), &work)?;
    push_tried(tried, trials)
}

/// The trial of each brief, in the order given: the conflicts that it would have as an entry and a word of the stack.
///
/// So many briefs as there are workers are tried at once, so brief i is tried by worker i modulo workers. Each has a
/// trie, a search and, where it is no entry yet, copies of all outlines of its own. The gate is called before a brief
/// is tried, with round 0, its worker and its number. What is found depends neither on the number of workers nor on the
/// gate.
///
/// A fault is that of the first brief that has one; those of later groups are not tried then.
pub fn try_briefs<R: Threads + Wait + Sync, K: Gate + Sync>(
    rt: &R,
    alloc: Global,
    stack: &Stack,
    briefs: &[Outline],
    workers: u32,
    gate: &K,
) -> Result<Vec<Trial>, TrialFault>
    requires some { 1 ≤ length briefs.now }
    requires few { length briefs.now ≤ MAX_BRIEFS }
    requires not_empty { All (λ brief. 0 < length brief) briefs.now }
    requires workers { 1 ≤ workers }
    requires few_workers { workers ≤ MAX_TRIERS }
    ensures trials { IfOk result (λ trials.
        AreTrials stack.now.outlines (words_in_stack stack.now) briefs.now trials.items) }
    ensures small { IfOk result (λ trials. All (IsSmallTrial stack.now.outlines) trials.items) }
    ensures within { IfOk result (λ _. trial_limit stack.now.outlines briefs.now ≡ None) }
    ensures cause { IfErr result (IsTrialCause stack.now.outlines briefs.now) }
{
    let mut trials = Vec::with_capacity(alloc, briefs.len())?;
    let mut rest = briefs;
    while rest.len() > 0 {
        let (group, others) = rest.split_at(rest.len().min(workers as usize));
        try_group(rt, alloc, stack, group, gate, &mut trials)?;
        rest = others;
    }
    Ok(trials)
}
