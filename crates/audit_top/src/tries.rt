//! `try`: whether new outlines would swallow a boundary, before they enter a dictionary.

ghost use Rattle.std.specs.Prelude.{◌≡◌, ◌≤◌, ◌<◌, ◌^◌, All, Some, length, map, string_bytes, true};
ghost use Rattle.steno_rules.specs.Outlines.{IsOutline};
ghost use Rattle.brief_trial.specs.Trials.{AreTrials, IsSmallTrial};
ghost use Rattle.brief_trial.specs.declared.briefs.TheConstants.{MAX_BRIEFS, MAX_TRIERS};
ghost use Rattle.conflict_example.specs.Chosen.{words_in_stack};
ghost use Rattle.commands.specs.Commands.{are_briefs, brief_outlines, try_briefs as try_of};
ghost use Rattle.audit_top.specs.inside.Answers.{Answers, IsAnswer};
ghost use Rattle.audit_top.specs.Outcomes.{UnlessRefused, search_limit};
ghost use Rattle.audit_top.specs.Runs.{output, world};
ghost use Rattle.audit_top.specs.Tried.{IsTry, TriesBriefs, trials_status};

use crate::refusals::Refusal;
use crate::status::Status;
use brief_trial::{Trial, try_briefs, write_trials};
use closure_state::WordSet;
use commands::read_briefs;
use dict_files::read_stack;
use dict_stack::Stack;
use match_window::Windows;
use outline_trie::Trie;
use outside::{Files, Sink};
use state_numbering::Numbering;
use std::alloc::Global;
use std::marker::{Send, Sync};
use std::sync::Wait;
use std::thread::Threads;
use steal_rounds::Gate;
use stroke::Outline;

/// The status where the briefs have these conflicts.
fn status_of(trials: &[Trial]) -> Status
    ensures { result ≡ trials_status trials.now }
{
    for trial in trials {
        if !trial.conflicts().is_empty() {
            return Status::Conflicts;
        }
    }
    Status::Clean
}

/// Ends a command whose briefs were tried.
fn print_trials<S: Sink>(
    alloc: Global,
    stack: &Stack,
    briefs: &[Outline],
    trials: &[Trial],
    out: &mut S,
) -> Result<Status, Refusal>
    requires tried { AreTrials
        stack.now.outlines (words_in_stack stack.now) briefs.now trials.now }
    requires small { All (IsSmallTrial stack.now.outlines) trials.now }
    ensures { let before = output (S.text out.old) (S.faults out.old) in
        let after = output (S.text out.new) (S.faults out.new) in
        Answers (TriesBriefs briefs.now stack.now) before after result }
{
    write_trials(alloc, out, stack, trials)?;
    Ok(status_of(trials))
}

/// The command whose stack is within the limits of searching.
fn try_within<R: Threads + Wait + Sync, S: Sink, K: Gate + Sync>(
    rt: &R,
    alloc: Global,
    workers: u32,
    stack: &Stack,
    briefs: &[Outline],
    out: &mut S,
    gate: &K,
) -> Result<Status, Refusal>
    requires some { 1 ≤ workers }
    requires few { workers ≤ MAX_TRIERS }
    requires some_briefs { 1 ≤ length briefs.now }
    requires few_briefs { length briefs.now ≤ MAX_BRIEFS }
    requires briefs { All IsOutline briefs.now }
    ensures { let before = output (S.text out.old) (S.faults out.old) in
        let after = output (S.text out.new) (S.faults out.new) in
        Answers (IsTry briefs.now stack.now) before after result }
{
    let trials = try_briefs(rt, alloc, stack, briefs, workers, gate)?;
    print_trials(alloc, stack, briefs, &trials, out)
}

/// The command whose dictionaries were read. The stack's states are numbered for their limit alone.
fn try_stack<R: Threads + Wait + Sync, S: Sink, K: Gate + Sync>(
    rt: &R,
    alloc: Global,
    workers: u32,
    stack: &Stack,
    briefs: &str,
    out: &mut S,
    gate: &K,
) -> Result<Status, Refusal>
    requires some { 1 ≤ workers }
    requires few { workers ≤ MAX_TRIERS }
    requires short { length briefs.now < 2 ^ 32 }
    requires briefs { are_briefs briefs.now ≡ true }
    ensures { let before = output (S.text out.old) (S.faults out.old) in
        let after = output (S.text out.new) (S.faults out.new) in
        let follows = IsTry (brief_outlines briefs.now) stack.now in
        Answers (UnlessRefused (search_limit stack.now) follows) before after result }
{
    let trie = Trie::new(alloc, stack.outlines())?;
    let windows = Windows::new(alloc, &trie)?;
    let words = WordSet::new(alloc, &trie, stack.words())?;
    let numbering = Numbering::new(alloc, &trie, &windows, &words)?;
    drop(numbering);
    drop(words);
    drop(windows);
    drop(trie);
    let outlines = read_briefs(alloc, briefs)?;
    try_within(rt, alloc, workers, stack, &outlines, out, gate)
}

/// The trials of the briefs over the dictionaries that the arguments name.
pub(crate) fn tries<R: Threads + Wait + Sync, F: Files, S: Sink, K: Gate + Sync>(
    rt: &R,
    alloc: Global,
    workers: u32,
    briefs: &str,
    dicts: &[String],
    files: &mut F,
    out: &mut S,
    gate: &K,
) -> Result<Status, Refusal>
    requires some { 1 ≤ workers }
    requires few { workers ≤ MAX_TRIERS }
    requires short { length briefs.now < 2 ^ 32 }
    requires briefs { are_briefs briefs.now ≡ true }
    ensures { let before = world (F.view files.old) (S.text out.old) (S.faults out.old) in
        let after = world (F.view files.new) (S.text out.new) (S.faults out.new) in
        IsAnswer (Some (try_of workers briefs.now (map string_bytes dicts.now))) before after result }
{
    let stack = read_stack(alloc, files, dicts)?;
    try_stack(rt, alloc, workers, &stack, briefs, out, gate)
}
