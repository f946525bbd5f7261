//! `replay`: the pieces of typed strokes.

ghost use Rattle.std.specs.Prelude.{◌≡◌, ◌<◌, ◌^◌, IsSome, Some, length, map, string_bytes};
ghost use Rattle.steno_rules.specs.Nodes.{nodes};
ghost use Rattle.steno_order.specs.Reading.{spelt_strokes};
ghost use Rattle.audit_top.specs.inside.Answers.{Answers, IsAnswer};
ghost use Rattle.commands.specs.Commands.{replay as replay_of};
ghost use Rattle.audit_top.specs.Outcomes.{UnlessRefused, trie_limit};
ghost use Rattle.audit_top.specs.Translated.{IsReplay};
ghost use Rattle.audit_top.specs.Runs.{output, world};

use crate::refusals::Refusal;
use crate::status::Status;
use dict_files::read_stack;
use dict_stack::Stack;
use outline_trie::Trie;
use outside::{Files, Sink};
use report::write_replay;
use std::alloc::Global;
use steno_order::read_strokes;
use translator::translate;

/// A replay over a stack whose trie was made: the strokes are pushed one by one.
fn replay_pieces<S: Sink>(
    alloc: Global,
    outline: &str,
    stack: &Stack,
    trie: &Trie,
    out: &mut S,
) -> Result<Status, Refusal>
    requires short { length outline.now < 2 ^ 32 }
    requires readable { IsSome (spelt_strokes outline.now) }
    requires trie { trie.now ≡ stack.now.outlines }
    ensures { let before = output (S.text out.old) (S.faults out.old) in
        let after = output (S.text out.new) (S.faults out.new) in
        Answers (IsReplay outline.now stack.now) before after result }
{
    let strokes = read_strokes(alloc, outline)?;
    let pieces = translate(alloc, trie, &strokes)?;
    write_replay(alloc, out, stack, &strokes, &pieces)?;
    Ok(Status::Clean)
}

/// A replay whose dictionaries were read.
fn replay_stack<S: Sink>(
    alloc: Global,
    outline: &str,
    stack: &Stack,
    out: &mut S,
) -> Result<Status, Refusal>
    requires short { length outline.now < 2 ^ 32 }
    requires readable { IsSome (spelt_strokes outline.now) }
    ensures { let before = output (S.text out.old) (S.faults out.old) in
        let after = output (S.text out.new) (S.faults out.new) in
        let expected = UnlessRefused (trie_limit stack.now) (IsReplay outline.now stack.now) in
        Answers expected before after result }
{
    let trie = Trie::new(alloc, stack.outlines())?;
    replay_pieces(alloc, outline, stack, &trie, out)
}

/// The replay of an outline over the dictionaries that the arguments name.
pub(crate) fn replay<F: Files, S: Sink>(
    alloc: Global,
    outline: &str,
    dicts: &[String],
    files: &mut F,
    out: &mut S,
) -> Result<Status, Refusal>
    requires short { length outline.now < 2 ^ 32 }
    requires readable { IsSome (spelt_strokes outline.now) }
    ensures { let before = world (F.view files.old) (S.text out.old) (S.faults out.old) in
        let after = world (F.view files.new) (S.text out.new) (S.faults out.new) in
        IsAnswer (Some (replay_of outline.now (map string_bytes dicts.now))) before after result }
{
    let stack = read_stack(alloc, files, dicts)?;
    replay_stack(alloc, outline, &stack, out)
}
