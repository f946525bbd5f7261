//! `audit`: all conflicts of some dictionaries, each with a shortest sequence of words that shows it.
//!
//! The search and the conflicts are those of every audit; a [`Form`] says what is printed of them.

ghost use Rattle.std.specs.Prelude.{◌≡◌, ◌≤◌, ◌<◌, ◌^◌, All, Some, length, map, string_bytes};
ghost use Rattle.steno_rules.specs.ClosureGraphs.{kept_lists};
ghost use Rattle.steno_rules.specs.Outlines.{IsOutline};
ghost use Rattle.steno_rules.specs.StateNumbers.{number_count};
ghost use Rattle.report_json.specs.JsonLines.{json_text};
ghost use Rattle.report_json.specs.JsonReports.{IsInner, json_report};
ghost use Rattle.longest_match.specs.Rows.{AreConflicts, AreSmall};
ghost use Rattle.state_numbering.specs.Causes.{most_states};
ghost use Rattle.round_core.specs.Searches.{IsSearched};
ghost use Rattle.conflict_example.specs.Chosen.{AreChosen, words_in_stack};
ghost use Rattle.audit_top.specs.inside.Answers.{Answers, IsAnswer};
ghost use Rattle.commands.specs.Commands.{audit as audit_of, audit_json as audit_json_of};
ghost use Rattle.outside.specs.Sink.{Puts};
ghost use Rattle.audit_top.specs.inside.Forms.{made_in, text_in};
ghost use Rattle.audit_top.specs.Outcomes.{UnlessRefused, search_limit};
ghost use Rattle.audit_top.specs.Audited.{PrintsConflicts, reached_count};
ghost use Rattle.audit_top.specs.Statuses.{audit_status};
ghost use Rattle.audit_top.specs.Runs.{output, world};
ghost use Rattle.steal_rounds.specs.declared.searches.TheConstants.{MAX_WORKERS};

use crate::refusals::Refusal;
use crate::status::Status;
use closure_state::WordSet;
use conflict_example::conflicts;
use dict_files::read_stack;
use dict_stack::Stack;
use longest_match::Conflict;
use match_window::Windows;
use outline_trie::Trie;
use outside::{Files, OutsideFault, Sink};
use report::{Summary, write_report, write_summary};
use report_json::{json_of, write_json};
use round_core::Settled;
use state_numbering::{ClosureGraph, Numbering};
use std::alloc::Global;
use std::marker::{Send, Sync};
use std::sync::Wait;
use std::thread::Threads;
use steal_rounds::{Gate, search};

/// What is printed of an audit.
#[derive(Clone, Copy, Debug)]
pub(crate) enum Form {
    /// The report: the counts and each conflict.
    Report,
    /// The report as JSON.
    Json,
    /// The counts alone, with how many moves the search made.
    Summary,
}

/// How many numbers have a word of the search.
pub(crate) fn reached(words: &[u64]) -> u32
    requires { length words.now < 2 ^ 32 }
    ensures { result ≡ reached_count words.now }
{
    words.iter().filter(|word| **word != u64::MAX).count() as u32
}

/// The status of an audit that found these conflicts.
pub(crate) fn status_of(rows: &[Conflict]) -> Status
    ensures { result ≡ audit_status rows.now }
{
    match rows {
        [] => Status::Clean,
        _ => Status::Conflicts,
    }
}

/// Writes the report as JSON.
fn write_as_json<S: Sink>(
    alloc: Global,
    stack: &Stack,
    summary: &Summary,
    rows: &[Conflict],
    out: &mut S,
) -> Result<(), OutsideFault>
    requires small { AreSmall stack.now.outlines rows.now }
    requires inner { All IsInner rows.now }
    ensures { let text = json_text (json_report stack.now summary.now rows.now) in
        Puts text result (S.text out.old) (S.text out.new) (S.faults out.old) (S.faults out.new) }
{
    let report = json_of(alloc, stack, summary, rows)?;
    write_json(alloc, out, &report)
}

/// Writes what is printed of these conflicts.
pub(crate) fn write_found<S: Sink>(
    alloc: Global,
    stack: &Stack,
    searched: &Settled,
    rows: &[Conflict],
    form: Form,
    out: &mut S,
) -> Result<(), OutsideFault>
    requires few { length searched.now.words < 2 ^ 32 }
    requires rows { length rows.now < 2 ^ 32 }
    requires small { AreSmall stack.now.outlines rows.now }
    requires inner { All IsInner rows.now }
    ensures { let text = text_in form stack.now searched.now rows.now in
        Puts text result (S.text out.old) (S.text out.new) (S.faults out.old) (S.faults out.new) }
{
    let summary = Summary {
        states: reached(searched.words()),
        rounds: searched.rounds(),
        conflicts: rows.len() as u32,
    };
    match form {
        Form::Report => write_report(alloc, out, stack, &summary, rows),
        Form::Json => write_as_json(alloc, stack, &summary, rows, out),
        Form::Summary => write_summary(alloc, out, stack, &summary, searched.relaxed()),
    }
}

/// Ends an audit whose conflicts were found.
fn print_conflicts<S: Sink>(
    alloc: Global,
    stack: &Stack,
    searched: &Settled,
    rows: &[Conflict],
    form: Form,
    out: &mut S,
) -> Result<Status, Refusal>
    requires few { length searched.now.words < 2 ^ 32 }
    requires outlines { All IsOutline stack.now.outlines }
    requires exact { AreConflicts stack.now.outlines (words_in_stack stack.now) rows.now }
    requires chosen { AreChosen stack.now.outlines (words_in_stack stack.now)
        searched.now.words rows.now }
    requires small { AreSmall stack.now.outlines rows.now }
    requires search { IsSearched 0
        (kept_lists stack.now.outlines (words_in_stack stack.now)) searched.now }
    ensures { let before = output (S.text out.old) (S.faults out.old) in
        let after = output (S.text out.new) (S.faults out.new) in
        Answers (PrintsConflicts (made_in form) stack.now) before after result }
{
    write_found(alloc, stack, searched, rows, form, out)?;
    Ok(status_of(rows))
}

/// An audit whose states are numbered.
fn audit_numbered<R: Threads + Wait + Sync, S: Sink, K: Gate + Sync>(
    rt: &R,
    alloc: Global,
    workers: u32,
    stack: &Stack,
    numbering: &Numbering<'_>,
    form: Form,
    out: &mut S,
    gate: &K,
) -> Result<Status, Refusal>
    requires some { 1 ≤ workers }
    requires few { workers ≤ MAX_WORKERS }
    requires outlines { All IsOutline stack.now.outlines }
    requires entries { numbering.now.entries ≡ stack.now.outlines }
    requires words { numbering.now.words ≡ words_in_stack stack.now }
    requires within { number_count stack.now.outlines ≤ most_states }
    ensures { let before = output (S.text out.old) (S.faults out.old) in
        let after = output (S.text out.new) (S.faults out.new) in
        Answers (PrintsConflicts (made_in form) stack.now) before after result }
{
    let graph = ClosureGraph::new(numbering);
    let searched = search(rt, alloc, &graph, workers, gate)?;
    let rows = conflicts(alloc, numbering, stack, searched.words())?;
    print_conflicts(alloc, stack, &searched, &rows, form, out)
}

/// An audit whose dictionaries were read.
pub(crate) fn audit_stack<R: Threads + Wait + Sync, S: Sink, K: Gate + Sync>(
    rt: &R,
    alloc: Global,
    workers: u32,
    stack: &Stack,
    form: Form,
    out: &mut S,
    gate: &K,
) -> Result<Status, Refusal>
    requires some { 1 ≤ workers }
    requires few { workers ≤ MAX_WORKERS }
    ensures { let before = output (S.text out.old) (S.faults out.old) in
        let after = output (S.text out.new) (S.faults out.new) in
        let limit = search_limit stack.now in
        Answers (UnlessRefused limit (PrintsConflicts (made_in form) stack.now)) before after result }
{
    let trie = Trie::new(alloc, stack.outlines())?;
    let windows = Windows::new(alloc, &trie)?;
    let words = WordSet::new(alloc, &trie, stack.words())?;
    let numbering = Numbering::new(alloc, &trie, &windows, &words)?;
    audit_numbered(rt, alloc, workers, stack, &numbering, form, out, gate)
}

/// The audit of the dictionaries that the arguments name.
pub(crate) fn audit<R: Threads + Wait + Sync, F: Files, S: Sink, K: Gate + Sync>(
    rt: &R,
    alloc: Global,
    workers: u32,
    dicts: &[String],
    files: &mut F,
    out: &mut S,
    gate: &K,
) -> Result<Status, Refusal>
    requires some { 1 ≤ workers }
    requires few { workers ≤ MAX_WORKERS }
    ensures { let before = world (F.view files.old) (S.text out.old) (S.faults out.old) in
        let after = world (F.view files.new) (S.text out.new) (S.faults out.new) in
        IsAnswer (Some (audit_of workers (map string_bytes dicts.now))) before after result }
{
    let stack = read_stack(alloc, files, dicts)?;
    audit_stack(rt, alloc, workers, &stack, Form::Report, out, gate)
}

/// The same, with its report as JSON.
pub(crate) fn audit_json<R: Threads + Wait + Sync, F: Files, S: Sink, K: Gate + Sync>(
    rt: &R,
    alloc: Global,
    workers: u32,
    dicts: &[String],
    files: &mut F,
    out: &mut S,
    gate: &K,
) -> Result<Status, Refusal>
    requires some { 1 ≤ workers }
    requires few { workers ≤ MAX_WORKERS }
    ensures { let before = world (F.view files.old) (S.text out.old) (S.faults out.old) in
        let after = world (F.view files.new) (S.text out.new) (S.faults out.new) in
        IsAnswer (Some (audit_json_of workers (map string_bytes dicts.now))) before after result }
{
    let stack = read_stack(alloc, files, dicts)?;
    audit_stack(rt, alloc, workers, &stack, Form::Json, out, gate)
}
