//! The text of trials: what each brief would do.

ghost use Rattle.std.specs.Prelude.{◌≡◌, ◌<◌, ◌++◌, ◌||◌, All, OnOk, flat_map, length, nat_lt};
ghost use Rattle.steno_rules.specs.Conflicts.{AreEntryNumbers};
ghost use Rattle.steno_rules.specs.Outlines.{outline_of};
ghost use Rattle.outside.specs.Sink.{Puts};
ghost use Rattle.pages.specs.Pages.{AddsToPage, progress};
ghost use Rattle.report.specs.Reports.{words_text};
ghost use Rattle.report.specs.inside.Bars.{bar_at};
ghost use Rattle.brief_trial.specs.Trials.{with_brief};
ghost use Rattle.brief_trial.specs.TrialTexts.{HasWords, IsWritable, brief_line, conflict_line, trial_text, trials_text};

use crate::trial::Trial;
use dict_stack::Stack;
use longest_match::Conflict;
use outside::{OutsideFault, Sink, write_all};
use pages::{new_page, push_number, push_outline, put_full};
use std::alloc::{AllocError, Global};
use stroke::Outline;

/// Whether an entry has the same number in the stack as in the trial stack.
fn keeps_number(trial: &Trial, number: u32) -> bool
    ensures { result ≡ (trial.now.held || nat_lt number trial.now.entry) }
{
    trial.held() || number < trial.entry()
}

/// The outline of a number of a trial stack.
///
/// The trial stack isn't made for it: it is the stack with the brief at its place.
fn trial_outline<'a>(stack: &'a Stack, trial: &'a Trial, number: u32) -> &'a Outline
    requires numbered { IsWritable stack.now.outlines trial.now }
    requires below { number < length (with_brief stack.now.outlines trial.now.brief) }
    ensures { result.now ≡ outline_of (with_brief stack.now.outlines trial.now.brief) number }
{
    let outlines = stack.outlines();
    if number == trial.entry() {
        trial.brief()
    } else if keeps_number(trial, number) {
        &outlines[number as usize]
    } else {
        &outlines[number as usize - 1]
    }
}

/// Adds a bar, where the word isn't the first.
fn push_bar(page: &mut Vec<u8>, place: usize) -> Result<(), AllocError>
    ensures { OnOk result (page.new.items ≡ page.old.items ++ bar_at place) }
{
    if place > 0 {
        page.extend_from_slice(b" | ")?;
    }
    Ok(())
}

/// Adds the outlines of words of a trial stack, with bars between them.
///
/// Each is written to `text` first, whatever that has.
fn push_words(
    page: &mut Vec<u8>,
    stack: &Stack,
    trial: &Trial,
    words: &[u32],
    text: &mut String,
) -> Result<(), AllocError>
    requires numbered { IsWritable stack.now.outlines trial.now }
    requires words { AreEntryNumbers (with_brief stack.now.outlines trial.now.brief) words.now }
    ensures { let added = words_text (with_brief stack.now.outlines trial.now.brief) words.now in
        OnOk result (page.new.items ≡ page.old.items ++ added) }
{
    for (place, word) in words.iter().enumerate() {
        push_bar(page, place)?;
        push_outline(page, trial_outline(stack, trial, *word).strokes(), text)?;
    }
    Ok(())
}

/// Adds the line of a conflict.
fn push_conflict(
    page: &mut Vec<u8>,
    stack: &Stack,
    trial: &Trial,
    row: &Conflict,
    text: &mut String,
) -> Result<(), AllocError>
    requires numbered { IsWritable stack.now.outlines trial.now }
    requires words { HasWords (with_brief stack.now.outlines trial.now.brief) row.now }
    ensures { let added = conflict_line (with_brief stack.now.outlines trial.now.brief) row.now in
        OnOk result (page.new.items ≡ page.old.items ++ added) }
{
    page.extend_from_slice(b"place ")?;
    push_number(page, u64::from(row.place()))?;
    page.extend_from_slice(b" strokes ")?;
    push_number(page, u64::from(row.strokes()))?;
    page.extend_from_slice(b" words ")?;
    push_words(page, stack, trial, row.words(), text)?;
    page.push(b'\n')?;
    Ok(())
}

/// Writes the line of a conflict.
fn write_conflict<S: Sink>(
    sink: &mut S,
    page: &mut Vec<u8>,
    stack: &Stack,
    trial: &Trial,
    row: &Conflict,
    text: &mut String,
) -> Result<(), OutsideFault>
    requires numbered { IsWritable stack.now.outlines trial.now }
    requires words { HasWords (with_brief stack.now.outlines trial.now.brief) row.now }
    ensures { let before = progress (S.text sink.old) (S.faults sink.old) page.old.items in
        let after = progress (S.text sink.new) (S.faults sink.new) page.new.items in
        let added = conflict_line (with_brief stack.now.outlines trial.now.brief) row.now in
        AddsToPage added result before after }
{
    push_conflict(page, stack, trial, row, text)?;
    put_full(sink, page)
}

/// Writes the lines of a brief's conflicts.
fn write_conflicts<S: Sink>(
    sink: &mut S,
    page: &mut Vec<u8>,
    stack: &Stack,
    trial: &Trial,
    rows: &[Conflict],
    text: &mut String,
) -> Result<(), OutsideFault>
    requires numbered { IsWritable stack.now.outlines trial.now }
    requires words { All (HasWords (with_brief stack.now.outlines trial.now.brief)) rows.now }
    ensures { let before = progress (S.text sink.old) (S.faults sink.old) page.old.items in
        let after = progress (S.text sink.new) (S.faults sink.new) page.new.items in
        let outlines = with_brief stack.now.outlines trial.now.brief in
        AddsToPage (flat_map (conflict_line outlines) rows.now) result before after }
{
    for row in rows {
        write_conflict(sink, page, stack, trial, row, text)?;
    }
    Ok(())
}

/// Adds the line of a brief.
fn push_brief(page: &mut Vec<u8>, trial: &Trial, text: &mut String) -> Result<(), AllocError>
    ensures { OnOk result (page.new.items ≡ page.old.items ++ brief_line trial.now) }
{
    page.extend_from_slice(b"try ")?;
    push_outline(page, trial.brief().strokes(), text)?;
    page.extend_from_slice(b" conflicts ")?;
    push_number(page, trial.conflicts().len() as u64)?;
    page.push(b'\n')?;
    Ok(())
}

/// Writes the lines of a brief.
fn write_trial<S: Sink>(
    sink: &mut S,
    page: &mut Vec<u8>,
    stack: &Stack,
    trial: &Trial,
    text: &mut String,
) -> Result<(), OutsideFault>
    requires { IsWritable stack.now.outlines trial.now }
    ensures { let before = progress (S.text sink.old) (S.faults sink.old) page.old.items in
        let after = progress (S.text sink.new) (S.faults sink.new) page.new.items in
        AddsToPage (trial_text stack.now.outlines trial.now) result before after }
{
    push_brief(page, trial, text)?;
    write_conflicts(sink, page, stack, trial, trial.conflicts(), text)
}

/// Writes the lines of all briefs.
fn write_all_trials<S: Sink>(
    alloc: Global,
    sink: &mut S,
    page: &mut Vec<u8>,
    stack: &Stack,
    trials: &[Trial],
) -> Result<(), OutsideFault>
    requires { All (IsWritable stack.now.outlines) trials.now }
    ensures { let before = progress (S.text sink.old) (S.faults sink.old) page.old.items in
        let after = progress (S.text sink.new) (S.faults sink.new) page.new.items in
        AddsToPage (trials_text stack.now.outlines trials.now) result before after }
{
    let mut text = String::new(alloc);
    for trial in trials {
        write_trial(sink, page, stack, trial, &mut text)?;
    }
    Ok(())
}

/// Puts for each brief, in the order given, its outline and how many conflicts it has, and then a line for each of
/// them: the place of the boundary, how many strokes an example has, and its words.
///
/// It fails where the sink does and where memory is refused, and then a prefix of the text was put. The cost is linear
/// in the text, which is put in pieces of 65,536 bytes and more.
pub fn write_trials<S: Sink>(
    alloc: Global,
    sink: &mut S,
    stack: &Stack,
    trials: &[Trial],
) -> Result<(), OutsideFault>
    requires { All (IsWritable stack.now.outlines) trials.now }
    ensures { let text = trials_text stack.now.outlines trials.now in
        Puts text result (S.text sink.old) (S.text sink.new)
        (S.faults sink.old) (S.faults sink.new) }
{
    let mut page = new_page(alloc)?;
    write_all_trials(alloc, sink, &mut page, stack, trials)?;
    write_all(sink, &page)
}
