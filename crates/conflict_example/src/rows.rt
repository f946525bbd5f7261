//! The rows: all conflicts by entry and then by place, each with its example.

ghost use Rattle.std.specs.Prelude.{◌≡◌, ℕ, ◌+◌, ◌<◌, ◌≤◌, ◌^◌, All, IfOk, OnOk, length, get_or};
ghost use Rattle.graph_rules.specs.Graphs.{AreSettled};
ghost use Rattle.steno_rules.specs.ClosureGraphs.{kept_lists};
ghost use Rattle.steno_rules.specs.Outlines.{IsOutline};
ghost use Rattle.steno_rules.specs.StateNumbers.{number_count};
ghost use Rattle.longest_match.specs.Rows.{AreConflicts, AreSmall};
ghost use Rattle.dict_stack.specs.Stacks.{most_entries};
ghost use Rattle.conflict_example.specs.Chosen.{AreChosen, words_in_stack};
ghost use Rattle.conflict_example.specs.EntryConflicts.{AreConflictsOf};
ghost use Rattle.conflict_example.specs.inside.Closures.{IsClosure};
ghost use Rattle.conflict_example.specs.inside.FirstHits.{AreFirst, IsFirstHit};
ghost use Rattle.conflict_example.specs.inside.FoundRows.{AreRowsBetween, IsFoundRow};
ghost use Rattle.pair_slots.specs.Slots.{AreStarts};

use crate::examples::{Scratch, example};
use crate::hits::{NUMBERS, first_hits};
use dict_stack::Stack;
use longest_match::Conflict;
use pair_slots::starts_of;
use state_numbering::Numbering;
use std::alloc::{AllocError, Global};
use stroke::Outline;

/// The row of a pair whose chosen hit has this word.
fn row(
    alloc: Global,
    numbering: &Numbering<'_>,
    words: &[u64],
    entry: u32,
    place: u8,
    hit: u64,
    scratch: &mut Scratch,
) -> Result<Conflict, AllocError>
    requires closure { IsClosure numbering.now words.now }
    requires entry { entry < length numbering.now.entries }
    requires hit { let v = numbering.now in
        IsFirstHit v.entries v.words entry place (number_count v.entries) hit }
    ensures found { IfOk result (IsFoundRow numbering.now.entries numbering.now.words words.now) }
    ensures entry { IfOk result (λ row. row.entry ≡ entry) }
    ensures place { IfOk result (λ row. row.place ≡ place) }
{
    let distance = (hit / NUMBERS) as u32;
    let number = (hit % NUMBERS) as u32;
    let made = example(alloc, numbering, words, number, distance, scratch)?;
    Ok(Conflict::new(entry, place, distance, made))
}

/// Adds the rows of an entry, whose slots begin at `start`. The rows before it are those from some entry on.
fn push_rows(
    alloc: Global,
    numbering: &Numbering<'_>,
    entries: &[Outline],
    words: &[u64],
    slots: (&[u32], &[u64]),
    entry: u32,
    rows: &mut Vec<Conflict>,
    scratch: &mut Scratch,
) -> Result<(), AllocError>
    requires entries { numbering.now.entries ≡ entries.now }
    requires few { length entries.now ≤ most_entries }
    requires closure { IsClosure numbering.now words.now }
    requires starts { AreStarts numbering.now.entries slots.0.now }
    requires best { let v = numbering.now in
        AreFirst v.entries v.words (number_count v.entries) slots.1.now }
    requires entry { entry < length entries.now }
    ensures { let v = numbering.now in
        (from : ℕ) → from ≤ entry →
        AreRowsBetween v.entries v.words words.now from entry 1 rows.old.items →
        OnOk result (AreRowsBetween v.entries v.words words.now from (entry + 1) 1 rows.new.items) }
{
    let (starts, best) = slots;
    let start = starts[entry as usize] as usize;
    let len = entries[entry as usize].strokes().len() as u8;
    for place in 1..len {
        let hit = best[start + (place as usize - 1)];
        if hit != u64::MAX {
            rows.push(row(alloc, numbering, words, entry, place, hit, scratch)?)?;
        }
    }
    Ok(())
}

/// The rows of all entries.
fn all_rows(
    alloc: Global,
    numbering: &Numbering<'_>,
    entries: &[Outline],
    words: &[u64],
    slots: (&[u32], &[u64]),
) -> Result<Vec<Conflict>, AllocError>
    requires entries { numbering.now.entries ≡ entries.now }
    requires few { length entries.now ≤ most_entries }
    requires closure { IsClosure numbering.now words.now }
    requires starts { AreStarts numbering.now.entries slots.0.now }
    requires best { let v = numbering.now in
        AreFirst v.entries v.words (number_count v.entries) slots.1.now }
    ensures { let v = numbering.now in
        IfOk result (λ rows.
        AreRowsBetween v.entries v.words words.now 0 (length v.entries) 1 rows.items) }
{
    let mut rows = Vec::new(alloc);
    let mut scratch = Scratch::new(alloc);
    for entry in 0..entries.len() as u32 {
        push_rows(
            alloc,
            numbering,
            entries,
            words,
            slots,
            entry,
            &mut rows,
            &mut scratch,
        )?;
    }
    Ok(rows)
}

/// All conflicts of a stack, by entry and then by place, each with its chosen example: words of fewest strokes, and of
/// the walks of so few strokes that to the hit of least number. Each has fewer than 33,554,432 strokes.
pub fn conflicts(
    alloc: Global,
    numbering: &Numbering<'_>,
    stack: &Stack,
    words: &[u64],
) -> Result<Vec<Conflict>, AllocError>
    requires entries { numbering.now.entries ≡ stack.now.outlines }
    requires words { numbering.now.words ≡ words_in_stack stack.now }
    requires settled { AreSettled
        0 (kept_lists numbering.now.entries numbering.now.words) words.now }
    ensures exact { IfOk result (λ rows.
        AreConflicts stack.now.outlines (words_in_stack stack.now) rows.items) }
    ensures chosen { IfOk result (λ rows.
        AreChosen stack.now.outlines (words_in_stack stack.now) words.now rows.items) }
    ensures small { IfOk result (λ rows. AreSmall stack.now.outlines rows.items) }
{
    let count = numbering.count();
    let starts = starts_of(alloc, stack.outlines())?;
    let best = first_hits(alloc, numbering, &starts, words, count)?;
    all_rows(alloc, numbering, stack.outlines(), words, (&starts, &best))
}

/// The conflicts of one entry alone, by rising place, as [`conflicts`] gives them.
pub fn conflicts_of(
    alloc: Global,
    numbering: &Numbering<'_>,
    entries: &[Outline],
    words: &[u64],
    entry: u32,
) -> Result<Vec<Conflict>, AllocError>
    requires entries { numbering.now.entries ≡ entries.now }
    requires outlines { All IsOutline entries.now }
    requires few { length entries.now ≤ most_entries }
    requires entry { entry < length entries.now }
    requires settled { AreSettled
        0 (kept_lists numbering.now.entries numbering.now.words) words.now }
    ensures exact { IfOk result (λ rows.
        AreConflictsOf entries.now numbering.now.words entry rows.items) }
    ensures chosen { IfOk result (λ rows.
        AreChosen entries.now numbering.now.words words.now rows.items) }
    ensures small { IfOk result (λ rows. AreSmall entries.now rows.items) }
{
    let count = numbering.count();
    let starts = starts_of(alloc, entries)?;
    let best = first_hits(alloc, numbering, &starts, words, count)?;
    let slots = (starts.as_slice(), best.as_slice());
    let mut rows = Vec::new(alloc);
    let mut scratch = Scratch::new(alloc);
    push_rows(
        alloc,
        numbering,
        entries,
        words,
        slots,
        entry,
        &mut rows,
        &mut scratch,
    )?;
    Ok(rows)
}
