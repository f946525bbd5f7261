//! The rows: all pairs that stay, by entry and then by place, each with its example.
ghost use Rattle.std.specs.Prelude.{◌≡◌, ◌+◌, ◌<◌, ◌≤◌, ◌++◌, ℕ, All, IfOk, OnOk, Some, length, get_or};
ghost use Rattle.graph_rules.specs.Graphs.{AreSettled};
ghost use Rattle.steno_rules.specs.ClosureGraphs.{kept_lists};
ghost use Rattle.steno_rules.specs.Outlines.{IsOutline};
ghost use Rattle.steno_rules.specs.StateNumbers.{number_count, state_of_number};
ghost use Rattle.steno_rules.specs.States.{State};
ghost use Rattle.steno_rules.specs.WordSets.{IsWordSet, words_in};
ghost use Rattle.longest_match.specs.Rows.{AreSmall};
ghost use Rattle.state_numbering.specs.Numberings.{numbering_of};
ghost use Rattle.conflict_example.specs.Chosen.{words_in_stack};
ghost use Rattle.conflict_example.specs.inside.Closures.{IsClosure};
ghost use Rattle.conflict_example.specs.inside.Spellings.{if_there};
ghost use Rattle.pair_slots.specs.Slots.{AreStarts};
ghost use Rattle.settled_pairs.specs.Finishes.{IsFinishOf};
ghost use Rattle.settled_pairs.specs.SettledRows.{AreChosenRows, AreSettledPairs, HasConflicts};
ghost use Rattle.settled_pairs.specs.inside.FoundRows.{AreRowsBefore, IsFoundPair};
ghost use Rattle.settled_pairs.specs.inside.Near.{AreNear};
ghost use Rattle.settled_pairs.specs.inside.Sums.{AreFirstSums, HasOpenNumber, IsFirstSum};

use crate::ending::finish_by;
use crate::finishes::Finish;
use crate::near::near_of;
use crate::sums::{NUMBERS, first_sums};
use closure_state::WordSet;
use conflict_example::{Scratch, example};
use dict_stack::Stack;
use longest_match::Conflict;
use match_window::Windows;
use outline_trie::Trie;
use pair_slots::starts_of;
use state_numbering::Numbering;
use std::alloc::{AllocError, Global};

/// The finish of a number that is an open hit and finishes.
fn finish_at(
    trie: &Trie,
    windows: &Windows<'_>,
    words: &WordSet,
    near: &[u8],
    numbering: &Numbering<'_>,
    number: u32,
) -> Finish
    requires windows { windows.now ≡ trie.now }
    requires words { IsWordSet trie.now words.now }
    requires near { AreNear trie.now (words_in trie.now words.now) near.now }
    requires numbering { numbering.now ≡ numbering_of trie.now words.now }
    requires opened { HasOpenNumber trie.now (words_in trie.now words.now) number }
    ensures { let ends = words_in trie.now words.now in
        (s : State) → state_of_number trie.now ends number ≡ Some s →
        IsFinishOf trie.now ends s result }
{
    let none = Finish {
        strokes: 0,
        word: None,
    };
    match numbering.state(number) {
        Some(state) => finish_by(trie, windows, words, near, &state).unwrap_or(none),
        None => none,
    }
}

/// Adds the word that is ended, if one is.
fn push_ended(word: Option<u32>, made: &mut Vec<u32>) -> Result<(), AllocError>
    ensures { OnOk result (made.new.items ≡ made.old.items ++ if_there word) }
{
    match word {
        Some(word) => {
            made.push(word)?;
            Ok(())
        }
        None => Ok(()),
    }
}

/// The row of a pair whose chosen open hit has this word.
fn row(
    alloc: Global,
    trie: &Trie,
    windows: &Windows<'_>,
    words: &WordSet,
    near: &[u8],
    numbering: &Numbering<'_>,
    table: &[u64],
    entry: u32,
    place: u8,
    hit: u64,
    scratch: &mut Scratch,
) -> Result<Conflict, AllocError>
    requires windows { windows.now ≡ trie.now }
    requires words { IsWordSet trie.now words.now }
    requires near { AreNear trie.now (words_in trie.now words.now) near.now }
    requires numbering { numbering.now ≡ numbering_of trie.now words.now }
    requires outlines { All IsOutline trie.now }
    requires closure { IsClosure numbering.now table.now }
    requires entry { entry < length trie.now }
    requires hit { let ends = words_in trie.now words.now in
        IsFirstSum trie.now ends entry place (number_count trie.now) hit }
    ensures found { let ends = words_in trie.now words.now in
        IfOk result (IsFoundPair trie.now ends table.now) }
    ensures entry { IfOk result (λ row. row.entry ≡ entry) }
    ensures place { IfOk result (λ row. row.place ≡ place) }
{
    let number = (hit % NUMBERS) as u32;
    let strokes = (hit / NUMBERS) as u32;
    let finish = finish_at(trie, windows, words, near, numbering, number);
    let distance = strokes - finish.strokes;
    let mut made = example(alloc, numbering, table, number, distance, scratch)?;
    push_ended(finish.word, &mut made)?;
    Ok(Conflict::new(entry, place, strokes, made))
}

/// Adds the rows of an entry.
fn push_rows(
    alloc: Global,
    trie: &Trie,
    windows: &Windows<'_>,
    words: &WordSet,
    near: &[u8],
    numbering: &Numbering<'_>,
    stack: &Stack,
    table: &[u64],
    slots: (&[u32], &[u64]),
    entry: u32,
    rows: &mut Vec<Conflict>,
    scratch: &mut Scratch,
) -> Result<(), AllocError>
    requires windows { windows.now ≡ trie.now }
    requires words { IsWordSet trie.now words.now }
    requires near { AreNear trie.now (words_in trie.now words.now) near.now }
    requires numbering { numbering.now ≡ numbering_of trie.now words.now }
    requires entries { trie.now ≡ stack.now.outlines }
    requires outlines { All IsOutline trie.now }
    requires closure { IsClosure numbering.now table.now }
    requires starts { AreStarts trie.now slots.0.now }
    requires least { let ends = words_in trie.now words.now in
        AreFirstSums trie.now ends (number_count trie.now) slots.1.now }
    requires entry { entry < length trie.now }
    requires before { let ends = words_in trie.now words.now in
        AreRowsBefore trie.now ends table.now entry 1 rows.old.items }
    ensures { let ends = words_in trie.now words.now in
        OnOk result (AreRowsBefore trie.now ends table.now (entry + 1) 1 rows.new.items) }
{
    let (starts, least) = slots;
    let start = starts[entry as usize] as usize;
    let len = stack.outline(entry).strokes().len() as u8;
    for place in 1..len {
        let hit = least[start + (place as usize - 1)];
        if hit != u64::MAX {
            rows.push(row(
                alloc, trie, windows, words, near, numbering, table, entry, place, hit, scratch,
            )?)?;
        }
    }
    Ok(())
}

/// The rows of all entries.
fn all_rows(
    alloc: Global,
    trie: &Trie,
    windows: &Windows<'_>,
    words: &WordSet,
    near: &[u8],
    numbering: &Numbering<'_>,
    stack: &Stack,
    table: &[u64],
    slots: (&[u32], &[u64]),
) -> Result<Vec<Conflict>, AllocError>
    requires windows { windows.now ≡ trie.now }
    requires words { IsWordSet trie.now words.now }
    requires near { AreNear trie.now (words_in trie.now words.now) near.now }
    requires numbering { numbering.now ≡ numbering_of trie.now words.now }
    requires entries { trie.now ≡ stack.now.outlines }
    requires outlines { All IsOutline trie.now }
    requires closure { IsClosure numbering.now table.now }
    requires starts { AreStarts trie.now slots.0.now }
    requires least { let ends = words_in trie.now words.now in
        AreFirstSums trie.now ends (number_count trie.now) slots.1.now }
    ensures { let ends = words_in trie.now words.now in
        IfOk result (λ rows. AreRowsBefore trie.now ends table.now (length trie.now) 1 rows.items) }
{
    let mut rows = Vec::new(alloc);
    let mut scratch = Scratch::new(alloc);
    for entry in 0..stack.entry_count() {
        push_rows(
            alloc,
            trie,
            windows,
            words,
            near,
            numbering,
            stack,
            table,
            slots,
            entry,
            &mut rows,
            &mut scratch,
        )?;
    }
    Ok(rows)
}

/// All pairs of a stack that stay, by entry and then by place, each with words of fewest strokes that have it: those of
/// the walk to its chosen open hit, and the word that finishes it. Each has fewer than 67,108,864 strokes. The trie,
/// its windows, the words and the numbering are those of the stack, and the table has the settled words of its closure
/// graph.
pub fn settled(
    alloc: Global,
    trie: &Trie,
    windows: &Windows<'_>,
    words: &WordSet,
    numbering: &Numbering<'_>,
    stack: &Stack,
    table: &[u64],
) -> Result<Vec<Conflict>, AllocError>
    requires windows { windows.now ≡ trie.now }
    requires words { IsWordSet trie.now words.now }
    requires numbering { numbering.now ≡ numbering_of trie.now words.now }
    requires entries { trie.now ≡ stack.now.outlines }
    requires ends { words_in trie.now words.now ≡ words_in_stack stack.now }
    requires settled { AreSettled 0 (kept_lists trie.now (words_in trie.now words.now)) table.now }
    ensures exact { IfOk result (λ rows.
        AreSettledPairs stack.now.outlines (words_in_stack stack.now) rows.items) }
    ensures conflicts { IfOk result (λ rows.
        HasConflicts stack.now.outlines (words_in_stack stack.now) rows.items) }
    ensures chosen { IfOk result (λ rows.
        AreChosenRows stack.now.outlines (words_in_stack stack.now) table.now rows.items) }
    ensures small { IfOk result (λ rows. AreSmall stack.now.outlines rows.items) }
{
    let count = numbering.count();
    let near = near_of(alloc, trie, words)?;
    let starts = starts_of(alloc, stack.outlines())?;
    let least = first_sums(
        alloc, trie, windows, words, &near, numbering, &starts, table, count,
    )?;
    all_rows(
        alloc,
        trie,
        windows,
        words,
        &near,
        numbering,
        stack,
        table,
        (&starts, &least),
    )
}
