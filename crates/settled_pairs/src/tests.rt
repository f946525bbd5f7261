//! The worked examples, and small stacks beside a plain search over sequences of words.
ghost use Rattle.std.specs.Prelude.{◌≡◌};
ghost use Rattle.steno_rules.specs.WordSets.{IsWordSet, words_in};
ghost use Rattle.longest_match.specs.Rows.{AreSmall};
ghost use Rattle.state_numbering.specs.Numberings.{numbering_of};

use crate::plain::{Found, keep_pairs, plain_pairs};
use crate::sums::open_hit;
use crate::{Finish, finish, settled};
use closure_state::WordSet;
use dict_json::read_dictionary;
use dict_stack::Stack;
use longest_match::Conflict;
use match_window::Windows;
use outline_trie::Trie;
use round_core::search_plain;
use state_numbering::{ClosureGraph, Numbering};
use std::alloc::Global;
use std::process::Abort;

/// The stack of a dictionary, and of a match file below it.
fn stack_of(rt: &impl Abort, alloc: Global, word_file: &str, match_file: &str) -> Stack {
    let mut dictionaries = Vec::new(alloc);
    for text in [word_file, match_file] {
        assert!(rt; text.len() < 1 << 32);
        let Ok(dictionary) = read_dictionary(alloc, text.as_bytes()) else {
            panic!(rt; "a file is no dictionary")
        };
        dictionaries.push(dictionary).expect(rt, "memory");
    }
    let mut word_files = Vec::new(alloc);
    word_files.push(true).expect(rt, "memory");
    word_files.push(false).expect(rt, "memory");
    assert!(rt; dictionaries.len() <= 16 && word_files.len() == dictionaries.len());
    Stack::new(alloc, dictionaries, word_files).expect(rt, "a stack")
}

/// The pairs of a stack that stay, by the plain search of the closure.
fn found(rt: &impl Abort, alloc: Global, stack: &Stack) -> Vec<Conflict>
    ensures { AreSmall stack.now.outlines result.items }
{
    let trie = Trie::new(alloc, stack.outlines()).expect(rt, "a trie");
    let windows = Windows::new(alloc, &trie).expect(rt, "memory");
    let words = WordSet::new(alloc, &trie, stack.words()).expect(rt, "memory");
    let numbering = Numbering::new(alloc, &trie, &windows, &words).expect(rt, "a numbering");
    let table = search_plain(alloc, &ClosureGraph::new(&numbering)).expect(rt, "memory");
    settled(
        alloc,
        &trie,
        &windows,
        &words,
        &numbering,
        stack,
        table.words(),
    )
    .expect(rt, "memory")
}

/// Adds a row to a text: its entry, place and strokes, and the numbers of its words.
fn push_row(rt: &impl Abort, alloc: Global, row: &Conflict, text: &mut String) {
    let head = format!(in alloc; "{} {} {}:", row.entry(), row.place(), row.strokes());
    text.push_str(&head.expect(rt, "memory"))
        .expect(rt, "memory");
    for word in row.words() {
        let number = format!(in alloc; " {word}");
        text.push_str(&number.expect(rt, "memory"))
            .expect(rt, "memory");
    }
    text.push_str(", ").expect(rt, "memory");
}

/// Rows as a text.
fn text_of(rt: &impl Abort, alloc: Global, rows: &[Conflict]) -> String {
    let mut text = String::new(alloc);
    for row in rows {
        push_row(rt, alloc, row, &mut text);
    }
    text
}

#[test]
fn worked_examples(rt: HostRuntime) {
    let cases = [
        ("{}", "{}", ""),
        // Out of step: S, S/T, T/K/P, P/W and W.
        (
            "{\"S\": \"is\", \"S/T\": \"ist\", \"T/K/P\": \"tkp\", \"W\": \"we\", \"P/W\": \"pw\"}",
            "{}",
            "1 1 4: 0 2, 3 1 5: 0 2 4, ",
        ),
        // The usual case, in which the second word is ended with no stroke.
        ("{\"S\": \"a\", \"S/S\": \"b\"}", "{}", "1 1 2: 0 0, "),
        // An entry that is no word stays too, but no example has it.
        ("{\"S\": \"a\"}", "{\"S/S\": \"b\"}", "1 1 2: 0 0, "),
        ("{\"S/S\": \"b\"}", "{\"S\": \"a\"}", ""),
        // What ends the open word is swallowed too: S/T/K, so S/T doesn't stay there.
        (
            "{\"S\": \"s\", \"S/T\": \"st\", \"T/K\": \"tk\", \"S/T/K\": \"stk\"}",
            "{}",
            "2 1 3: 0 3, ",
        ),
    ];
    for (word_file, match_file, expected) in cases {
        let stack = stack_of(&rt, rt.alloc(), word_file, match_file);
        let rows = found(&rt, rt.alloc(), &stack);
        assert_eq!(rt;
            text_of(&rt, rt.alloc(), &rows).as_str(),
            expected,
            "of {word_file}"
        );
    }
}

/// The finish of a number's state over the trie of a stack. The state is an open hit.
fn finish_of(rt: &impl Abort, alloc: Global, stack: &Stack, number: u32) -> Option<Finish> {
    let trie = Trie::new(alloc, stack.outlines()).expect(rt, "a trie");
    let windows = Windows::new(alloc, &trie).expect(rt, "memory");
    let words = WordSet::new(alloc, &trie, stack.words()).expect(rt, "memory");
    let numbering = Numbering::new(alloc, &trie, &windows, &words).expect(rt, "a numbering");
    let state = numbering.state(number).expect(rt, "a state");
    match open_hit(&trie, &windows, &state) {
        Some(_hit) => finish(alloc, &trie, &windows, &words, &state).expect(rt, "memory"),
        None => None,
    }
}

#[test]
fn finishes(rt: HostRuntime) {
    let alloc = rt.alloc();
    let file =
        "{\"S\": \"is\", \"S/T\": \"ist\", \"T/K/P\": \"tkp\", \"W\": \"we\", \"P/W\": \"pw\"}";
    let stack = stack_of(&rt, alloc, file, "{}");
    // S/T is written, T is open, and the boundary was one stroke ago: K/P ends T/K/P.
    let ended = Finish {
        strokes: 2,
        word: Some(2),
    };
    assert_eq!(rt; finish_of(&rt, alloc, &stack, 12), Some(ended));
}

/// A number below n from a seed, which goes on.
fn below(seed: &mut u32, n: u32) -> u32 {
    *seed = seed.wrapping_mul(1_664_525).wrapping_add(1_013_904_223);
    if n == 0 { 0 } else { (*seed >> 16) % n }
}

/// Adds an outline of one to four strokes, of three strokes that there are.
fn push_outline(rt: &impl Abort, seed: &mut u32, text: &mut String) {
    let len = below(seed, 4).saturating_add(1);
    for place in 0..len {
        if place != 0 {
            text.push_str("/").expect(rt, "memory");
        }
        let letter = match below(seed, 3) {
            0 => "S",
            1 => "T",
            _ => "K",
        };
        text.push_str(letter).expect(rt, "memory");
    }
}

/// A file of so many outlines.
fn file_of(rt: &impl Abort, alloc: Global, seed: &mut u32, count: u32) -> String {
    let mut text = String::new(alloc);
    text.push_str("{").expect(rt, "memory");
    for entry in 0..count {
        text.push_str(if entry == 0 { "\"" } else { ", \"" })
            .expect(rt, "memory");
        push_outline(rt, seed, &mut text);
        text.push_str("\": \"x\"").expect(rt, "memory");
    }
    text.push_str("}").expect(rt, "memory");
    text
}

/// Whether a row is right beside the pairs of sequences of up to six words: a pair of so few words has just as many
/// strokes.
fn agrees(row: &Conflict, plain: &[Found]) -> bool {
    for pair in plain {
        if pair.entry == row.entry() && pair.place == u32::from(row.place()) {
            return if row.words().len() <= 6 {
                pair.strokes == row.strokes()
            } else {
                row.strokes() <= pair.strokes
            };
        }
    }
    row.words().len() > 6
}

/// Whether some row has the pair.
fn has(rows: &[Conflict], pair: &Found) -> bool {
    rows.iter().any(|row| pair.entry == row.entry() && pair.place == u32::from(row.place()))
}

/// Whether the row's words have its pair, by the plain program.
fn is_had(rt: &impl Abort, alloc: Global, stack: &Stack, row: &Conflict) -> bool {
    let mut found = Vec::new(alloc);
    keep_pairs(rt, alloc, stack, row.words(), &mut found);
    found.iter().any(|pair| {
        pair.entry == row.entry()
            && pair.place == u32::from(row.place())
            && pair.strokes == row.strokes()
    })
}

/// Compares the rows of a stack with those of the plain program.
fn compare(rt: &impl Abort, alloc: Global, word_file: &str, match_file: &str) {
    let stack = stack_of(rt, alloc, word_file, match_file);
    let rows = found(rt, alloc, &stack);
    let plain = plain_pairs(rt, alloc, &stack, 6);
    for row in &rows {
        assert!(rt;
            agrees(row, &plain),
            "strokes of a row of {word_file} {match_file}"
        );
        assert!(rt;
            is_had(rt, alloc, &stack, row),
            "words of a row of {word_file}"
        );
    }
    for pair in &plain {
        assert!(rt;
            has(&rows, pair),
            "a pair of {word_file} {match_file} is lost"
        );
    }
}

#[test]
fn small_stacks(rt: HostRuntime) {
    let mut seed: u32 = 7;
    for turn in 0..24 {
        let word_file = file_of(&rt, rt.alloc(), &mut seed, 3);
        let match_file = file_of(&rt, rt.alloc(), &mut seed, turn % 3);
        compare(&rt, rt.alloc(), &word_file, &match_file);
    }
}
