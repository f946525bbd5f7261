//! The worked examples, with the plain test of what words show.
ghost use Rattle.std.specs.Prelude.{◌≡◌};
ghost use Rattle.longest_match.specs.Rows.{AreSmall, IsSmall};

use crate::conflicts;
use closure_state::WordSet;
use dict_json::read_dictionary;
use dict_stack::Stack;
use longest_match::{Conflict, shows};
use match_window::Windows;
use outline_trie::Trie;
use round_core::search_plain;
use state_numbering::{ClosureGraph, Numbering};
use std::alloc::Global;
use std::process::Abort;

/// The stack of a dictionary, and of a match file below it.
fn stack_of(rt: &impl Abort, alloc: Global, word_file: &str, match_file: &str) -> Stack {
    let mut dictionaries = Vec::new(alloc);
    for text in [word_file, match_file] {
        assert!(rt; text.len() < 1 << 32);
        let Ok(dictionary) = read_dictionary(alloc, text.as_bytes()) else {
            panic!(rt; "a file is no dictionary")
        };
        dictionaries.push(dictionary).expect(rt, "memory");
    }
    let mut word_files = Vec::new(alloc);
    word_files.push(true).expect(rt, "memory");
    word_files.push(false).expect(rt, "memory");
    assert!(rt; dictionaries.len() <= 16 && word_files.len() == dictionaries.len());
    Stack::new(alloc, dictionaries, word_files).expect(rt, "a stack")
}

/// The conflicts of a stack, by the plain search.
fn found(rt: &impl Abort, alloc: Global, stack: &Stack) -> Vec<Conflict>
    ensures { AreSmall stack.now.outlines result.items }
{
    let trie = Trie::new(alloc, stack.outlines()).expect(rt, "a trie");
    let windows = Windows::new(alloc, &trie).expect(rt, "memory");
    let words = WordSet::new(alloc, &trie, stack.words()).expect(rt, "memory");
    let numbering = Numbering::new(alloc, &trie, &windows, &words).expect(rt, "a numbering");
    let settled = search_plain(alloc, &ClosureGraph::new(&numbering)).expect(rt, "memory");
    conflicts(alloc, &numbering, stack, settled.words()).expect(rt, "memory")
}

/// Whether the row's words show its pair, by the plain program.
fn is_shown(rt: &impl Abort, alloc: Global, stack: &Stack, row: &Conflict) -> bool
    requires { IsSmall stack.now.outlines row.now }
{
    shows(
        alloc,
        stack.outlines(),
        row.words(),
        row.entry(),
        row.place(),
    )
    .expect(rt, "memory")
}

/// Rows as a text: of each its entry, place and strokes, and the numbers of its words.
fn text_of(rt: &impl Abort, alloc: Global, rows: &[Conflict]) -> String {
    let mut text = String::new(alloc);
    for row in rows {
        let head = format!(in alloc; "{} {} {}:", row.entry(), row.place(), row.strokes());
        text.push_str(&head.expect(rt, "memory"))
            .expect(rt, "memory");
        for word in row.words() {
            let number = format!(in alloc; " {word}");
            text.push_str(&number.expect(rt, "memory"))
                .expect(rt, "memory");
        }
        text.push_str(", ").expect(rt, "memory");
    }
    text
}

/// Checks the conflicts of a dictionary and of a match file.
fn check(rt: &impl Abort, word_file: &str, match_file: &str, alloc: Global, expected: &str) {
    let stack = stack_of(rt, alloc, word_file, match_file);
    let rows = found(rt, alloc, &stack);
    for row in &rows {
        assert!(rt;
            is_shown(rt, alloc, &stack, row),
            "a row's words don't show its pair"
        );
    }
    assert_eq!(rt;
        text_of(rt, alloc, &rows).as_str(),
        expected,
        "of {word_file}"
    );
}

#[test]
fn worked_examples(rt: HostRuntime) {
    let cases = [
        ("{}", "{}", ""),
        // Out of step: S, S/T, T/K/P, P/W and W.
        (
            "{\"S\": \"is\", \"S/T\": \"ist\", \"T/K/P\": \"tkp\", \"W\": \"we\", \"P/W\": \"pw\"}",
            "{}",
            "3 1 5: 0 2 4, ",
        ),
        // A mark that isn't the last boundary: S, S/T/K, T and K.
        (
            "{\"S\": \"s\", \"T\": \"t\", \"K\": \"k\", \"S/T/K\": \"stick\"}",
            "{}",
            "1 1 3: 0 2 3, 1 2 3: 0 2 3, ",
        ),
        // One word twice.
        ("{\"S\": \"a\", \"S/S\": \"b\"}", "{}", "1 1 2: 0 0, "),
        // An entry that is no word has conflicts too, but no example has it.
        ("{\"S\": \"a\"}", "{\"S/S\": \"b\"}", "1 1 2: 0 0, "),
        ("{\"S/S\": \"b\"}", "{\"S\": \"a\"}", ""),
    ];
    for (word_file, match_file, expected) in cases {
        check(&rt, word_file, match_file, rt.alloc(), expected);
    }
}
