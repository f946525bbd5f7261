//! The certificate of a small stack in both versions, and changes of it, each of which is rejected.

use crate::{CheckDone, CheckFault, check};
use closure_state::WordSet;
use dict_json::read_dictionary;
use dict_stack::Stack;
use match_window::Windows;
use outline_trie::Trie;
use outside::MemFiles;
use state_numbering::Numbering;
use std::alloc::Global;
use std::process::Abort;

/// Out of step: the entries S, S/T, T/K/P, P/W and W.
const OUT_OF_STEP: &str =
    "{\"S\": \"is\", \"S/T\": \"ist\", \"T/K/P\": \"tkp\", \"W\": \"we\", \"P/W\": \"pw\"}";

/// Their certificate in version 1.
const VERSION_1: &str =
    "boundary-certificate 1\nentries 5\nstates 54\nd 0 0\nd 1 1\nd 2 1\nd 4 1\nd 5 2\nd 6 2\nd 10 2\nd 12 2\nd 14 1\nd 19 2\nd 20 3\nd 25 3\nd 32 3\nd 38 4\nd 39 1\nd 41 4\nd 42 2\nd 47 2\nd 48 5\nd 50 1\nd 53 1\nconflicts 1\nr 3 1 5 0 2 4\nend\n";

/// And in version 2.
const VERSION_2: &str =
    "boundary-certificate 2\nentries 5\nstates 54\ng 0 0 0\ng 1 2 1\ng 4 4 1\ng 5 6 2\ng 10 10 2\ng 12 12 2\ng 14 14 1\ng 19 19 2\ng 20 20 3\ng 25 25 3\ng 32 32 3\ng 38 38 4\ng 39 39 1\ng 41 41 4\ng 42 42 2\ng 47 47 2\ng 48 48 5\ng 50 50 1\ng 53 53 1\nconflicts 1\nr 3 1 5 0 2 4\nend\n";

/// The stack of a dictionary.
fn stack_of(rt: &impl Abort, alloc: Global, text: &str) -> Stack {
    assert!(rt; text.len() < 1 << 32);
    let Ok(dictionary) = read_dictionary(alloc, text.as_bytes()) else {
        panic!(rt; "the file is no dictionary")
    };
    let mut dictionaries = Vec::new(alloc);
    dictionaries.push(dictionary).expect(rt, "memory");
    let mut word_files = Vec::new(alloc);
    word_files.push(true).expect(rt, "memory");
    assert!(rt; dictionaries.len() <= 16 && word_files.len() == dictionaries.len());
    Stack::new(alloc, dictionaries, word_files).expect(rt, "a stack")
}

/// What comes of checking this text.
fn answer(
    rt: &impl Abort,
    alloc: Global,
    stack: &Stack,
    certificate: &str,
) -> Result<CheckDone, CheckFault> {
    let trie = Trie::new(alloc, stack.outlines()).expect(rt, "a trie");
    let windows = Windows::new(alloc, &trie).expect(rt, "memory");
    let words = WordSet::new(alloc, &trie, stack.words()).expect(rt, "memory");
    let numbering = Numbering::new(alloc, &trie, &windows, &words).expect(rt, "a numbering");
    let mut files = MemFiles::new(alloc);
    files
        .add("c.txt", certificate.as_bytes())
        .expect(rt, "memory");
    check(alloc, stack, &trie, &numbering, &mut files, "c.txt")
}

/// A change a line: the version, a part of its certificate, what stands in that place, and the line and the reason of
/// the rejection, with `|` between them. `;` is a line feed.
const CHANGES: &str = "\
1|certificate 1|certificate 3|1 Form
1|entries 5|entries 4|2 Entries
1|states 54|states 55|3 States
1|d 0 0|d 0 1|25 Start
1|d 1 1;|d 1 01;|5 Form
1|d 1 1;|d 1 1;d 1 1;|6 Number
1|d 6 2;|d 6 2;d 7 2;|10 Number
1|d 6 2|d 6 3|5 Move
1|d 48 5;||19 Move
1|d 48 5|d 48 4|26 Row
1|1;r 3 1 5 0 2 4;|0;|25 Count
1|r 3 1 5 0 2 4;||26 Form
1|5 0 2 4|4 0 2 4|26 Row
1|5 0 2 4|5 0 2 3|26 Row
1|5 0 2 4|5 0 2 9|26 Row
1|end;|end|27 Form
1|end;|end;x;|28 Rest
2|g 5 6 2|g 5 6 3|5 Move
2|g 5 6 2|g 6 5 2|7 Form
2|g 5 6 2|d 5 2|7 Form";

/// The text with a line feed in place of each `;`.
fn unfolded(rt: &impl Abort, alloc: Global, text: &str) -> String {
    let mut unfolded = String::new(alloc);
    for (i, line) in text.split(';').enumerate() {
        if i > 0 {
            unfolded.push('\n').expect(rt, "memory");
        }
        unfolded.push_str(line).expect(rt, "memory");
    }
    unfolded
}

/// The parts of a row before its first bar and behind it.
fn cut<'a>(rt: &impl Abort, row: &'a str) -> (&'a str, &'a str) {
    row.split_once('|').expect(rt, "a bar")
}

/// The text with the first of these parts replaced by the second.
fn changed(rt: &impl Abort, alloc: Global, text: &str, old: &str, new: &str) -> String {
    let (before, after) = text.split_once(old).expect(rt, "the part");
    format!(in alloc; "{before}{new}{after}").expect(rt, "memory")
}

/// The line and the reason of a rejection.
fn told(rt: &impl Abort, alloc: Global, found: Result<CheckDone, CheckFault>) -> String {
    match found {
        Err(CheckFault::Rejected { line, why }) => {
            format!(in alloc; "{line} {why:?}").expect(rt, "memory")
        }
        other => format!(in alloc; "{other:?}").expect(rt, "memory"),
    }
}

/// Checks the certificate of a row's version with the row's change.
fn check_row(rt: &impl Abort, alloc: Global, stack: &Stack, row: &str) {
    let (version, row) = cut(rt, row);
    let (old, row) = cut(rt, row);
    let (new, want) = cut(rt, row);
    let text = if version == "1" { VERSION_1 } else { VERSION_2 };
    let old = unfolded(rt, alloc, old);
    let new = unfolded(rt, alloc, new);
    let certificate = changed(rt, alloc, text, &old, &new);
    let found = told(rt, alloc, answer(rt, alloc, stack, &certificate));
    assert!(rt; found.as_str() == want, "{old} and {new}: {found}");
}

#[test]
fn both_versions_are_accepted(rt: HostRuntime) {
    let stack = stack_of(&rt, rt.alloc(), OUT_OF_STEP);
    for certificate in [VERSION_1, VERSION_2] {
        let found = answer(&rt, rt.alloc(), &stack, certificate);
        assert_eq!(rt; found, Ok(CheckDone { conflicts: 1 }));
    }
}

#[test]
fn forged_certificates(rt: HostRuntime) {
    let stack = stack_of(&rt, rt.alloc(), OUT_OF_STEP);
    for row in CHANGES.lines() {
        check_row(&rt, rt.alloc(), &stack, row);
    }
    let found = answer(&rt, rt.alloc(), &stack, "");
    assert!(rt; told(&rt, rt.alloc(), found).as_str() == "1 Form");
}
