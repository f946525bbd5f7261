//! The worked examples by pushes and by whole lists, and the translator beside the plain program.
ghost use Rattle.std.specs.Prelude.{◌≡◌, ◌<◌, All, IsTrue};

use crate::{Merge, Translator, shows, translate};
use longest_match::{segment, shows as shows_plainly};
use outline_trie::Trie;
use std::alloc::{AllocError, Global};
use std::marker::Brand;
use std::process::Abort;
use std::sync::ledger::{Blank, Ledger};
use steps::Steps;
use stroke::{Outline, Piece, Stroke, are_entries};

const S: u32 = 2;

const T: u32 = 4;

const K: u32 = 8;

const P: u32 = 16;

const W: u32 = 32;

const H: u32 = 64;

/// The strokes of these codes.
fn strokes_of(rt: &impl Abort, alloc: Global, codes: &[u32]) -> Result<Vec<Stroke>, AllocError> {
    let mut strokes = Vec::new(alloc);
    for code in codes {
        strokes.push(Stroke::new(*code).expect(rt, "a code of a stroke"))?;
    }
    Ok(strokes)
}

/// The entries of these codes.
fn entries_of(
    rt: &impl Abort,
    alloc: Global,
    table: &[&[u32]],
) -> Result<Vec<Outline>, AllocError> {
    let mut entries = Vec::new(alloc);
    for codes in table {
        let strokes = strokes_of(rt, alloc, codes)?;
        assert!(rt; strokes.len() <= 64);
        entries.push(Outline::from_strokes(alloc, &strokes)?)?;
    }
    Ok(entries)
}

/// Pushes the strokes, looks at each answer, and then at the pieces of the window.
fn check_pushes<L: Ledger>(
    rt: &impl Abort,
    mut translator: Translator<'_>,
    strokes: &[Stroke],
    answers: &[Merge],
    window: &[Piece],
    blank: Blank,
)
    requires name { blank.name ≡ L.name }
    requires parts { blank.parts ≡ L.parts }
    requires some { 0 < L.parts }
{
    let mut steps: Steps<L> = Steps::new(blank);
    assert_eq!(rt; strokes.len(), answers.len());
    for (stroke, answer) in strokes.iter().zip(answers) {
        assert_eq!(rt; translator.push(*stroke, &mut steps), *answer);
    }
    assert_eq!(rt; translator.pieces(), window);
}

/// A list of S and T by its number: all lists of up to 6 strokes have a number below 128.
fn numbered_list(rt: &impl Abort, alloc: Global, number: u32) -> Result<Vec<Stroke>, AllocError> {
    let mut strokes = Vec::new(alloc);
    let mut rest = number;
    for _ in 0..6 {
        if rest > 1 {
            let code = if rest % 2 == 0 { S } else { T };
            strokes.push(Stroke::new(code).expect(rt, "a code of a stroke"))?;
            rest /= 2;
        }
    }
    Ok(strokes)
}

/// A piece of one stroke.
const fn lone(entry: Option<u32>) -> Piece {
    Piece { len: 1, entry }
}

/// A piece that is an entry of so many strokes.
const fn whole(len: u32, entry: u32) -> Piece {
    Piece {
        len,
        entry: Some(entry),
    }
}

/// What a push answers.
const fn answer(replaced: u32, piece: Piece) -> Merge {
    Merge { replaced, piece }
}

#[test]
fn pushes_answer_what_changes(rt: HostRuntime) -> Result<(), AllocError> {
    let alloc = rt.alloc();
    let cases: [(&[&[u32]], &[u32], &[Merge], &[Piece]); 4] = [
        (
            &[&[S], &[S, T, K], &[T], &[K]],
            &[S, T, K],
            &[
                answer(0, lone(Some(0))),
                answer(0, lone(Some(2))),
                answer(2, whole(3, 1)),
            ],
            &[whole(3, 1)],
        ),
        (
            &[&[S], &[S, S]],
            &[S, S, S],
            &[
                answer(0, lone(Some(0))),
                answer(1, whole(2, 1)),
                answer(0, lone(Some(0))),
            ],
            &[lone(Some(0))],
        ),
        (
            &[&[S]],
            &[S, H],
            &[answer(0, lone(Some(0))), answer(0, lone(None))],
            &[],
        ),
        (
            &[&[S], &[S, T], &[T, K, P], &[P, W], &[W]],
            &[S, T, K, P],
            &[
                answer(0, lone(Some(0))),
                answer(1, whole(2, 1)),
                answer(0, lone(None)),
                answer(0, lone(None)),
            ],
            &[lone(None)],
        ),
    ];
    for (table, codes, answers, window) in cases {
        let entries = entries_of(&rt, alloc, table)?;
        assert!(rt; entries.len() < 100 && are_entries(&entries));
        let trie = Trie::new(alloc, &entries).expect(&rt, "a trie");
        let strokes = strokes_of(&rt, alloc, codes)?;
        let translator = Translator::new(alloc, &trie)?;
        check_pushes::<Brand>(&rt, translator, &strokes, answers, window, Blank::new(1));
    }
    Ok(())
}

#[test]
fn lists_are_cut_as_by_the_plain_program(rt: HostRuntime) -> Result<(), AllocError> {
    let alloc = rt.alloc();
    let tables: [&[&[u32]]; 7] = [
        &[],
        &[&[S]],
        &[&[S], &[S, S]],
        &[&[S], &[S, T, S], &[T]],
        &[&[S, S, T], &[T, S], &[T, T, T, T]],
        &[&[S, T], &[T, S, S], &[T, T]],
        &[&[S], &[S, S, S, S, S], &[T, S, T]],
    ];
    for table in tables {
        let entries = entries_of(&rt, alloc, table)?;
        assert!(rt; entries.len() < 100 && are_entries(&entries));
        let trie = Trie::new(alloc, &entries).expect(&rt, "a trie");
        for number in 1..128 {
            let strokes = numbered_list(&rt, alloc, number)?;
            assert!(rt; strokes.len() < 100);
            let pieces = translate(alloc, &trie, &strokes)?;
            assert!(rt; pieces == segment(alloc, &entries, &strokes)?);
        }
    }
    Ok(())
}

#[test]
fn pieces_out_of_step(rt: HostRuntime) -> Result<(), AllocError> {
    let alloc = rt.alloc();
    let entries = entries_of(&rt, alloc, &[&[S], &[S, T], &[T, K, P], &[P, W], &[W]])?;
    assert!(rt; entries.len() < 100 && are_entries(&entries));
    let trie = Trie::new(alloc, &entries).expect(&rt, "a trie");
    let strokes = strokes_of(&rt, alloc, &[S, T, K, P, W])?;
    let pieces = translate(alloc, &trie, &strokes)?;
    assert!(rt; pieces.as_slice() == [whole(2, 1), lone(None), whole(2, 3)].as_slice());
    Ok(())
}

/// Whether the words are numbers of so many entries.
fn are_numbers(words: &[u32], count: usize) -> bool
    ensures { IsTrue result → All (λ w. w < count) words.now }
{
    words.iter().all(|word| (*word as usize) < count)
}

#[test]
fn words_show_places_as_by_the_plain_program(rt: HostRuntime) -> Result<(), AllocError> {
    let alloc = rt.alloc();
    let merging: &[&[u32]] = &[&[S], &[S, T, K], &[T], &[K]];
    let out_of_step: &[&[u32]] = &[&[S], &[S, T], &[T, K, P], &[P, W], &[W]];
    let twice: &[&[u32]] = &[&[S], &[S, S]];
    let cases: [(&[&[u32]], &[u32], u32, u8, bool); 8] = [
        (out_of_step, &[0, 2, 4], 3, 1, true),
        (out_of_step, &[0, 2, 4], 3, 2, false),
        (out_of_step, &[0, 2, 4], 3, 0, false),
        (merging, &[0, 2, 3], 1, 1, true),
        (merging, &[0, 2, 3], 1, 2, true),
        (twice, &[0, 0], 1, 1, true),
        (twice, &[1], 1, 1, false),
        (twice, &[], 1, 1, false),
    ];
    for (table, words, entry, place, want) in cases {
        let entries = entries_of(&rt, alloc, table)?;
        assert!(rt; entries.len() < 100 && are_entries(&entries));
        assert!(rt; words.len() < 100 && are_numbers(words, entries.len()));
        assert!(rt; (entry as usize) < entries.len());
        let trie = Trie::new(alloc, &entries).expect(&rt, "a trie");
        assert_eq!(rt; shows(alloc, &trie, &entries, words, entry, place)?, want);
        assert_eq!(rt; shows_plainly(alloc, &entries, words, entry, place)?, want);
    }
    Ok(())
}
