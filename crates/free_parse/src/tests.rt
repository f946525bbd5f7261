//! Small sets of words by their whole texts, and random ones, whose fewest strokes are counted by trying all short
//! lists of strokes.
ghost use Rattle.std.specs.Prelude.{◌≡◌};
ghost use Rattle.steno_rules.specs.WordSets.{IsWordSet};

use crate::{FreeGraph, readings, write_parse};
use closure_state::WordSet;
use dict_json::read_dictionary;
use dict_stack::Stack;
use outline_trie::Trie;
use outside::PlainSink;
use round_core::search_plain;
use std::alloc::Global;
use std::process::Abort;

/// Adds an entry, each of whose strokes is one letter.
fn push_entry(rt: &impl Abort, json: &mut String, entry: &str) {
    json.push_str(if json.len() > 1 { ",\"" } else { "\"" })
        .expect(rt, "memory");
    for (i, letter) in entry.chars().enumerate() {
        if i > 0 {
            json.push('/').expect(rt, "memory");
        }
        json.push(letter).expect(rt, "memory");
    }
    json.push_str("\":\"\"").expect(rt, "memory");
}

/// The dictionary of these entries.
fn dictionary_of(rt: &impl Abort, alloc: Global, entries: &str) -> String {
    let mut json = String::new(alloc);
    json.push('{').expect(rt, "memory");
    for entry in entries.split(' ') {
        if !entry.is_empty() {
            push_entry(rt, &mut json, entry);
        }
    }
    json.push('}').expect(rt, "memory");
    json
}

/// The stack of these words and of other entries.
fn stack_of(rt: &impl Abort, alloc: Global, words: &str, others: &str) -> Stack {
    let mut dictionaries = Vec::new(alloc);
    let mut word_files = Vec::new(alloc);
    for (entries, are_words) in [(words, true), (others, false)] {
        let json = dictionary_of(rt, alloc, entries);
        assert!(rt; json.len() < 1 << 32);
        let dictionary = read_dictionary(alloc, json.as_bytes()).expect(rt, "a dictionary");
        dictionaries.push(dictionary).expect(rt, "memory");
        word_files.push(are_words).expect(rt, "memory");
    }
    assert!(rt; dictionaries.len() <= 16 && word_files.len() == dictionaries.len());
    Stack::new(alloc, dictionaries, word_files).expect(rt, "a stack")
}

/// How many numbers are reached.
fn reached(words: &[u64]) -> u32 {
    let mut states: u32 = 0;
    for &word in words {
        if word != u64::MAX {
            states = states.saturating_add(1);
        }
    }
    states
}

/// How many strokes the two readings have, 0 where there are none, and the text.
fn parsed_over(
    rt: &impl Abort,
    alloc: Global,
    stack: &Stack,
    trie: &Trie,
    words: &WordSet,
) -> (u32, PlainSink)
    requires words { IsWordSet trie.now words.now }
    requires trie { trie.now ≡ stack.now.outlines }
{
    assert!(rt; FreeGraph::fits(trie));
    let graph = FreeGraph::new(alloc, trie, words).expect(rt, "memory");
    let settled = search_plain(alloc, &graph).expect(rt, "memory");
    let states = reached(settled.words());
    let rounds = settled.rounds();
    let mut sink = PlainSink::new(alloc);
    let two = readings(alloc, &graph, settled.words()).expect(rt, "memory");
    write_parse(alloc, &mut sink, stack, states, rounds, two.as_ref()).expect(rt, "memory");
    let strokes = match &two {
        Some(two) => two.strokes(),
        None => 0,
    };
    (strokes, sink)
}

/// The same of a stack.
fn parsed(rt: &impl Abort, alloc: Global, words: &str, others: &str) -> (u32, PlainSink) {
    let stack = stack_of(rt, alloc, words, others);
    let trie = Trie::new(alloc, stack.outlines()).expect(rt, "a trie");
    let set = WordSet::new(alloc, &trie, stack.words()).expect(rt, "memory");
    parsed_over(rt, alloc, &stack, &trie, &set)
}

#[test]
fn texts(rt: HostRuntime) {
    let cases = [
        ("", "", "entries 0\nstates 1\nrounds 1\nfree yes\n"),
        (
            "S ST TKP PW W",
            "",
            "entries 5\nstates 7\nrounds 3\nfree yes\n",
        ),
        (
            "S STK T K",
            "",
            "entries 4\nstates 6\nrounds 4\nfree no strokes 3\nfirst S | T | K\nsecond S/T/K\n",
        ),
        // An entry that is no word isn't read.
        ("S STK K", "T", "entries 4\nstates 4\nrounds 3\nfree yes\n"),
        // Readings of more strokes than any word has, the first one not always by the lesser numbers.
        (
            "ST STT TS TST",
            "",
            "entries 4\nstates 12\nrounds 6\nfree no strokes 5\nfirst S/T | T/S/T\nsecond S/T/T | S/T\n",
        ),
        (
            "SS SST TS TT",
            "",
            "entries 4\nstates 8\nrounds 6\nfree yes\n",
        ),
    ];
    for (words, others, text) in cases {
        let (_, sink) = parsed(&rt, rt.alloc(), words, others);
        assert!(rt; sink.text() == text.as_bytes(), "of {words}");
    }
}

/// How many lists of these words have these strokes, where so many have the first ones: of none, of one and so on.
fn lists_behind(words: &str, strokes: &[u8], lists: &[u32]) -> u32 {
    let mut ways: u32 = 0;
    for word in words.split(' ') {
        if !word.is_empty() && strokes.ends_with(word.as_bytes()) {
            let before = lists.get(strokes.len() - word.len()).copied().unwrap_or(0);
            ways = ways.saturating_add(before);
        }
    }
    ways
}

/// How many lists of these words have these strokes.
fn lists_of(rt: &impl Abort, alloc: Global, words: &str, strokes: &[u8]) -> u32 {
    let mut lists = Vec::new(alloc);
    lists.push(1_u32).expect(rt, "memory");
    for end in 1..=strokes.len() {
        let ways = lists_behind(words, &strokes[..end], &lists);
        lists.push(ways).expect(rt, "memory");
    }
    lists.last().copied().unwrap_or(0)
}

/// So many strokes, S or T by the bits of a number.
fn strokes_by(rt: &impl Abort, alloc: Global, bits: u32, len: u32) -> Vec<u8> {
    let mut strokes = Vec::new(alloc);
    let mut rest = bits;
    for _place in 0..len {
        let letter = if rest % 2 == 0 { b'S' } else { b'T' };
        strokes.push(letter).expect(rt, "memory");
        rest /= 2;
    }
    strokes
}

/// Whether some strokes, so many of them, can be read as these words in two ways.
fn are_read_twice(rt: &impl Abort, alloc: Global, words: &str, len: u32) -> bool {
    for bits in 0..128 {
        let strokes = strokes_by(rt, alloc, bits, len);
        if lists_of(rt, alloc, words, &strokes) > 1 {
            return true;
        }
    }
    false
}

/// The fewest strokes, at most 7, that can be read as these words in two ways; 0 where there are none.
fn fewest(rt: &impl Abort, alloc: Global, words: &str) -> u32 {
    for len in 1..8 {
        if are_read_twice(rt, alloc, words, len) {
            return len;
        }
    }
    0
}

/// Some of these words: each fourth one or so.
fn some_of(rt: &impl Abort, alloc: Global, words: &str, seed: u32) -> String {
    let mut some = String::new(alloc);
    let mut random = seed;
    for word in words.split(' ') {
        random = random.wrapping_mul(1_664_525).wrapping_add(1_013_904_223);
        if random >> 30 == 0 {
            some.push_str(word).expect(rt, "memory");
            some.push(' ').expect(rt, "memory");
        }
    }
    some
}

#[test]
fn random_words(rt: HostRuntime) {
    let all = "S T SS ST TS TT SSS SST STS STT TSS TST TTS TTT";
    for seed in 0..40 {
        let words = some_of(&rt, rt.alloc(), all, seed);
        let (strokes, _) = parsed(&rt, rt.alloc(), words.as_str(), "");
        let few = if strokes < 8 { strokes } else { 0 };
        assert_eq!(rt; few, fewest(&rt, rt.alloc(), words.as_str()), "of {words}");
    }
}
