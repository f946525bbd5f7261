//! Worked examples with one worker and with several, and that two briefs are tried beside each other.

ghost use Rattle.std.specs.Prelude.{◌<◌, All, length};

use crate::{Trial, try_briefs};
use dict_json::read_dictionary;
use dict_stack::Stack;
use std::alloc::Global;
use std::marker::Sync;
use std::process::Abort;
use std::sync::Wait;
use std::sync::atomic::{AtomicU64, Ordering};
use std::test::*;
use std::thread;
use std::thread::Threads;
use steal_rounds::{Gate, NoGate};
use steno_order::read_outline;
use stroke::Outline;

/// The stack of one dictionary.
fn stack_of(rt: &impl Abort, alloc: Global, text: &str) -> Stack {
    assert!(rt; text.len() < 1 << 32);
    let Ok(dictionary) = read_dictionary(alloc, text.as_bytes()) else {
        panic!(rt; "the file is no dictionary")
    };
    let mut dictionaries = Vec::new(alloc);
    dictionaries.push(dictionary).expect(rt, "memory");
    let mut word_files = Vec::new(alloc);
    word_files.push(true).expect(rt, "memory");
    assert!(rt; dictionaries.len() <= 16 && word_files.len() == dictionaries.len());
    Stack::new(alloc, dictionaries, word_files).expect(rt, "a stack")
}

/// The outlines of texts with a comma between them.
fn outlines_of(rt: &impl Abort, alloc: Global, texts: &str) -> Vec<Outline>
    ensures { All (λ outline. 0 < length outline) result.items }
{
    let mut outlines = Vec::new(alloc);
    for text in texts.split(',') {
        assert!(rt; text.len() < 1 << 32);
        let Ok(outline) = read_outline(alloc, text) else {
            panic!(rt; "an outline can't be read")
        };
        outlines.push(outline).expect(rt, "memory");
    }
    outlines
}

/// Trials as a text: of each its entry, whether it was one before, and of each conflict the place, the strokes and the
/// numbers of the words.
fn text_of(rt: &impl Abort, alloc: Global, trials: &[Trial]) -> String {
    let mut text = String::new(alloc);
    for trial in trials {
        let held = if trial.held() { "held" } else { "new" };
        let head = format!(in alloc; "{} {held}:", trial.entry());
        text.push_str(&head.expect(rt, "memory"))
            .expect(rt, "memory");
        for row in trial.conflicts() {
            let pair = format!(in alloc; " {} {} of", row.place(), row.strokes());
            text.push_str(&pair.expect(rt, "memory"))
                .expect(rt, "memory");
            for word in row.words() {
                let number = format!(in alloc; " {word}");
                text.push_str(&number.expect(rt, "memory"))
                    .expect(rt, "memory");
            }
        }
        text.push_str(", ").expect(rt, "memory");
    }
    text
}

/// Tries briefs over the stack of a dictionary.
fn tried<R: Abort + Threads + Wait + Sync, K: Gate + Sync>(
    rt: &R,
    alloc: Global,
    dictionary: &str,
    briefs: &str,
    workers: u32,
    gate: &K,
) -> String {
    let stack = stack_of(rt, alloc, dictionary);
    let outlines = outlines_of(rt, alloc, briefs);
    assert!(rt; 1 <= workers && workers <= 4);
    assert!(rt; 1 <= outlines.len() && outlines.len() <= 32);
    let Ok(trials) = try_briefs(rt, alloc, &stack, &outlines, workers, gate) else {
        panic!(rt; "the briefs aren't tried")
    };
    text_of(rt, alloc, &trials)
}

const CAT_AND_TELL: &str = "{\"KAT\": \"cat\", \"TEL\": \"tell\"}";

#[test]
fn each_number_of_workers_finds_the_same(rt: HostRuntime) {
    // TEL comes before KAT, and the numbers are those of each brief's trial stack.
    let cases = [
        (
            CAT_AND_TELL,
            "KAT/TEL,TEL/KAT,S",
            "2 new: 1 2 of 1 0, 1 new: 1 2 of 0 2, 0 new:, ",
        ),
        (CAT_AND_TELL, "S", "0 new:, "),
        // An entry already.
        (
            "{\"S\": \"a\", \"S/S\": \"b\"}",
            "S/S",
            "1 held: 1 2 of 0 0, ",
        ),
        ("{}", "S/S,S", "0 new:, 0 new:, "),
    ];
    for (dictionary, briefs, expected) in cases {
        for workers in [1, 2, 4] {
            assert_eq!(rt;
                tried(&rt, rt.alloc(), dictionary, briefs, workers, &NoGate).as_str(),
                expected,
                "{briefs} with {workers} workers"
            );
        }
    }
}

/// A gate that holds two briefs, each until the other is at the gate, but for no more turns than this.
#[derive(Drop)]
struct Meeting {
    first_came: AtomicU64,
    second_came: AtomicU64,
    met: AtomicU64,
}

const TURNS: u32 = 20000000;

impl Meeting {
    /// A meeting to which nobody came yet.
    fn new() -> Meeting {
        Meeting {
            first_came: AtomicU64::new(0),
            second_came: AtomicU64::new(0),
            met: AtomicU64::new(0),
        }
    }

    /// Notes who came, and waits a while for the other.
    fn meet(&self, mine: &AtomicU64, other: &AtomicU64) {
        mine.store(1, Ordering::SeqCst);
        for _turn in 0..TURNS {
            if other.load(Ordering::SeqCst) == 1 {
                self.met.fetch_add(1, Ordering::SeqCst);
                return;
            }
            thread::yield_now();
        }
    }
}

impl Gate for Meeting {
    fn before<R: Wait>(&self, _rt: &R, round: u32, worker: u32, batch: u32) {
        if round == 0 && worker == 0 && batch == 0 {
            self.meet(&self.first_came, &self.second_came);
        }
        if round == 0 && worker == 1 && batch == 1 {
            self.meet(&self.second_came, &self.first_came);
        }
    }
}

#[test]
fn two_briefs_are_tried_beside_each_other(rt: HostRuntime) -> Result<(), Fail> {
    let gate = Meeting::new();
    let text = tried(&rt, rt.alloc(), CAT_AND_TELL, "KAT/TEL,S", 2, &gate);
    assert_eq!(rt; text.as_str(), "2 new: 1 2 of 1 0, 0 new:, ");
    assert_eq!(rt; gate.met.load(Ordering::SeqCst), 2);
    Ok(())
}

/// A gate that counts its calls.
#[derive(Drop)]
struct Count {
    calls: AtomicU64,
}

impl Gate for Count {
    fn before<R: Wait>(&self, _rt: &R, round: u32, worker: u32, batch: u32) {
        if round == 0 && worker == batch % 2 {
            self.calls.fetch_add(1, Ordering::SeqCst);
        }
    }
}

#[test]
fn a_brief_is_tried_by_the_worker_of_its_number(rt: HostRuntime) -> Result<(), Fail> {
    let gate = Count {
        calls: AtomicU64::new(0),
    };
    tried(&rt, rt.alloc(), CAT_AND_TELL, "S,T,K,KAT,TEL", 2, &gate);
    assert_eq!(rt; gate.calls.load(Ordering::SeqCst), 5);
    Ok(())
}
