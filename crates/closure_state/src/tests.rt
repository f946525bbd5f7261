//! States, moves and hits beside the plain program, and the worked examples.
ghost use Rattle.std.specs.Prelude.{◌≡◌, ◌<◌, IfSome, IsTrue, length};
ghost use Rattle.steno_rules.specs.WordSets.{IsWordSet};
ghost use Rattle.outline_trie.specs.Tries.{IsNode, node_strokes};

use crate::plain::{Plain, Strokes};
use crate::{Hit, Moves, State, WordSet, hit, is_state};
use match_window::Windows;
use outline_trie::Trie;
use std::alloc::Global;
use std::process::Abort;
use stroke::{Outline, Stroke, are_entries};

const S: u32 = 1;

const T: u32 = 2;

const K: u32 = 4;

const P: u32 = 8;

const W: u32 = 16;

const FRESH: State = State {
    window: 0,
    word: 0,
    mark: None,
};

/// Outlines in their order, each with whether it is a word.
type Table<'a> = &'a [(&'a [u32], bool)];

const OUT_OF_STEP: Table<'static> = &[
    (&[S], true),
    (&[S, T], true),
    (&[T, K, P], true),
    (&[P, W], true),
    (&[W], true),
];

const USUAL_CASE: Table<'static> = &[(&[T], true), (&[K], true), (&[K, T], true)];

const MATCHED: Table<'static> = &[(&[T], true), (&[K], true), (&[K, T], false)];

/// The outline of these codes.
fn outline_of_codes(rt: &impl Abort, alloc: Global, codes: &[u32]) -> Outline {
    let mut outline = Outline::new(alloc);
    for &code in codes {
        assert!(rt; outline.strokes().len() < Outline::MAX);
        outline
            .push(Stroke::new(code).expect(rt, "a code"))
            .expect(rt, "memory");
    }
    outline
}

/// The entries and words of a table.
fn plain_of(rt: &impl Abort, alloc: Global, table: Table<'_>) -> Plain {
    let mut plain = Plain {
        entries: Vec::new(alloc),
        words: Vec::new(alloc),
    };
    for &(codes, word) in table {
        plain
            .entries
            .push(outline_of_codes(rt, alloc, codes))
            .expect(rt, "memory");
        plain.words.push(word).expect(rt, "memory");
    }
    plain
}

/// All that is left of a list of moves.
fn listed(rt: &impl Abort, alloc: Global, mut moves: Moves<'_>) -> Vec<State> {
    let mut targets = Vec::new(alloc);
    for _ in 0..1_000 {
        match moves.next() {
            Some(target) => targets.push(target).expect(rt, "memory"),
            None => return targets,
        }
    }
    targets
}

/// Whether a mark lies in the window.
fn is_inside(trie: &Trie, state: State) -> bool
    requires { IsNode trie.now state.window }
    ensures { IsTrue result → IfSome state.mark (λ m. m < length (node_strokes trie.now state.window)) }
{
    match state.mark {
        Some(mark) => u32::from(mark) < trie.depth(state.window),
        None => true,
    }
}

/// The targets and the hit of a state.
fn check_state<'x>(
    rt: &impl Abort,
    alloc: Global,
    plain: &Plain,
    trie: &'x Trie,
    windows: &'x Windows<'x>,
    words: &'x WordSet,
    state: State,
)
    requires windows { windows.now ≡ trie.now }
    requires words { IsWordSet trie.now words.now }
    requires window { IsNode trie.now state.window }
    requires word { IsNode trie.now state.word }
{
    let window = windows
        .window_strokes(alloc, state.window)
        .expect(rt, "memory");
    let word = windows
        .window_strokes(alloc, state.word)
        .expect(rt, "memory");
    let strokes = Strokes {
        window: window.as_slice(),
        word: word.as_slice(),
        mark: state.mark,
    };
    if is_inside(trie, state) {
        let found = hit(trie, windows, &state);
        assert_eq!(rt; found, plain.hit(rt, alloc, strokes), "hit of {state:?}");
    }
    assert_eq!(rt;
        is_state(trie, words, &state),
        plain.is_state(strokes),
        "{state:?}"
    );
    if is_state(trie, words, &state) {
        let targets = plain.targets(rt, alloc, trie, strokes);
        let all = listed(rt, alloc, Moves::first(trie, windows, words, &state));
        assert!(rt;
            all.as_slice() == targets.all.as_slice(),
            "all targets of {state:?}"
        );
        let kept = listed(rt, alloc, Moves::kept(trie, windows, words, &state));
        assert!(rt;
            kept.as_slice() == targets.kept.as_slice(),
            "kept targets of {state:?}"
        );
    }
}

/// The states of two nodes, with each mark and with none.
fn check_marks<'x>(
    rt: &impl Abort,
    alloc: Global,
    plain: &Plain,
    trie: &'x Trie,
    windows: &'x Windows<'x>,
    words: &'x WordSet,
    window: u32,
    word: u32,
)
    requires windows { windows.now ≡ trie.now }
    requires words { IsWordSet trie.now words.now }
    requires window { IsNode trie.now window }
    requires word { IsNode trie.now word }
{
    for strokes in 0..8u8 {
        let mark = strokes.checked_sub(1);
        let state = State { window, word, mark };
        check_state(rt, alloc, plain, trie, windows, words, state);
    }
}

/// The flags of all nodes, and all states.
fn check_nodes<'x>(
    rt: &impl Abort,
    alloc: Global,
    plain: &Plain,
    trie: &'x Trie,
    windows: &'x Windows<'x>,
    words: &'x WordSet,
)
    requires windows { windows.now ≡ trie.now }
    requires words { IsWordSet trie.now words.now }
{
    for node in 0..trie.node_count() {
        let strokes = windows.window_strokes(alloc, node).expect(rt, "memory");
        assert_eq!(rt; words.is_word(node), plain.is_word(&strokes), "word {node}");
        assert_eq!(rt; words.opens(node), plain.opens(&strokes), "opens {node}");
        for word in 0..trie.node_count() {
            check_marks(rt, alloc, plain, trie, windows, words, node, word);
        }
    }
    for out in [trie.node_count(), u32::MAX] {
        assert!(rt;
            !is_state(
                trie,
                words,
                &State {
                    window: out,
                    ..FRESH
                }
            )
        );
        assert!(rt; !is_state(trie, words, &State { word: out, ..FRESH }));
    }
}

/// All states of a table.
fn check_table(rt: &impl Abort, alloc: Global, table: Table<'_>) {
    let plain = plain_of(rt, alloc, table);
    assert!(rt; plain.entries.len() < 100 && are_entries(&plain.entries));
    assert!(rt; plain.words.len() == plain.entries.len());
    let trie = Trie::new(alloc, &plain.entries).expect(rt, "a trie");
    let windows = Windows::new(alloc, &trie).expect(rt, "memory");
    let words = WordSet::new(alloc, &trie, &plain.words).expect(rt, "memory");
    check_nodes(rt, alloc, &plain, &trie, &windows, &words);
}

/// What is reached from a fresh start: the states in the order in which they are found, all their targets and the kept
/// ones.
#[derive(Drop)]
struct Reached {
    states: Vec<State>,
    all: usize,
    kept: usize,
    hits: Vec<Hit>,
}

/// Counts the targets of a state, adds those that are new, and its hit.
fn follow<'x>(
    rt: &impl Abort,
    alloc: Global,
    trie: &'x Trie,
    windows: &'x Windows<'x>,
    words: &'x WordSet,
    state: State,
    reached: &mut Reached,
)
    requires windows { windows.now ≡ trie.now }
    requires words { IsWordSet trie.now words.now }
{
    assert!(rt; is_state(trie, words, &state) && is_inside(trie, state));
    if let Some(found) = hit(trie, windows, &state) {
        reached.hits.push(found).expect(rt, "memory");
    }
    let all = listed(rt, alloc, Moves::first(trie, windows, words, &state));
    let kept = listed(rt, alloc, Moves::kept(trie, windows, words, &state));
    assert!(rt; reached.all < 10_000 && reached.kept < 10_000 && all.len() < 10_000);
    assert!(rt; kept.len() < 10_000);
    reached.all += all.len();
    reached.kept += kept.len();
    for target in &kept {
        if !reached.states.contains(target) {
            reached.states.push(*target).expect(rt, "memory");
        }
    }
}

/// What is reached over a table.
fn reached_of(rt: &impl Abort, alloc: Global, table: Table<'_>) -> Reached {
    let plain = plain_of(rt, alloc, table);
    assert!(rt; plain.entries.len() < 100 && are_entries(&plain.entries));
    assert!(rt; plain.words.len() == plain.entries.len());
    let trie = Trie::new(alloc, &plain.entries).expect(rt, "a trie");
    let windows = Windows::new(alloc, &trie).expect(rt, "memory");
    let words = WordSet::new(alloc, &trie, &plain.words).expect(rt, "memory");
    let mut reached = Reached {
        states: Vec::new(alloc),
        all: 0,
        kept: 0,
        hits: Vec::new(alloc),
    };
    reached.states.push(FRESH).expect(rt, "memory");
    for turn in 0..1_000 {
        match reached.states.get(turn) {
            Some(&state) => follow(rt, alloc, &trie, &windows, &words, state, &mut reached),
            None => return reached,
        }
    }
    reached
}

#[test]
fn targets_are_those_of_the_plain_program(rt: HostRuntime) {
    let alloc = rt.alloc();
    let tables: [Table<'static>; 7] = [
        OUT_OF_STEP,
        USUAL_CASE,
        MATCHED,
        &[(&[S], true), (&[S, S], true), (&[S, S, S, T], true)],
        // The window S/S/S/S has four rows of children along its chain.
        &[
            (&[S], true),
            (&[S, S, S, S, T], true),
            (&[S, S, S, W], false),
            (&[S, S, P], true),
            (&[S, K], true),
        ],
        &[(&[S], false), (&[S, T], false)],
        &[],
    ];
    for table in tables {
        check_table(&rt, alloc, table);
    }
}

#[test]
fn states_of_the_usual_case(rt: HostRuntime) {
    let alloc = rt.alloc();
    let state = |window, word, mark| State { window, word, mark };
    let reached = reached_of(&rt, alloc, USUAL_CASE);
    let states = [
        FRESH,
        state(1, 0, None),
        state(1, 0, Some(0)),
        state(2, 2, None),
        state(2, 0, None),
        state(2, 0, Some(0)),
        state(3, 0, None),
        state(3, 0, Some(0)),
        state(3, 0, Some(1)),
    ];
    assert!(rt; reached.states.as_slice() == states.as_slice());
}

#[test]
fn what_is_reached(rt: HostRuntime) {
    let alloc = rt.alloc();
    let none: &[Hit] = &[];
    let at = |entry, place| Hit { entry, place };
    let cases: [(Table<'static>, usize, usize, usize, &[Hit]); 4] = [
        (USUAL_CASE, 9, 23, 10, &[at(2, 1)]),
        (MATCHED, 8, 17, 7, &[at(2, 1)]),
        (OUT_OF_STEP, 21, 61, 22, &[at(3, 1)]),
        (&[(&[K], false), (&[K, T], false)], 1, 0, 0, none),
    ];
    for (table, states, all, kept, hits) in cases {
        let reached = reached_of(&rt, alloc, table);
        assert_eq!(&rt; reached.states.len(), states);
        assert_eq!(&rt; (reached.all, reached.kept), (all, kept));
        assert!(&rt; reached.hits.as_slice() == hits);
    }
}
