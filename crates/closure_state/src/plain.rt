//! The slow plain program, for the tests: what a state, its targets and its hit are, by the definitions over lists of
//! strokes.

use crate::{Hit, State};
use longest_match::segment;
use outline_trie::Trie;
use std::alloc::Global;
use std::process::Abort;
use stroke::{Outline, Stroke, are_entries};

/// Entries, and for each of them whether it is a word.
#[derive(Drop)]
pub(crate) struct Plain {
    pub(crate) entries: Vec<Outline>,
    pub(crate) words: Vec<bool>,
}

/// A state by its strokes.
#[derive(Clone, Copy, Drop)]
pub(crate) struct Strokes<'a> {
    pub(crate) window: &'a [Stroke],
    pub(crate) word: &'a [Stroke],
    pub(crate) mark: Option<u8>,
}

/// All targets of a state and the kept ones, in their order.
#[derive(Drop)]
pub(crate) struct Targets {
    pub(crate) all: Vec<State>,
    pub(crate) kept: Vec<State>,
}

/// The strokes and one more.
fn with(rt: &impl Abort, alloc: Global, strokes: &[Stroke], stroke: Stroke) -> Vec<Stroke> {
    let mut longer = Vec::from_slice(alloc, strokes).expect(rt, "memory");
    longer.push(stroke).expect(rt, "memory");
    longer
}

/// The mark one stroke later, if there is one.
fn later(mark: Option<u8>, window: &[Stroke]) -> Option<Option<u8>> {
    match mark {
        None => Some(None),
        Some(strokes) if usize::from(strokes) + 1 < window.len() => {
            Some(Some(strokes.saturating_add(1)))
        }
        Some(_) => None,
    }
}

impl Plain {
    /// Whether the strokes are none or begin an entry.
    fn is_prefix(&self, strokes: &[Stroke]) -> bool {
        strokes.is_empty()
            || self
                .entries
                .iter()
                .any(|entry| entry.strokes().starts_with(strokes))
    }

    /// Whether the strokes are a word.
    pub(crate) fn is_word(&self, strokes: &[Stroke]) -> bool {
        for (entry, &word) in self.entries.iter().zip(&self.words) {
            if word && entry.strokes() == strokes {
                return true;
            }
        }
        false
    }

    /// Whether the strokes are none or a proper beginning of a word.
    pub(crate) fn opens(&self, strokes: &[Stroke]) -> bool {
        if strokes.is_empty() {
            return true;
        }
        for (entry, &word) in self.entries.iter().zip(&self.words) {
            let longer = strokes.len() < entry.strokes().len();
            if word && longer && entry.strokes().starts_with(strokes) {
                return true;
            }
        }
        false
    }

    /// Whether the strokes are those of a state.
    pub(crate) fn is_state(&self, state: Strokes<'_>) -> bool {
        let (window, word) = (state.window, state.word);
        let inside = match state.mark {
            Some(mark) => word.len() <= usize::from(mark) && usize::from(mark) < window.len(),
            None => true,
        };
        let ends = window.ends_with(word) || word.ends_with(window);
        inside && ends && self.opens(word) && self.is_prefix(window)
    }

    /// Where the window of the strokes starts: at the first piece from which on they begin an entry.
    fn window_start(&self, rt: &impl Abort, alloc: Global, strokes: &[Stroke]) -> usize {
        assert!(rt; self.entries.len() < 100 && strokes.len() < 100 && are_entries(&self.entries));
        let mut start = 0;
        for piece in &segment(alloc, &self.entries, strokes).expect(rt, "memory") {
            assert!(rt; start <= strokes.len());
            if self.is_prefix(&strokes[start..]) {
                return start;
            }
            start += piece.len as usize;
        }
        strokes.len()
    }

    /// Adds the targets by a stroke.
    fn push_targets(
        &self,
        rt: &impl Abort,
        alloc: Global,
        trie: &Trie,
        state: Strokes<'_>,
        stroke: Stroke,
        targets: &mut Targets,
    ) {
        let word = with(rt, alloc, state.word, stroke);
        let whole = with(rt, alloc, state.window, stroke);
        let start = self.window_start(rt, alloc, &whole);
        assert!(rt; start <= whole.len());
        let (_, next) = whole.split_at(start);
        let window = trie.find(next).expect(rt, "a window is a node");
        let fresh_or_open = state.window.is_empty() || !state.word.is_empty();
        let keeps = fresh_or_open || next.len() >= 2;
        let later = later(state.mark, next);
        if let (true, Some(mark), Some(word)) = (self.opens(&word), later, trie.find(&word)) {
            targets.push(rt, State { window, word, mark }, keeps);
        }
        if !self.is_word(&word) {
            return;
        }
        if let Some(mark) = later {
            targets.push(
                rt,
                State {
                    window,
                    word: 0,
                    mark,
                },
                keeps,
            );
        }
        if state.mark.is_none() && !next.is_empty() {
            targets.push(
                rt,
                State {
                    window,
                    word: 0,
                    mark: Some(0),
                },
                keeps,
            );
        }
    }

    /// The targets of a state by all strokes of the first six keys.
    pub(crate) fn targets(
        &self,
        rt: &impl Abort,
        alloc: Global,
        trie: &Trie,
        state: Strokes<'_>,
    ) -> Targets {
        let mut targets = Targets {
            all: Vec::new(alloc),
            kept: Vec::new(alloc),
        };
        for code in 1..64 {
            let stroke = Stroke::new(code).expect(rt, "a code");
            self.push_targets(rt, alloc, trie, state, stroke, &mut targets);
        }
        targets
    }

    /// The hit that a state is.
    pub(crate) fn hit(&self, rt: &impl Abort, alloc: Global, state: Strokes<'_>) -> Option<Hit> {
        assert!(rt; self.entries.len() < 100 && state.window.len() < 100);
        assert!(rt; are_entries(&self.entries));
        let pieces = segment(alloc, &self.entries, state.window).expect(rt, "memory");
        let (Some(piece), Some(mark)) = (pieces.last(), state.mark) else {
            return None
        };
        let entry = piece.entry?;
        let inside = 1 <= mark && u32::from(mark) < piece.len;
        if !state.word.is_empty() || !inside {
            return None;
        }
        let place = piece.len.saturating_sub(u32::from(mark));
        Some(Hit {
            entry,
            place: place.to_le_bytes()[0],
        })
    }
}

impl Targets {
    /// Adds a target.
    fn push(&mut self, rt: &impl Abort, target: State, keeps: bool) {
        self.all.push(target).expect(rt, "memory");
        if keeps {
            self.kept.push(target).expect(rt, "memory");
        }
    }
}
