//! The words with which two readings end.
ghost use Rattle.std.specs.Prelude.{◌≡◌, ◌<◌, ◌&&◌, ◌++◌, [], MatchOption, Some, length};
ghost use Rattle.steno_rules.specs.Outlines.{entry_number, is_word};
ghost use Rattle.outline_trie.specs.Tries.{IsNode, node_strokes};
ghost use Rattle.reading_laws.specs.ChosenReadings.{final_stroke, last_strokes_by};
ghost use Rattle.free_parse.specs.inside.Forks.{IsEnding, fork_of};

use crate::graph::FreeGraph;

impl FreeGraph<'_> {
    /// The entry of a node's strokes and the last stroke of another one, if they are one.
    pub(crate) fn entry_by(&self, node: u32, other: u32) -> Option<u32>
        requires node { IsNode self.now.entries node }
        requires other { IsNode self.now.entries other }
        requires some { 0 < length (node_strokes self.now.entries other) }
        ensures { let strokes = node_strokes self.now.entries in
            result ≡ entry_number self.now.entries (strokes node ++ final_stroke (strokes other)) }
    {
        match self.child_by(node, other) {
            Some(child) => self.entry(child),
            None => None,
        }
    }

    /// Whether a node is a word, and another one's strokes and its last stroke are one too.
    fn are_words(&self, child: u32, shorter: u32) -> bool
        requires child { IsNode self.now.entries child }
        requires shorter { IsNode self.now.entries shorter }
        requires some { 0 < length (node_strokes self.now.entries child) }
        ensures { let strokes = node_strokes self.now.entries in
            result ≡ (is_word self.now.words (strokes child)
            && is_word self.now.words (strokes shorter ++ final_stroke (strokes child))) }
    {
        match self.child_by(shorter, child) {
            Some(other) => self.is_word(child) && self.is_word(other),
            None => false,
        }
    }

    /// The child of the longer open word by the least stroke by which both are words, None where there is none.
    pub(crate) fn ending(&self, longer: u32, shorter: u32) -> Option<u32>
        requires longer { IsNode self.now.entries longer }
        requires shorter { IsNode self.now.entries shorter }
        ensures { MatchOption result
            (last_strokes_by self.now.words (fork_of self.now.entries longer (Some shorter)) ≡ [])
            (IsEnding self.now.entries self.now.words longer shorter) }
    {
        for pair in self.children(longer) {
            if self.are_words(pair.1, shorter) {
                return Some(pair.1);
            }
        }
        None
    }
}
