//! The children of one node by rising strokes, with the windows to which their strokes lead.
ghost use Rattle.std.specs.Prelude.{◌≡◌, ℕ, List};
ghost use Rattle.closure_state.specs.inside.Steps.{IsChildRow, IsChildRowStep};

use crate::step::{Step, window_by};
use match_window::Windows;
use outline_trie::Trie;

/// The children of the open word that are left, and the node of the window's chain from which their windows are found.
#[derive(Drop)]
pub(crate) struct Row<'a> {
    pub(crate) row: &'a [(u32, u32)],
    pub(crate) end: u32,
}

impl Row<'_> {
    /// The next child, with its stroke and the window after it.
    #[inline(always)]
    pub(crate) fn next(&mut self, trie: &Trie, windows: &Windows<'_>, opened: u32) -> Option<Step>
        requires windows { windows.now ≡ trie.now }
        requires row { (x : List ℕ) × (bound : ℕ) × IsChildRow trie.now x opened bound self.old }
        ensures step { (x : List ℕ) (bound : ℕ) → IsChildRow trie.now x opened bound self.old →
            IsChildRowStep trie.now x opened bound result self.new }
    {
        let Some((&(code, word), rest)) = self.row.split_first() else {
            return None
        };
        self.row = rest;
        Some(Step {
            code,
            word: Some(word),
            window: window_by(trie, windows, self.end, opened, word),
        })
    }
}
