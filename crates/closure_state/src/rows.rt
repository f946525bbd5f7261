//! The rows of children by which a state goes on, one or those along a chain.
ghost use Rattle.std.specs.Prelude.{◌≡◌, ℕ, List};
ghost use Rattle.outline_trie.specs.Tries.{IsNode};
ghost use Rattle.closure_state.specs.inside.Rows.{AreStateRows, IsRowsStep, lists_all};

use crate::chain::Chain;
use crate::row::Row;
use crate::state::State;
use crate::step::{Step, word_by};
use match_window::Windows;
use outline_trie::Trie;

/// What is left of the rows.
#[derive(Drop)]
pub(crate) enum Rows<'a> {
    /// The children of the open word, each of which may have targets.
    Row(Row<'a>),
    /// The children along the chain of the window's ends, where only a longer window has kept targets.
    Chain(Chain<'a>),
}

impl Rows<'_> {
    /// The next stroke with its nodes. The bound is past the last one.
    #[inline(always)]
    pub(crate) fn next(
        &mut self,
        trie: &Trie,
        windows: &Windows<'_>,
        state: State,
        bound: u64,
    ) -> Option<Step>
        requires windows { windows.now ≡ trie.now }
        requires word { IsNode trie.now state.word }
        requires rows { (words : List (List ℕ)) × AreStateRows trie.now words state bound self.old }
        ensures kind { lists_all self.new ≡ lists_all self.old }
        ensures step { (words : List (List ℕ)) → AreStateRows trie.now words state bound self.old →
            IsRowsStep trie.now words state bound result self.new }
    {
        match self {
            Rows::Row(row) => row.next(trie, windows, state.word),
            Rows::Chain(chain) => match chain.next(trie, windows, bound) {
                Some((code, window)) => Some(Step {
                    code,
                    word: word_by(trie, windows, state.word, window),
                    window,
                }),
                None => None,
            },
        }
    }
}
