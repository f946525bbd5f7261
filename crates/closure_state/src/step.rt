//! A stroke with which a state goes on, and the nodes to which it leads.
ghost use Rattle.std.specs.Prelude.{◌≡◌, ◌++◌, ◌∷◌, [], ℕ, List, Some};
ghost use Rattle.outline_trie.specs.Tries.{IsNode, node_strokes, child_of};
ghost use Rattle.match_window.specs.Ends.{next_window};
ghost use Rattle.match_window.specs.inside.Rows.{IsNodeOf};
ghost use Rattle.closure_state.specs.inside.Steps.{IsChildByLast};

use match_window::Windows;
use outline_trie::Trie;

/// A stroke with which a state may go on.
#[derive(Drop)]
pub(crate) struct Step {
    /// The code of the stroke.
    pub(crate) code: u32,
    /// The node of the open word and the stroke, if an entry begins so.
    pub(crate) word: Option<u32>,
    /// The node of the window after the stroke.
    pub(crate) window: u32,
}

/// The child of a node by the last stroke of another one.
fn child_by(trie: &Trie, node: u32, other: u32) -> Option<u32>
    requires node { IsNode trie.now node }
    requires other { IsNode trie.now other }
    ensures { IsChildByLast trie.now node other result }
{
    match trie.last(other) {
        Some(stroke) => trie.child(node, stroke),
        None => None,
    }
}

/// The same for an open word's node, which is mostly the root: the root's children by last strokes are kept.
pub(crate) fn word_by(trie: &Trie, windows: &Windows<'_>, node: u32, other: u32) -> Option<u32>
    requires windows { windows.now ≡ trie.now }
    requires node { IsNode trie.now node }
    requires other { IsNode trie.now other }
    ensures { IsChildByLast trie.now node other result }
{
    if node == 0 {
        windows.alone(other)
    } else {
        child_by(trie, node, other)
    }
}

/// The window of a node's strokes and the last stroke of `child`, a child of `opened`. It is looked for along the
/// node's chain of shorter ends, which often leads to `opened` itself or to the root.
pub(crate) fn window_by(
    trie: &Trie,
    windows: &Windows<'_>,
    node: u32,
    opened: u32,
    child: u32,
) -> u32
    requires windows { windows.now ≡ trie.now }
    requires node { IsNode trie.now node }
    requires child { IsNode trie.now child }
    ensures { (code : ℕ) → child_of trie.now opened code ≡ Some child →
        IsNodeOf trie.now (next_window trie.now (node_strokes trie.now node) code) result }
{
    let mut end = node;
    while end != opened && end != 0 {
        match child_by(trie, end, child) {
            Some(next) => return next,
            None => end = windows.shorter_end(end),
        }
    }
    if end == opened {
        child
    } else {
        windows.alone(child).unwrap_or(0)
    }
}
