//! Hits: a boundary between two words inside the last piece.
ghost use Rattle.std.specs.Prelude.{◌≡◌, MatchOption};
ghost use Rattle.closure_state.specs.NodeStates.{HasNodes, IsNoHit, IsNodeHit};

use crate::state::{Hit, State};
use match_window::Windows;
use outline_trie::Trie;

/// The hit that a state is, None exactly where it is none. Of a state it is asked only that the numbers are nodes and
/// that a mark lies in the window.
pub fn hit(trie: &Trie, windows: &Windows<'_>, state: &State) -> Option<Hit>
    requires windows { windows.now ≡ trie.now }
    requires nodes { HasNodes trie.now state.now }
    ensures { MatchOption result (IsNoHit trie.now state.now) (IsNodeHit trie.now state.now) }
{
    if state.word != 0 {
        return None;
    }
    let depth = trie.depth(state.window);
    let (Some(mark), Some(piece)) = (state.mark, windows.last_piece(state.window)) else {
        return None
    };
    let Some(entry) = piece.entry else {
        return None
    };
    if mark == 0 || u32::from(mark) >= piece.len {
        return None;
    }
    Some(Hit {
        entry,
        place: (piece.len - u32::from(mark)) as u8,
    })
}
