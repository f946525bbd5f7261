//! What a walk along a window's shorter ends finds, for those who look for the children of all of them at once.
ghost use Rattle.std.specs.Prelude.{ℕ, List, ◌≡◌, ◌<◌, ◌≤◌, ◌+◌, [], Some, None, length};
ghost use Rattle.outline_trie.specs.Tries.{node_strokes, child_of};
ghost use Rattle.match_window.specs.Ends.{IsEndOf, next_window};
ghost use Rattle.match_window.specs.inside.Rows.{IsNodeOf};

/// Along the chain of shorter ends the first node with a child by a stroke leads to the window. Where a node has that
/// child, it is the window of the node's strokes and the stroke; where it has none, the shorter end has the same
/// window; and the window is empty where no node of the chain has a child. The ends get shorter, and a window grows by
/// at most the stroke.
pub fn chains_of_ends()
    ensures child { (entries : List (List ℕ)) (node code child : ℕ) →
        child_of entries node code ≡ Some child →
        IsNodeOf entries (next_window entries (node_strokes entries node) code) child }
    ensures shorter { (entries : List (List ℕ)) (node end code : ℕ) →
        IsEndOf entries node end → child_of entries node code ≡ None →
        next_window entries (node_strokes entries node) code
        ≡ next_window entries (node_strokes entries end) code }
    ensures root { (entries : List (List ℕ)) (code : ℕ) →
        child_of entries 0 code ≡ None → next_window entries [] code ≡ [] }
    ensures falls { (entries : List (List ℕ)) (node end : ℕ) → IsEndOf entries node end →
        length (node_strokes entries end) < length (node_strokes entries node) }
    ensures short { (entries : List (List ℕ)) (x : List ℕ) (code : ℕ) →
        length (next_window entries x code) ≤ length x + 1 }
{}
