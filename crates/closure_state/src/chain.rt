//! The children of all ends of a window at once, by rising strokes and each stroke once.
//!
//! Where a stroke leads is said by the first node along the chain of a window's shorter ends that has a child by it. So
//! the strokes that lead to a window of more than so many strokes are those of the rows of children along the chain,
//! and where two rows have a stroke the row of the longer end counts. Nearly all chains have at most two rows. Those
//! are walked, and a third one is searched.
ghost use Rattle.std.specs.Prelude.{◌≡◌, ◌<◌, ◌≤◌, ◌+◌, ◌⊎◌, ℕ, List, length};
ghost use Rattle.outline_trie.specs.Tries.{IsNode, node_strokes, AreChildren};
ghost use Rattle.closure_state.specs.inside.Chains.{AreAlikeEnds, AreChildrenFrom, IsChainOfEnds, IsChainStep, IsLeastStroke, IsRestBefore, lesser as lesser_of, past as past_of};

use match_window::Windows;
use outline_trie::Trie;

/// The rows of children along a chain of ends, from some stroke on: of the first two ends with children what is left of
/// them, and the end at which the third one is looked for. Ends of fewer than `depth` strokes don't count.
#[derive(Drop)]
pub(crate) struct Chain<'a> {
    pub(crate) top: &'a [(u32, u32)],
    pub(crate) low: &'a [(u32, u32)],
    pub(crate) below: u32,
    pub(crate) depth: u32,
}

/// The first pair of a row, or the other pair where its stroke is less.
fn lesser(row: &[(u32, u32)], other: Option<(u32, u32)>) -> Option<(u32, u32)>
    ensures { result ≡ lesser_of row.now other }
{
    match (row.first(), other) {
        (Some(&first), Some(found)) => {
            if first.0 <= found.0 {
                Some(first)
            } else {
                Some(found)
            }
        }
        (Some(&first), None) => Some(first),
        (None, found) => found,
    }
}

/// The row without the pair of this stroke, where that is its first.
fn past(row: &[(u32, u32)], code: u32) -> &[(u32, u32)]
    ensures { result.now ≡ past_of code row.now }
{
    match row.split_first() {
        Some((first, rest)) => { if first.0 == code { rest } else { row } }
        None => row,
    }
}

/// The pairs of a row from a bound on. A binary search.
fn from_bound(row: &[(u32, u32)], bound: u64) -> &[(u32, u32)]
    ensures { (entries : List (List ℕ)) (node : ℕ) → AreChildren entries node row.now →
        AreChildrenFrom entries node bound result.now }
{
    let at = row.partition_point(|pair| u64::from(pair.0) < bound);
    let (_, rest) = row.split_at(at);
    rest
}

/// The least stroke from a bound on by which an end of so many strokes has a child, with the child, along the chain
/// that begins at a node.
fn least(trie: &Trie, windows: &Windows<'_>, end: u32, depth: u32, bound: u64) -> Option<(u32, u32)>
    requires windows { windows.now ≡ trie.now }
    requires node { IsNode trie.now end }
    requires some { 1 ≤ depth }
    ensures { IsLeastStroke trie.now depth (node_strokes trie.now end) bound result }
{
    if end == 0 || trie.depth(end) < depth {
        return None;
    }
    let found = least(trie, windows, windows.shorter_end(end), depth, bound);
    lesser(from_bound(trie.children(end), bound), found)
}

/// The same for the ends below two rows. Mostly there are none, and nothing is looked for.
fn least_below(
    trie: &Trie,
    windows: &Windows<'_>,
    end: u32,
    depth: u32,
    bound: u64,
) -> Option<(u32, u32)>
    requires windows { windows.now ≡ trie.now }
    requires node { IsNode trie.now end }
    requires some { 1 ≤ depth }
    ensures { IsLeastStroke trie.now depth (node_strokes trie.now end) bound result }
{
    if end == 0 {
        None
    } else {
        least(trie, windows, end, depth, bound)
    }
}

/// The first node with children along a chain, among those of so many strokes; the root where there is none.
fn with_children(trie: &Trie, windows: &Windows<'_>, node: u32, depth: u32) -> u32
    requires windows { windows.now ≡ trie.now }
    requires node { IsNode trie.now node }
    requires some { 1 ≤ depth }
    ensures node { IsNode trie.now result }
    ensures alike { AreAlikeEnds trie.now depth node result }
    ensures deep { (result ≡ 0) ⊎ (depth ≤ length (node_strokes trie.now result)) }
{
    let mut end = node;
    while end != 0 && trie.depth(end) >= depth {
        if !trie.children(end).is_empty() {
            return end;
        }
        end = windows.shorter_end(end);
    }
    0
}

/// The row of a node of a chain, none for the root, and the next node of the chain that has children.
fn row_of<'a>(
    trie: &'a Trie,
    windows: &Windows<'_>,
    node: u32,
    depth: u32,
) -> (&'a [(u32, u32)], u32)
    requires windows { windows.now ≡ trie.now }
    requires node { IsNode trie.now node }
    requires some { 1 ≤ depth }
    requires deep { (node ≡ 0) ⊎ (depth ≤ length (node_strokes trie.now node)) }
    ensures node { IsNode trie.now result.1 }
    ensures deep { (result.1 ≡ 0) ⊎ (depth ≤ length (node_strokes trie.now result.1)) }
    ensures rest { IsRestBefore trie.now depth node result.1 result.0.now }
{
    if node == 0 {
        return (&[], 0);
    }
    let next = with_children(trie, windows, windows.shorter_end(node), depth);
    (trie.children(node), next)
}

impl<'a> Chain<'a> {
    /// The chain that begins at a node, before its first stroke.
    pub(crate) fn new(trie: &'a Trie, windows: &Windows<'_>, node: u32, depth: u32) -> Chain<'a>
        requires windows { windows.now ≡ trie.now }
        requires node { IsNode trie.now node }
        requires some { 1 ≤ depth }
        ensures node { IsNode trie.now result.below }
        ensures depth { result.depth ≡ depth }
        ensures chain { IsChainOfEnds trie.now (node_strokes trie.now node) 0 result }
    {
        let first = with_children(trie, windows, node, depth);
        let (top, second) = row_of(trie, windows, first, depth);
        let (low, below) = row_of(trie, windows, second, depth);
        Chain {
            top,
            low,
            below,
            depth,
        }
    }

    /// The next stroke of the chain and the window to which it leads. The bound is past the last stroke.
    #[inline(always)]
    pub(crate) fn next(
        &mut self,
        trie: &Trie,
        windows: &Windows<'_>,
        bound: u64,
    ) -> Option<(u32, u32)>
        requires windows { windows.now ≡ trie.now }
        requires node { IsNode trie.now self.old.below }
        requires some { 1 ≤ self.old.depth }
        ensures below { self.new.below ≡ self.old.below }
        ensures depth { self.new.depth ≡ self.old.depth }
        ensures step { (x : List ℕ) → IsChainOfEnds trie.now x bound self.old →
            IsChainStep trie.now x bound result self.new }
    {
        let third = least_below(trie, windows, self.below, self.depth, bound);
        let found = lesser(self.top, lesser(self.low, third));
        if let Some((code, _)) = found {
            self.top = past(self.top, code);
            self.low = past(self.low, code);
        }
        found
    }
}
