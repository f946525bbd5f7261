//! The windows of a trie, and the calls.
ghost use Rattle.std.specs.Prelude.{◌≡◌, ◌↔◌, ◌++◌, ◌∷◌, ◌-◌, [], ℕ, take, length, Some, IsBitSet, IfOk, option_map};
ghost use Rattle.steno_rules.specs.Segments.{last_piece as last_piece_of};
ghost use Rattle.steno_rules.specs.Windows.{window};
ghost use Rattle.stroke.specs.Pieces.{piece_of};
ghost use Rattle.outline_trie.specs.Tries.{IsNode, node_strokes, suffix_of};
ghost use Rattle.match_window.specs.Ends.{StartsPiece, shorter_end as shorter_end_of};

use crate::alone::alone_of;
use crate::columns::{Columns, columns_of};
use outline_trie::Trie;
use smallvec::SmallVec;
use std::alloc::{AllocError, Global};
use std::marker::Model;
use stroke::{Piece, Stroke};

/// What one more stroke makes of a window.
#[derive(Clone, Copy, Debug, PartialEq, Eq)]
pub struct Advance {
    /// The node of the new window.
    pub node: u32,
    /// The last piece of the old window's strokes and the new one.
    pub last: Piece,
}

/// The windows of a trie's nodes. It borrows the trie and is seen, as the trie is, as the list of the entries.
#[derive(Drop)]
pub struct Windows<'a> {
    trie: &'a Trie,
    columns: Columns,
    alone: Vec<u32>,
}

impl<'a> Model for Windows<'a> {
    ghost use Rattle.std.specs.Prelude.{ℕ, List};
    ghost use Rattle.match_window.specs.inside.Rows.{AreColumns};
    ghost use Rattle.match_window.specs.inside.Alone.{AreAlone};

    ghost Value = { List (List ℕ) };

    ghost view = { λ w. w.trie.now };

    ghost invariant = { λ w.
        AreColumns w.trie.now w.columns.shorter.items w.columns.pieces.items
        × AreAlone w.trie.now w.alone.items };
}

impl Windows<'_> {
    /// The windows of this trie's nodes, 12 bytes a node, in time linear in the nodes times the length of their chains
    /// of ends.
    pub fn new(alloc: Global, trie: &Trie) -> Result<Windows<'_>, AllocError>
        ensures { IfOk result (λ windows. windows ≡ trie.now) }
    {
        Ok(Windows {
            trie,
            columns: columns_of(alloc, trie)?,
            alone: alone_of(alloc, trie)?,
        })
    }

    /// The starts of a node's pieces: bit i is set exactly where a piece starts after i strokes. Linear in its strokes.
    pub fn cuts(&self, node: u32) -> u64
        requires { IsNode self.now node }
        ensures { (i : ℕ) →
            IsBitSet result i ↔ StartsPiece self.now (node_strokes self.now node) i }
    {
        let mut cuts = 0;
        let mut end = node;
        while let Some(last) = self.last_piece(end) {
            cuts |= 1 << (self.trie.depth(end) - last.len);
            end = above(self.trie, end, last.len);
        }
        cuts
    }

    /// The last piece of a node's strokes, None for the root alone.
    pub fn last_piece(&self, node: u32) -> Option<Piece>
        requires { IsNode self.now node }
        ensures { result ≡
            option_map (piece_of self.now) (last_piece_of self.now (node_strokes self.now node)) }
    {
        if node == 0 {
            None
        } else {
            Some(self.columns.last_piece(self.trie, node))
        }
    }

    /// The window after one more stroke, and the last piece then. One look-up for each end of the window at which an
    /// entry could begin.
    pub fn advance(&self, node: u32, stroke: Stroke) -> Advance
        requires { IsNode self.now node }
        ensures node { IsNode self.now result.node }
        ensures window { node_strokes self.now result.node ≡
            window self.now (node_strokes self.now node ++ stroke ∷ []) }
        ensures last { Some result.last ≡ option_map (piece_of self.now)
            (last_piece_of self.now (node_strokes self.now node ++ stroke ∷ [])) }
    {
        let next = self.columns.next(self.trie, node, stroke);
        Advance {
            node: next,
            last: self.columns.last_piece(self.trie, next),
        }
    }

    /// The longest shorter end of a node's strokes that starts where a piece starts and is a node: where a stroke is
    /// looked for next that doesn't follow the node itself. The root where there is none.
    pub fn shorter_end(&self, node: u32) -> u32
        requires { IsNode self.now node }
        ensures node { IsNode self.now result }
        ensures end { node_strokes self.now result ≡
            shorter_end_of self.now (node_strokes self.now node) }
    {
        self.columns.shorter[node as usize]
    }

    /// The node of a node's last stroke alone, None for the root and where no entry begins with that stroke. It is
    /// kept, so nothing is looked up.
    pub fn alone(&self, node: u32) -> Option<u32>
        requires { IsNode self.now node }
        ensures { result ≡ suffix_of self.now node 1 }
    {
        let found = self.alone[node as usize];
        if found == 0 { None } else { Some(found) }
    }

    /// A node's strokes. They are found from the last one up.
    pub fn window_strokes(
        &self,
        alloc: Global,
        node: u32,
    ) -> Result<SmallVec<Stroke, 8, Global>, AllocError>
        requires { IsNode self.now node }
        ensures { IfOk result (λ strokes. strokes.items ≡ node_strokes self.now node) }
    {
        let depth = self.trie.depth(node) as usize;
        let mut strokes = [Stroke::default(); 64];
        let mut start = depth;
        let mut end = node;
        while let (Some(parent), Some(last)) = (self.trie.parent(end), self.trie.last(end)) {
            start -= 1;
            strokes[start] = last;
            end = parent;
        }
        let (found, _) = strokes.split_at(depth);
        SmallVec::from_slice(alloc, found)
    }
}

/// The node so many levels above a node, the root where there are no more.
fn above(trie: &Trie, node: u32, levels: u32) -> u32
    requires { IsNode trie.now node }
    ensures node { IsNode trie.now result }
    ensures strokes { node_strokes trie.now result ≡
        take (length (node_strokes trie.now node) - levels) (node_strokes trie.now node) }
{
    let mut end = node;
    for _ in 0..levels {
        end = trie.parent(end).unwrap_or(0);
    }
    end
}
