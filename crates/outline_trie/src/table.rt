//! The columns of the nodes, a place of each column for each node. The entries come in order, so a node is made when
//! its strokes are met first, and the numbers of nodes are those of outline order.
ghost use Rattle.std.specs.Prelude.{ℕ, ◌≡◌, ◌+◌, ◌-◌, ◌<◌, ◌≤◌, ◌++◌, ◌∷◌, [], ◌^◌, length, take, vec_capacity, All, IfOk};
ghost use Rattle.steno_rules.specs.Outlines.{AreEntries, outline_of};
ghost use Rattle.steno_rules.specs.Nodes.{nodes};
ghost use Rattle.outline_trie.specs.Tries.{most_nodes};
ghost use Rattle.outline_trie.specs.inside.Tables.{IsTable, IsTableOf, IsNumbered, HasPlacesFor, outline_before, shared, ancestor, none_number};

use crate::count::strokes_before;
use crate::shared::shared_len;
use std::alloc::{AllocError, Global};
use stroke::{Outline, Stroke};

/// How a node that is no entry is written in the column of numbers.
pub(crate) const NO_ENTRY: u32 = u32::MAX;

/// The columns. The root's parent is the root itself, and its stroke that of code 1; nobody reads them.
#[derive(Drop)]
pub(crate) struct Table {
    pub(crate) parents: Vec<u32>,
    pub(crate) strokes: Vec<Stroke>,
    pub(crate) depths: Vec<u8>,
    pub(crate) numbers: Vec<u32>,
}

/// The columns of the nodes of these entries, of which there are `count`.
pub(crate) fn table_of(
    alloc: Global,
    entries: &[Outline],
    count: usize,
) -> Result<Table, AllocError>
    requires entries { AreEntries entries.now }
    requires few { length entries.now < 2 ^ 31 }
    requires count { count ≡ length (nodes entries.now) }
    requires bound { count ≤ most_nodes }
    ensures table { IfOk result (λ t. IsTableOf entries.now t) }
    ensures numbers { IfOk result
        (λ t. IsNumbered entries.now (nodes entries.now) t.numbers.items) }
{
    let mut table = root_table(alloc, count)?;
    for number in 0..entries.len() {
        table.add(entries, number);
    }
    Ok(table)
}

/// The columns of the root alone, with places for `count` nodes.
fn root_table(alloc: Global, count: usize) -> Result<Table, AllocError>
    requires { 0 < count }
    ensures table { IfOk result
        (λ t. IsTable ([] ∷ []) t.parents.items t.strokes.items t.depths.items) }
    ensures numbers { IfOk result (λ t. t.numbers.items ≡ none_number ∷ []) }
    ensures places { IfOk result (λ t. HasPlacesFor count t) }
{
    let mut table = Table {
        parents: Vec::with_capacity(alloc, count)?,
        strokes: Vec::with_capacity(alloc, count)?,
        depths: Vec::with_capacity(alloc, count)?,
        numbers: Vec::with_capacity(alloc, count)?,
    };
    table.push(0, Stroke::default(), 0);
    Ok(table)
}

impl Table {
    /// One node more.
    fn push(&mut self, parent: u32, stroke: Stroke, depth: u8)
        requires parents { length self.old.parents.items < vec_capacity self.old.parents }
        requires strokes { length self.old.strokes.items < vec_capacity self.old.strokes }
        requires depths { length self.old.depths.items < vec_capacity self.old.depths }
        requires numbers { length self.old.numbers.items < vec_capacity self.old.numbers }
        ensures parents { self.new.parents.items ≡ self.old.parents.items ++ parent ∷ [] }
        ensures strokes { self.new.strokes.items ≡ self.old.strokes.items ++ stroke ∷ [] }
        ensures depths { self.new.depths.items ≡ self.old.depths.items ++ depth ∷ [] }
        ensures numbers { self.new.numbers.items ≡ self.old.numbers.items ++ none_number ∷ [] }
        ensures places { (count : ℕ) → HasPlacesFor count self.old → HasPlacesFor count self.new }
    {
        self.parents.push_reserved(parent);
        self.strokes.push_reserved(stroke);
        self.depths.push_reserved(depth);
        self.numbers.push_reserved(NO_ENTRY);
    }

    /// The nodes of one entry more, whose beginning it shares with the entry before.
    fn add(&mut self, entries: &[Outline], number: usize)
        requires entries { AreEntries entries.now }
        requires few { length entries.now < 2 ^ 31 }
        requires number { number < length entries.now }
        requires bound { length (nodes entries.now) ≤ most_nodes }
        requires table { IsTableOf (take number entries.now) self.old }
        requires numbers { IsNumbered (take number entries.now)
            (nodes (take number entries.now)) self.old.numbers.items }
        requires places { HasPlacesFor (length (nodes entries.now)) self.old }
        ensures table { IsTableOf (take (number + 1) entries.now) self.new }
        ensures numbers { IsNumbered (take (number + 1) entries.now)
            (nodes (take (number + 1) entries.now)) self.new.numbers.items }
        ensures places { HasPlacesFor (length (nodes entries.now)) self.new }
    {
        let before = strokes_before(entries, number);
        let shared = shared_len(before, entries[number].strokes());
        let top = climb(self.parents.as_slice(), before.len() - shared);
        let node = self.extend(entries, number, shared, top);
        self.numbers[node as usize] = number as u32;
    }

    /// The nodes of an entry's strokes from `from` on, each below the one before, and the first below `top`. The last
    /// of them, which is the entry.
    fn extend(&mut self, entries: &[Outline], number: usize, from: usize, top: u32) -> u32
        requires entries { AreEntries entries.now }
        requires number { number < length entries.now }
        requires bound { length (nodes entries.now) ≤ most_nodes }
        requires from { from ≡
            shared (outline_before entries.now number) (outline_of entries.now number) }
        requires inside { top < length (nodes (take number entries.now)) }
        requires top { outline_of (nodes (take number entries.now)) top ≡
            take from (outline_of entries.now number) }
        requires table { IsTableOf (take number entries.now) self.old }
        requires numbers { IsNumbered (take number entries.now)
            (nodes (take number entries.now)) self.old.numbers.items }
        requires places { HasPlacesFor (length (nodes entries.now)) self.old }
        ensures table { IsTableOf (take (number + 1) entries.now) self.new }
        ensures numbers { IsNumbered (take number entries.now)
            (nodes (take (number + 1) entries.now)) self.new.numbers.items }
        ensures inside { result < length (nodes (take (number + 1) entries.now)) }
        ensures node { outline_of (nodes (take (number + 1) entries.now)) result ≡
            outline_of entries.now number }
        ensures places { HasPlacesFor (length (nodes entries.now)) self.new }
    {
        let strokes = entries[number].strokes();
        let mut node = top;
        for place in from..strokes.len() {
            let next = self.parents.len() as u32;
            self.push(node, strokes[place], place as u8 + 1);
            node = next;
        }
        node
    }
}

/// The node so many levels above the last one.
fn climb(parents: &[u32], levels: usize) -> u32
    requires some { 0 < length parents.now }
    requires few { length parents.now ≤ most_nodes }
    requires below { All (λ p. p < length parents.now) parents.now }
    ensures { result ≡ ancestor parents.now (length parents.now - 1) levels }
{
    let mut node = parents.len() as u32 - 1;
    for _ in 0..levels {
        node = parents[node as usize];
    }
    node
}
