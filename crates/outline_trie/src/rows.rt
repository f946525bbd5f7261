//! The rows of children, in one pool.
ghost use Rattle.std.specs.Prelude.{ℕ, ◌≡◌, ◌<◌, ◌≤◌, [], All, map, sum, length, get_or, slice_set, replicate, vec_capacity, IfOk};
ghost use Rattle.edge_pool.specs.Pools.{zeros};
ghost use Rattle.outline_trie.specs.Tries.{most_nodes};
ghost use Rattle.outline_trie.specs.inside.Children.{child_count, children_among};
ghost use Rattle.outline_trie.specs.inside.Rooms.{HasRoom};

use crate::room::{NO_ROW, Room, room_for};
use edge_pool::{Block, EdgePool};
use std::alloc::{AllocError, Global};
use std::marker::Model;
use stroke::Stroke;

/// For each node the row of its children, seen as the list of the rows. A row is a block of the pool, and a node
/// without children has none.
#[derive(Drop)]
pub(crate) struct Rows {
    pool: EdgePool,
    blocks: Vec<Block>,
    indexes: Vec<u32>,
}

impl Model for Rows {
    ghost use Rattle.std.specs.Prelude.{ℕ, List};
    ghost use Rattle.outline_trie.specs.inside.RowsOf.{rows_at, AreRows};

    ghost Value = { List (List (ℕ × ℕ)) };

    ghost view = { λ r. rows_at r.pool r.blocks.items r.indexes.items };

    ghost invariant = { λ r. AreRows r.pool r.blocks.items r.indexes.items };
}

/// The rows of the children, from the columns of parents and strokes.
pub(crate) fn rows_of(
    alloc: Global,
    parents: &[u32],
    strokes: &[Stroke],
) -> Result<Rows, AllocError>
    requires some { 0 < length parents.now }
    requires few { length parents.now ≤ most_nodes }
    requires long { length strokes.now ≡ length parents.now }
    requires below { All (λ p. p < length parents.now) parents.now }
    ensures long { IfOk result (λ rows. length rows ≡ length parents.now) }
    ensures rows { IfOk result (λ rows. (node : ℕ) → node < length parents.now →
        get_or rows node [] ≡ children_among parents.now strokes.now node (length parents.now)) }
{
    let counts = count_children(alloc, parents)?;
    let room = room_for(alloc, counts.as_slice())?;
    let mut rows = zero_rows(room, counts.as_slice());
    rows.fill(parents, strokes, zeroed(counts));
    Ok(rows)
}

/// The same places with a 0 in each.
fn zeroed(mut counts: Vec<u32>) -> Vec<u32>
    ensures { result.items ≡ replicate (length counts.items) 0 }
{
    counts.fill(0);
    counts
}

/// How many children each node has.
fn count_children(alloc: Global, parents: &[u32]) -> Result<Vec<u32>, AllocError>
    requires some { 0 < length parents.now }
    requires few { length parents.now ≤ most_nodes }
    requires below { All (λ p. p < length parents.now) parents.now }
    ensures long { IfOk result (λ counts. length counts.items ≡ length parents.now) }
    ensures each { IfOk result (λ counts. (node : ℕ) → node < length parents.now →
        get_or counts.items node 0 ≡ child_count parents.now node (length parents.now)) }
    ensures total { IfOk result (λ counts. sum counts.items ≤ length parents.now) }
{
    let mut counts = vec![in alloc; 0; parents.len()]?;
    for node in 1..parents.len() {
        counts[parents[node] as usize] += 1;
    }
    Ok(counts)
}

/// For each count a row of so many zeros.
fn zero_rows(mut room: Room, counts: &[u32]) -> Rows
    requires few { length counts.now ≤ most_nodes }
    requires total { sum counts.now ≤ most_nodes }
    requires room { HasRoom counts.now room.pool
        (vec_capacity room.blocks) (vec_capacity room.indexes) }
    requires blocks { room.blocks.items ≡ [] }
    requires indexes { room.indexes.items ≡ [] }
    ensures { result ≡ map zeros counts.now }
{
    for &count in counts {
        room.push_row(count);
    }
    Rows {
        pool: room.pool,
        blocks: room.blocks,
        indexes: room.indexes,
    }
}

impl Rows {
    /// Writes each child into the row of its parent, in order. `filled` has a 0 for each row.
    fn fill(&mut self, parents: &[u32], strokes: &[Stroke], mut filled: Vec<u32>)
        requires some { 0 < length parents.now }
        requires few { length parents.now ≤ most_nodes }
        requires long { length strokes.now ≡ length parents.now }
        requires below { All (λ p. p < length parents.now) parents.now }
        requires filled { filled.items ≡ replicate (length parents.now) 0 }
        requires rows { length self.old ≡ length parents.now }
        requires empty { (node : ℕ) → node < length parents.now →
            get_or self.old node [] ≡ zeros (child_count parents.now node (length parents.now)) }
        ensures long { length self.new ≡ length parents.now }
        ensures rows { (node : ℕ) → node < length parents.now → get_or self.new node [] ≡
            children_among parents.now strokes.now node (length parents.now) }
    {
        for child in 1..parents.len() {
            let parent = parents[child];
            let place = filled[parent as usize];
            self.write(parent, place, (strokes[child].code(), child as u32));
            filled[parent as usize] = place + 1;
        }
    }

    /// Sets one pair of a row.
    fn write(&mut self, node: u32, place: u32, pair: (u32, u32))
        requires node { node < length self.old }
        requires place { place < length (get_or self.old node []) }
        ensures { self.new ≡
            slice_set self.old node (slice_set (get_or self.old node []) place pair) }
    {
        let index = self.indexes[node as usize];
        let block = &self.blocks[index as usize];
        self.pool.write(block, place, pair);
    }

    /// The row of a node.
    pub(crate) fn row(&self, node: u32) -> &[(u32, u32)]
        requires { node < length self.now }
        ensures { result.now ≡ get_or self.now node [] }
    {
        let index = self.indexes[node as usize];
        if index == NO_ROW {
            &[]
        } else {
            self.pool.cells(&self.blocks[index as usize])
        }
    }
}
