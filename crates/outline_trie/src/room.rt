//! The room that the rows need. It is counted and taken whole before the first row is made, so that from then on no
//! call of the building can be refused.
ghost use Rattle.std.specs.Prelude.{ℕ, ◌≡◌, ◌+◌, ◌*◌, ◌<◌, ◌≤◌, ◌++◌, ◌∷◌, [], sum, length, get_or, vec_capacity, IfOk};
ghost use Rattle.edge_pool.specs.Classes.{class_count};
ghost use Rattle.outline_trie.specs.Tries.{most_nodes};
ghost use Rattle.edge_pool.specs.Pools.{zeros, spare_of, uncut_pool};
ghost use Rattle.outline_trie.specs.inside.Rooms.{HasRoom, IsReserved, has_cells, rows_in, rows_of_class, spare_after, weight};
ghost use Rattle.outline_trie.specs.inside.RowsOf.{AreRows, rows_at};

use edge_pool::{Block, CLASSES, EdgePool, class_of_len, size_of_class};
use std::alloc::{AllocError, Global};

/// How a node without children is written among the indexes.
pub(crate) const NO_ROW: u32 = u32::MAX;

/// A pool with a free block for each row to come, and columns with a free place for it.
#[derive(Drop)]
pub(crate) struct Room {
    pub(crate) pool: EdgePool,
    pub(crate) blocks: Vec<Block>,
    pub(crate) indexes: Vec<u32>,
}

/// The room for rows of so many cells each.
pub(crate) fn room_for(alloc: Global, counts: &[u32]) -> Result<Room, AllocError>
    requires few { length counts.now ≤ most_nodes }
    requires total { sum counts.now ≤ most_nodes }
    ensures room { IfOk result (λ room.
        HasRoom counts.now room.pool (vec_capacity room.blocks) (vec_capacity room.indexes)) }
    ensures blocks { IfOk result (λ room. room.blocks.items ≡ []) }
    ensures indexes { IfOk result (λ room. room.indexes.items ≡ []) }
{
    let kinds = kinds_of(counts);
    let mut pool = EdgePool::with_cells(alloc, cells_of(&kinds))?;
    let blocks = Vec::with_capacity(alloc, blocks_of(counts))?;
    let indexes = Vec::with_capacity(alloc, counts.len())?;
    reserve_all(&mut pool, &kinds);
    Ok(Room {
        pool,
        blocks,
        indexes,
    })
}

/// How many rows there are of each class.
fn kinds_of(counts: &[u32]) -> [u32; CLASSES]
    requires few { length counts.now ≤ most_nodes }
    requires total { sum counts.now ≤ most_nodes }
    ensures kinds { (class : ℕ) →
        class < class_count → get_or result class 0 ≡ rows_of_class counts.now class }
    ensures cells { weight result class_count ≤ 2 * sum counts.now }
{
    let mut kinds = [0; CLASSES];
    for &count in counts {
        if count > 0 {
            kinds[class_of_len(count)] += 1;
        }
    }
    kinds
}

/// The cells of so many blocks of each class.
fn cells_of(kinds: &[u32]) -> u32
    requires kinds { length kinds.now ≡ class_count }
    requires bound { weight kinds.now class_count ≤ 2 * most_nodes }
    ensures { result ≡ weight kinds.now class_count }
{
    let mut cells = 0;
    for class in 0..CLASSES {
        cells += size_of_class(class) * kinds[class];
    }
    cells
}

/// How many rows have a block.
fn blocks_of(counts: &[u32]) -> usize
    ensures { result ≡ rows_in counts.now }
{
    let mut blocks = 0;
    for &count in counts {
        if count > 0 {
            blocks += 1;
        }
    }
    blocks
}

/// Reserves so many blocks of each class, for which the pool has just the cells.
fn reserve_all(pool: &mut EdgePool, kinds: &[u32])
    requires kinds { length kinds.now ≡ class_count }
    requires pool { pool.old ≡ uncut_pool (weight kinds.now class_count) }
    ensures { IsReserved kinds.now pool.new.spare class_count }
{
    for class in 0..CLASSES {
        let Ok(()) = pool.reserve(size_of_class(class), kinds[class]) else {
            unreachable!()
        };
    }
}

impl Room {
    /// One row of zeros more.
    pub(crate) fn push_row(&mut self, len: u32)
        requires len { len ≤ most_nodes }
        requires few { length self.old.indexes.items < most_nodes }
        requires rows { AreRows self.old.pool self.old.blocks.items self.old.indexes.items }
        requires spare { 0 < len → 0 < spare_of self.old.pool len }
        requires block { 0 < len → length self.old.blocks.items < vec_capacity self.old.blocks }
        requires index { length self.old.indexes.items < vec_capacity self.old.indexes }
        ensures rows { AreRows self.new.pool self.new.blocks.items self.new.indexes.items }
        ensures more { rows_at self.new.pool self.new.blocks.items self.new.indexes.items
            ≡ rows_at self.old.pool self.old.blocks.items self.old.indexes.items ++ zeros len ∷ [] }
        ensures spare { self.new.pool.spare ≡ spare_after self.old.pool len }
        ensures blocks { length self.new.blocks.items ≡
            length self.old.blocks.items + has_cells len }
        ensures indexes { length self.new.indexes.items ≡ length self.old.indexes.items + 1 }
        ensures block_places { vec_capacity self.new.blocks ≡ vec_capacity self.old.blocks }
        ensures index_places { vec_capacity self.new.indexes ≡ vec_capacity self.old.indexes }
    {
        if len == 0 {
            self.indexes.push_reserved(NO_ROW);
            return;
        }
        let Ok(block) = self.pool.take(len) else {
            unreachable!()
        };
        self.indexes.push_reserved(self.blocks.len() as u32);
        self.blocks.push_reserved(block);
    }
}
