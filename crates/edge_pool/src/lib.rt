//! A region of cells that is cut into blocks: the rows of a tree's edges.
//!
//! A tree keeps a short sorted row of edges at each of its nodes. A vector a node would ask the allocator a hundred
//! thousand times and leave as many holes. Here all memory is asked for once, and a row is a block of 1, 2, 4 .. cells
//! of one region. A block that is given back serves the next row of its class: segregated free lists, as in Knuth, The
//! Art of Computer Programming, volume 1, section 2.5. A free block holds the place of the next one in its own first
//! cell, so the lists take no memory of their own. Blocks are never joined or split.
//!
//! `take` and `give` take the time of clearing the block, `read` and `write` a constant one.
#![tactic(auto)]

ghost use Rattle.std.specs.Prelude.{◌≡◌};
ghost use Rattle.edge_pool.specs.Classes.{class_count, most_len};
ghost use Rattle.edge_pool.specs.Pools.{most_cells};
ghost use Rattle.edge_pool.specs.declared.classes.TheConstants.{CLASSES, MAX_LEN};
ghost use Rattle.edge_pool.specs.declared.pool.TheConstants.EdgePool.{MAX_CELLS};

mod block;
mod cells;
mod classes;
mod cut;
mod pool;
#[cfg(test)]
mod tests;

pub use block::Block;
pub use classes::{CLASSES, MAX_LEN, class_of_len, size_of_class};
pub use pool::{EdgePool, PoolFault};

/// The limits: 23 classes, so that a block has at most 4,194,304 cells, and at most 16,777,216 cells in a pool.
pub fn limits()
    ensures classes { (CLASSES ≡ class_count) × (class_count ≡ 23) }
    ensures len { (MAX_LEN ≡ most_len) × (most_len ≡ 4194304) }
    ensures cells { (MAX_CELLS ≡ most_cells) × (most_cells ≡ 16777216) }
{}
