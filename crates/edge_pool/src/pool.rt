//! The pool: the region, the free lists in it, and the calls on its blocks.
ghost use Rattle.std.specs.Prelude.{◌≡◌, ◌≢◌, ◌+◌, ◌-◌, ◌<◌, ◌≤◌, ◌↔◌, ◌++◌, ℕ, None, Some, length, drop, slice_get, slice_set, slice_index, IfOk, IfErr, IsErr, OnOk, OnErr};
ghost use Rattle.std.specs.FinMap as map;
ghost use Rattle.edge_pool.specs.Classes.{class_of, size_of, class_count, IsLen};
ghost use Rattle.edge_pool.specs.Pools.{Extent, ListsBlock, pairs_of, AreApart, spare_of, IsFull, needed, zeros, lengthened, most_cells, uncut_pool, reserved, taken, written, given, grown};

use crate::block::Block;
use crate::cells::clear;
use crate::classes::{CLASSES, class_of_len, size_of_class};
use crate::cut::Cut;
use history::History;
use std::alloc::{AllocError, Global};
use std::marker::Model;
use thiserror::Error;

/// Why a pool gave no block.
#[derive(Clone, Copy, Debug, PartialEq, Eq, Drop, Error)]
pub enum PoolFault {
    /// No free block of the class is left, and too few cells are uncut.
    #[error("no free block of the class, and too few uncut cells for one")]
    Full,
}

/// Cells, each a pair of numbers, cut into blocks of 1, 2, 4 .. of them. The class of a length is the least power of
/// two that isn't below it. A pool is seen as its live blocks, its number of uncut cells, and its number of free blocks
/// of each class; its blocks are disjoint.
#[derive(Drop)]
pub struct EdgePool {
    cells: Vec<(u32, u32)>,
    cut: u32,
    heads: [u32; CLASSES],
    spare: [u32; CLASSES],
    cuts: History<Cut>,
}

impl Model for EdgePool {
    ghost use Rattle.std.specs.Prelude.{◌-◌, length};
    ghost use Rattle.edge_pool.specs.Pools.{Pool, pool_code};
    ghost use Rattle.edge_pool.specs.inside.Cuts.{contents, AreSound};

    ghost Value = { Pool };

    ghost coded = { pool_code };

    ghost view = { λ p. record {
      live = contents p.cells.items p.cuts.items;
      uncut = length p.cells.items - p.cut;
      spare = p.spare;
    } };

    ghost invariant = { λ p. AreSound p.cells.items p.heads p.spare p.cut p.cuts.items };
}

impl EdgePool {
    /// The most cells of a pool.
    pub const MAX_CELLS: u32 = 16_777_216;

    /// A pool of this many cells, all of them uncut. It takes eight bytes a cell, and no later call takes any memory.
    pub fn with_cells(alloc: Global, cells: u32) -> Result<EdgePool, AllocError>
        requires { cells ≤ most_cells }
        ensures { IfOk result (λ pool. pool ≡ uncut_pool cells) }
    {
        Ok(EdgePool {
            cells: vec![in alloc; (0, 0); cells as usize]?,
            cut: 0,
            heads: [0; CLASSES],
            spare: [0; CLASSES],
            cuts: History::new(),
        })
    }

    /// How many cells are uncut.
    pub fn uncut(&self) -> u32
        ensures { result ≡ self.now.uncut }
    {
        self.cells.len() as u32 - self.cut
    }

    /// How many blocks of the class of this length are free.
    pub fn spare(&self, len: u32) -> u32
        requires { IsLen len }
        ensures { result ≡ spare_of self.now len }
    {
        self.spare[class_of_len(len)]
    }

    /// Cuts blocks for rows of this length until as many are free, so that as many calls of `take` will succeed.
    pub fn reserve(&mut self, len: u32, blocks: u32) -> Result<(), PoolFault>
        requires { IsLen len }
        ensures ok { IfOk result (λ _. self.new ≡ reserved self.old len blocks) }
        ensures full { IsErr result ↔ (self.old.uncut < needed self.old len blocks) }
        ensures err { OnErr result (self.new ≡ self.old) }
    {
        let class = class_of_len(len);
        let missing = blocks.saturating_sub(self.spare[class]);
        if u64::from(self.uncut()) < u64::from(size_of_class(class)) * u64::from(missing) {
            return Err(PoolFault::Full);
        }
        for _ in 0..missing {
            self.cut_spare(class);
        }
        Ok(())
    }

    /// A block of this many pairs (0, 0): a free one of its class, or else one that is cut now.
    pub fn take(&mut self, len: u32) -> Result<Block, PoolFault>
        requires { IsLen len }
        ensures len { IfOk result (λ block. block.len ≡ len) }
        ensures taken { IfOk result (λ block. self.new ≡ taken self.old len block.place) }
        ensures fresh { IfOk result (λ block. map.get self.old.live block.place ≡ None) }
        ensures listed { IfOk result (λ block. ListsBlock self.new block) }
        ensures others { (other : Extent) → ListsBlock self.old other →
            map.get self.new.live other.place ≡ map.get self.old.live other.place }
        ensures apart { OnOk result (AreApart self.new.live) }
        ensures full { IsErr result ↔ IsFull self.old len }
        ensures err { OnErr result (self.new ≡ self.old) }
    {
        let class = class_of_len(len);
        if self.spare[class] == 0 {
            if self.uncut() < size_of_class(class) {
                return Err(PoolFault::Full);
            }
            self.cut_spare(class);
        }
        Ok(self.take_spare(class, len))
    }

    /// Sets one pair of a block.
    pub fn write(&mut self, block: &Block, place: u32, pair: (u32, u32))
        requires listed { ListsBlock self.old block.now }
        requires within { place < block.now.len }
        ensures written { self.new ≡ written self.old block.now place pair }
        ensures listed { ListsBlock self.new block.now }
    {
        self.cells[block.place() as usize + place as usize] = pair;
    }

    /// One pair of a block.
    pub fn read(&self, block: &Block, place: u32) -> (u32, u32)
        requires listed { ListsBlock self.now block.now }
        requires within { place < block.now.len }
        ensures { slice_get (pairs_of self.now block.now) place ≡ Some result }
    {
        self.cells(block)[place as usize]
    }

    /// All pairs of a block.
    pub fn cells(&self, block: &Block) -> &[(u32, u32)]
        requires { ListsBlock self.now block.now }
        ensures pairs { map.get self.now.live block.now.place ≡ Some result.now }
        ensures len { length result.now ≡ block.now.len }
    {
        let from = block.place() as usize;
        &self.cells[from..from + block.len() as usize]
    }

    /// Makes a block free.
    pub fn give(&mut self, block: Block)
        requires { ListsBlock self.old block }
        ensures given { self.new ≡ given self.old block }
        ensures apart { AreApart self.new.live }
    {
        // Opens the pool, which knows that its blocks have lengths of a class.
        let _ = &self.cells;
        let place = block.place();
        let class = class_of_len(block.len());
        self.cells[place as usize] = (self.heads[class], 0);
        self.heads[class] = place;
        self.spare[class] += 1;
        self.cuts = self.cuts.and(&Cut {
            place,
            class,
            len: 0,
        });
    }

    /// Makes a block longer: its pairs, and then pairs (0, 0). Where the longer block has the same class it stays in
    /// its place, else it is copied, and the old one is free.
    pub fn grow(&mut self, block: Block, len: u32) -> Result<Block, (Block, PoolFault)>
        requires listed { ListsBlock self.old block }
        requires longer { block.len ≤ len }
        requires bound { IsLen len }
        ensures len { IfOk result (λ longer. longer.len ≡ len) }
        ensures listed { IfOk result (λ longer. ListsBlock self.new longer) }
        ensures grown { IfOk result (λ longer. self.new ≡ grown self.old block len longer.place) }
        ensures place { IfOk result
            (λ longer. (class_of len ≡ class_of block.len → longer.place ≡ block.place)
            × (class_of len ≢ class_of block.len → map.get self.old.live longer.place ≡ None)) }
        ensures apart { OnOk result (AreApart self.new.live) }
        ensures full { IsErr result ↔ ((class_of len ≢ class_of block.len) × IsFull self.old len) }
        ensures back { IfErr result (λ refused. refused.0 ≡ block) }
        ensures err { OnErr result (self.new ≡ self.old) }
    {
        // Opens the pool, which knows that its blocks have lengths of a class.
        let _ = &self.cells;
        if class_of_len(len) == class_of_len(block.len()) {
            return Ok(self.widen(block, len));
        }
        match self.take(len) {
            Ok(longer) => {
                self.copy_front(&block, &longer);
                self.give(block);
                Ok(longer)
            }
            Err(fault) => Err((block, fault)),
        }
    }

    /// Cuts one block of a class, which is free.
    fn cut_spare(&mut self, class: usize)
        requires known { class < class_count }
        requires room { size_of class ≤ self.old.uncut }
        ensures { self.new ≡ record self.old {
          uncut = self.old.uncut - size_of class;
          spare = slice_set self.old.spare class (slice_index self.old.spare class + 1);
        } }
    {
        let place = self.cut;
        self.cells[place as usize] = (self.heads[class], 0);
        self.heads[class] = place;
        self.spare[class] += 1;
        self.cut += size_of_class(class);
        self.cuts = self.cuts.and(&Cut {
            place,
            class,
            len: 0,
        });
    }

    /// Makes the first free block of a class live.
    fn take_spare(&mut self, class: usize, len: u32) -> Block
        requires len { IsLen len }
        requires known { class < class_count }
        requires is { class ≡ class_of len }
        requires spare { 0 < slice_index self.old.spare class }
        ensures len { result.len ≡ len }
        ensures taken { self.new ≡
            record self.old {
              live = map.insert self.old.live result.place (zeros len);
              spare = slice_set self.old.spare class (slice_index self.old.spare class - 1);
            } }
        ensures fresh { map.get self.old.live result.place ≡ None }
        ensures listed { ListsBlock self.new result }
        ensures apart { AreApart self.new.live }
    {
        let place = self.heads[class];
        self.heads[class] = self.cells[place as usize].0;
        self.spare[class] -= 1;
        clear(
            &mut self.cells,
            place as usize,
            place as usize + len as usize,
        );
        self.cuts = self.cuts.and(&Cut { place, class, len });
        Block::new(place, len)
    }

    /// Makes a block longer within its class.
    fn widen(&mut self, block: Block, len: u32) -> Block
        requires listed { ListsBlock self.old block }
        requires longer { block.len ≤ len }
        requires bound { IsLen len }
        requires class { class_of len ≡ class_of block.len }
        ensures len { result ≡ record { place = block.place; len = len } }
        ensures grown { self.new ≡
            record self.old { live = lengthened self.old block len block.place } }
        ensures listed { ListsBlock self.new result }
        ensures apart { AreApart self.new.live }
    {
        let place = block.place();
        clear(
            &mut self.cells,
            place as usize + block.len() as usize,
            place as usize + len as usize,
        );
        self.cuts = self.cuts.and(&Cut {
            place,
            class: class_of_len(len),
            len,
        });
        Block::new(place, len)
    }

    /// Copies the pairs of one block to the front of another.
    fn copy_front(&mut self, from: &Block, to: &Block)
        requires from { ListsBlock self.old from.now }
        requires to { ListsBlock self.old to.now }
        requires apart { from.now.place ≢ to.now.place }
        requires shorter { from.now.len ≤ to.now.len }
        ensures { self.new ≡ record self.old {
          live = map.insert self.old.live to.now.place
              (pairs_of self.old from.now ++ drop from.now.len (pairs_of self.old to.now));
        } }
    {
        for place in 0..from.len() {
            let pair = self.read(from, place);
            self.write(to, place, pair);
        }
    }
}
