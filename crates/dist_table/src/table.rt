//! The table, and the calls on it.
ghost use Rattle.std.specs.Prelude.{◌≡◌, ◌≢◌, ◌<◌, [], length, IfOk, IfSome, IfNone};
ghost use Rattle.std.specs.Mem.Slots.{slots_items, slots_len, IsFull};
ghost use Rattle.graph_rules.specs.Graphs.{Stands, moved};
ghost use Rattle.round_core.specs.Machines.{IsGraph};
ghost use Rattle.dist_table.specs.declared.table.TheConstants.{DISTANCES};
ghost use Rattle.dist_table.specs.Histories.{calls_by};
ghost use Rattle.dist_table.specs.Tables.{IsWalkTo, MakesRelax, MakesLook, IsJoined, LeavesWords};

use crate::knowledge::Knowledge;
use crate::pass::Pass;
use crate::rule::{Aimed, Confirmed, Cut, Longer, Looked, OneHistory, Relaxed, Reserved, Spared};
use atomic_table::{Closed, Table};
use round_core::{StepGraph, word_after};
use std::alloc::{AllocError, Global};
use std::marker::Model;

/// The distance that a relax is given is below this.
pub const DISTANCES: u32 = 2147483648;

/// A settled word for each number of a graph, which it borrows: how far from the start the number was found, and from
/// where. Each settled word stands for a real walk at each moment.
#[derive(Drop)]
pub struct DistTable<'a, G: StepGraph> {
    table: Table<u8, Knowledge, G, OneHistory, Global>,
    graph: &'a G,
    alloc: Global,
}

impl<'a, G: StepGraph> Model for DistTable<'a, G> {
    ghost use Rattle.std.specs.Prelude.{◌≡◌, ◌<◌, length};
    ghost use Rattle.dist_table.specs.Tables.{TableView};

    ghost Value = { TableView };

    ghost view = { λ t. record {
      id = t.table.shared.table_id;
      origin = G.origin t.graph.now;
      lists = G.lists t.graph.now;
    } };

    ghost invariant = { λ t.
        (t.table.shared.key ≡ t.graph.now)
        × (t.table.shared.table_id.words ≡ length (G.lists t.graph.now))
        × (t.table.shared.table_id.slots ≡ 0)
        × (0 < length (G.lists t.graph.now)) };
}

impl<'a, G: StepGraph> DistTable<'a, G> {
    /// A table in which only the start was found, with its first pass, which has seen nothing. `AllocError` where one
    /// of its two blocks of 8 bytes a number was refused.
    pub fn new(alloc: Global, graph: &'a G) -> Result<(DistTable<'a, G>, Pass), AllocError>
        ensures origin { IfOk result (λ r. r.0.origin ≡ G.origin graph.now) }
        ensures lists { IfOk result (λ r. r.0.lists ≡ G.lists graph.now) }
        ensures valid { IfOk result (λ r. IsGraph r.0.origin r.0.lists) }
        ensures pass { IfOk result (λ r. (r.1.table ≡ r.0) × (r.1.seen ≡ [])) }
    {
        let count = graph.count() as usize;
        let start = graph.start() as usize;
        let mut words = Vec::from_elem(alloc, u64::MAX, count)?;
        words[start] = 0;
        let (table, seat) = Table::of_words(alloc, words.as_slice(), graph)?;
        Ok((
            DistTable {
                table,
                graph,
                alloc,
            },
            Pass {
                seat,
                distance: 0,
                source: 0,
            },
        ))
    }

    /// Puts the lesser of the target's settled word and `(distance + 1) * 2^32 + source`, and answers the settled word
    /// that stood before.
    ///
    /// The target's settled word is loaded, and only where it is greater than this value is it lowered by a fetch-min.
    /// The first relax from another source also loads that source's settled word. It takes no memory and waits for
    /// nobody.
    pub fn relax(&self, pass: &mut Pass, target: u32, distance: u32, source: u32) -> u64
        requires pass { pass.old.table ≡ self.now }
        requires below { target < length self.now.lists }
        requires walk { IsWalkTo self.now distance source target }
        requires near { distance < DISTANCES }
        ensures call { MakesRelax pass.old target (moved distance source) result pass.new }
        ensures stands { Stands self.now.origin self.now.lists target result }
    {
        self.aim(pass, source);
        let word = word_after(distance, source);
        match self.spare(pass, target, distance, source) {
            Some(found) => return found,
            None => self
                .table
                .shared
                .fetch_min::<Relaxed>(&mut pass.seat, target as usize, word),
        }
    }

    /// The next moves go from this number: a load of its settled word tells with what distance.
    fn aim(&self, pass: &mut Pass, source: u32)
        requires pass { pass.old.table ≡ self.now }
        requires below { source < length self.now.lists }
        ensures { pass.new ≡ pass.old }
    {
        if pass.source != source {
            let found = self
                .table
                .shared
                .load::<Aimed>(&mut pass.seat, source as usize);
            pass.distance = (found / 4294967296) as u32;
            pass.source = source;
        }
    }

    /// Where the pass is aimed at the move, a load that finds a settled word which the move can't lower is the relax,
    /// and answers that settled word.
    fn spare(&self, pass: &mut Pass, target: u32, distance: u32, source: u32) -> Option<u64>
        requires pass { pass.old.table ≡ self.now }
        requires below { target < length self.now.lists }
        requires near { distance < DISTANCES }
        ensures call { IfSome result
            (λ found. MakesRelax pass.old target (moved distance source) found pass.new) }
        ensures stands { IfSome result
            (λ found. Stands self.now.origin self.now.lists target found) }
        ensures none { IfNone result (pass.new ≡ pass.old) }
    {
        if pass.distance != distance || pass.source != source {
            return None;
        }
        let found = self
            .table
            .shared
            .load::<Spared>(&mut pass.seat, target as usize);
        if found > word_after(distance, source) {
            return None;
        }
        Some(found)
    }

    /// The settled word of a number: one load. It takes no memory and waits for nobody.
    pub fn look(&self, pass: &mut Pass, state: u32) -> u64
        requires pass { pass.old.table ≡ self.now }
        requires below { state < length self.now.lists }
        ensures call { MakesLook pass.old state result pass.new }
        ensures stands { Stands self.now.origin self.now.lists state result }
    {
        self.table
            .shared
            .load::<Looked>(&mut pass.seat, state as usize)
    }

    /// A pass for another thread. It has seen as much, and its number was never used before. It takes no memory, and
    /// this table refuses none.
    pub fn split(&self, pass: &mut Pass) -> Result<Pass, AllocError>
        requires { pass.old.table ≡ self.now }
        ensures same { pass.new ≡ pass.old }
        ensures table { IfOk result (λ p. p.table ≡ self.now) }
        ensures seen { IfOk result (λ p. p.seen ≡ pass.old.seen) }
        ensures other { IfOk result (λ p. p.number ≢ pass.old.number) }
        ensures unused { IfOk result (λ p. calls_by p.number p.seen ≡ []) }
    {
        self.table.shared.load::<Reserved>(&mut pass.seat, 0);
        let seat = self.table.shared.split_seat::<Cut>(&mut pass.seat);
        Ok(Pass {
            seat,
            distance: pass.distance,
            source: pass.source,
        })
    }

    /// Takes another pass in: afterwards the pass has seen all that either had. It takes no memory and waits for
    /// nobody.
    pub fn join(&self, pass: &mut Pass, other: Pass)
        requires pass { pass.old.table ≡ self.now }
        requires other { other.table ≡ self.now }
        ensures { IsJoined pass.old other pass.new }
    {
        let Pass {
            seat,
            distance: _,
            source: _,
        } = other;
        self.table.shared.join_seat::<Longer>(&mut pass.seat, seat);
        self.table.shared.load::<Confirmed>(&mut pass.seat, 0);
    }

    /// The settled words, and the end of the table. `AllocError` where the memory for them was refused; then both are
    /// gone.
    pub fn close(self, pass: Pass) -> Result<Vec<u64>, AllocError>
        requires { pass.table ≡ self }
        ensures { IfOk result (λ words. LeavesWords pass words.items) }
    {
        let DistTable {
            table,
            graph: _,
            alloc,
        } = self;
        let Pass {
            seat,
            distance: _,
            source: _,
        } = pass;
        let count = table.word_count();
        let closed = table.close_with(seat);
        let words = words_of(alloc, &closed, count);
        closed.free();
        words
    }
}

/// A copy of the settled words of a table that was closed.
fn words_of(
    alloc: Global,
    closed: &Closed<u8, Global>,
    count: usize,
) -> Result<Vec<u64>, AllocError>
    requires full { IsFull closed.now.words }
    requires count { slots_len closed.now.words ≡ count }
    ensures { IfOk result (λ words. words.items ≡ slots_items closed.now.words) }
{
    let mut words = Vec::with_capacity(alloc, count)?;
    for i in 0..count {
        words.push(closed.word(i))?;
    }
    Ok(words)
}
