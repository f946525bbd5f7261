//! What stands of the candidates: of each outline the first one.

ghost use Rattle.std.specs.Prelude.{◌≡◌, ◌≤◌, [], map, length, OnOk, IfOk, IfErr};
ghost use Rattle.std.specs.List.Sorted.{IsPermutation, IsStableByKey};
ghost use Rattle.steno_rules.specs.Outlines.{outline_cmp};
ghost use Rattle.steno_rules.specs.Nodes.{in_order};
ghost use Rattle.dict_stack.specs.inside.Candidates.{candidate_outline, AreSorted, IsMerged, Adds, is_end};
ghost use Rattle.dict_stack.specs.Stacks.{most_entries};
ghost use Rattle.dict_stack.specs.Faults.{IsStackCause};

use crate::candidates::Candidate;
use crate::faults::StackFault;
use crate::stacks::Stack;
use dict_json::Text;
use std::alloc::{AllocError, Global};
use stroke::Outline;

/// The entries of a stack in outline order, column by column.
#[derive(Drop)]
pub struct Columns {
    pub outlines: Vec<Outline>,
    pub texts: Vec<Text>,
    /// The place of the dictionary that each is from.
    pub from: Vec<u8>,
    /// Whether some dictionary that supplies words has it.
    pub words: Vec<bool>,
}

impl Columns {
    /// Columns without entries, with room for some.
    fn with_capacity(alloc: Global, count: usize) -> Result<Columns, AllocError>
        ensures { IfOk result (IsMerged []) }
    {
        Ok(Columns {
            outlines: Vec::with_capacity(alloc, count)?,
            texts: Vec::with_capacity(alloc, count)?,
            from: Vec::with_capacity(alloc, count)?,
            words: Vec::with_capacity(alloc, count)?,
        })
    }

    /// Adds a candidate whose outline isn't below any that was added. One with the last outline adds at most that this
    /// is a word.
    fn add(&mut self, candidate: Candidate) -> Result<(), AllocError>
        requires { length self.old.words.items ≡ length self.old.outlines.items }
        ensures adds { OnOk result (Adds self.old candidate self.new) }
        ensures each { OnOk result (length self.new.words.items ≡ length self.new.outlines.items) }
    {
        let Candidate {
            entry,
            place,
            is_word,
        } = candidate;
        let (outline, text) = entry.into_parts();
        if is_last(&self.outlines, &outline) {
            let last = self.words.len() - 1;
            self.words[last] |= is_word;
            return Ok(());
        }
        self.outlines.push(outline)?;
        self.texts.push(text)?;
        self.from.push(place)?;
        self.words.push(is_word)?;
        Ok(())
    }
}

/// Whether an outline is the last of these.
fn is_last(outlines: &[Outline], outline: &Outline) -> bool
    ensures { result ≡ is_end outlines.now outline.now }
{
    match outlines.last() {
        Some(last) => last == outline,
        None => false,
    }
}

/// Puts the candidates into outline order. Those with the same outline stay in their order.
///
/// The sort merges the rising runs of its input, here one of each dictionary, so the cost is that of a merge.
fn sort(candidates: &mut Vec<Candidate>) -> Result<(), AllocError>
    ensures permutation { IsPermutation candidates.old.items candidates.new.items }
    ensures sorted { OnOk result (AreSorted candidates.new.items) }
    ensures stable { IsStableByKey candidate_outline
        outline_cmp candidates.old.items candidates.new.items }
{
    candidates.sort_by(|a, b| a.entry.outline().cmp(b.entry.outline()))
}

/// How many different outlines sorted candidates have.
fn live_count(candidates: &[Candidate]) -> usize
    requires { AreSorted candidates.now }
    ensures { result ≡ length (in_order (map candidate_outline candidates.now)) }
{
    let mut count = 0;
    for (place, candidate) in candidates.iter().enumerate() {
        if place == 0 || candidates[place - 1].entry.outline() != candidate.entry.outline() {
            count += 1;
        }
    }
    count
}

/// The columns of sorted candidates.
fn standing(alloc: Global, candidates: Vec<Candidate>, count: usize) -> Result<Columns, AllocError>
    requires { AreSorted candidates.items }
    ensures { IfOk result (IsMerged candidates.items) }
{
    let mut columns = Columns::with_capacity(alloc, count)?;
    for candidate in candidates {
        columns.add(candidate)?;
    }
    Ok(columns)
}

/// What stands of the candidates, if it isn't more than a stack has.
pub fn merge(alloc: Global, mut candidates: Vec<Candidate>) -> Result<Columns, StackFault>
    ensures merged { IfOk result (IsMerged candidates.items) }
    ensures few { IfOk result (λ _. length (in_order (map candidate_outline candidates.items)) ≤
        most_entries) }
    ensures err { IfErr result (IsStackCause (in_order (map candidate_outline candidates.items))) }
{
    sort(&mut candidates)?;
    let count = live_count(&candidates);
    if count > Stack::MAX_ENTRIES {
        return Err(StackFault::TooManyEntries {
            count: count as u64,
        });
    }
    Ok(standing(alloc, candidates, count)?)
}
