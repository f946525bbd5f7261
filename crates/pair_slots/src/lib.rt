//! Slots for the pairs of an entry and an inner place of it, in one list.
//!
//! Where something is kept for each pair, it stands in the pair's slot: those of an entry follow those of the entries
//! before it. [`starts_of`] says where the slots of each entry begin, so a pair's slot is found by one look-up:
//! `starts[entry] + place - 1`.
#![tactic(auto)]

ghost use Rattle.std.specs.Prelude.{◌≤◌, All, IfOk, length};
ghost use Rattle.steno_rules.specs.Outlines.{IsOutline};
ghost use Rattle.dict_stack.specs.Stacks.{most_entries};
ghost use Rattle.pair_slots.specs.Slots.{AreStarts};

use std::alloc::{AllocError, Global};
use stroke::Outline;

/// Where the slots of each outline begin, and at the end how many there are. Four bytes an outline.
pub fn starts_of(alloc: Global, outlines: &[Outline]) -> Result<Vec<u32>, AllocError>
    requires outlines { All IsOutline outlines.now }
    requires few { length outlines.now ≤ most_entries }
    ensures { IfOk result (λ starts. AreStarts outlines.now starts.items) }
{
    let mut starts = Vec::with_capacity(alloc, outlines.len() + 1)?;
    let mut end = 0;
    starts.push(end)?;
    for outline in outlines {
        end += outline.strokes().len().saturating_sub(1) as u32;
        starts.push(end)?;
    }
    Ok(starts)
}
