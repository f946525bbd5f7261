//! The trial of one brief.

ghost use Rattle.std.specs.Prelude.{◌≡◌, ◌<◌, Some, length};
ghost use Rattle.steno_rules.specs.Outlines.{IsOutline, entry_number};
ghost use Rattle.dict_stack.specs.Finding.{IsMissing};
ghost use Rattle.conflict_example.specs.Chosen.{words_in_stack};
ghost use Rattle.brief_trial.specs.inside.Adding.{IsTried};

use crate::faults::TrialFault;
use crate::searching::search_entry;
use crate::stacks::{flagged, with_flag, with_outline};
use crate::trial::Trial;
use dict_stack::{Stack, find_outline};
use std::alloc::Global;
use stroke::Outline;

/// The trial of a brief that is an entry: it is made a word.
fn try_held(alloc: Global, stack: &Stack, brief: &Outline, entry: u32) -> Result<Trial, TrialFault>
    requires { entry_number stack.now.outlines brief.now ≡ Some entry }
    ensures { IsTried stack.now.outlines (words_in_stack stack.now) brief.now result }
{
    let words = flagged(alloc, stack.words(), entry)?;
    let conflicts = search_entry(alloc, stack.outlines(), &words, entry)?;
    Ok(Trial::new(brief.copy()?, entry, true, conflicts))
}

/// The trial of a brief that is no entry: it is made one, at its place, and a word.
fn try_new(alloc: Global, stack: &Stack, brief: &Outline, place: u32) -> Result<Trial, TrialFault>
    requires outline { IsOutline brief.now }
    requires missing { IsMissing stack.now.outlines brief.now place }
    ensures { IsTried stack.now.outlines (words_in_stack stack.now) brief.now result }
{
    let count = stack.outlines().len() + 1;
    if count > Stack::MAX_ENTRIES {
        return Err(TrialFault::Entries {
            count: count as u64,
        });
    }
    let entries = with_outline(alloc, stack.outlines(), place, brief)?;
    let words = with_flag(alloc, stack.words(), place)?;
    let conflicts = search_entry(alloc, &entries, &words, place)?;
    Ok(Trial::new(brief.copy()?, place, false, conflicts))
}

/// The trial of a brief.
pub(crate) fn try_one(alloc: Global, stack: &Stack, brief: &Outline) -> Result<Trial, TrialFault>
    requires { 0 < length brief.now }
    ensures { IsTried stack.now.outlines (words_in_stack stack.now) brief.now result }
{
    match find_outline(stack.outlines(), brief.strokes()) {
        Ok(entry) => try_held(alloc, stack, brief, entry),
        Err(place) => try_new(alloc, stack, brief, place),
    }
}
