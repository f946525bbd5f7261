//! What a brief makes of a stack: its entries and their flags with those of the brief.

ghost use Rattle.std.specs.Prelude.{◌≡◌, ◌≤◌, ◌<◌, ◌∷◌, ◌++◌, IfOk, OnOk, drop, length, slice_set, take, true};

use std::alloc::{AllocError, Global};
use stroke::Outline;

/// Adds equal outlines at the end.
fn push_copies(outlines: &[Outline], all: &mut Vec<Outline>) -> Result<(), AllocError>
    ensures { OnOk result (all.new.items ≡ all.old.items ++ outlines.now) }
{
    for outline in outlines {
        all.push(outline.copy()?)?;
    }
    Ok(())
}

/// Equal outlines, and the brief at this place among them.
pub(crate) fn with_outline(
    alloc: Global,
    outlines: &[Outline],
    place: u32,
    brief: &Outline,
) -> Result<Vec<Outline>, AllocError>
    requires { place ≤ length outlines.now }
    ensures { IfOk result (λ all. all.items
        ≡ take place outlines.now ++ brief.now ∷ drop place outlines.now) }
{
    let (before, behind) = outlines.split_at(place as usize);
    let mut all = Vec::with_capacity(alloc, outlines.len() + 1)?;
    push_copies(before, &mut all)?;
    all.push(brief.copy()?)?;
    push_copies(behind, &mut all)?;
    Ok(all)
}

/// Equal flags, and one that is true at this place among them.
pub(crate) fn with_flag(alloc: Global, words: &[bool], place: u32) -> Result<Vec<bool>, AllocError>
    requires { place ≤ length words.now }
    ensures { IfOk result (λ all. all.items ≡ take place words.now ++ true ∷ drop place words.now) }
{
    let (before, behind) = words.split_at(place as usize);
    let mut all = Vec::with_capacity(alloc, words.len() + 1)?;
    all.extend_from_slice(before)?;
    all.push(true)?;
    all.extend_from_slice(behind)?;
    Ok(all)
}

/// Equal flags, of which that at this place is true.
pub(crate) fn flagged(alloc: Global, words: &[bool], place: u32) -> Result<Vec<bool>, AllocError>
    requires { place < length words.now }
    ensures { IfOk result (λ all. all.items ≡ slice_set words.now place true) }
{
    let mut all = words.to_vec(alloc)?;
    all[place as usize] = true;
    Ok(all)
}
