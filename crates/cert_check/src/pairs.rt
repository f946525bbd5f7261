//! The pairs of the listed hits, each with its least distance.

ghost use Rattle.std.specs.Prelude.{◌≡◌, ◌++◌, ◌∷◌, [], ◌<◌, ◌^◌, All, List, length, get_or, slice_set, IfOk, OnOk, Some, None};
ghost use Rattle.steno_rules.specs.Outlines.{AreEntries, outline_of};
ghost use Rattle.pair_slots.specs.Slots.{AreStarts, first_slot};
ghost use Rattle.certificate.specs.CertTexts.{Listed};
ghost use Rattle.certificate_laws.specs.Validity.{entry_pairs, inner_pairs, listed_pairs};
ghost use Rattle.cert_check.specs.Verdicts.{closure_at, numbering_at};
ghost use Rattle.cert_check.specs.inside.Founds.{AreFound};
ghost use Rattle.cert_check.specs.inside.LeastDistances.{AreLeast, ForClosures, found_if, founds_in, least_with};
ghost use Rattle.cert_check.specs.inside.Places.{states_at, states_from};

use crate::founds::Found;
use crate::places::Place;
use dict_stack::Stack;
use pair_slots::starts_of;
use state_numbering::Numbering;
use std::alloc::{AllocError, Global};

/// Puts the lesser of the slot's distance and this one into the slot.
fn keep_least(slots: &mut Vec<Option<u32>>, slot: usize, distance: u32)
    requires { slot < length slots.old.items }
    ensures { slots.new.items ≡ slice_set slots.old.items slot
        (Some (least_with (get_or slots.old.items slot None) distance)) }
{
    slots[slot] = match slots[slot] {
        Some(least) => Some(least.min(distance)),
        None => Some(distance),
    };
}

/// Notes the distance in the place of a state, if the state is listed there and a hit.
fn note(
    slots: &mut Vec<Option<u32>>,
    numbering: &Numbering<'_>,
    starts: &[u32],
    state: u32,
    place: Place,
)
    requires starts { AreStarts numbering.now.entries starts.now }
    requires entries { AreEntries numbering.now.entries }
    requires slots { length slots.old.items
        ≡ first_slot numbering.now.entries (length numbering.now.entries) }
    ensures noted { ForClosures numbering.now (λ closure. (all : List Listed)
        → AreLeast closure all slots.old.items
        → AreLeast closure (all ++ states_from state (place ∷ [])) slots.new.items) }
    ensures count { length slots.new.items ≡ length slots.old.items }
{
    if place.line == 0 {
        return;
    }
    match numbering.hit_of(state) {
        Some(hit) => {
            let slot = starts[hit.entry as usize] as usize + (hit.place as usize - 1);
            keep_least(slots, slot, place.distance);
        }
        None => {}
    }
}

/// The least distance of the listed hits of each pair, in the pair's slot.
fn least_distances(
    alloc: Global,
    numbering: &Numbering<'_>,
    starts: &[u32],
    places: &[Place],
) -> Result<Vec<Option<u32>>, AllocError>
    requires starts { AreStarts numbering.now.entries starts.now }
    requires entries { AreEntries numbering.now.entries }
    requires few { length places.now < 2 ^ 32 }
    ensures { IfOk result (λ slots. ForClosures numbering.now
        (λ closure. AreLeast closure (states_at places.now) slots.items)) }
{
    let mut slots = vec![in alloc; None; starts[starts.len() - 1] as usize]?;
    for (state, place) in places.iter().enumerate() {
        note(&mut slots, numbering, starts, state as u32, *place);
    }
    Ok(slots)
}

/// Adds the pair, if it has a distance.
fn push_found(
    founds: &mut Vec<Found>,
    entry: u32,
    place: u8,
    distance: Option<u32>,
) -> Result<(), AllocError>
    ensures { OnOk result (founds.new.items ≡ founds.old.items
        ++ found_if (record { entry = entry; place = place }) distance) }
{
    match distance {
        Some(distance) => founds.push(Found {
            entry,
            place,
            distance,
        })?,
        None => {}
    }
    Ok(())
}

/// Adds the pairs of an entry that have a distance.
fn push_founds(
    stack: &Stack,
    starts: &[u32],
    slots: &[Option<u32>],
    entry: u32,
    founds: &mut Vec<Found>,
) -> Result<(), AllocError>
    requires starts { AreStarts stack.now.outlines starts.now }
    requires slots { length slots.now ≡ first_slot stack.now.outlines (length stack.now.outlines) }
    requires entries { AreEntries stack.now.outlines }
    requires entry { entry < length stack.now.outlines }
    ensures { let outlines = stack.now.outlines in
        OnOk result (founds.new.items ≡ founds.old.items
        ++ founds_in outlines slots.now (entry_pairs (entry, outline_of outlines entry))) }
{
    let start = starts[entry as usize] as usize;
    let len = stack.outline(entry).strokes().len() as u8;
    for place in 1..len {
        push_found(founds, entry, place, slots[start + (place as usize - 1)])?;
    }
    Ok(())
}

/// The pairs that have a distance, by entry and then by place.
fn all_founds(
    alloc: Global,
    stack: &Stack,
    starts: &[u32],
    slots: &[Option<u32>],
) -> Result<Vec<Found>, AllocError>
    requires starts { AreStarts stack.now.outlines starts.now }
    requires slots { length slots.now ≡ first_slot stack.now.outlines (length stack.now.outlines) }
    requires entries { AreEntries stack.now.outlines }
    ensures { let outlines = stack.now.outlines in
        IfOk result (λ founds. founds.items ≡ founds_in outlines slots.now (inner_pairs outlines)) }
{
    let mut founds = Vec::new(alloc);
    for entry in 0..stack.entry_count() {
        push_founds(stack, starts, slots, entry, &mut founds)?;
    }
    Ok(founds)
}

/// The pairs of the listed hits, by entry and then by place, each with its least distance.
pub(crate) fn found_pairs(
    alloc: Global,
    stack: &Stack,
    numbering: &Numbering<'_>,
    places: &[Place],
) -> Result<Vec<Found>, AllocError>
    requires over { numbering.now ≡ numbering_at stack.now }
    requires few { length places.now < 2 ^ 32 }
    ensures found { IfOk result (λ founds. let closure = closure_at stack.now in
        let all = states_at places.now in
        AreFound closure all (listed_pairs closure all) founds.items) }
    ensures entries { IfOk result (λ founds.
        All (λ f. f.entry < length stack.now.outlines) founds.items) }
{
    let starts = starts_of(alloc, stack.outlines())?;
    let slots = least_distances(alloc, numbering, &starts, places)?;
    all_founds(alloc, stack, &starts, &slots)
}
