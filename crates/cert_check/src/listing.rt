//! What is checked at the conflicts line: the start, the moves, and the number of pairs.

ghost use Rattle.std.specs.Prelude.{◌≡◌, ◌<◌, false, length, IfOk, IfErr, All};
ghost use Rattle.steno_rules.specs.Outlines.{AreEntries};
ghost use Rattle.certificate_laws.specs.Checks.{Lines};
ghost use Rattle.cert_check.specs.Verdicts.{closure_at, numbering_at, is_check_failed};
ghost use Rattle.cert_check.specs.inside.Founds.{IsFoundListing, IsListingFault};
ghost use Rattle.cert_check.specs.inside.Uppers.{IsSound, Represents};

use crate::faults::CheckFault;
use crate::founds::Found;
use crate::moves::{first_stuck, is_within};
use crate::pairs::found_pairs;
use crate::upper::Upper;
use dict_stack::Stack;
use report::Why;
use state_numbering::{ClosureGraph, Numbering};
use std::alloc::Global;

/// The pairs of the listed hits by entry and place, where what is listed holds.
pub(crate) fn check_listing(
    alloc: Global,
    stack: &Stack,
    numbering: &Numbering<'_>,
    upper: &Upper,
    announced: u32,
) -> Result<Vec<Found>, CheckFault>
    requires over { numbering.now ≡ numbering_at stack.now }
    requires entries { AreEntries stack.now.outlines }
    requires sound { IsSound stack.now.outlines upper.now }
    ensures found { IfOk result (λ founds. (before : Lines) → Represents upper.now before
        → IsFoundListing (closure_at stack.now) before announced founds.items) }
    ensures entries { IfOk result (λ founds.
        All (λ f. f.entry < length stack.now.outlines) founds.items) }
    ensures err { IfErr result (λ fault. (before : Lines) → Represents upper.now before
        → IsListingFault (closure_at stack.now) before announced fault) }
    ensures calm { is_check_failed result ≡ false }
{
    let line = u64::from(upper.lines) + 1;
    if !is_within(&upper.places, 0, 0) {
        return Err(CheckFault::Rejected {
            line,
            why: Why::Start,
        });
    }
    match first_stuck(&ClosureGraph::new(numbering), &upper.places) {
        Some(line) => return Err(CheckFault::Rejected {
            line: u64::from(line),
            why: Why::Move,
        }),
        None => {}
    }
    let founds = match found_pairs(alloc, stack, numbering, &upper.places) {
        Ok(founds) => founds,
        Err(_) => return Err(CheckFault::Memory),
    };
    if founds.len() as u64 != u64::from(announced) {
        return Err(CheckFault::Rejected {
            line,
            why: Why::Count,
        });
    }
    Ok(founds)
}
