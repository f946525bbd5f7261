//! The condition of all calls over entries, as a test: whoever makes outlines can ask here whether they are entries.

ghost use Rattle.std.specs.Prelude.{◌↔◌, ◌<◌, IsTrue, All, length};
ghost use Rattle.steno_rules.specs.Outlines.{AreEntries, AreRising};

use crate::outlines::Outline;

/// Whether the outlines are what a list of entries is: in strictly rising order, none of them empty.
///
/// It is the test of the condition that calls over entries have. Each outline is compared with the one before it alone.
pub fn are_entries(outlines: &[Outline]) -> bool
    ensures { IsTrue result ↔ AreEntries outlines.now }
{
    have_strokes(outlines) && are_rising(outlines)
}

/// Whether none of the outlines is empty.
fn have_strokes(outlines: &[Outline]) -> bool
    ensures { IsTrue result ↔ All (λ o. 0 < length o) outlines.now }
{
    outlines.iter().all(|outline| !outline.strokes().is_empty())
}

/// Whether the outlines are in strictly rising order. It suffices to look at neighbours.
fn are_rising(outlines: &[Outline]) -> bool
    ensures { IsTrue result ↔ AreRising outlines.now }
{
    outlines.is_sorted_by(|earlier, later| earlier < later)
}
