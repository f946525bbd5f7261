//! Outlines are found in a binary search.

ghost use Rattle.std.specs.Prelude.{◌≡◌, ◌<◌, ◌^◌, IfErr, IfOk, Some, length};
ghost use Rattle.steno_rules.specs.Outlines.{AreRising, entry_number};
ghost use Rattle.dict_stack.specs.Finding.{IsMissing};

use stroke::{Outline, Stroke};

/// The number of the outline with these strokes, in a binary search. `Err` exactly where there is none, with the place
/// at which it would stand.
pub fn find_outline(outlines: &[Outline], strokes: &[Stroke]) -> Result<u32, u32>
    requires rising { AreRising outlines.now }
    requires few { length outlines.now < 2 ^ 32 }
    ensures found { IfOk result (λ entry. entry_number outlines.now strokes.now ≡ Some entry) }
    ensures missing { IfErr result (IsMissing outlines.now strokes.now) }
{
    match outlines.binary_search_by(|outline| outline.strokes().cmp(strokes)) {
        Ok(entry) => Ok(entry as u32),
        Err(place) => Err(place as u32),
    }
}
