//! Reading: a text's characters in one pass, part by part.

ghost use Rattle.std.specs.Prelude.{◌≡◌, ◌+◌, ◌∷◌, ◌<◌, ◌≤◌, ◌^◌, List, ℕ, IfErr, IfOk, IfSome, MatchOption, None, Option, Some, is_some, length, option_map, slice_set};
ghost use Rattle.steno_rules.specs.Outlines.{IsOutline};
ghost use Rattle.steno_order.specs.Reading.{readings, stroke_of, spelt_strokes};
ghost use Rattle.steno_order.specs.Faults.{IsOutlineCause, IsStrokesCause};
ghost use Rattle.steno_order.specs.inside.Steps.{readings_left};

use crate::faults::{OutlineFault, StrokesFault};
use crate::pressed::Pressed;
use std::alloc::Global;
use stroke::{Outline, Stroke};

/// The stroke that a text spells.
///
/// The text has no slash: a slash is a character of no key. Costs one step a character and no memory.
pub fn read_stroke(text: &str) -> Option<Stroke>
    ensures { result ≡ stroke_of text.now }
{
    let mut pressed = Pressed::NONE;
    for byte in text.as_bytes() {
        pressed = pressed.press(*byte)?;
    }
    pressed.stroke()
}

/// The first part of a text, read.
#[derive(Clone, Copy)]
struct Part<'a> {
    stroke: Stroke,
    /// The text after the part's slash, if it ends at one.
    rest: Option<&'a [u8]>,
}

/// Reads the first part of a text, up to a slash or the end. None where this part spells no stroke.
fn read_part(text: &[u8]) -> Option<Part<'_>>
    ensures part { MatchOption result
        ((others : List (Option ℕ)) × (readings text.now ≡ None ∷ others))
        (λ part. readings text.now ≡
        Some part.stroke ∷ readings_left (option_map (λ rest. rest.now) part.rest)) }
    ensures shorter { IfSome result
        (λ part. IfSome part.rest (λ rest. length rest.now < length text.now)) }
{
    let mut pressed = Pressed::NONE;
    for (i, byte) in text.iter().enumerate() {
        if *byte == b'/' {
            return Some(Part {
                stroke: pressed.stroke()?,
                rest: Some(&text[i + 1..]),
            });
        }
        pressed = pressed.press(*byte)?;
    }
    Some(Part {
        stroke: pressed.stroke()?,
        rest: None,
    })
}

/// The strokes that the parts of a text between slashes spell.
///
/// Refused where a part spells none, with the number of the first such part. No text has no part, so an empty text is
/// refused too. Costs one step a character, and the memory of the list.
pub fn read_strokes(alloc: Global, text: &str) -> Result<Vec<Stroke>, StrokesFault>
    requires { length text.now < 2 ^ 32 }
    ensures ok { IfOk result (λ strokes. spelt_strokes text.now ≡ Some strokes.items) }
    ensures fits { IfOk result (λ strokes. length strokes.items ≤ length text.now) }
    ensures err { IfErr result (IsStrokesCause text.now) }
{
    let mut strokes = Vec::new(alloc);
    let mut rest = Some(text.as_bytes());
    while let Some(bytes) = rest {
        let Some(part) = read_part(bytes) else {
            return Err(StrokesFault::Unreadable {
                part: strokes.len() as u32,
            });
        };
        strokes.push(part.stroke)?;
        rest = part.rest;
    }
    Ok(strokes)
}

/// Whether each part of a text between slashes spells a stroke. It takes no memory.
pub fn is_readable(text: &str) -> bool
    ensures { result ≡ is_some (spelt_strokes text.now) }
{
    let mut rest = Some(text.as_bytes());
    while let Some(bytes) = rest {
        let Some(part) = read_part(bytes) else {
            return false;
        };
        rest = part.rest;
    }
    true
}

/// The outline that a text spells: as [`read_strokes`], for at most [`Outline::MAX`] strokes.
///
/// Costs one step a character, and memory once, of the outline's length.
pub fn read_outline(alloc: Global, text: &str) -> Result<Outline, OutlineFault>
    requires { length text.now < 2 ^ 32 }
    ensures ok { IfOk result (λ outline. spelt_strokes text.now ≡ Some outline) }
    ensures is_outline { IfOk result IsOutline }
    ensures err { IfErr result (IsOutlineCause text.now) }
{
    let mut strokes = [Stroke::default(); Outline::MAX];
    let mut parts = 0;
    let mut rest = Some(text.as_bytes());
    while let Some(bytes) = rest {
        let Some(part) = read_part(bytes) else {
            return Err(OutlineFault::Unreadable { part: parts as u32 });
        };
        put(&mut strokes, parts, part.stroke);
        parts += 1;
        rest = part.rest;
    }
    if parts > Outline::MAX {
        return Err(OutlineFault::TooLong {
            parts: parts as u64,
        });
    }
    Ok(Outline::from_strokes(alloc, &strokes[..parts])?)
}

/// Puts a stroke into its place, unless it lies behind the last one.
fn put(strokes: &mut [Stroke], place: usize, stroke: Stroke)
    ensures { strokes.new ≡ slice_set strokes.old place stroke }
{
    if place < strokes.len() {
        strokes[place] = stroke;
    }
}
