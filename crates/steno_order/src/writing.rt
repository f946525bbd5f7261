//! Writing: the one text that each stroke has.

ghost use Rattle.std.specs.Prelude.{◌≡◌, ◌+◌, ◌-◌, ◌++◌, ◌*◌, ◌<◌, ◌≤◌, ◌^◌, ◌∷◌, [], if◌then◌else◌, IfSome, IsOk, MatchOption, OnErr, OnOk, length, map, string_bytes, string_capacity, string_len};
ghost use Rattle.steno_order.specs.Canonical.{canonical, canonical_text, keys_from, mark, needs_bar, needs_hyphen};
ghost use Rattle.steno_order.specs.inside.Steps.{has_one, others_text};

use crate::keys::{LETTERS, NUMBERED};
use std::alloc::AllocError;
use stroke::Stroke;

/// No canonical text is longer: one character for each key but `#`, which may stand there with a hyphen.
const LONGEST: usize = 24;

/// The keys that have a digit.
const WITH_DIGIT: u32 = 1 << 1
    | 1 << 2
    | 1 << 4
    | 1 << 6
    | 1 << 8
    | 1 << 9
    | 1 << 13
    | 1 << 15
    | 1 << 17
    | 1 << 19;

/// The keys 8 to 12, after which the right side needs no hyphen.
const MIDDLE: u32 = 0x1f << 8;

/// The keys from 13 on.
const RIGHT: u32 = 0x3ff << 13;

/// Appends a stroke's canonical text. A refusal leaves the string as it was.
pub fn write_stroke(stroke: Stroke, text: &mut String) -> Result<(), AllocError>
    ensures ok { OnOk result (string_bytes text.new ≡ string_bytes text.old ++ canonical stroke) }
    ensures err { OnErr result (string_bytes text.new ≡ string_bytes text.old) }
{
    text.reserve(LONGEST)?;
    append(stroke, text)
}

/// Appends the strokes' canonical texts with `/` between them. A refusal leaves the string as it was.
pub fn write_outline(strokes: &[Stroke], text: &mut String) -> Result<(), AllocError>
    ensures ok { OnOk result (string_bytes text.new ≡
        string_bytes text.old ++ canonical_text strokes.now) }
    ensures err { OnErr result (string_bytes text.new ≡ string_bytes text.old) }
{
    text.reserve(strokes.len().saturating_mul(LONGEST + 1))?;
    if let Some((first, others)) = strokes.split_first() {
        append(*first, text)?;
        append_others(others, text)?;
    }
    Ok(())
}

/// Appends strokes' canonical texts, each after a slash, for which there is room.
fn append_others(strokes: &[Stroke], text: &mut String) -> Result<(), AllocError>
    requires { string_len text.old + 25 * length strokes.now ≤ string_capacity text.old }
    ensures ok { IsOk result }
    ensures bytes { string_bytes text.new ≡ string_bytes text.old ++ others_text strokes.now }
{
    for stroke in strokes {
        push_if(true, '/', text)?;
        append(*stroke, text)?;
    }
    Ok(())
}

/// Appends a stroke's canonical text, for which there is room.
fn append(stroke: Stroke, text: &mut String) -> Result<(), AllocError>
    requires { string_len text.old + 24 ≤ string_capacity text.old }
    ensures ok { IsOk result }
    ensures bytes { string_bytes text.new ≡ string_bytes text.old ++ canonical stroke }
    ensures len { string_len text.new ≤ string_len text.old + 24 }
    ensures capacity { string_capacity text.old ≤ string_capacity text.new }
{
    push_if(is_barred(stroke), '#', text)?;
    append_keys(stroke, 1, 13, text)?;
    push_if(is_divided(stroke), '-', text)?;
    append_keys(stroke, 13, 23, text)
}

/// The first pressed key from one on and before `end`.
fn pressed_from(stroke: Stroke, key: u8, end: u8) -> Option<u8>
    requires order { key ≤ end }
    requires keys { end ≤ 23 }
    ensures pressed { MatchOption result
        (keys_from stroke key (end - key) ≡ [])
        (λ pressed. keys_from stroke key (end - key)
        ≡ pressed ∷ keys_from stroke (pressed + 1) (end - (pressed + 1))) }
    ensures inside { IfSome result (λ pressed. (key ≤ pressed) × (pressed < end)) }
{
    let rest = stroke.code() >> key;
    if rest == 0 {
        return None;
    }
    let pressed = key + rest.trailing_zeros() as u8;
    if pressed < end { Some(pressed) } else { None }
}

/// Appends the characters of the pressed keys from `first` to before `end`, for which there is room.
fn append_keys(stroke: Stroke, first: u8, end: u8, text: &mut String) -> Result<(), AllocError>
    requires order { first ≤ end }
    requires keys { end ≤ 23 }
    requires room { string_len text.old + (end - first) ≤ string_capacity text.old }
    ensures ok { IsOk result }
    ensures bytes { string_bytes text.new ≡
        string_bytes text.old ++ map (mark stroke) (keys_from stroke first (end - first)) }
    ensures len { string_len text.new ≤ string_len text.old + (end - first) }
    ensures capacity { string_capacity text.old ≤ string_capacity text.new }
{
    let mut key = first;
    while let Some(pressed) = pressed_from(stroke, key, end) {
        push_if(true, mark_of(stroke, pressed), text)?;
        key = pressed + 1;
    }
    Ok(())
}

/// Appends a character, for which there is room, where it is wanted.
fn push_if(wanted: bool, character: char, text: &mut String) -> Result<(), AllocError>
    requires ascii { character < 128 }
    requires room { string_len text.old + 1 ≤ string_capacity text.old }
    ensures ok { IsOk result }
    ensures bytes { string_bytes text.new ≡
        string_bytes text.old ++ (if wanted then character ∷ [] else []) }
    ensures len { string_len text.new ≤ string_len text.old + 1 }
    ensures capacity { string_capacity text.old ≤ string_capacity text.new }
{
    if wanted {
        text.push(character)?;
    }
    Ok(())
}

/// The character that a key is written with in this stroke.
fn mark_of(stroke: Stroke, key: u8) -> char
    requires { key < 23 }
    ensures mark { result ≡ mark stroke key }
    ensures ascii { result < 128 }
{
    let marks = if stroke.has(0) { NUMBERED } else { LETTERS };
    marks[key as usize] as char
}

/// Whether the text begins with `#`: where the number bar is pressed and no digit says so.
fn is_barred(stroke: Stroke) -> bool
    ensures { result ≡ needs_bar stroke }
{
    stroke.has(0) && !has_any(stroke, WITH_DIGIT)
}

/// Whether the text has a hyphen: where a key of the right side is pressed and no vowel or star comes before it.
fn is_divided(stroke: Stroke) -> bool
    ensures { result ≡ needs_hyphen stroke }
{
    has_any(stroke, RIGHT) && !has_any(stroke, MIDDLE)
}

/// Whether one of these keys is pressed.
fn has_any(stroke: Stroke, keys: u32) -> bool
    requires { keys < 2 ^ 23 }
    ensures { result ≡ has_one stroke keys }
{
    stroke.code() & keys != 0
}
