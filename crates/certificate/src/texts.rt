//! The text of a line.

ghost use Rattle.std.specs.Prelude.{◌≡◌, ◌++◌, ◌<◌, ◌∷◌, OnOk, decimal, flat_map, length, map, true};
ghost use Rattle.std.specs.List.{list_all};
ghost use Rattle.text_rules.specs.Lines.{line};
ghost use Rattle.certificate.specs.CertLines.{fits, is_u32, line_text};
ghost use Rattle.certificate.specs.Writers.{HasWord};
ghost use Rattle.certificate.specs.declared.lines.CertLine.TheVariants as of;

use crate::lines::CertLine;
use itoa::Buffer;
use longest_match::Conflict;
use std::alloc::AllocError;

/// AddsBytes each number with a space before it.
fn push_spaced(text: &mut Vec<u8>, numbers: &[u32]) -> Result<(), AllocError>
    ensures added { OnOk result (text.new.items ≡ text.old.items
        ++ flat_map (λ n. 32 ∷ decimal n) numbers.now) }
    ensures fit { OnOk result (list_all is_u32 numbers.now ≡ true) }
{
    for number in numbers {
        let mut buffer = Buffer::new();
        text.push(b' ')?;
        text.extend_from_slice(buffer.format(*number).as_bytes())?;
    }
    Ok(())
}

/// AddsBytes the line of this name with these numbers.
fn push_named(text: &mut Vec<u8>, name: &[u8], numbers: &[u32]) -> Result<(), AllocError>
    ensures { OnOk result (text.new.items ≡ text.old.items
        ++ line (name.now ∷ map decimal numbers.now)) }
{
    text.extend_from_slice(name)?;
    push_spaced(text, numbers)?;
    text.push(b'\n')?;
    Ok(())
}

/// AddsBytes the line of a conflict.
fn push_row(text: &mut Vec<u8>, conflict: &Conflict) -> Result<(), AllocError>
    ensures added { OnOk result (text.new.items ≡ text.old.items
        ++ line_text (of.Row conflict.now)) }
    ensures fit { OnOk result (0 < length conflict.now.words
        → fits (of.Row conflict.now) ≡ true) }
{
    text.push(b'r')?;
    push_spaced(
        text,
        &[
            conflict.entry(),
            u32::from(conflict.place()),
            conflict.strokes(),
        ],
    )?;
    push_spaced(text, conflict.words())?;
    text.push(b'\n')?;
    Ok(())
}

/// AddsBytes the text of a line, whose numbers have room in their fields.
pub(crate) fn push_line(text: &mut Vec<u8>, line: &CertLine) -> Result<(), AllocError>
    ensures added { OnOk result (text.new.items ≡ text.old.items ++ line_text line.now) }
    ensures fit { OnOk result (HasWord line.now → fits line.now ≡ true) }
{
    match line {
        CertLine::Head { version } => push_named(text, b"boundary-certificate", &[*version]),
        CertLine::Entries { count } => push_named(text, b"entries", &[*count]),
        CertLine::States { count } => push_named(text, b"states", &[*count]),
        CertLine::Distance { state, distance } => push_named(text, b"d", &[*state, *distance]),
        CertLine::Run {
            first,
            last,
            distance,
        } => push_named(text, b"g", &[*first, *last, *distance]),
        CertLine::Conflicts { count } => push_named(text, b"conflicts", &[*count]),
        CertLine::Row { conflict } => push_row(text, conflict),
        CertLine::End => push_named(text, b"end", &[]),
    }
}
