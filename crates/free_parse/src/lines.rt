//! The lines that say whether the words are free, and if not, which two readings there are.

ghost use Rattle.std.specs.Prelude.{◌≡◌, ◌++◌, IfOk, IfSome, OnOk, option_copied};
ghost use Rattle.steno_rules.specs.Conflicts.{AreEntryNumbers};
ghost use Rattle.outside.specs.Sink.{Puts};
ghost use Rattle.report.specs.Reports.{words_text};
ghost use Rattle.free_parse.specs.FoundReadings.{AreBothNumbers};
ghost use Rattle.free_parse.specs.ParseTexts.{counts_text, free_text, parse_text, reading_line, readings_text};

use crate::two::Readings;
use dict_stack::Stack;
use outside::{OutsideFault, Sink, write_all};
use pages::{new_page, push_number, push_outline};
use std::alloc::{AllocError, Global};

/// Adds the three counts.
fn push_counts(
    page: &mut Vec<u8>,
    stack: &Stack,
    states: u32,
    rounds: u32,
) -> Result<(), AllocError>
    ensures { let added = counts_text stack.now.outlines states rounds in
        OnOk result (page.new.items ≡ page.old.items ++ added) }
{
    page.extend_from_slice(b"entries ")?;
    push_number(page, u64::from(stack.entry_count()))?;
    page.extend_from_slice(b"\nstates ")?;
    push_number(page, u64::from(states))?;
    page.extend_from_slice(b"\nrounds ")?;
    push_number(page, u64::from(rounds))?;
    page.push(b'\n')?;
    Ok(())
}

/// Adds the outlines of words, with bars between them. Each is written to `text` first, whatever that has.
fn push_words(
    page: &mut Vec<u8>,
    stack: &Stack,
    words: &[u32],
    text: &mut String,
) -> Result<(), AllocError>
    requires { AreEntryNumbers stack.now.outlines words.now }
    ensures { let added = words_text stack.now.outlines words.now in
        OnOk result (page.new.items ≡ page.old.items ++ added) }
{
    for (place, word) in words.iter().enumerate() {
        if place > 0 {
            page.extend_from_slice(b" | ")?;
        }
        push_outline(page, stack.outline(*word).strokes(), text)?;
    }
    Ok(())
}

/// Adds the line of a reading, which begins with this name.
fn push_reading(
    page: &mut Vec<u8>,
    stack: &Stack,
    name: &[u8],
    words: &[u32],
    text: &mut String,
) -> Result<(), AllocError>
    requires { AreEntryNumbers stack.now.outlines words.now }
    ensures { let added = reading_line name.now stack.now.outlines words.now in
        OnOk result (page.new.items ≡ page.old.items ++ added) }
{
    page.extend_from_slice(name)?;
    page.push(b' ')?;
    push_words(page, stack, words, text)?;
    page.push(b'\n')?;
    Ok(())
}

/// Adds the three lines of two readings.
fn push_readings(
    alloc: Global,
    page: &mut Vec<u8>,
    stack: &Stack,
    two: &Readings,
) -> Result<(), AllocError>
    requires { AreBothNumbers stack.now.outlines two.now }
    ensures { let added = readings_text stack.now.outlines two.now in
        OnOk result (page.new.items ≡ page.old.items ++ added) }
{
    let mut text = String::new(alloc);
    page.extend_from_slice(b"free no strokes ")?;
    push_number(page, u64::from(two.strokes()))?;
    page.push(b'\n')?;
    push_reading(page, stack, b"first", two.first(), &mut text)?;
    push_reading(page, stack, b"second", two.second(), &mut text)
}

/// Adds the lines that say whether the words are free.
fn push_found(
    alloc: Global,
    page: &mut Vec<u8>,
    stack: &Stack,
    readings: Option<&Readings>,
) -> Result<(), AllocError>
    requires { IfSome (option_copied readings) (AreBothNumbers stack.now.outlines) }
    ensures { let added = free_text stack.now.outlines (option_copied readings.entry) in
        OnOk result (page.new.items ≡ page.old.items ++ added) }
{
    match readings {
        None => page.extend_from_slice(b"free yes\n"),
        Some(two) => push_readings(alloc, page, stack, two),
    }
}

/// The whole text.
fn parse_page(
    alloc: Global,
    stack: &Stack,
    states: u32,
    rounds: u32,
    readings: Option<&Readings>,
) -> Result<Vec<u8>, AllocError>
    requires { IfSome (option_copied readings) (AreBothNumbers stack.now.outlines) }
    ensures { let found = option_copied readings.entry in
        IfOk result (λ page. page.items ≡ parse_text stack.now.outlines states rounds found) }
{
    let mut page = new_page(alloc)?;
    push_counts(&mut page, stack, states, rounds)?;
    push_found(alloc, &mut page, stack, readings)?;
    Ok(page)
}

/// Puts how many entries, reached numbers and rounds there are, and whether the words are free; where they aren't, how
/// many strokes the two readings have, and the words of both.
///
/// It fails where the sink does and where memory is refused, and then a prefix of the text was put. The text is made
/// whole before it is put. The cost is linear in it.
pub fn write_parse<S: Sink>(
    alloc: Global,
    sink: &mut S,
    stack: &Stack,
    states: u32,
    rounds: u32,
    readings: Option<&Readings>,
) -> Result<(), OutsideFault>
    requires { IfSome (option_copied readings) (AreBothNumbers stack.now.outlines) }
    ensures { let found = option_copied readings.entry in
        let text = parse_text stack.now.outlines states rounds found in
        Puts text result (S.text sink.old) (S.text sink.new)
        (S.faults sink.old) (S.faults sink.new) }
{
    let page = parse_page(alloc, stack, states, rounds, readings)?;
    write_all(sink, &page)
}
