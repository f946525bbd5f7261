//! The rows of a report as lines.

ghost use Rattle.std.specs.Prelude.{◌≡◌, ◌++◌, OnOk, flat_map, map};
ghost use Rattle.text_rules.specs.Lines.{barred};
ghost use Rattle.steno_order.specs.Canonical.{canonical_text};
ghost use Rattle.outside.specs.Sink.{Puts};
ghost use Rattle.pages.specs.Pages.{AddsToPage, progress};
ghost use Rattle.report.specs.inside.Bars.{bar_at};
ghost use Rattle.report_json.specs.JsonLines.{listing_text, row_listing};

use crate::reports::{JsonReport, JsonRow};
use outside::{OutsideFault, Sink, write_all};
use pages::{new_page, push_number, push_outline, put_full};
use std::alloc::{AllocError, Global};
use stroke::Outline;

/// Adds a bar, where the word isn't the first.
fn push_bar(page: &mut Vec<u8>, place: usize) -> Result<(), AllocError>
    ensures { OnOk result (page.new.items ≡ page.old.items ++ bar_at place) }
{
    if place > 0 {
        page.extend_from_slice(b" | ")?;
    }
    Ok(())
}

/// Adds words, with bars between them.
fn push_words(page: &mut Vec<u8>, words: &[Outline], text: &mut String) -> Result<(), AllocError>
    ensures { let added = barred (map canonical_text words.now) in
        OnOk result (page.new.items ≡ page.old.items ++ added) }
{
    for (place, word) in words.iter().enumerate() {
        push_bar(page, place)?;
        push_outline(page, word.strokes(), text)?;
    }
    Ok(())
}

/// Adds the two lines of a row.
fn push_row_lines(page: &mut Vec<u8>, row: &JsonRow, text: &mut String) -> Result<(), AllocError>
    ensures { OnOk result (page.new.items ≡ page.old.items ++ row_listing row.now) }
{
    page.extend_from_slice(b"conflict ")?;
    push_outline(page, row.outline().strokes(), text)?;
    page.extend_from_slice(b" place ")?;
    push_number(page, u64::from(row.place()))?;
    page.extend_from_slice(b" strokes ")?;
    push_number(page, u64::from(row.strokes()))?;
    page.extend_from_slice(b"\nwords ")?;
    push_words(page, row.words(), text)?;
    page.push(b'\n')?;
    Ok(())
}

/// Writes the two lines of a row.
fn write_row_lines<S: Sink>(
    sink: &mut S,
    page: &mut Vec<u8>,
    row: &JsonRow,
    text: &mut String,
) -> Result<(), OutsideFault>
    ensures { let before = progress (S.text sink.old) (S.faults sink.old) page.old.items in
        let after = progress (S.text sink.new) (S.faults sink.new) page.new.items in
        AddsToPage (row_listing row.now) result before after }
{
    push_row_lines(page, row, text)?;
    put_full(sink, page)
}

/// Writes the lines of all rows.
fn write_lines<S: Sink>(
    alloc: Global,
    sink: &mut S,
    page: &mut Vec<u8>,
    rows: &[JsonRow],
) -> Result<(), OutsideFault>
    ensures { let before = progress (S.text sink.old) (S.faults sink.old) page.old.items in
        let after = progress (S.text sink.new) (S.faults sink.new) page.new.items in
        AddsToPage (flat_map row_listing rows.now) result before after }
{
    let mut text = String::new(alloc);
    for row in rows {
        write_row_lines(sink, page, row, &mut text)?;
    }
    Ok(())
}

/// Puts two lines for each row: the outline with its place and the number of strokes, and the words.
///
/// It fails where the sink does and where memory is refused, and then a prefix of the text was put. The cost is linear
/// in the text, which is put in pieces of 65,536 bytes and more.
pub fn write_rows<S: Sink>(
    alloc: Global,
    sink: &mut S,
    report: &JsonReport,
) -> Result<(), OutsideFault>
    ensures { Puts (listing_text report.now) result (S.text sink.old) (S.text sink.new)
        (S.faults sink.old) (S.faults sink.new) }
{
    let mut page = new_page(alloc)?;
    write_lines(alloc, sink, &mut page, report.rows())?;
    write_all(sink, &page)
}
