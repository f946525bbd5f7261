//! A report as JSON text.

ghost use Rattle.std.specs.Prelude.{◌≡◌, ◌++◌, IfOk, OnOk, codes, drop, false};
ghost use Rattle.serde_json.specs.Written.{comma_if, compact_text};
ghost use Rattle.outside.specs.Sink.{Puts};
ghost use Rattle.pages.specs.Pages.{AddsToPage, progress};
ghost use Rattle.report_json.specs.JsonLines.{json_text};
ghost use Rattle.report_json.specs.JsonReports.{row_value};
ghost use Rattle.report_json.specs.inside.Rests.{item_text, rest_value, rows_left};

use crate::items::{rest_data, row_data};
use crate::reports::{JsonReport, JsonRow};
use outside::{OutsideFault, Sink, write_all};
use pages::{new_page, put_full};
use std::alloc::{AllocError, Global};

/// The text of a row.
fn row_json(alloc: Global, row: &JsonRow) -> Result<Vec<u8>, AllocError>
    ensures { IfOk result (λ text. text.items ≡ compact_text (row_value row.now)) }
{
    row_data(alloc, row)?.to_vec(alloc)
}

/// The text of the numbers.
fn rest_json(alloc: Global, report: &JsonReport) -> Result<Vec<u8>, AllocError>
    ensures { IfOk result (λ text. text.items ≡ compact_text (rest_value report.now)) }
{
    rest_data(alloc, report)?.to_vec(alloc)
}

/// Adds a comma, where something stands before.
fn push_comma(page: &mut Vec<u8>, later: bool) -> Result<(), AllocError>
    ensures { OnOk result (page.new.items ≡ page.old.items ++ comma_if later) }
{
    if later {
        page.push(b',')?;
    }
    Ok(())
}

/// Adds the text of a row, behind a comma where it isn't the first.
fn push_row(alloc: Global, page: &mut Vec<u8>, row: &JsonRow, later: bool) -> Result<(), AllocError>
    ensures { OnOk result (page.new.items ≡ page.old.items ++ item_text later row.now) }
{
    let text = row_json(alloc, row)?;
    push_comma(page, later)?;
    page.extend_from_slice(&text)
}

/// Writes the text of a row, behind a comma where it isn't the first.
fn write_row<S: Sink>(
    alloc: Global,
    sink: &mut S,
    page: &mut Vec<u8>,
    row: &JsonRow,
    later: bool,
) -> Result<(), OutsideFault>
    ensures { let before = progress (S.text sink.old) (S.faults sink.old) page.old.items in
        let after = progress (S.text sink.new) (S.faults sink.new) page.new.items in
        AddsToPage (item_text later row.now) result before after }
{
    push_row(alloc, page, row, later)?;
    put_full(sink, page)
}

/// Writes the texts of the rows, with commas between them.
fn write_items<S: Sink>(
    alloc: Global,
    sink: &mut S,
    page: &mut Vec<u8>,
    rows: &[JsonRow],
) -> Result<(), OutsideFault>
    ensures { let before = progress (S.text sink.old) (S.faults sink.old) page.old.items in
        let after = progress (S.text sink.new) (S.faults sink.new) page.new.items in
        AddsToPage (rows_left false rows.now) result before after }
{
    for (i, row) in rows.iter().enumerate() {
        write_row(alloc, sink, page, row, i > 0)?;
    }
    Ok(())
}

/// Adds what stands behind the rows.
fn push_rest(alloc: Global, page: &mut Vec<u8>, report: &JsonReport) -> Result<(), AllocError>
    ensures { let rest = drop 1 (compact_text (rest_value report.now)) in
        OnOk result (page.new.items ≡ page.old.items ++ (codes "]," ++ rest)) }
{
    let text = rest_json(alloc, report)?;
    page.extend_from_slice(b"],")?;
    page.extend_from_slice(&text[1..])
}

/// A page with what stands before the rows.
fn front_page(alloc: Global) -> Result<Vec<u8>, AllocError>
    ensures { IfOk result (λ page. page.items ≡ codes "{\"conflicts\":[") }
{
    let mut page = new_page(alloc)?;
    page.extend_from_slice(b"{\"conflicts\":[")?;
    Ok(page)
}

/// Puts the report as compact JSON text, an object whose keys are in order of their bytes, without a line feed behind
/// it.
///
/// It fails where the sink does and where memory is refused, and then a prefix of the text was put. The cost is linear
/// in the text, which is put in pieces of 65,536 bytes and more.
pub fn write_json<S: Sink>(
    alloc: Global,
    sink: &mut S,
    report: &JsonReport,
) -> Result<(), OutsideFault>
    ensures { Puts (json_text report.now) result (S.text sink.old) (S.text sink.new)
        (S.faults sink.old) (S.faults sink.new) }
{
    let mut page = front_page(alloc)?;
    write_items(alloc, sink, &mut page, report.rows())?;
    push_rest(alloc, &mut page, report)?;
    write_all(sink, &page)
}
