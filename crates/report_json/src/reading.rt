//! Reading a report from the bytes of a JSON text.

ghost use Rattle.std.specs.Prelude.{◌≡◌, All, IfErr, IfOk, Some, map};
ghost use Rattle.serde_json.specs.View.{view};
ghost use Rattle.steno_rules.specs.Outlines.{IsOutline};
ghost use Rattle.steno_order.specs.Canonical.{canonical_text};
ghost use Rattle.steno_order.specs.Reading.{spelt_strokes};
ghost use Rattle.dict_json.specs.Reading.{reading};
ghost use Rattle.report_json.specs.JsonFaults.{IsJsonCause};
ghost use Rattle.report_json.specs.JsonReports.{IsJsonReport, IsJsonRow, number_value, outline_value, report_value, row_value};
ghost use Rattle.report_json.specs.inside.Readings.{AreRowWords, IsPartRefused, IsWithin, report_object, row_object, rows_value, words_value};

use crate::faults::JsonFault;
use crate::parts::{ReportParts, RowParts, report_parts, row_parts};
use crate::reports::{JsonReport, JsonRow};
use crate::stream::stream_json;
use serde_json::Value;
use std::alloc::Global;
use steno_order::{OutlineFault, read_outline, write_outline};
use stroke::Outline;

/// The greatest number of 32 bits.
pub(crate) const MOST: u64 = 4_294_967_295;

/// The whole number of a value, where it is one of these.
fn number_in(value: &Value, least: u64, most: u64) -> Result<u64, JsonFault>
    ensures ok { IfOk result (λ n. view value.now ≡ number_value n) }
    ensures within { IfOk result (IsWithin least most) }
    ensures err { IfErr result (IsPartRefused (IsWithin least most) number_value (view value.now)) }
{
    match value.as_u64() {
        Some(number) => {
            if least <= number && number <= most {
                Ok(number)
            } else {
                Err(JsonFault::NotReport)
            }
        }
        None => Err(JsonFault::NotReport),
    }
}

/// The outline that a text spells, where the text is the canonical one.
fn if_canonical(outline: Outline, text: &str, again: &mut String) -> Result<Outline, JsonFault>
    requires spelt { spelt_strokes text.now ≡ Some outline }
    requires is { IsOutline outline }
    ensures ok { IfOk result (λ outline. text.now ≡ canonical_text outline) }
    ensures is_outline { IfOk result IsOutline }
    ensures err { IfErr result (IsPartRefused IsOutline canonical_text text.now) }
{
    again.clear();
    write_outline(outline.strokes(), again)?;
    if again.as_str() == text {
        Ok(outline)
    } else {
        Err(JsonFault::NotReport)
    }
}

/// The outline of a canonical text. The text is written to `again`, whatever that has, and compared.
pub(crate) fn outline_of(
    alloc: Global,
    text: &str,
    again: &mut String,
) -> Result<Outline, JsonFault>
    ensures ok { IfOk result (λ outline. text.now ≡ canonical_text outline) }
    ensures is_outline { IfOk result IsOutline }
    ensures err { IfErr result (IsPartRefused IsOutline canonical_text text.now) }
{
    if text.len() as u64 > MOST {
        return Err(JsonFault::NotReport);
    }
    match read_outline(alloc, text) {
        Ok(outline) => if_canonical(outline, text, again),
        Err(OutlineFault::Unreadable { .. }) => Err(JsonFault::NotReport),
        Err(OutlineFault::TooLong { .. }) => Err(JsonFault::NotReport),
        Err(OutlineFault::Memory) => Err(JsonFault::Memory),
    }
}

/// The outline of a value, which is its canonical text.
fn outline_in(alloc: Global, value: &Value) -> Result<Outline, JsonFault>
    ensures ok { IfOk result (λ outline. view value.now ≡ outline_value outline) }
    ensures is_outline { IfOk result IsOutline }
    ensures err { IfErr result (IsPartRefused IsOutline outline_value (view value.now)) }
{
    match value {
        Value::String(text) => outline_of(alloc, text, &mut String::new(alloc)),
        _ => Err(JsonFault::NotReport),
    }
}

/// The outlines of values.
fn outlines_in(alloc: Global, values: &[Value]) -> Result<Vec<Outline>, JsonFault>
    ensures ok { IfOk result (λ outlines. map view values.now ≡ map outline_value outlines.items) }
    ensures are { IfOk result (λ outlines. All IsOutline outlines.items) }
    ensures err { IfErr result
        (IsPartRefused (All IsOutline) (map outline_value) (map view values.now)) }
{
    let mut outlines = Vec::with_capacity(alloc, values.len())?;
    for value in values {
        outlines.push(outline_in(alloc, value)?)?;
    }
    Ok(outlines)
}

/// The words of a value, one or more.
fn words_in(alloc: Global, value: &Value) -> Result<Vec<Outline>, JsonFault>
    ensures ok { IfOk result (λ words. view value.now ≡ words_value words.items) }
    ensures are { IfOk result (λ words. AreRowWords words.items) }
    ensures err { IfErr result (IsPartRefused AreRowWords words_value (view value.now)) }
{
    match value {
        Value::Array(values) => {
            let words = outlines_in(alloc, values)?;
            if words.is_empty() {
                Err(JsonFault::NotReport)
            } else {
                Ok(words)
            }
        }
        _ => Err(JsonFault::NotReport),
    }
}

/// The row of the values of its members.
fn row_of(alloc: Global, parts: &RowParts<'_>) -> Result<JsonRow, JsonFault>
    ensures ok { IfOk result (λ row. row_object (view parts.now.outline.now)
        (view parts.now.place.now) (view parts.now.strokes.now) (view parts.now.words.now)
        ≡ row_value row) }
    ensures is_row { IfOk result IsJsonRow }
    ensures err { IfErr result (IsPartRefused IsJsonRow row_value (row_object
        (view parts.now.outline.now) (view parts.now.place.now) (view parts.now.strokes.now)
        (view parts.now.words.now))) }
{
    let outline = outline_in(alloc, parts.outline)?;
    let place = number_in(parts.place, 1, 63)?;
    let strokes = number_in(parts.strokes, 0, MOST)?;
    let words = words_in(alloc, parts.words)?;
    Ok(JsonRow {
        outline,
        place: place as u8,
        strokes: strokes as u32,
        words,
    })
}

/// The row of a value.
fn row_in(alloc: Global, value: &Value) -> Result<JsonRow, JsonFault>
    ensures ok { IfOk result (λ row. view value.now ≡ row_value row) }
    ensures is_row { IfOk result IsJsonRow }
    ensures err { IfErr result (IsPartRefused IsJsonRow row_value (view value.now)) }
{
    match row_parts(value) {
        Some(parts) => row_of(alloc, &parts),
        None => Err(JsonFault::NotReport),
    }
}

/// The rows of values.
fn rows_of(alloc: Global, values: &[Value]) -> Result<Vec<JsonRow>, JsonFault>
    ensures ok { IfOk result (λ rows. map view values.now ≡ map row_value rows.items) }
    ensures are { IfOk result (λ rows. All IsJsonRow rows.items) }
    ensures err { IfErr result
        (IsPartRefused (All IsJsonRow) (map row_value) (map view values.now)) }
{
    let mut rows = Vec::with_capacity(alloc, values.len())?;
    for value in values {
        rows.push(row_in(alloc, value)?)?;
    }
    Ok(rows)
}

/// The rows of a value.
fn rows_in(alloc: Global, value: &Value) -> Result<Vec<JsonRow>, JsonFault>
    ensures ok { IfOk result (λ rows. view value.now ≡ rows_value rows.items) }
    ensures are { IfOk result (λ rows. All IsJsonRow rows.items) }
    ensures err { IfErr result (IsPartRefused (All IsJsonRow) rows_value (view value.now)) }
{
    match value {
        Value::Array(values) => rows_of(alloc, values),
        _ => Err(JsonFault::NotReport),
    }
}

/// The report of the values of its members.
fn report_of(alloc: Global, parts: &ReportParts<'_>) -> Result<JsonReport, JsonFault>
    ensures ok { IfOk result (λ report. report_object (view parts.now.conflicts.now)
        (view parts.now.entries.now) (view parts.now.folded.now) (view parts.now.rounds.now)
        (view parts.now.skipped.now) (view parts.now.states.now) (view parts.now.strokes.now)
        ≡ report_value report) }
    ensures is_report { IfOk result IsJsonReport }
    ensures err { IfErr result (IsPartRefused IsJsonReport report_value (report_object
        (view parts.now.conflicts.now) (view parts.now.entries.now) (view parts.now.folded.now)
        (view parts.now.rounds.now) (view parts.now.skipped.now) (view parts.now.states.now)
        (view parts.now.strokes.now))) }
{
    let rows = rows_in(alloc, parts.conflicts)?;
    let entries = number_in(parts.entries, 0, MOST)?;
    let folded = number_in(parts.folded, 0, u64::MAX)?;
    let rounds = number_in(parts.rounds, 0, MOST)?;
    let skipped = number_in(parts.skipped, 0, u64::MAX)?;
    let states = number_in(parts.states, 0, MOST)?;
    let strokes = number_in(parts.strokes, 0, MOST)?;
    Ok(JsonReport {
        entries: entries as u32,
        folded,
        rounds: rounds as u32,
        skipped,
        states: states as u32,
        strokes: strokes as u32,
        rows,
    })
}

/// The report of a value.
fn report_in(alloc: Global, value: &Value) -> Result<JsonReport, JsonFault>
    ensures ok { IfOk result (λ report. view value.now ≡ report_value report) }
    ensures is_report { IfOk result IsJsonReport }
    ensures err { IfErr result (IsPartRefused IsJsonReport report_value (view value.now)) }
{
    match report_parts(value) {
        Some(parts) => report_of(alloc, &parts),
        None => Err(JsonFault::NotReport),
    }
}

/// The value of a file's bytes.
fn read_value(alloc: Global, bytes: &[u8]) -> Result<Value, JsonFault>
    ensures ok { IfOk result (λ value. reading bytes.now ≡ Some (view value)) }
    ensures err { IfErr result (IsJsonCause (reading bytes.now)) }
{
    match Value::from_slice(alloc, bytes) {
        Ok(value) => Ok(value),
        Err(error) if error.is_memory() => Err(JsonFault::Memory),
        Err(_) => Err(JsonFault::NotJson),
    }
}

/// The report of a file's bytes, by the JSON value that they are.
fn read_whole(alloc: Global, bytes: &[u8]) -> Result<JsonReport, JsonFault>
    ensures ok { IfOk result (λ report. reading bytes.now ≡ Some (report_value report)) }
    ensures is_report { IfOk result IsJsonReport }
    ensures err { IfErr result (IsJsonCause (reading bytes.now)) }
{
    let value = read_value(alloc, bytes)?;
    report_in(alloc, &value)
}

/// The report of a file's bytes.
///
/// Refused where the bytes have no reading by `serde_json`, and where the value is that of no report: where a member is
/// missing or there is a further one, where a number isn't whole or is out of its range, where an outline isn't written
/// as this crate writes it, and where a row has no words. The cost is that of reading the JSON: once straight from its
/// tokens, and where the report can't be read so, once more as a value.
pub fn read_json(alloc: Global, bytes: &[u8]) -> Result<JsonReport, JsonFault>
    ensures ok { IfOk result (λ report. reading bytes.now ≡ Some (report_value report)) }
    ensures is_report { IfOk result IsJsonReport }
    ensures err { IfErr result (IsJsonCause (reading bytes.now)) }
{
    match stream_json(alloc, bytes) {
        Ok(report) => Ok(report),
        Err(JsonFault::Memory) => Err(JsonFault::Memory),
        Err(_) => read_whole(alloc, bytes),
    }
}
