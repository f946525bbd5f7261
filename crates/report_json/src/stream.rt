//! Reading a report straight from the tokens of its text, without a JSON value of the whole.
//!
//! So are the reports read whose members come in order and whose numbers are written in digits alone, whatever space
//! stands between. A fault says no more than that a text isn't read in this way.

ghost use Rattle.std.specs.Prelude.{◌≡◌, ◌∷◌, All, IfOk, Some};
ghost use Rattle.json.specs.Token.{end_array};
ghost use Rattle.dict_json.specs.Reading.{reading};
ghost use Rattle.report_json.specs.JsonReports.{IsJsonReport, IsJsonRow, report_value};
ghost use Rattle.report_json.specs.inside.Tokens.{each_token, report_tokens, row_tokens};

use crate::faults::JsonFault;
use crate::reading::MOST;
use crate::reports::{JsonReport, JsonRow};
use crate::taking::{
    Spare, take_begin_array, take_begin_object, take_end_object, take_key, take_number,
    take_outline, take_words,
};
use json::{Reader, Scratch};
use std::alloc::Global;

/// Takes a row.
fn take_row(alloc: Global, reader: &mut Reader<'_>, spare: &mut Spare) -> Result<JsonRow, JsonFault>
    ensures taken { IfOk result (λ row. reader.old ≡ row_tokens row reader.new) }
    ensures is_row { IfOk result IsJsonRow }
{
    take_begin_object(reader)?;
    take_key(reader, "outline")?;
    let outline = take_outline(alloc, reader, spare)?;
    let place = take_number(reader, "place", 1, 63, spare)?;
    let strokes = take_number(reader, "strokes", 0, MOST, spare)?;
    take_key(reader, "words")?;
    take_begin_array(reader)?;
    let words = take_words(alloc, reader, spare)?;
    take_end_object(reader)?;
    Ok(JsonRow {
        outline,
        place: place as u8,
        strokes: strokes as u32,
        words,
    })
}

/// Takes rows, and the end of their array.
fn take_rows(
    alloc: Global,
    reader: &mut Reader<'_>,
    spare: &mut Spare,
) -> Result<Vec<JsonRow>, JsonFault>
    ensures taken { IfOk result
        (λ rows. reader.old ≡ each_token row_tokens rows.items (end_array ∷ reader.new)) }
    ensures are { IfOk result (λ rows. All IsJsonRow rows.items) }
{
    let mut rows = Vec::new(alloc);
    'rows: while !reader.take_end_array() {
        rows.push(take_row(alloc, reader, spare)?)?;
    }
    Ok(rows)
}

/// Takes a report.
fn take_report(alloc: Global, reader: &mut Reader<'_>) -> Result<JsonReport, JsonFault>
    ensures taken { IfOk result (λ report. reader.old ≡ report_tokens report reader.new) }
    ensures is_report { IfOk result IsJsonReport }
{
    let spare = &mut Spare::new(alloc);
    take_begin_object(reader)?;
    take_key(reader, "conflicts")?;
    take_begin_array(reader)?;
    let rows = take_rows(alloc, reader, spare)?;
    let entries = take_number(reader, "entries", 0, MOST, spare)?;
    let folded = take_number(reader, "folded", 0, u64::MAX, spare)?;
    let rounds = take_number(reader, "rounds", 0, MOST, spare)?;
    let skipped = take_number(reader, "skipped", 0, u64::MAX, spare)?;
    let states = take_number(reader, "states", 0, MOST, spare)?;
    let strokes = take_number(reader, "strokes", 0, MOST, spare)?;
    take_end_object(reader)?;
    Ok(JsonReport {
        entries: entries as u32,
        folded,
        rounds: rounds as u32,
        skipped,
        states: states as u32,
        strokes: strokes as u32,
        rows,
    })
}

/// The report of a text.
fn read_text(alloc: Global, text: &str) -> Result<JsonReport, JsonFault>
    ensures ok { IfOk result (λ report. reading text.now ≡ Some (report_value report)) }
    ensures is_report { IfOk result IsJsonReport }
{
    let mut scratch = Scratch::new(alloc);
    let mut reader = Reader::new(text, &mut scratch)?;
    let report = take_report(alloc, &mut reader)?;
    match reader.next() {
        None => Ok(report),
        Some(_) => Err(JsonFault::NotReport),
    }
}

/// The report of a file's bytes, where its tokens are those of a report.
pub(crate) fn stream_json(alloc: Global, bytes: &[u8]) -> Result<JsonReport, JsonFault>
    ensures ok { IfOk result (λ report. reading bytes.now ≡ Some (report_value report)) }
    ensures is_report { IfOk result IsJsonReport }
{
    match str::from_utf8(bytes) {
        Ok(text) => read_text(alloc, text),
        Err(_) => Err(JsonFault::NotReport),
    }
}
