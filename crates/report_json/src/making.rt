//! The report of an audit, with outlines in place of numbers.

ghost use Rattle.std.specs.Prelude.{◌≡◌, All, IfOk, map};
ghost use Rattle.steno_rules.specs.Outlines.{IsOutline};
ghost use Rattle.steno_rules.specs.Conflicts.{AreEntryNumbers, outlines_of};
ghost use Rattle.longest_match.specs.Rows.{AreSmall, IsSmall};
ghost use Rattle.report_json.specs.JsonReports.{IsInner, IsJsonReport, IsJsonRow, json_report, json_row};

use crate::reports::{JsonReport, JsonRow};
use dict_stack::Stack;
use longest_match::Conflict;
use report::Summary;
use std::alloc::{AllocError, Global};
use stroke::Outline;

/// The outlines of words.
fn words_of(alloc: Global, outlines: &[Outline], words: &[u32]) -> Result<Vec<Outline>, AllocError>
    requires { AreEntryNumbers outlines.now words.now }
    ensures { IfOk result (λ v. v.items ≡ outlines_of outlines.now words.now) }
{
    let mut copies = Vec::with_capacity(alloc, words.len())?;
    for word in words {
        copies.push(outlines[*word as usize].copy()?)?;
    }
    Ok(copies)
}

/// A row of the report.
fn row(alloc: Global, outlines: &[Outline], conflict: &Conflict) -> Result<JsonRow, AllocError>
    requires outlines { All IsOutline outlines.now }
    requires small { IsSmall outlines.now conflict.now }
    requires inner { IsInner conflict.now }
    ensures row { IfOk result (λ row. row ≡ json_row outlines.now conflict.now) }
    ensures is_row { IfOk result IsJsonRow }
{
    Ok(JsonRow {
        outline: outlines[conflict.entry() as usize].copy()?,
        place: conflict.place(),
        strokes: conflict.strokes(),
        words: words_of(alloc, outlines, conflict.words())?,
    })
}

/// The rows of the report.
fn rows(
    alloc: Global,
    outlines: &[Outline],
    conflicts: &[Conflict],
) -> Result<Vec<JsonRow>, AllocError>
    requires outlines { All IsOutline outlines.now }
    requires small { All (IsSmall outlines.now) conflicts.now }
    requires inner { All IsInner conflicts.now }
    ensures rows { IfOk result (λ rows. rows.items ≡ map (json_row outlines.now) conflicts.now) }
    ensures are_rows { IfOk result (λ rows. All IsJsonRow rows.items) }
{
    let mut rows = Vec::with_capacity(alloc, conflicts.len())?;
    for conflict in conflicts {
        rows.push(row(alloc, outlines, conflict)?)?;
    }
    Ok(rows)
}

/// The report of an audit of the stack that found these conflicts. Each place is that of an inner boundary, 1 to 63.
/// The cost is linear in the strokes of the rows.
pub fn json_of(
    alloc: Global,
    stack: &Stack,
    summary: &Summary,
    conflicts: &[Conflict],
) -> Result<JsonReport, AllocError>
    requires small { AreSmall stack.now.outlines conflicts.now }
    requires inner { All IsInner conflicts.now }
    ensures report { IfOk result
        (λ report. report ≡ json_report stack.now summary.now conflicts.now) }
    ensures is_report { IfOk result IsJsonReport }
{
    let Summary { rounds, states, .. } = *summary;
    Ok(JsonReport {
        entries: stack.entry_count(),
        folded: stack.folded_total(),
        rounds,
        skipped: stack.skipped_total(),
        states,
        strokes: stack.count_strokes(alloc)?,
        rows: rows(alloc, stack.outlines(), conflicts)?,
    })
}
