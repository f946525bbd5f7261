//! The parts of a report as JSON values.

ghost use Rattle.std.specs.Prelude.{◌≡◌, IfOk, map};
ghost use Rattle.serde_json.specs.Data.{array};
ghost use Rattle.serde_json.specs.View.{items_of, view};
ghost use Rattle.report_json.specs.JsonReports.{outline_value, row_value};
ghost use Rattle.report_json.specs.inside.Rests.{rest_value};

use crate::reports::{JsonReport, JsonRow};
use serde_json::{Value, json};
use std::alloc::{AllocError, Global};
use steno_order::write_outline;
use stroke::Outline;

/// The canonical text of an outline.
fn outline_data(alloc: Global, outline: &Outline) -> Result<Value, AllocError>
    ensures { IfOk result (λ v. view v ≡ outline_value outline.now) }
{
    let mut text = String::new(alloc);
    write_outline(outline.strokes(), &mut text)?;
    Ok(Value::String(text))
}

/// The canonical texts of words.
fn words_data(alloc: Global, words: &[Outline]) -> Result<Value, AllocError>
    ensures { IfOk result (λ v. view v ≡ array (items_of (map outline_value words.now))) }
{
    let mut texts = Vec::with_capacity(alloc, words.len())?;
    for word in words {
        texts.push(outline_data(alloc, word)?)?;
    }
    Ok(Value::Array(texts))
}

/// A conflict.
pub(crate) fn row_data(alloc: Global, row: &JsonRow) -> Result<Value, AllocError>
    ensures { IfOk result (λ v. view v ≡ row_value row.now) }
{
    let outline = outline_data(alloc, row.outline())?;
    let words = words_data(alloc, row.words())?;
    json!(in alloc; {"outline": outline, "place": row.place(), "strokes": row.strokes(), "words": words})
}

/// The numbers of a report.
pub(crate) fn rest_data(alloc: Global, report: &JsonReport) -> Result<Value, AllocError>
    ensures { IfOk result (λ v. view v ≡ rest_value report.now) }
{
    json!(in alloc; {
        "entries": report.entries(),
        "folded": report.folded(),
        "rounds": report.rounds(),
        "skipped": report.skipped(),
        "states": report.states(),
        "strokes": report.strokes()
    })
}
