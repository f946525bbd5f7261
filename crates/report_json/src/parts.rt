//! The members of a report's value and of a row's, by their names.

ghost use Rattle.std.specs.Prelude.{◌≡◌, IfSome, IsNone};
ghost use Rattle.serde_json.specs.Data.{Data, Members, member, object};
ghost use Rattle.serde_json.specs.View.{members_view, view};
ghost use Rattle.report_json.specs.inside.Readings.{report_object, row_object};

use serde_json::Value;
use std::collections::btree_map::Iter;

/// The members of an object, in order of the bytes of their names.
fn members_of(value: &Value) -> Option<Iter<'_, String, Value>>
    ensures some { IfSome result (λ members. view value.now ≡ object (members_view members)) }
    ensures none { IsNone result → (ms : Members) → view value.now ≡ object ms → ⊥ }
{
    match value {
        Value::Object(map) => Some(map.iter()),
        _ => None,
    }
}

/// The value of the next member, where it has this name.
fn next_named<'a>(members: &mut Iter<'a, String, Value>, name: &str) -> Option<&'a Value>
    ensures some { IfSome result (λ value.
        members_view members.old ≡ member name.now (view value.now) (members_view members.new)) }
    ensures none { IsNone result → (value : Data) (rest : Members)
        → members_view members.old ≡ member name.now value rest → ⊥ }
{
    let (key, value) = members.next()?;
    if key.as_str() == name {
        Some(value)
    } else {
        None
    }
}

/// The values of a row.
#[derive(Drop)]
pub(crate) struct RowParts<'a> {
    pub(crate) outline: &'a Value,
    pub(crate) place: &'a Value,
    pub(crate) strokes: &'a Value,
    pub(crate) words: &'a Value,
}

/// The values of a row, where the value has these members and no others.
pub(crate) fn row_parts(value: &Value) -> Option<RowParts<'_>>
    ensures some { IfSome result (λ p. view value.now
        ≡ row_object (view p.outline.now) (view p.place.now) (view p.strokes.now) (view p.words.now)) }
    ensures none { IsNone result → (outline place strokes words : Data)
        → view value.now ≡ row_object outline place strokes words → ⊥ }
{
    let mut members = members_of(value)?;
    let outline = next_named(&mut members, "outline")?;
    let place = next_named(&mut members, "place")?;
    let strokes = next_named(&mut members, "strokes")?;
    let words = next_named(&mut members, "words")?;
    if members.next().is_some() {
        return None;
    }
    Some(RowParts {
        outline,
        place,
        strokes,
        words,
    })
}

/// The values of a report.
#[derive(Drop)]
pub(crate) struct ReportParts<'a> {
    pub(crate) conflicts: &'a Value,
    pub(crate) entries: &'a Value,
    pub(crate) folded: &'a Value,
    pub(crate) rounds: &'a Value,
    pub(crate) skipped: &'a Value,
    pub(crate) states: &'a Value,
    pub(crate) strokes: &'a Value,
}

/// The values of a report, where the value has these members and no others.
pub(crate) fn report_parts(value: &Value) -> Option<ReportParts<'_>>
    ensures some { IfSome result (λ p. view value.now ≡ report_object (view p.conflicts.now)
        (view p.entries.now) (view p.folded.now) (view p.rounds.now) (view p.skipped.now)
        (view p.states.now) (view p.strokes.now)) }
    ensures none { IsNone result
        → (conflicts entries folded rounds skipped states strokes : Data)
        → view value.now ≡ report_object conflicts entries folded rounds skipped states strokes → ⊥ }
{
    let mut members = members_of(value)?;
    let conflicts = next_named(&mut members, "conflicts")?;
    let entries = next_named(&mut members, "entries")?;
    let folded = next_named(&mut members, "folded")?;
    let rounds = next_named(&mut members, "rounds")?;
    let skipped = next_named(&mut members, "skipped")?;
    let states = next_named(&mut members, "states")?;
    let strokes = next_named(&mut members, "strokes")?;
    if members.next().is_some() {
        return None;
    }
    Some(ReportParts {
        conflicts,
        entries,
        folded,
        rounds,
        skipped,
        states,
        strokes,
    })
}
