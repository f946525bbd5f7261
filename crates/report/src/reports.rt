//! The report of an audit or of the pairs that stay, and the summary of a search.

ghost use Rattle.std.specs.Prelude.{◌≡◌, ◌++◌, IfOk, OnOk, codes, flat_map, length};
ghost use Rattle.outside.specs.Sink.{Puts};
ghost use Rattle.longest_match.specs.Rows.{AreSmall};
ghost use Rattle.report.specs.Reports.{head_text, number_line, pairs_text, report_text, rows_text, settled_text, skipped_line, skipped_text, summary_text};
ghost use Rattle.pages.specs.Pages.{AddsToPage, progress};

use crate::indexes::Index;
use crate::rows::write_rows;
use dict_json::Text;
use dict_stack::Stack;
use longest_match::Conflict;
use outside::{OutsideFault, Sink, write_all};
use pages::{new_page, push_number, push_quoted, put_full};
use std::alloc::{AllocError, Global};

/// The numbers of a report that its rows don't have.
#[derive(Clone, Copy, Debug, PartialEq, Eq)]
pub struct Summary {
    /// The reached states.
    pub states: u32,
    /// One more than the greatest number of strokes that leads to a state at best.
    pub rounds: u32,
    /// The rows: conflicts, or pairs that stay.
    pub conflicts: u32,
}

/// Adds a line with a name and a number.
fn push_line(page: &mut Vec<u8>, name: &[u8], number: u64) -> Result<(), AllocError>
    ensures { OnOk result (page.new.items ≡ page.old.items ++ number_line name.now number) }
{
    page.extend_from_slice(name)?;
    page.push(b' ')?;
    push_number(page, number)?;
    page.push(b'\n')?;
    Ok(())
}

/// Adds the seven counts, the last of which has this name.
pub(crate) fn push_head(
    alloc: Global,
    page: &mut Vec<u8>,
    name: &[u8],
    stack: &Stack,
    summary: &Summary,
) -> Result<(), AllocError>
    ensures { let added = head_text name.now stack.now summary.now in
        OnOk result (page.new.items ≡ page.old.items ++ added) }
{
    push_line(page, b"entries", u64::from(stack.entry_count()))?;
    push_line(page, b"skipped", stack.skipped_total())?;
    push_line(page, b"folded", stack.folded_total())?;
    push_line(page, b"strokes", u64::from(stack.count_strokes(alloc)?))?;
    push_line(page, b"states", u64::from(summary.states))?;
    push_line(page, b"rounds", u64::from(summary.rounds))?;
    push_line(page, name, u64::from(summary.conflicts))?;
    Ok(())
}

/// Adds the line of a skipped key of the dictionary of this number.
fn push_skipped(page: &mut Vec<u8>, number: u64, key: &str) -> Result<(), AllocError>
    ensures { OnOk result (page.new.items ≡ page.old.items ++ skipped_line number key.now) }
{
    page.extend_from_slice(b"skipped-key ")?;
    push_number(page, number)?;
    page.push(b' ')?;
    push_quoted(page, key)?;
    page.push(b'\n')?;
    Ok(())
}

/// Writes the line of a skipped key.
fn write_key<S: Sink>(
    sink: &mut S,
    page: &mut Vec<u8>,
    number: u64,
    key: &str,
) -> Result<(), OutsideFault>
    ensures { let before = progress (S.text sink.old) (S.faults sink.old) page.old.items in
        let after = progress (S.text sink.new) (S.faults sink.new) page.new.items in
        AddsToPage (skipped_line number key.now) result before after }
{
    push_skipped(page, number, key)?;
    put_full(sink, page)
}

/// Writes the lines of the skipped keys of the dictionary of this number.
fn write_keys<S: Sink>(
    sink: &mut S,
    page: &mut Vec<u8>,
    number: u64,
    keys: &[Text],
) -> Result<(), OutsideFault>
    ensures { let before = progress (S.text sink.old) (S.faults sink.old) page.old.items in
        let after = progress (S.text sink.new) (S.faults sink.new) page.new.items in
        AddsToPage (flat_map (skipped_line number) keys.now) result before after }
{
    for key in keys {
        write_key(sink, page, number, key.as_str())?;
    }
    Ok(())
}

/// Writes the lines of all skipped keys.
fn write_skipped<S: Sink>(
    sink: &mut S,
    page: &mut Vec<u8>,
    stack: &Stack,
) -> Result<(), OutsideFault>
    ensures { let before = progress (S.text sink.old) (S.faults sink.old) page.old.items in
        let after = progress (S.text sink.new) (S.faults sink.new) page.new.items in
        AddsToPage (skipped_text stack.now) result before after }
{
    for dictionary in 0..stack.dictionary_count() {
        write_keys(
            sink,
            page,
            u64::from(dictionary) + 1,
            stack.skipped(dictionary),
        )?;
    }
    Ok(())
}

/// Writes the three lines of each row, the first of which begins with this name.
fn write_indexed<S: Sink>(
    alloc: Global,
    sink: &mut S,
    page: &mut Vec<u8>,
    name: &[u8],
    stack: &Stack,
    rows: &[Conflict],
) -> Result<(), OutsideFault>
    requires { AreSmall stack.now.outlines rows.now }
    ensures { let before = progress (S.text sink.old) (S.faults sink.old) page.old.items in
        let after = progress (S.text sink.new) (S.faults sink.new) page.new.items in
        AddsToPage (rows_text name.now stack.now rows.now) result before after }
{
    let index = Index::new(alloc, stack)?;
    write_rows(alloc, sink, page, &index, name, rows)
}

/// A page with the seven counts, the last of which has this name.
fn head_page(
    alloc: Global,
    name: &[u8],
    stack: &Stack,
    summary: &Summary,
) -> Result<Vec<u8>, AllocError>
    ensures { IfOk result (λ page. page.items ≡ head_text name.now stack.now summary.now) }
{
    let mut page = new_page(alloc)?;
    push_head(alloc, &mut page, name, stack, summary)?;
    Ok(page)
}

/// Puts a report of pairs: seven counts, the last of which has the name `many`, the skipped keys, and three lines a
/// row, the first of which begins with the name `one`.
fn write_pairs<S: Sink>(
    alloc: Global,
    sink: &mut S,
    many: &[u8],
    one: &[u8],
    stack: &Stack,
    summary: &Summary,
    rows: &[Conflict],
) -> Result<(), OutsideFault>
    requires { AreSmall stack.now.outlines rows.now }
    ensures { let text = pairs_text many.now one.now stack.now summary.now rows.now in
        Puts text result (S.text sink.old) (S.text sink.new)
        (S.faults sink.old) (S.faults sink.new) }
{
    let mut page = head_page(alloc, many, stack, summary)?;
    write_skipped(sink, &mut page, stack)?;
    write_indexed(alloc, sink, &mut page, one, stack, rows)?;
    write_all(sink, &page)
}

/// Puts the report: seven counts, the skipped keys, and three lines a conflict.
///
/// The time follows the text, the strokes of the entries and, for each piece of what is shown, one binary search among
/// the entries. The text is put in pieces of 65,536 bytes and more, so only the last of them is held.
pub fn write_report<S: Sink>(
    alloc: Global,
    sink: &mut S,
    stack: &Stack,
    summary: &Summary,
    conflicts: &[Conflict],
) -> Result<(), OutsideFault>
    requires count { summary.now.conflicts ≡ length conflicts.now }
    requires small { AreSmall stack.now.outlines conflicts.now }
    ensures { let text = report_text stack.now summary.now conflicts.now in
        Puts text result (S.text sink.old) (S.text sink.new)
        (S.faults sink.old) (S.faults sink.new) }
{
    write_pairs(
        alloc,
        sink,
        b"conflicts",
        b"conflict",
        stack,
        summary,
        conflicts,
    )
}

/// Puts the report of the pairs that stay, as [`write_report`] does with conflicts; `settled` stands in place of the
/// words `conflicts` and `conflict`.
pub fn write_settled<S: Sink>(
    alloc: Global,
    sink: &mut S,
    stack: &Stack,
    summary: &Summary,
    pairs: &[Conflict],
) -> Result<(), OutsideFault>
    requires count { summary.now.conflicts ≡ length pairs.now }
    requires small { AreSmall stack.now.outlines pairs.now }
    ensures { let text = settled_text stack.now summary.now pairs.now in
        Puts text result (S.text sink.old) (S.text sink.new)
        (S.faults sink.old) (S.faults sink.new) }
{
    write_pairs(alloc, sink, b"settled", b"settled", stack, summary, pairs)
}

/// The text of a summary.
fn summary_page(
    alloc: Global,
    stack: &Stack,
    summary: &Summary,
    relaxed: u64,
) -> Result<Vec<u8>, AllocError>
    ensures { IfOk result (λ page. page.items ≡ summary_text stack.now summary.now relaxed) }
{
    let mut page = head_page(alloc, b"conflicts", stack, summary)?;
    push_line(&mut page, b"relaxed", relaxed)?;
    Ok(page)
}

/// Puts the summary: the seven counts of a report, and how many moves the search made.
pub fn write_summary<S: Sink>(
    alloc: Global,
    sink: &mut S,
    stack: &Stack,
    summary: &Summary,
    relaxed: u64,
) -> Result<(), OutsideFault>
    ensures { let text = summary_text stack.now summary.now relaxed in
        Puts text result (S.text sink.old) (S.text sink.new)
        (S.faults sink.old) (S.faults sink.new) }
{
    let page = summary_page(alloc, stack, summary, relaxed)?;
    write_all(sink, &page)
}
