//! The lines of rows. Those of an audit's conflicts are written here, and so are rows of other kinds of pairs, whose
//! first line begins with another name.

ghost use Rattle.std.specs.Prelude.{◌≡◌, ◌<◌, ◌++◌, All, IfSome, OnOk, length};
ghost use Rattle.steno_rules.specs.Conflicts.{AreEntryNumbers, joined_strokes};
ghost use Rattle.steno_rules.specs.Segments.{segments};
ghost use Rattle.stroke.specs.Pieces.{pieces as pieces_of};
ghost use Rattle.longest_match.specs.Rows.{IsSmall};
ghost use Rattle.report.specs.Reports.{pair_line, pieces_shown, row_text, rows_text, shown, shown_text, words_text};
ghost use Rattle.report.specs.inside.Bars.{bar_at};
ghost use Rattle.pages.specs.Pages.{AddsToPage, progress};

use crate::indexes::Index;
use longest_match::{Conflict, Piece};
use outside::{OutsideFault, Sink};
use pages::{push_number, push_outline, push_quoted, put_full};
use std::alloc::{AllocError, Global};
use stroke::Stroke;

/// What is used again from one row to the next.
#[derive(Drop)]
pub(crate) struct Scratch {
    strokes: Vec<Stroke>,
    pieces: Vec<Piece>,
    text: String,
}

impl Scratch {
    /// Nothing is kept yet.
    pub(crate) fn new(alloc: Global) -> Scratch {
        Scratch {
            strokes: Vec::new(alloc),
            pieces: Vec::new(alloc),
            text: String::new(alloc),
        }
    }
}

/// Adds the line of a pair.
fn push_pair(
    page: &mut Vec<u8>,
    index: &Index<'_>,
    name: &[u8],
    row: &Conflict,
) -> Result<(), AllocError>
    requires { row.now.entry < length index.now.outlines }
    ensures { let added = pair_line name.now index.now.outlines row.now in
        OnOk result (page.new.items ≡ page.old.items ++ added) }
{
    page.extend_from_slice(name)?;
    page.push(b' ')?;
    page.extend_from_slice(index.outline(row.entry()))?;
    page.extend_from_slice(b" place ")?;
    push_number(page, u64::from(row.place()))?;
    page.extend_from_slice(b" strokes ")?;
    push_number(page, u64::from(row.strokes()))?;
    page.push(b'\n')?;
    Ok(())
}

/// Adds a bar, where the place isn't the first.
fn push_bar(page: &mut Vec<u8>, place: usize) -> Result<(), AllocError>
    ensures { OnOk result (page.new.items ≡ page.old.items ++ bar_at place) }
{
    if place > 0 {
        page.extend_from_slice(b" | ")?;
    }
    Ok(())
}

/// Adds the outlines of words, with bars between them.
pub(crate) fn push_words(
    page: &mut Vec<u8>,
    index: &Index<'_>,
    words: &[u32],
) -> Result<(), AllocError>
    requires { AreEntryNumbers index.now.outlines words.now }
    ensures { let added = words_text index.now.outlines words.now in
        OnOk result (page.new.items ≡ page.old.items ++ added) }
{
    for (place, word) in words.iter().enumerate() {
        push_bar(page, place)?;
        page.extend_from_slice(index.outline(*word))?;
    }
    Ok(())
}

/// Adds a piece: the quoted translation of its entry, or its strokes where it is none.
fn push_piece(
    page: &mut Vec<u8>,
    index: &Index<'_>,
    strokes: &[Stroke],
    entry: Option<u32>,
    text: &mut String,
) -> Result<(), AllocError>
    requires { IfSome entry (λ e. e < length index.now.outlines) }
    ensures { let added = shown index.now strokes.now entry in
        OnOk result (page.new.items ≡ page.old.items ++ added) }
{
    match entry {
        Some(entry) => push_quoted(page, index.stack().translation(entry)),
        None => push_outline(page, strokes, text),
    }
}

/// Adds the pieces of strokes, with bars between them.
fn push_pieces(
    page: &mut Vec<u8>,
    index: &Index<'_>,
    strokes: &[Stroke],
    pieces: &[Piece],
    text: &mut String,
) -> Result<(), AllocError>
    requires { pieces.now ≡ pieces_of index.now.outlines strokes.now }
    ensures { let added = pieces_shown index.now (segments index.now.outlines strokes.now) in
        OnOk result (page.new.items ≡ page.old.items ++ added) }
{
    let mut rest = strokes;
    for (place, piece) in pieces.iter().enumerate() {
        push_bar(page, place)?;
        let (first, others) = rest.split_at(piece.len as usize);
        push_piece(page, index, first, piece.entry, text)?;
        rest = others;
    }
    Ok(())
}

/// The strokes of words, joined.
fn join(index: &Index<'_>, words: &[u32], strokes: &mut Vec<Stroke>) -> Result<(), AllocError>
    requires { AreEntryNumbers index.now.outlines words.now }
    ensures { OnOk result (strokes.new.items ≡ joined_strokes index.now.outlines words.now) }
{
    strokes.clear();
    for word in words {
        strokes.extend_from_slice(index.stack().outline(*word).strokes())?;
    }
    Ok(())
}

/// Adds what comes out where the words of a row are written, with bars between the pieces. In most rows that is the
/// row's entry alone, so it is guessed.
fn push_shown(
    page: &mut Vec<u8>,
    index: &Index<'_>,
    row: &Conflict,
    scratch: &mut Scratch,
) -> Result<(), AllocError>
    requires { IsSmall index.now.outlines row.now }
    ensures { let added = shown_text index.now row.now.words in
        OnOk result (page.new.items ≡ page.old.items ++ added) }
{
    let Scratch {
        strokes,
        pieces,
        text,
    } = scratch;
    join(index, row.words(), strokes)?;
    index.segment(row.entry(), strokes, pieces)?;
    push_pieces(page, index, strokes, pieces, text)
}

/// Adds the three lines of a row, the first of which begins with this name.
pub(crate) fn push_row(
    page: &mut Vec<u8>,
    index: &Index<'_>,
    name: &[u8],
    row: &Conflict,
    scratch: &mut Scratch,
) -> Result<(), AllocError>
    requires { IsSmall index.now.outlines row.now }
    ensures { let added = row_text name.now index.now row.now in
        OnOk result (page.new.items ≡ page.old.items ++ added) }
{
    push_pair(page, index, name, row)?;
    page.extend_from_slice(b"words ")?;
    push_words(page, index, row.words())?;
    page.extend_from_slice(b"\nshows ")?;
    push_shown(page, index, row, scratch)?;
    page.push(b'\n')?;
    Ok(())
}

/// Writes the three lines of a row.
fn write_row<S: Sink>(
    sink: &mut S,
    page: &mut Vec<u8>,
    index: &Index<'_>,
    name: &[u8],
    row: &Conflict,
    scratch: &mut Scratch,
) -> Result<(), OutsideFault>
    requires { IsSmall index.now.outlines row.now }
    ensures { let before = progress (S.text sink.old) (S.faults sink.old) page.old.items in
        let after = progress (S.text sink.new) (S.faults sink.new) page.new.items in
        AddsToPage (row_text name.now index.now row.now) result before after }
{
    push_row(page, index, name, row, scratch)?;
    put_full(sink, page)
}

/// Writes the three lines of each row.
pub(crate) fn write_rows<S: Sink>(
    alloc: Global,
    sink: &mut S,
    page: &mut Vec<u8>,
    index: &Index<'_>,
    name: &[u8],
    rows: &[Conflict],
) -> Result<(), OutsideFault>
    requires { All (IsSmall index.now.outlines) rows.now }
    ensures { let before = progress (S.text sink.old) (S.faults sink.old) page.old.items in
        let after = progress (S.text sink.new) (S.faults sink.new) page.new.items in
        AddsToPage (rows_text name.now index.now rows.now) result before after }
{
    let mut scratch = Scratch::new(alloc);
    for row in rows {
        write_row(sink, page, index, name, row, &mut scratch)?;
    }
    Ok(())
}
