//! The lines that say what becomes of each boundary.

ghost use Rattle.std.specs.Prelude.{◌≡◌, ◌++◌, All, OnOk};
ghost use Rattle.outside.specs.Sink.{Puts};
ghost use Rattle.pages.specs.Pages.{AddsToPage, progress};
ghost use Rattle.typed_view.specs.CoverLines.{cover_line, covers_text};
ghost use Rattle.typed_view.specs.Covers.{IsCoverOf};

use crate::boundaries::Cover;
use dict_stack::Stack;
use outside::{OutsideFault, Sink, write_all};
use pages::{new_page, push_number, push_outline, put_full};
use std::alloc::{AllocError, Global};

/// Adds the line of the boundary of this number.
fn push_cover(
    page: &mut Vec<u8>,
    stack: &Stack,
    number: u64,
    cover: Cover,
    text: &mut String,
) -> Result<(), AllocError>
    requires { IsCoverOf stack.now.outlines cover }
    ensures { let added = cover_line stack.now.outlines number cover in
        OnOk result (page.new.items ≡ page.old.items ++ added) }
{
    page.extend_from_slice(b"boundary ")?;
    push_number(page, number)?;
    match cover {
        Cover::Kept => page.extend_from_slice(b" kept\n"),
        Cover::Crossed { entry, place } => {
            page.extend_from_slice(b" crossed ")?;
            push_outline(page, stack.outlines()[entry as usize].strokes(), text)?;
            page.extend_from_slice(b" place ")?;
            push_number(page, u64::from(place))?;
            page.push(b'\n')?;
            Ok(())
        }
    }
}

/// Writes the line of the boundary of this number.
fn write_cover<S: Sink>(
    sink: &mut S,
    page: &mut Vec<u8>,
    stack: &Stack,
    number: u64,
    cover: Cover,
    text: &mut String,
) -> Result<(), OutsideFault>
    requires { IsCoverOf stack.now.outlines cover }
    ensures { let before = progress (S.text sink.old) (S.faults sink.old) page.old.items in
        let after = progress (S.text sink.new) (S.faults sink.new) page.new.items in
        AddsToPage (cover_line stack.now.outlines number cover) result before after }
{
    push_cover(page, stack, number, cover, text)?;
    put_full(sink, page)
}

/// Writes a line for each boundary.
fn write_lines<S: Sink>(
    alloc: Global,
    sink: &mut S,
    page: &mut Vec<u8>,
    stack: &Stack,
    covers: &[Cover],
) -> Result<(), OutsideFault>
    requires { All (IsCoverOf stack.now.outlines) covers.now }
    ensures { let before = progress (S.text sink.old) (S.faults sink.old) page.old.items in
        let after = progress (S.text sink.new) (S.faults sink.new) page.new.items in
        AddsToPage (covers_text stack.now.outlines covers.now) result before after }
{
    let mut text = String::new(alloc);
    for (i, cover) in covers.iter().enumerate() {
        write_cover(sink, page, stack, i as u64 + 1, *cover, &mut text)?;
    }
    Ok(())
}

/// Puts a line for each boundary, numbered from 1 on: that it is kept, or the outline of the entry that crosses it and
/// how many of its strokes stand before the boundary.
///
/// It fails where the sink does and where memory is refused, and then a prefix of the lines was put. The cost is linear
/// in the text, which is put in pieces of 65,536 bytes and more.
pub fn write_covers<S: Sink>(
    alloc: Global,
    sink: &mut S,
    stack: &Stack,
    covers: &[Cover],
) -> Result<(), OutsideFault>
    requires { All (IsCoverOf stack.now.outlines) covers.now }
    ensures { let text = covers_text stack.now.outlines covers.now in
        Puts text result (S.text sink.old) (S.text sink.new)
        (S.faults sink.old) (S.faults sink.new) }
{
    let mut page = new_page(alloc)?;
    write_lines(alloc, sink, &mut page, stack, covers)?;
    write_all(sink, &page)
}
