//! A page of text on its way to a sink: texts are added to it, and it is put when it is full.

ghost use Rattle.std.specs.Prelude.{◌≡◌, [], IfOk};
ghost use Rattle.pages.specs.Pages.{AddsToPage, progress};

use outside::{OutsideFault, Sink, write_all};
use std::alloc::{AllocError, Global};

/// A page of so many bytes is full.
const PAGE: usize = 65_536;

/// An empty page, with room for the bytes that make it full and as many more. It fails where memory is refused.
pub fn new_page(alloc: Global) -> Result<Vec<u8>, AllocError>
    ensures { IfOk result (λ page. page.items ≡ []) }
{
    Vec::with_capacity(alloc, 2 * PAGE)
}

/// Puts the page where it is full, and empties it. A page below 65,536 bytes is left as it is, without a call of the
/// sink.
pub fn put_full<S: Sink>(sink: &mut S, page: &mut Vec<u8>) -> Result<(), OutsideFault>
    ensures { let before = progress (S.text sink.old) (S.faults sink.old) page.old.items in
        let after = progress (S.text sink.new) (S.faults sink.new) page.new.items in
        AddsToPage [] result before after }
{
    if page.len() < PAGE {
        return Ok(());
    }
    write_all(sink, page)?;
    page.clear();
    Ok(())
}
