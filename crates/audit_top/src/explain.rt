//! `explain`: the pieces of outlines that are typed one after another, and what becomes of the boundaries between them.

ghost use Rattle.std.specs.Prelude.{◌≡◌, ◌<◌, ◌^◌, All, IfOk, IfSome, Some, length, map, string_bytes, sum, sum_by, true};
ghost use Rattle.std.specs.List.{list_all};
ghost use Rattle.stroke.specs.Pieces.{pieces as pieces_of};
ghost use Rattle.commands.specs.Commands.{are_spelt, explain as explain_of, is_spelt};
ghost use Rattle.outside.specs.Sink.{Puts};
ghost use Rattle.audit_top.specs.inside.Answers.{Answers, IsAnswer};
ghost use Rattle.audit_top.specs.Outcomes.{UnlessRefused, trie_limit};
ghost use Rattle.audit_top.specs.Translated.{IsExplained, IsTypedText, all_typed, typed_parts, typed_strokes, typed_text};
ghost use Rattle.audit_top.specs.Runs.{output, world};

use crate::refusals::Refusal;
use crate::status::Status;
use dict_files::read_stack;
use dict_stack::Stack;
use outline_trie::Trie;
use outside::{Files, OutsideFault, Sink};
use report::write_replay;
use std::alloc::{AllocError, Global};
use steno_order::{StrokesFault, read_strokes};
use stroke::{Piece, Stroke};
use translator::translate;
use typed_view::{covers, write_covers};

/// Outlines as they are typed: all their strokes, and how many each has.
#[derive(Drop)]
struct Typed {
    strokes: Vec<Stroke>,
    parts: Vec<u32>,
}

/// The strokes of a readable outline.
fn read_readable(alloc: Global, outline: &str) -> Result<Vec<Stroke>, AllocError>
    requires short { length outline.now < 2 ^ 32 }
    requires readable { is_spelt outline.now ≡ true }
    ensures strokes { IfOk result (λ strokes. strokes.items ≡ typed_strokes outline.now) }
    ensures few { IfOk result (λ strokes. length strokes.items < 2 ^ 32) }
{
    match read_strokes(alloc, outline) {
        Ok(strokes) => Ok(strokes),
        Err(StrokesFault::Memory) => Err(AllocError),
        Err(StrokesFault::Unreadable { .. }) => unreachable!(),
    }
}

/// Readable outlines as they are typed.
fn read_typed(alloc: Global, outlines: &[String]) -> Result<Typed, AllocError>
    requires short { All (λ outline. length outline < 2 ^ 32) (map string_bytes outlines.now) }
    requires readable { list_all is_spelt (map string_bytes outlines.now) ≡ true }
    ensures strokes { IfOk result (λ typed.
        typed.strokes.items ≡ all_typed (map string_bytes outlines.now)) }
    ensures parts { IfOk result (λ typed.
        typed.parts.items ≡ typed_parts (map string_bytes outlines.now)) }
{
    let mut strokes = Vec::new(alloc);
    let mut parts = Vec::with_capacity(alloc, outlines.len())?;
    for outline in outlines {
        let read = read_readable(alloc, outline.as_str())?;
        strokes.extend_from_slice(&read)?;
        parts.push(read.len() as u32)?;
    }
    Ok(Typed { strokes, parts })
}

/// Writes the pieces of the strokes, and what becomes of each boundary between the parts.
fn write_explained<S: Sink>(
    alloc: Global,
    out: &mut S,
    stack: &Stack,
    strokes: &[Stroke],
    parts: &[u32],
    pieces: &[Piece],
) -> Result<(), OutsideFault>
    requires few { sum parts.now < 2 ^ 32 }
    requires pieces { pieces.now ≡ pieces_of stack.now.outlines strokes.now }
    requires lengths { sum_by (λ p. p.len) pieces.now ≡ length strokes.now }
    requires entries { All (λ p. IfSome p.entry (λ e. e < length stack.now.outlines)) pieces.now }
    ensures { let text = typed_text stack.now strokes.now parts.now in
        Puts text result (S.text out.old) (S.text out.new) (S.faults out.old) (S.faults out.new) }
{
    let covers = covers(alloc, parts, pieces)?;
    write_replay(alloc, out, stack, strokes, pieces)?;
    write_covers(alloc, out, stack, &covers)
}

/// Explains strokes that are typed in parts of these lengths.
fn explain_typed<S: Sink>(
    alloc: Global,
    strokes: &[Stroke],
    parts: &[u32],
    stack: &Stack,
    trie: &Trie,
    out: &mut S,
) -> Result<Status, Refusal>
    requires few { sum parts.now < 2 ^ 32 }
    requires trie { trie.now ≡ stack.now.outlines }
    ensures { let before = output (S.text out.old) (S.faults out.old) in
        let after = output (S.text out.new) (S.faults out.new) in
        Answers (IsTypedText strokes.now parts.now stack.now) before after result }
{
    let pieces = translate(alloc, trie, strokes)?;
    write_explained(alloc, out, stack, strokes, parts, &pieces)?;
    Ok(Status::Clean)
}

/// An explanation whose dictionaries were read.
fn explain_stack<S: Sink>(
    alloc: Global,
    outlines: &[String],
    stack: &Stack,
    out: &mut S,
) -> Result<Status, Refusal>
    requires short { All (λ outline. length outline < 2 ^ 32) (map string_bytes outlines.now) }
    requires spelt { are_spelt (map string_bytes outlines.now) ≡ true }
    ensures { let before = output (S.text out.old) (S.faults out.old) in
        let after = output (S.text out.new) (S.faults out.new) in
        let follows = IsExplained (map string_bytes outlines.now) stack.now in
        Answers (UnlessRefused (trie_limit stack.now) follows) before after result }
{
    let trie = Trie::new(alloc, stack.outlines())?;
    let typed = read_typed(alloc, outlines)?;
    explain_typed(alloc, &typed.strokes, &typed.parts, stack, &trie, out)
}

/// The explanation of outlines over the dictionaries that the arguments name.
pub(crate) fn explain<F: Files, S: Sink>(
    alloc: Global,
    outlines: &[String],
    dicts: &[String],
    files: &mut F,
    out: &mut S,
) -> Result<Status, Refusal>
    requires short { All (λ outline. length outline < 2 ^ 32) (map string_bytes outlines.now) }
    requires spelt { are_spelt (map string_bytes outlines.now) ≡ true }
    ensures { let before = world (F.view files.old) (S.text out.old) (S.faults out.old) in
        let after = world (F.view files.new) (S.text out.new) (S.faults out.new) in
        let command = explain_of (map string_bytes outlines.now) (map string_bytes dicts.now) in
        IsAnswer (Some command) before after result }
{
    let stack = read_stack(alloc, files, dicts)?;
    explain_stack(alloc, outlines, &stack, out)
}
