//! What is looked up of a stack while its rows are written: the text of an outline, and the pieces of strokes.

ghost use Rattle.std.specs.Prelude.{◌≡◌, ◌≢◌, ◌<◌, ◌≤◌, ℕ, [], IfOk, IfSome, OnOk, length, string_bytes};
ghost use Rattle.steno_rules.specs.Outlines.{AreEntries};
ghost use Rattle.steno_rules.specs.Segments.{first_piece as first_piece_of};
ghost use Rattle.dict_stack.specs.Stacks.{most_entries};
ghost use Rattle.stroke.specs.Pieces.{piece_of, pieces as pieces_of};
ghost use Rattle.report.specs.Reports.{outline_text};
ghost use Rattle.report.specs.inside.Indexes.{AreShorter, IsBegunFrom, IsLongestOf, IsTextIndex, previous};

use dict_stack::Stack;
use std::alloc::{AllocError, Global};
use std::marker::Model;
use steno_order::write_outline;
use stroke::{Outline, Piece, Stroke};

/// Texts laid end to end. The text of number `e` stands from `ends[e]` to `ends[e + 1]`.
#[derive(Drop)]
struct Texts {
    text: String,
    ends: Vec<usize>,
}

/// The canonical texts of outlines.
fn texts_of(alloc: Global, outlines: &[Outline]) -> Result<Texts, AllocError>
    ensures { IfOk result (λ texts.
        IsTextIndex outlines.now (string_bytes texts.text) texts.ends.items) }
{
    let mut text = String::new(alloc);
    let mut ends = Vec::with_capacity(alloc, outlines.len().saturating_add(1))?;
    ends.push(0)?;
    for outline in outlines {
        write_outline(outline.strokes(), &mut text)?;
        ends.push(text.len())?;
    }
    Ok(Texts { text, ends })
}

/// The longest entry that the strokes begin with, along the chain of entries that each begin the one before, from
/// `from` on.
///
/// Entries are in outline order. So each entry that begins the strokes also begins the last entry that isn't behind
/// them, and it is found on that entry's chain.
fn along(
    outlines: &[Outline],
    shorter: &[Option<u32>],
    from: Option<u32>,
    strokes: &[Stroke],
) -> Option<u32>
    requires entries { AreEntries outlines.now }
    requires shorter { AreShorter outlines.now (length shorter.now) shorter.now }
    requires fits { length shorter.now ≤ length outlines.now }
    requires inside { IfSome from (λ e. e < length shorter.now) }
    ensures longest { (count : ℕ) → count ≤ length outlines.now
        → IsBegunFrom outlines.now count strokes.now from
        → IsLongestOf outlines.now count strokes.now result }
    ensures inside { IfSome result (λ e. e < length shorter.now) }
{
    let mut at = from;
    while let Some(entry) = at {
        if strokes.starts_with(outlines[entry as usize].strokes()) {
            return at;
        }
        at = shorter[entry as usize];
    }
    None
}

/// The entry before a place.
fn place_before(place: usize) -> Option<u32>
    requires { place ≤ most_entries }
    ensures { result ≡ previous place }
{
    if place == 0 {
        None
    } else {
        Some(place as u32 - 1)
    }
}

/// For each entry the longest shorter one that it begins with. One comparison a step of the chains.
fn shorter_of(alloc: Global, outlines: &[Outline]) -> Result<Vec<Option<u32>>, AllocError>
    requires entries { AreEntries outlines.now }
    requires few { length outlines.now ≤ most_entries }
    ensures { IfOk result (λ shorter. AreShorter outlines.now (length outlines.now) shorter.items) }
{
    let mut shorter = Vec::with_capacity(alloc, outlines.len())?;
    for entry in 0..outlines.len() {
        let found = along(
            outlines,
            &shorter,
            place_before(entry),
            outlines[entry].strokes(),
        );
        shorter.push(found)?;
    }
    Ok(shorter)
}

/// The last entry that isn't behind the strokes: the one that is guessed, where they are its outline, and else by a
/// binary search.
fn nearest(outlines: &[Outline], guess: u32, strokes: &[Stroke]) -> Option<u32>
    requires entries { AreEntries outlines.now }
    requires few { length outlines.now ≤ most_entries }
    requires guess { guess < length outlines.now }
    ensures begun { IsBegunFrom outlines.now (length outlines.now) strokes.now result }
    ensures inside { IfSome result (λ e. e < length outlines.now) }
{
    if outlines[guess as usize].strokes() == strokes {
        return Some(guess);
    }
    match outlines.binary_search_by(|outline| outline.strokes().cmp(strokes)) {
        Ok(entry) => Some(entry as u32),
        Err(place) => place_before(place),
    }
}

/// The first piece of strokes, perhaps the entry that is guessed.
fn first_piece(
    outlines: &[Outline],
    shorter: &[Option<u32>],
    guess: u32,
    strokes: &[Stroke],
) -> Piece
    requires entries { AreEntries outlines.now }
    requires few { length outlines.now ≤ most_entries }
    requires shorter { AreShorter outlines.now (length outlines.now) shorter.now }
    requires guess { guess < length outlines.now }
    requires some { strokes.now ≢ [] }
    ensures { result ≡ piece_of outlines.now (first_piece_of outlines.now strokes.now) }
{
    match along(
        outlines,
        shorter,
        nearest(outlines, guess, strokes),
        strokes,
    ) {
        Some(entry) => Piece {
            len: outlines[entry as usize].strokes().len() as u32,
            entry: Some(entry),
        },
        None => Piece {
            len: 1,
            entry: None,
        },
    }
}

/// A stack, with what is looked up of it while its rows are written. It borrows the stack.
#[derive(Drop)]
pub(crate) struct Index<'a> {
    stack: &'a Stack,
    texts: Texts,
    shorter: Vec<Option<u32>>,
}

impl<'a> Model for Index<'a> {
    ghost use Rattle.std.specs.Prelude.{string_bytes};
    ghost use Rattle.dict_stack.specs.Stacks.{StackView};
    ghost use Rattle.report.specs.inside.Indexes.{IsIndex};

    ghost Value = { StackView };

    ghost view = { λ i. i.stack.now };

    ghost invariant = { λ i. IsIndex i.stack.now.outlines (string_bytes i.texts.text)
        i.texts.ends.items i.shorter.items };
}

impl<'a> Index<'a> {
    /// Indexes a stack, in time linear in the strokes of its entries.
    pub(crate) fn new(alloc: Global, stack: &'a Stack) -> Result<Index<'a>, AllocError>
        ensures { IfOk result (λ index. index ≡ stack.now) }
    {
        let texts = texts_of(alloc, stack.outlines())?;
        let shorter = shorter_of(alloc, stack.outlines())?;
        Ok(Index {
            stack,
            texts,
            shorter,
        })
    }

    /// The stack.
    pub(crate) fn stack(&self) -> &Stack
        ensures { result.now ≡ self.now }
    {
        self.stack
    }

    /// The canonical text of an entry's outline.
    pub(crate) fn outline(&self, entry: u32) -> &[u8]
        requires { entry < length self.now.outlines }
        ensures { result.now ≡ outline_text self.now.outlines entry }
    {
        let from = self.texts.ends[entry as usize];
        let len = self.texts.ends[entry as usize + 1] - from;
        let (_, rest) = self.texts.text.as_bytes().split_at(from);
        let (text, _) = rest.split_at(len);
        text
    }

    /// The pieces of strokes by leftmost longest match. A piece costs one binary search among the entries, but for a
    /// last one that is the entry that is guessed.
    pub(crate) fn segment(
        &self,
        guess: u32,
        strokes: &[Stroke],
        pieces: &mut Vec<Piece>,
    ) -> Result<(), AllocError>
        requires { guess < length self.now.outlines }
        ensures { OnOk result (pieces.new.items ≡ pieces_of self.now.outlines strokes.now) }
    {
        pieces.clear();
        let mut rest = strokes;
        while !rest.is_empty() {
            let piece = first_piece(self.stack.outlines(), &self.shorter, guess, rest);
            let (_, others) = rest.split_at(piece.len as usize);
            pieces.push(piece)?;
            rest = others;
        }
        Ok(())
    }
}
