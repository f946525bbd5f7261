//! A file that is taken in pieces of a fixed size, so that memory doesn't grow with it.

ghost use Rattle.std.specs.Prelude.{◌≡◌, ◌<◌, ◌≤◌, ◌+◌, ◌-◌, ◌^◌, [], length, take, drop, IfOk, IfSome, OnErr, OnOk, is_err};
ghost use Rattle.std.specs.Io.KnownBytes.{prepend_known};
ghost use Rattle.std.specs.List.{slice_range};
ghost use Rattle.certificate.specs.Readers.{OnlyTakes};
ghost use Rattle.certificate.specs.inside.Pieces.{Grows, IsReachOf, PassesOver, PiecesView, no_pieces, piece_size};

use crate::finding::first_place;
use outside::{Failed, Files};
use std::alloc::{AllocError, Global};
use std::marker::Model;

/// How many bytes are held at most: few calls of the system for a long file, and little memory for a short one.
pub(crate) const PIECE: usize = 65536;

/// What is held of the next line.
pub(crate) enum Reach {
    /// The line, of so many bytes before its line feed.
    Line { body: usize },
    /// No line feed, and there is no room for more.
    Full,
    /// No line feed, and the file ends here.
    End,
}

/// The bytes of a file that were taken and not passed over.
#[derive(Drop)]
pub(crate) struct Pieces {
    buffer: Vec<u8>,
    start: usize,
    end: usize,
    taken: u64,
}

impl Model for Pieces {
    ghost use Rattle.std.specs.Prelude.{◌≤◌, ◌<◌, ◌^◌, ◌≡◌, length};
    ghost use Rattle.std.specs.List.{slice_range};
    ghost use Rattle.certificate.specs.inside.Pieces.{PiecesView, piece_size};

    ghost Value = { PiecesView };

    ghost view = { λ p. record {
      left = slice_range p.buffer.items p.start p.end;
      taken = p.taken;
    } };

    ghost invariant = { λ p. (p.start ≤ p.end) × (p.end ≤ length p.buffer.items)
        × (length p.buffer.items ≡ piece_size) × (p.taken < 2 ^ 64) };
}

/// Moves a range to the front.
fn move_to_front(buffer: &mut [u8], start: usize, end: usize)
    requires order { start ≤ end }
    requires within { end ≤ length buffer.old }
    ensures front { take (end - start) buffer.new ≡ slice_range buffer.old start end }
    ensures len { length buffer.new ≡ length buffer.old }
{
    if start > 0 {
        buffer.copy_within(start..end, 0);
    }
}

/// Takes bytes into the buffer from a place on, and answers how many.
fn take_behind<F: Files>(buffer: &mut [u8], place: usize, files: &mut F) -> Result<usize, Failed>
    requires { place < length buffer.old }
    ensures front { take place buffer.new ≡ take place buffer.old }
    ensures len { length buffer.new ≡ length buffer.old }
    ensures within { IfOk result (λ count. place + count ≤ length buffer.new) }
    ensures moved { IfOk result (λ count. (F.view files.old).rest
        ≡ prepend_known (slice_range buffer.new place (place + count)) (F.view files.new).rest) }
    ensures end { IfOk result (λ count. count ≡ 0
        → IfSome (F.view files.old).rest (λ rest. rest ≡ [])) }
    ensures refused { OnErr result ((F.view files.new).rest ≡ (F.view files.old).rest) }
    ensures takes { OnlyTakes (is_err result) (F.view files.old) (F.view files.new) }
{
    files.take(&mut buffer[place..])
}

impl Pieces {
    /// Room for one piece.
    pub(crate) fn new(alloc: Global) -> Result<Pieces, AllocError>
        ensures { IfOk result (λ pieces. pieces ≡ no_pieces) }
    {
        let buffer = vec![in alloc; 0u8; PIECE]?;
        Ok(Pieces {
            buffer,
            start: 0,
            end: 0,
            taken: 0,
        })
    }

    /// The bytes that are held.
    pub(crate) fn bytes(&self) -> &[u8]
        ensures bytes { result.now ≡ self.now.left }
        ensures few { length self.now.left ≤ piece_size }
    {
        &self.buffer[self.start..self.end]
    }

    /// Passes over the first bytes that are held.
    pub(crate) fn pass(&mut self, count: usize)
        requires { count ≤ length self.old.left }
        ensures { self.new ≡ record self.old { left = drop count self.old.left } }
    {
        self.start += count;
    }

    /// Passes over all that is held.
    pub(crate) fn clear(&mut self)
        ensures { self.new ≡ record self.old { left = [] } }
    {
        self.start = self.end;
    }

    /// Takes as many bytes as the file gives at once, and answers how many: 0 exactly at its end.
    fn fill<F: Files>(&mut self, files: &mut F) -> Result<usize, Failed>
        requires { length self.old.left < piece_size }
        ensures grows { IfOk result (λ count. Grows count self.old.left self.new.left) }
        ensures end { IfOk result (λ count. count ≡ 0
            → IfSome (F.view files.new).rest (λ rest. rest ≡ [])) }
        ensures passes { PassesOver [] (is_err result) self.old self.new
            (F.view files.old) (F.view files.new) }
    {
        move_to_front(&mut self.buffer, self.start, self.end);
        self.end -= self.start;
        self.start = 0;
        let count = take_behind(&mut self.buffer, self.end, files)?;
        self.end += count;
        self.taken = self.taken.saturating_add(count as u64);
        Ok(count)
    }

    /// Takes bytes until the next line is held, or there is no room for more, or the file ends.
    pub(crate) fn reach<F: Files>(&mut self, files: &mut F) -> Result<Reach, Failed>
        ensures reached { IfOk result (λ reach.
            IsReachOf reach self.new.left (F.view files.new).rest) }
        ensures few { OnOk result (length self.new.left ≤ piece_size) }
        ensures passes { PassesOver [] (is_err result) self.old self.new
            (F.view files.old) (F.view files.new) }
    {
        let mut seen = 0;
        loop {
            if let Some(place) = first_place(b'\n', &self.bytes()[seen..]) {
                return Ok(Reach::Line { body: seen + place });
            }
            seen = self.bytes().len();
            if seen == PIECE {
                return Ok(Reach::Full);
            }
            if self.fill(files)? == 0 {
                return Ok(Reach::End);
            }
        }
    }
}
