//! A list of strokes, as a dictionary translates it.

ghost use Rattle.std.specs.Prelude.{◌≡◌, ◌<◌, ◌≤◌, [], ◌∷◌, ◌++◌, All, length, slice_index_or, OnOk, OnErr, IfOk};
ghost use Rattle.std.specs.Prelude.{nat_eq, refl, Some};
ghost use Rattle.std.specs.Cmp.{partial_equiv_from_equiv};
ghost use Rattle.std.specs.Cmp.Lexicographic.{nat_list_cmp_total, nat_list_eq_equiv, pointwise, texts_po, texts_ties};
ghost use Rattle.steno_rules.specs.Outlines.{IsStroke, most_strokes, outline_cmp};
ghost use Rattle.stroke.specs.inside.Heads.{IsCodeAt, IsHead};

use crate::strokes::Stroke;
use std::alloc::{AllocError, Global};
use std::cmp::Ordering;
use std::marker::Model;

/// A list of at most [`Outline::MAX`] strokes, seen as the list of their codes. Outlines are ordered stroke by stroke,
/// a prefix first.
///
/// An entry of a dictionary has at least one stroke. The type has room for the empty list, with which building begins.
/// Beside the list the first two strokes stand as one number: it decides most comparisons without a look at the list.
#[derive(Debug, Drop)]
pub struct Outline {
    strokes: Vec<Stroke>,
    head: u64,
}

impl Model for Outline {
    ghost use Rattle.std.specs.Prelude.{ℕ, List};
    ghost use Rattle.stroke.specs.inside.Heads.{IsHeaded};

    ghost Value = { List ℕ };

    ghost view = { λ o. o.strokes.items };

    ghost invariant = { λ o. IsHeaded o.strokes.items o.head };
}

/// Each value of the type of strokes is the code of one. Nothing of this is left in a program: the loop does no work.
fn are_strokes(strokes: &[Stroke])
    ensures { All IsStroke strokes.now }
{
    for stroke in strokes {
        stroke.code();
    }
}

/// The code at a place of some strokes, 0 behind their end.
fn code_at(strokes: &[Stroke], place: usize) -> u64
    ensures code { result ≡ slice_index_or strokes.now place 0 }
    ensures is { IsCodeAt strokes.now place }
{
    if place < strokes.len() {
        u64::from(strokes[place].code())
    } else {
        0
    }
}

/// The first two strokes as one number.
fn head_of(strokes: &[Stroke]) -> u64
    ensures { IsHead strokes.now result }
{
    code_at(strokes, 0) * (1 << 32) + code_at(strokes, 1)
}

impl Outline {
    /// The most strokes of an outline.
    pub const MAX: usize = 64;

    /// The outline without strokes. It takes no memory.
    pub fn new(alloc: Global) -> Outline
        ensures { result ≡ [] }
    {
        Outline {
            strokes: Vec::new(alloc),
            head: 0,
        }
    }

    /// Adds a stroke at the end.
    pub fn push(&mut self, stroke: Stroke) -> Result<(), AllocError>
        requires { length self.old < most_strokes }
        ensures ok { OnOk result (self.new ≡ self.old ++ stroke ∷ []) }
        ensures err { OnErr result (self.new ≡ self.old) }
    {
        are_strokes(&[stroke]);
        self.strokes.push(stroke)?;
        self.head = head_of(&self.strokes);
        Ok(())
    }

    /// The outline of these strokes, in one allocation.
    pub fn from_strokes(alloc: Global, strokes: &[Stroke]) -> Result<Outline, AllocError>
        requires { length strokes.now ≤ most_strokes }
        ensures { IfOk result (λ outline. outline ≡ strokes.now) }
    {
        are_strokes(strokes);
        Ok(Outline {
            strokes: strokes.to_vec(alloc)?,
            head: head_of(strokes),
        })
    }

    /// The strokes, first one first.
    pub fn strokes(&self) -> &[Stroke]
        ensures strokes { result.now ≡ self.now }
        ensures few { length self.now ≤ most_strokes }
        ensures are_strokes { All IsStroke self.now }
    {
        self.strokes.as_slice()
    }

    /// An equal outline.
    pub fn copy(&self) -> Result<Outline, AllocError>
        ensures { IfOk result (λ outline. outline ≡ self.now) }
    {
        Ok(Outline {
            strokes: self.strokes.clone()?,
            head: self.head,
        })
    }
}

impl PartialEq for Outline {
    ghost eq = { pointwise nat_eq };

    ghost laws = { partial_equiv_from_equiv nat_list_eq_equiv };

    fn eq(&self, other: &Outline) -> bool {
        self.head == other.head && self.strokes == other.strokes
    }
}

impl Eq for Outline {
    ghost laws = { nat_list_eq_equiv };
}

impl PartialOrd for Outline {
    ghost partial_cmp = { λ a b. Some (outline_cmp a b) };

    ghost laws = { texts_po };

    fn partial_cmp(&self, other: &Outline) -> Option<Ordering> {
        Some(self.cmp(other))
    }
}

impl Ord for Outline {
    ghost cmp = { outline_cmp };

    ghost total = { nat_list_cmp_total };

    ghost matches_partial_cmp = { λ a b. refl };

    ghost matches_eq = { texts_ties };

    fn cmp(&self, other: &Outline) -> Ordering {
        match self.head.cmp(&other.head) {
            Ordering::Equal => self.strokes.cmp(&other.strokes),
            order => order,
        }
    }
}
