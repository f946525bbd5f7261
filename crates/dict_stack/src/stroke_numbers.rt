//! The different strokes of a stack, numbered in order of their first appearance.

ghost use Rattle.std.specs.Prelude.{◌≡◌, ◌<◌, ◌≤◌, ◌+◌, ◌^◌, length, fold, IfOk, OnOk};
ghost use Rattle.dict_stack.specs.Appearances.{with_new, strokes_of_all, stroke_number_of};
ghost use Rattle.dict_stack.specs.Stacks.{most_entries};

use indexmap::IndexSet;
use std::alloc::{AllocError, Global};
use std::marker::Model;
use stroke::{Outline, Stroke};

/// The different strokes of some outlines, seen as their list in order of first appearance.
#[derive(Drop)]
pub struct StrokeNumbers {
    strokes: IndexSet<Stroke>,
}

impl Model for StrokeNumbers {
    ghost use Rattle.std.specs.Prelude.{List, ℕ, length, ◌<◌, ◌^◌};

    ghost Value = { List ℕ };

    ghost view = { λ n. n.strokes.keys };

    ghost invariant = { λ n. length n.strokes.keys < 2 ^ 32 };
}

impl StrokeNumbers {
    /// Numbers the strokes of outlines.
    pub fn of(alloc: Global, outlines: &[Outline]) -> Result<StrokeNumbers, AllocError>
        requires { length outlines.now ≤ most_entries }
        ensures { IfOk result (λ numbers. numbers ≡ strokes_of_all outlines.now) }
    {
        let mut strokes = IndexSet::new(alloc);
        for outline in outlines {
            add_strokes(&mut strokes, outline.strokes())?;
        }
        Ok(StrokeNumbers { strokes })
    }

    /// How many different strokes there are.
    pub fn count(&self) -> u32
        ensures { result ≡ length self.now }
    {
        self.strokes.len() as u32
    }

    /// The place of a stroke among them.
    pub fn number(&self, stroke: Stroke) -> Option<u32>
        ensures { result ≡ stroke_number_of self.now stroke }
    {
        self.strokes
            .get_index_of(&stroke)
            .map(|number| number as u32)
    }
}

/// Adds the strokes that aren't there yet.
fn add_strokes(found: &mut IndexSet<Stroke>, strokes: &[Stroke]) -> Result<(), AllocError>
    ensures strokes { OnOk result (found.new.keys ≡ fold with_new found.old.keys strokes.now) }
    ensures few { OnOk result (length found.new.keys ≤ length found.old.keys + length strokes.now) }
{
    for stroke in strokes {
        found.insert(*stroke)?;
    }
    Ok(())
}
