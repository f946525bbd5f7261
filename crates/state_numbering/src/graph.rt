//! The closure as a graph to be searched.
ghost use Rattle.std.specs.Prelude.{◌≡◌};

use crate::numbering::Numbering;
use closure_state::Moves;
use round_core::StepGraph;
use std::alloc::AllocError;
use std::marker::Model;

/// The graph of the kept moves, by the numbers of states. A number without a state has no targets. It borrows the
/// numbering.
///
/// A state's targets are listed stroke by stroke. What lists them is inlined, so that the cursor stays in registers from
/// one stroke to the next.
#[derive(Drop)]
pub struct ClosureGraph<'a> {
    numbering: &'a Numbering<'a>,
}

impl<'a> Model for ClosureGraph<'a> {
    ghost use Rattle.state_numbering.specs.Numberings.{NumberingView};

    ghost Value = { NumberingView };

    ghost view = { λ g. g.numbering.now };
}

impl<'a> ClosureGraph<'a> {
    /// The graph of a numbering.
    pub fn new(numbering: &'a Numbering<'a>) -> ClosureGraph<'a>
        ensures { result ≡ numbering.now }
    {
        ClosureGraph { numbering }
    }
}

impl<'a> StepGraph for ClosureGraph<'a> {
    ghost use Rattle.steno_rules.specs.ClosureGraphs.{kept_lists};
    ghost use Rattle.state_numbering.specs.ByNumber.{IsOpenWordOf};
    ghost use Rattle.state_numbering.specs.Cursors.{numbers_left, OwnsMoves};

    type Cursor = Option<Moves<'a>>;

    ghost origin = { λ _. 0 };

    ghost lists = { λ g. kept_lists g.entries g.words };

    ghost left = { λ g c. numbers_left g c };

    ghost owns = { λ g c. OwnsMoves g c };

    ghost has_rank = { λ g n rank. IsOpenWordOf g n rank };

    fn count(&self) -> u32 {
        self.numbering.count()
    }

    fn start(&self) -> u32 {
        0
    }

    #[inline(always)]
    fn first(&self, state: u32) -> Option<Moves<'a>> {
        self.numbering.moves(state)
    }

    #[inline(always)]
    fn next(&self, cursor: &mut Option<Moves<'a>>) -> Option<u32> {
        match cursor {
            Some(moves) => match moves.next() {
                Some(target) => Some(self.numbering.number(target)),
                None => None,
            },
            None => None,
        }
    }

    #[inline(always)]
    fn push_targets(&self, state: u32, targets: &mut Vec<u32>) -> Result<(), AllocError> {
        let Some(mut moves) = self.numbering.moves(state) else {
            return Ok(())
        };
        let mut waiting = moves.next_stroke();
        'strokes: while !waiting.is_empty() {
            self.numbering.push_numbers(waiting, targets)?;
            waiting = moves.next_stroke();
        }
        Ok(())
    }

    /// The states with one open word lead to the same children of its node, and mostly to the same numbers.
    fn rank(&self, state: u32) -> u32 {
        self.numbering.open_word(state)
    }
}
