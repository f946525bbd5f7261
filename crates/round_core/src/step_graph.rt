//! The graphs that a search can search. A graph needn't hold its moves: it may compute each target when it is asked
//! for.
ghost use Rattle.std.specs.Prelude.{◌≡◌, ◌++◌, ℕ, ◌<◌, ◌≤◌, List, [], ◌∷◌, length, IfOk, MatchOption};
ghost use Rattle.graph_rules.specs.Graphs.{row, HasTarget, most_numbers, word_half};

use std::alloc::AllocError;

/// The most numbers of a graph.
pub const MAX_NUMBERS: u32 = 33_554_432;

/// A graph of the numbers below a count, each with a list of fewer than 2^32 targets. Only `push_targets` takes memory.
///
/// For contracts a graph is plain data, its start `origin` and the lists of targets `lists`. A cursor is a place in the
/// list of one number: `left` are the targets that it hasn't given yet, and `owns` says whose cursor it is. `has_rank`
/// says which ranks a number may have.
pub trait StepGraph {
    /// A place in the list of a number's targets.
    type Cursor: Drop;

    ghost use Rattle.std.specs.Prelude.{ℕ, List};

    ghost origin: { Self → ℕ };

    ghost lists: { Self → List (List ℕ) };

    ghost left: { Self → Self.Cursor → List ℕ };

    ghost owns: { Self → Self.Cursor → Type 0 };

    ghost has_rank: { Self → ℕ → ℕ → Type 0 };

    /// How many numbers there are: 1 to [`MAX_NUMBERS`].
    fn count(&self) -> u32
        ensures count { result ≡ length (lists self.now) }
        ensures some { 0 < length (lists self.now) }
        ensures most { length (lists self.now) ≤ most_numbers }
        ensures targets { (s t : ℕ) →
            HasTarget (lists self.now) s t → t < length (lists self.now) };

    /// The number from which walks start.
    fn start(&self) -> u32
        ensures start { result ≡ origin self.now }
        ensures below { origin self.now < length (lists self.now) };

    /// A cursor before the first target of a number below the count.
    fn first(&self, state: u32) -> Self::Cursor
        requires { state < length (lists self.now) }
        ensures whole { left self.now result ≡ row (lists self.now) state }
        ensures few { length (row (lists self.now) state) < word_half }
        ensures mine { owns self.now result };

    /// The next target, None exactly where none is left.
    fn next(&self, cursor: &mut Self::Cursor) -> Option<u32>
        requires { owns self.now cursor.old }
        ensures mine { owns self.now cursor.new }
        ensures next { MatchOption result
            ((left self.now cursor.old ≡ []) × (left self.now cursor.new ≡ []))
            (λ t. left self.now cursor.old ≡ t ∷ left self.now cursor.new) }
        ensures below { MatchOption result (Unit {0}) (λ t. t < length (lists self.now)) };

    /// Lists the targets of a number below the count behind what is listed already. A graph that finds several targets
    /// at once lists them faster than a cursor gives them. `AllocError` where the list has no room and gets none.
    fn push_targets(&self, state: u32, targets: &mut Vec<u32>) -> Result<(), AllocError>
        requires { state < length (lists self.now) }
        ensures pushed { IfOk result (λ _.
            targets.new.items ≡ targets.old.items ++ row (lists self.now) state) }
        ensures few { length (row (lists self.now) state) < word_half }
    {
        let mut cursor = self.first(state);
        while let Some(target) = self.next(&mut cursor) {
            targets.push(target)?;
        }
        Ok(())
    }

    /// The rank of a number below the count. A search that may make the moves of a round in any order works the numbers
    /// of one rank beside each other. So a graph gives one rank to numbers whose targets lie close together in memory.
    /// What is found depends on no rank.
    fn rank(&self, state: u32) -> u32
        requires { state < length (lists self.now) }
        ensures { has_rank self.now state result };
}
