//! The graphs of the tests.

ghost use Rattle.std.specs.Prelude.{◌≡◌, ◌≤◌};
ghost use Rattle.graph_rules.specs.Graphs.{most_numbers};

use round_core::StepGraph;

/// Three numbers: 0 leads to 1 and 2, 1 leads to 2.
#[derive(Drop)]
pub struct Three;

impl StepGraph for Three {
    ghost use Rattle.std.specs.Prelude.{◌<◌, ◌/◌, ◌%◌, drop};
    ghost use Rattle.graph_rules.specs.Graphs.{row};
    ghost use Rattle.dist_table.specs.inside.Samples.{three_lists};

    type Cursor = u32;

    ghost origin = { λ _. 0 };

    ghost lists = { λ _. three_lists };

    ghost left = { λ _ c. drop (c % 4) (row three_lists (c / 4)) };

    ghost owns = { λ _ c. c < 12 };

    ghost has_rank = { λ _ _ rank. rank ≡ 0 };

    fn count(&self) -> u32 {
        3
    }

    fn start(&self) -> u32 {
        0
    }

    fn first(&self, state: u32) -> u32 {
        state * 4
    }

    fn next(&self, cursor: &mut u32) -> Option<u32> {
        let target = match *cursor {
            0 => 1,
            1 | 4 => 2,
            _ => return None,
        };
        *cursor += 1;
        Some(target)
    }

    fn rank(&self, _state: u32) -> u32 {
        0
    }
}

/// So many numbers with four targets each. Of 3,000 the frontiers have 1, 3, 12, 47, 180, 566, 1127, 884 and 180
/// numbers.
#[derive(Drop)]
pub struct Mixed {
    pub count: u32,
    ghost bound: { (1 ≤ count) × (count ≤ most_numbers) },
}

/// A place in the targets of a number.
#[derive(Drop)]
pub struct MixedPlace {
    pub state: u32,
    pub place: u32,
}

impl StepGraph for Mixed {
    ghost use Rattle.std.specs.Prelude.{◌<◌, ◌%◌, drop};
    ghost use Rattle.steal_rounds.specs.inside.Samples.{mixed_targets, mixed_lists};

    type Cursor = MixedPlace;

    ghost origin = { λ _. 0 };

    ghost lists = { λ g. mixed_lists g.count 0 g.count };

    ghost left = { λ g c. drop c.place (mixed_targets g.count c.state) };

    ghost owns = { λ g c. (c.state < g.count) × (c.place ≤ 4) };

    ghost has_rank = { λ _ s rank. rank ≡ s % 7 };

    fn count(&self) -> u32 {
        self.count
    }

    fn start(&self) -> u32 {
        0
    }

    fn first(&self, state: u32) -> MixedPlace {
        MixedPlace { state, place: 0 }
    }

    fn next(&self, cursor: &mut MixedPlace) -> Option<u32> {
        let state = cursor.state;
        let target = match cursor.place {
            0 => (state * 7 + 1) % self.count,
            1 => (state * 13 + 5) % self.count,
            2 => (state * 31 + 11) % self.count,
            3 => (state + 1) % self.count,
            _ => return None,
        };
        cursor.place += 1;
        Some(target)
    }

    fn rank(&self, state: u32) -> u32 {
        state % 7
    }
}
