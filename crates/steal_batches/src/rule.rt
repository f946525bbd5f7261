//! The rule of a deque, and the kinds of step that keep it.
use crate::hand::Hand;
use crossbeam_deque::protocol::{Join, Outcome, Protocol, Split};

/// The rule: each batch stands as often as it was offered in the deque or with who took it.
pub struct EachOnce;

impl Protocol<u32, Hand> for EachOnce {
    ghost use Rattle.steal_batches.specs.Rules.{IsEachOnce};
    ghost use Rattle.steal_batches.specs.inside.Steps.{first_owner, no_hand};

    ghost holds = { IsEachOnce };

    ghost first = { first_owner };

    ghost guest = { no_hand };
}

/// The owner offers a batch.
pub struct Offers;

impl Outcome<u32, Hand> for Offers {
    ghost use Rattle.std.specs.Prelude.{◌≡◌};
    ghost use Rattle.steal_batches.specs.inside.Steps.{offering};

    ghost then = { λ v xs w. w ≡ offering v xs };
}

/// The owner or a thief takes a batch, or finds the deque empty.
pub struct Takes;

impl Outcome<u32, Hand> for Takes {
    ghost use Rattle.steal_batches.specs.Rules.{WasEmpty};
    ghost use Rattle.steal_batches.specs.inside.Steps.{TellsTaken};

    ghost then = { TellsTaken };

    ghost empty = { WasEmpty };
}

/// The owner makes a thief.
pub struct Hires;

impl Split<Hand> for Hires {
    ghost use Rattle.steal_batches.specs.inside.Steps.{hiring, hired};

    ghost left = { hiring };

    ghost right = { hired };
}

/// The owner takes a thief back, with all that it took.
pub struct TakesBack;

impl Join<Hand> for TakesBack {
    ghost use Rattle.steal_batches.specs.inside.Steps.{taking_back, no_hand};

    ghost both = { taking_back };

    ghost spent = { no_hand };
}
