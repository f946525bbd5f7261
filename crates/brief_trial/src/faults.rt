//! Why briefs aren't tried.

ghost use Rattle.std.specs.Prelude.{◌≡◌};
ghost use Rattle.brief_trial.specs.declared.faults.TrialFault.TheVariants.{Memory};
ghost use Rattle.brief_trial.specs.inside.Faults.{fault_of_numbers, fault_of_trie};

use outline_trie::TrieFault;
use state_numbering::NumberFault;
use std::alloc::AllocError;
use thiserror::Error;

/// Why briefs aren't tried: the stack of the first brief that passes a limit, with the limit that it passes first.
#[derive(Clone, Copy, Debug, PartialEq, Eq, Drop, Error)]
pub enum TrialFault {
    /// The stack has this many entries.
    #[error("{count} entries are more than 1,048,576")]
    Entries { count: u64 },
    /// The entries have this many distinct beginnings.
    #[error("the entries have {count} nodes, more than 4,194,304")]
    Nodes { count: u64 },
    /// The search has this many states.
    #[error("there are {count} states, more than 33,554,432")]
    States { count: u64 },
    #[error("out of memory")]
    Memory,
}

impl From<AllocError> for TrialFault {
    ghost from_gives = { λ _ fault. fault ≡ Memory };

    fn from(_: AllocError) -> TrialFault {
        TrialFault::Memory
    }
}

impl From<TrieFault> for TrialFault {
    ghost from_gives = { λ fault trial. trial ≡ fault_of_trie fault };

    fn from(fault: TrieFault) -> TrialFault {
        match fault {
            TrieFault::TooManyNodes { count } => TrialFault::Nodes { count },
            TrieFault::Memory => TrialFault::Memory,
        }
    }
}

impl From<NumberFault> for TrialFault {
    ghost from_gives = { λ fault trial. trial ≡ fault_of_numbers fault };

    fn from(fault: NumberFault) -> TrialFault {
        match fault {
            NumberFault::TooManyStates { count } => TrialFault::States { count },
            NumberFault::Memory => TrialFault::Memory,
        }
    }
}
