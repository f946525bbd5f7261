//! What is found of a brief.

ghost use Rattle.std.specs.Prelude.{◌≡◌};

use longest_match::Conflict;
use std::marker::Model;
use stroke::Outline;

/// What a brief would do as an entry and a word. It says nothing by itself: what gives it says what its conflicts are.
#[derive(Debug, Drop)]
pub struct Trial {
    brief: Outline,
    entry: u32,
    held: bool,
    conflicts: Vec<Conflict>,
}

impl Model for Trial {
    ghost use Rattle.brief_trial.specs.Trials.{TrialView};

    ghost Value = { TrialView };

    ghost view = { λ t. record {
      brief = t.brief;
      entry = t.entry;
      held = t.held;
      conflicts = t.conflicts.items;
    } };
}

impl Trial {
    /// The trial with these parts.
    pub(crate) fn new(brief: Outline, entry: u32, held: bool, conflicts: Vec<Conflict>) -> Trial
        ensures { result ≡ record {
          brief = brief;
          entry = entry;
          held = held;
          conflicts = conflicts.items;
        } }
    {
        Trial {
            brief,
            entry,
            held,
            conflicts,
        }
    }

    /// The brief that was tried.
    pub fn brief(&self) -> &Outline
        ensures { result.now ≡ self.now.brief }
    {
        &self.brief
    }

    /// The brief's number among the entries of its trial stack.
    pub fn entry(&self) -> u32
        ensures { result ≡ self.now.entry }
    {
        self.entry
    }

    /// Whether the brief is an entry of the dictionaries already.
    pub fn held(&self) -> bool
        ensures { result ≡ self.now.held }
    {
        self.held
    }

    /// The conflicts of the brief, by rising place. Their numbers are those of the entries of the trial stack.
    pub fn conflicts(&self) -> &[Conflict]
        ensures { result.now ≡ self.now.conflicts }
    {
        self.conflicts.as_slice()
    }
}
