//! Which calls of an object in memory are to fail: how a test makes any one call of a scenario fail.

ghost use Rattle.std.specs.Prelude.{◌≡◌};
ghost use Rattle.outside.specs.Script.{counted, is_listed, no_script};

use std::alloc::Global;
use std::marker::Model;

/// The count of calls so far, and the numbers of those that fail.
#[derive(Drop)]
pub(crate) struct Script {
    calls: u64,
    failing: Vec<u64>,
}

impl Model for Script {
    ghost use Rattle.outside.specs.Script.{ScriptView};

    ghost Value = { ScriptView };

    ghost view = { λ s. record { calls = s.calls; failing = s.failing.items } };
}

impl Script {
    /// A script by which no call fails.
    pub(crate) fn new(alloc: Global) -> Self
        ensures { result ≡ no_script }
    {
        Script {
            calls: 0,
            failing: Vec::new(alloc),
        }
    }

    /// The calls with these numbers fail. Those before them are counted too.
    pub(crate) fn fail_at(&mut self, calls: Vec<u64>)
        ensures { self.new ≡ record self.old { failing = calls.items } }
    {
        self.failing = calls;
    }

    /// Counts a call, and says whether it fails. Looks through the listed numbers.
    pub(crate) fn fails(&mut self) -> bool
        ensures counted { self.new ≡ counted self.old }
        ensures listed { result ≡ is_listed self.old }
    {
        let listed = self.failing.contains(&self.calls);
        self.calls = self.calls.saturating_add(1);
        listed
    }
}
