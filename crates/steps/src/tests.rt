//! A caller that counts nothing, over a ledger that it makes up.
ghost use Rattle.std.specs.Prelude.{◌≡◌, ◌+◌, ◌<◌};

use crate::Steps;
use std::marker::Brand;
use std::sync::ledger::{Blank, Ledger};

/// As many steps as it is asked for.
fn walk<L: Ledger>(turns: u8, steps: &mut Steps<L>)
    ensures { steps.new ≡ steps.old + turns }
{
    for _ in 0..turns {
        steps.tick();
    }
}

/// A walk of 7 steps by a counter that begins so.
fn walk_from<L: Ledger>(blank: Blank)
    requires name { blank.name ≡ L.name }
    requires parts { blank.parts ≡ L.parts }
    requires some { 0 < L.parts }
{
    let mut steps: Steps<L> = Steps::new(blank);
    walk(7, &mut steps);
}

#[test]
fn counts_nothing() {
    walk_from::<Brand>(Blank::new(1));
}
