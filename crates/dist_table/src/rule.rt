//! The rule of a table, and the kinds of step that keep it.
use crate::knowledge::Knowledge;
use atomic_table::{Join, Play, Split, TableRule};
use round_core::StepGraph;

/// The rule: one legal history leaves the settled words, each settled word stands, and what each pass knows is true.
pub struct OneHistory;

impl<G: StepGraph> TableRule<u8, Knowledge, G> for OneHistory {
    ghost use Rattle.dist_table.specs.Rules.{KeepsHistory, first_pass};

    ghost holds = { λ graph s. KeepsHistory (G.origin graph) (G.lists graph) s.words s.views };

    ghost first = { λ graph. first_pass (G.origin graph) (G.lists graph) };
}

/// A relax: a fetch-min with the move's value.
pub struct Relaxed;

impl Play<u8, Knowledge> for Relaxed {
    ghost use Rattle.dist_table.specs.inside.Steps.{TellsRelax};

    ghost then = { TellsRelax };
}

/// A look: a load.
pub struct Looked;

impl Play<u8, Knowledge> for Looked {
    ghost use Rattle.dist_table.specs.inside.Steps.{TellsLook};

    ghost then = { TellsLook };
}

/// A load by which a number is kept for the next pass.
pub struct Reserved;

impl Play<u8, Knowledge> for Reserved {
    ghost use Rattle.dist_table.specs.inside.Steps.{TellsReserved};

    ghost then = { TellsReserved };
}

/// The cut of a pass in two, of which the new one has the number that was kept.
pub struct Cut;

impl Split<Knowledge> for Cut {
    ghost use Rattle.dist_table.specs.inside.Steps.{staying, leaving};

    ghost left = { staying };

    ghost right = { leaving };
}

/// A pass takes in another, and keeps the longer history.
pub struct Longer;

impl Join<Knowledge> for Longer {
    ghost use Rattle.dist_table.specs.inside.Steps.{joining, ended};

    ghost both = { joining };

    ghost spent = { ended };
}

/// A load after a join, which tells that both histories were beginnings of the longer one.
pub struct Confirmed;

impl Play<u8, Knowledge> for Confirmed {
    ghost use Rattle.dist_table.specs.inside.Steps.{TellsJoined};

    ghost then = { TellsJoined };
}

/// A load of the settled word of the number from which the next moves go, which tells its distance.
pub struct Aimed;

impl Play<u8, Knowledge> for Aimed {
    ghost use Rattle.dist_table.specs.inside.Steps.{TellsAim};

    ghost then = { TellsAim };
}

/// A load that is the relax by the next move, where the move can't lower the settled word that it finds.
pub struct Spared;

impl Play<u8, Knowledge> for Spared {
    ghost use Rattle.dist_table.specs.inside.Steps.{TellsSpared};

    ghost then = { TellsSpared };
}
