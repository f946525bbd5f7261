//! What the workers of a round found, put together.

ghost use Rattle.std.specs.Prelude.{◌≡◌, ℕ, Some, slice_get, IfOk};
ghost use mathlib.Core.List.{IsPrefix};
ghost use Rattle.steal_rounds.specs.declared.member.CrewMember.{CrewMember};
ghost use Rattle.steal_rounds.specs.inside.Crews.{AllOf};
ghost use Rattle.steal_rounds.specs.inside.Moves.{IsLaterPass, IsLegalPass};
ghost use Rattle.steal_rounds.specs.inside.Records.{AreCollected};

use crate::member::CrewMember;
use dist_table::{DistTable, Pass};
use round_core::StepGraph;
use std::alloc::{AllocError, Global};

/// Joins the pass of each worker to the caller's.
pub(crate) fn join_all<G: StepGraph>(
    table: &DistTable<G>,
    pass: &mut Pass,
    mut crew: Vec<CrewMember>,
)
    requires pass { IsLegalPass table.now pass.old }
    requires crew { AllOf table.now crew.items }
    ensures pass { IsLaterPass table.now pass.old pass.new }
    ensures seen { (j : ℕ) (m : CrewMember) →
        slice_get crew.items j ≡ Some m → IsPrefix m.pass.seen pass.new.seen }
{
    while let Some(member) = crew.pop() {
        let CrewMember {
            worker: _,
            pass: theirs,
            deque: _,
            thieves: _,
            notes: _,
            moves: _,
            short: _,
        } = member;
        table.join(pass, theirs);
    }
}

/// What the workers noted, and how many moves they made. Refused where one of them was short of memory.
pub(crate) fn collect(alloc: Global, crew: &[CrewMember]) -> Result<(Vec<u32>, u64), AllocError>
    ensures { IfOk result (λ r. AreCollected crew.now r.0.items r.1) }
{
    let mut notes = Vec::new(alloc);
    let mut moves: u64 = 0;
    for member in crew {
        if member.short {
            return Err(AllocError);
        }
        let Some(sum) = moves.checked_add(member.moves) else {
            return Err(AllocError);
        };
        moves = sum;
        notes.extend_from_slice(member.notes.as_slice())?;
    }
    Ok((notes, moves))
}
