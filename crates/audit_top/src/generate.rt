//! `generate`: a dictionary that is made from two numbers.

ghost use Rattle.std.specs.Prelude.{◌≡◌, ◌≤◌};
ghost use Rattle.audit_top.specs.Translated.{IsGenerated};
ghost use Rattle.audit_top.specs.Runs.{output};
ghost use Rattle.dict_json.specs.Generated.{most_generated};
ghost use Rattle.audit_top.specs.inside.Answers.{Answers};

use crate::refusals::Refusal;
use crate::status::Status;
use dict_json::generated;
use outside::{Sink, write_all};
use std::alloc::Global;

/// The bytes of the generated dictionary.
pub(crate) fn generate<S: Sink>(
    alloc: Global,
    start: u64,
    count: u32,
    out: &mut S,
) -> Result<Status, Refusal>
    requires { count ≤ most_generated }
    ensures { let before = output (S.text out.old) (S.faults out.old) in
        let after = output (S.text out.new) (S.faults out.new) in
        Answers (IsGenerated start count) before after result }
{
    let bytes = generated(alloc, start, count)?;
    write_all(out, &bytes)?;
    Ok(Status::Clean)
}
