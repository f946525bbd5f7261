//! `audit-generated`: how many conflicts a dictionary has that is made from two numbers, and what the search for them
//! counted.

ghost use Rattle.std.specs.Prelude.{◌≡◌, ◌≤◌, ◌<◌, ◌^◌, ◌∷◌, [], IfErr, IfOk, length};
ghost use Rattle.dict_json.specs.Dictionaries.{DictionaryView};
ghost use Rattle.dict_json.specs.Generated.{most_generated};
ghost use Rattle.dict_json.specs.Outcomes.{dictionary, dictionary_outcome};
ghost use Rattle.dict_stack.specs.Faults.{IsStackCause};
ghost use Rattle.dict_stack.specs.Stacks.{most_entries};
ghost use Rattle.audit_top.specs.inside.Answers.{Answers};
ghost use Rattle.audit_top.specs.Audited.{IsAuditGenerated, generated_stack};
ghost use Rattle.audit_top.specs.Runs.{output};
ghost use Rattle.steal_rounds.specs.declared.searches.TheConstants.{MAX_WORKERS};

use crate::audit::{Form, audit_stack};
use crate::refusals::Refusal;
use crate::status::Status;
use dict_json::{DictFault, Dictionary, generated, read_dictionary};
use dict_stack::{Stack, StackFault};
use outside::Sink;
use std::alloc::{AllocError, Global};
use std::marker::{Send, Sync};
use std::sync::Wait;
use std::thread::Threads;
use steal_rounds::Gate;

/// The dictionary of bytes that are one, so that only memory can run out.
fn read_accepted(alloc: Global, bytes: &[u8]) -> Result<Dictionary, AllocError>
    requires few { length bytes.now < 2 ^ 32 }
    requires accepted { (d : DictionaryView) × (dictionary_outcome bytes.now ≡ dictionary d) }
    ensures { IfOk result (λ d. dictionary_outcome bytes.now ≡ dictionary d) }
{
    match read_dictionary(alloc, bytes) {
        Ok(dictionary) => Ok(dictionary),
        Err(DictFault::Memory) => Err(AllocError),
        Err(DictFault::NotJson) => unreachable!(),
        Err(DictFault::NotObject) => unreachable!(),
        Err(DictFault::NotText { .. }) => unreachable!(),
        Err(DictFault::TooLong { .. }) => unreachable!(),
    }
}

/// One dictionary in a list.
fn only(alloc: Global, dictionary: Dictionary) -> Result<Vec<Dictionary>, AllocError>
    ensures { IfOk result (λ all. all.items ≡ dictionary ∷ []) }
{
    let mut all = Vec::with_capacity(alloc, 1)?;
    all.push(dictionary)?;
    Ok(all)
}

/// The stack of the generated dictionary alone.
fn stack_of_generated(alloc: Global, start: u64, count: u32) -> Result<Stack, StackFault>
    requires { count ≤ most_generated }
    ensures stack { IfOk result (λ s. s ≡ generated_stack start count) }
    ensures within { IfOk result (λ s. length s.outlines ≤ most_entries) }
    ensures err { IfErr result (IsStackCause (generated_stack start count).outlines) }
{
    let bytes = generated(alloc, start, count)?;
    let dictionaries = only(alloc, read_accepted(alloc, &bytes)?)?;
    let word_files = vec![in alloc; true; 1]?;
    Stack::new(alloc, dictionaries, word_files)
}

/// The audit of the generated dictionary.
pub(crate) fn audit_generated<R: Threads + Wait + Sync, S: Sink, K: Gate + Sync>(
    rt: &R,
    alloc: Global,
    workers: u32,
    start: u64,
    count: u32,
    out: &mut S,
    gate: &K,
) -> Result<Status, Refusal>
    requires some { 1 ≤ workers }
    requires few { workers ≤ MAX_WORKERS }
    requires count { count ≤ most_generated }
    ensures { let before = output (S.text out.old) (S.faults out.old) in
        let after = output (S.text out.new) (S.faults out.new) in
        Answers (IsAuditGenerated start count) before after result }
{
    let stack = stack_of_generated(alloc, start, count)?;
    audit_stack(rt, alloc, workers, &stack, Form::Summary, out, gate)
}
