//! Why a run goes no further, and the one place that writes its line.

ghost use Rattle.std.specs.Prelude.{◌≡◌};
ghost use Rattle.report.specs.Refusals.{refusal_of};
ghost use Rattle.audit_top.specs.Runs.{output};
ghost use Rattle.audit_top.specs.Statuses.{refusal_status};
ghost use Rattle.audit_top.specs.inside.Stops.{refusal_of_cert, refusal_of_check, refusal_of_json, refusal_of_load, refusal_of_numbers, refusal_of_read, refusal_of_report, refusal_of_stack, refusal_of_strokes, refusal_of_trial, refusal_of_trie, stop_of};
ghost use Rattle.audit_top.specs.inside.Endings.{EndsLine, EndsMemory, EndsStop, Finishes};

use crate::status::Status;
use brief_trial::TrialFault;
use cert_check::CheckFault;
use certificate::CertFault;
use dict_files::LoadFault;
use dict_stack::StackFault;
use outline_trie::TrieFault;
use outside::{OutsideFault, ReadFault, Sink};
use report::{FaultLine, Why, write_fault, write_memory};
use report_json::JsonFault;
use state_numbering::NumberFault;
use std::alloc::{AllocError, Global};
use steno_order::StrokesFault;

/// Why a run goes no further.
#[derive(Debug, Drop)]
pub(crate) enum Refusal {
    /// The arguments are not a command.
    Arguments,
    Dictionaries(LoadFault),
    Nodes { count: u64 },
    States { count: u64 },
    /// Reading or writing the certificate failed.
    Certificate,
    CertificateLong,
    /// The certificate isn't valid.
    Rejected { line: u64, why: Why },
    /// Reading the file of a report failed.
    ReportFailed,
    ReportLong,
    /// The file is no JSON.
    NotJson,
    /// It is the JSON of no report.
    NotReport,
    /// The output failed, so nothing more is written.
    Output,
    Memory,
}

impl From<LoadFault> for Refusal {
    ghost from_gives = { λ fault refusal. refusal ≡ refusal_of_load fault };

    fn from(fault: LoadFault) -> Refusal {
        match fault {
            LoadFault::Memory => Refusal::Memory,
            fault => Refusal::Dictionaries(fault),
        }
    }
}

/// Of a stack whose dictionaries come from no file.
impl From<StackFault> for Refusal {
    ghost from_gives = { λ fault refusal. refusal ≡ refusal_of_stack fault };

    fn from(fault: StackFault) -> Refusal {
        match fault {
            StackFault::TooManyEntries { count } => {
                Refusal::Dictionaries(LoadFault::Entries { count })
            }
            StackFault::Memory => Refusal::Memory,
        }
    }
}

/// Arguments whose outline can't be read are not a command.
impl From<StrokesFault> for Refusal {
    ghost from_gives = { λ fault refusal. refusal ≡ refusal_of_strokes fault };

    fn from(fault: StrokesFault) -> Refusal {
        match fault {
            StrokesFault::Unreadable { .. } => Refusal::Arguments,
            StrokesFault::Memory => Refusal::Memory,
        }
    }
}

impl From<OutsideFault> for Refusal {
    ghost from_gives = { λ fault refusal. refusal ≡ refusal_of_report fault };

    fn from(fault: OutsideFault) -> Refusal {
        match fault {
            OutsideFault::Failed => Refusal::Output,
            OutsideFault::Memory => Refusal::Memory,
        }
    }
}

/// Of the file of a report.
impl From<ReadFault> for Refusal {
    ghost from_gives = { λ fault refusal. refusal ≡ refusal_of_read fault };

    fn from(fault: ReadFault) -> Refusal {
        match fault {
            ReadFault::Failed => Refusal::ReportFailed,
            ReadFault::TooLong => Refusal::ReportLong,
            ReadFault::Memory => Refusal::Memory,
        }
    }
}

impl From<JsonFault> for Refusal {
    ghost from_gives = { λ fault refusal. refusal ≡ refusal_of_json fault };

    fn from(fault: JsonFault) -> Refusal {
        match fault {
            JsonFault::NotJson => Refusal::NotJson,
            JsonFault::NotReport => Refusal::NotReport,
            JsonFault::Memory => Refusal::Memory,
        }
    }
}

/// Of a certificate that is written. None of its lines is bad.
impl From<CertFault> for Refusal {
    ghost from_gives = { λ fault refusal. refusal ≡ refusal_of_cert fault };

    fn from(fault: CertFault) -> Refusal {
        match fault {
            CertFault::Failed => Refusal::Certificate,
            CertFault::TooLong => Refusal::CertificateLong,
            CertFault::Memory => Refusal::Memory,
            CertFault::Bad { .. } => Refusal::Certificate,
        }
    }
}

impl From<TrieFault> for Refusal {
    ghost from_gives = { λ fault refusal. refusal ≡ refusal_of_trie fault };

    fn from(fault: TrieFault) -> Refusal {
        match fault {
            TrieFault::TooManyNodes { count } => Refusal::Nodes { count },
            TrieFault::Memory => Refusal::Memory,
        }
    }
}

/// Of the stack on which a brief is tried.
impl From<TrialFault> for Refusal {
    ghost from_gives = { λ fault refusal. refusal ≡ refusal_of_trial fault };

    fn from(fault: TrialFault) -> Refusal {
        match fault {
            TrialFault::Entries { count } => Refusal::Dictionaries(LoadFault::Entries { count }),
            TrialFault::Nodes { count } => Refusal::Nodes { count },
            TrialFault::States { count } => Refusal::States { count },
            TrialFault::Memory => Refusal::Memory,
        }
    }
}

impl From<NumberFault> for Refusal {
    ghost from_gives = { λ fault refusal. refusal ≡ refusal_of_numbers fault };

    fn from(fault: NumberFault) -> Refusal {
        match fault {
            NumberFault::TooManyStates { count } => Refusal::States { count },
            NumberFault::Memory => Refusal::Memory,
        }
    }
}

impl From<CheckFault> for Refusal {
    ghost from_gives = { λ fault refusal. refusal ≡ refusal_of_check fault };

    fn from(fault: CheckFault) -> Refusal {
        match fault {
            CheckFault::Rejected { line, why } => Refusal::Rejected { line, why },
            CheckFault::Failed => Refusal::Certificate,
            CheckFault::TooLong => Refusal::CertificateLong,
            CheckFault::Memory => Refusal::Memory,
        }
    }
}

impl From<AllocError> for Refusal {
    ghost use Rattle.audit_top.specs.declared.refusals.Refusal.TheVariants.{Memory};

    ghost from_gives = { λ fault refusal. refusal ≡ Memory };

    fn from(_fault: AllocError) -> Refusal {
        Refusal::Memory
    }
}

/// The status of a run that ends with the line of a refusal.
fn line_status(fault: &FaultLine<'_>) -> Status
    ensures { result ≡ refusal_status (refusal_of fault.now) }
{
    match *fault {
        FaultLine::Words => Status::Words,
        FaultLine::FileFailed { .. } | FaultLine::CertFailed => Status::File,
        FaultLine::NotJson { .. }
        | FaultLine::NotObject { .. }
        | FaultLine::NotText { .. }
        | FaultLine::NotReport { .. } => Status::Refused,
        FaultLine::Dictionaries { .. }
        | FaultLine::Bytes { .. }
        | FaultLine::OutlineLong { .. }
        | FaultLine::Entries { .. }
        | FaultLine::Nodes { .. }
        | FaultLine::States { .. }
        | FaultLine::CertLong => Status::Limit,
        FaultLine::Memory => Status::Memory,
        FaultLine::Rejected { .. } => Status::Rejected,
    }
}

/// Puts the line that says that memory ran out. It is passed no allocator, so it needs none.
pub(crate) fn put_memory<S: Sink>(out: &mut S) -> Status
    ensures { let before = output (S.text out.old) (S.faults out.old) in
        EndsMemory before (output (S.text out.new) (S.faults out.new)) result }
{
    match write_memory(out) {
        Ok(()) => Status::Memory,
        Err(OutsideFault::Memory) => Status::Memory,
        Err(OutsideFault::Failed) => Status::Output,
    }
}

/// Puts the line of a refusal.
fn put_line<S: Sink>(alloc: Global, out: &mut S, line: &FaultLine<'_>) -> Status
    ensures { let before = output (S.text out.old) (S.faults out.old) in
        EndsLine (refusal_of line.now) before (output (S.text out.new) (S.faults out.new)) result }
{
    match write_fault(alloc, out, line) {
        Ok(()) => line_status(line),
        Err(OutsideFault::Failed) => Status::Output,
        Err(OutsideFault::Memory) => put_memory(out),
    }
}

/// Ends a run that goes no further.
fn end_refused<S: Sink>(alloc: Global, out: &mut S, refusal: &Refusal) -> Status
    ensures { let before = output (S.text out.old) (S.faults out.old) in
        EndsStop (stop_of refusal.now) before (output (S.text out.new) (S.faults out.new)) result }
{
    match refusal {
        Refusal::Output => Status::Output,
        Refusal::Memory => put_memory(out),
        Refusal::Arguments => put_line(alloc, out, &FaultLine::Words),
        Refusal::Dictionaries(fault) => put_line(alloc, out, &fault.line()),
        Refusal::Nodes { count } => put_line(alloc, out, &FaultLine::Nodes { count: *count }),
        Refusal::States { count } => put_line(alloc, out, &FaultLine::States { count: *count }),
        Refusal::Certificate => put_line(alloc, out, &FaultLine::CertFailed),
        Refusal::CertificateLong => put_line(alloc, out, &FaultLine::CertLong),
        Refusal::Rejected { line, why } => {
            put_line(
                alloc,
                out,
                &FaultLine::Rejected {
                    line: *line,
                    why: *why,
                },
            )
        }
        Refusal::ReportFailed => put_line(alloc, out, &FaultLine::FileFailed { file: 1 }),
        Refusal::ReportLong => put_line(alloc, out, &FaultLine::Bytes { file: 1 }),
        Refusal::NotJson => put_line(alloc, out, &FaultLine::NotJson { file: 1 }),
        Refusal::NotReport => put_line(alloc, out, &FaultLine::NotReport { file: 1 }),
    }
}

/// Ends a run: where it goes no further, puts its line. Nothing else does.
pub(crate) fn finish<S: Sink>(alloc: Global, out: &mut S, answer: Result<Status, Refusal>) -> Status
    ensures { let before = output (S.text out.old) (S.faults out.old) in
        Finishes answer before (output (S.text out.new) (S.faults out.new)) result }
{
    match answer {
        Ok(status) => status,
        Err(refusal) => end_refused(alloc, out, &refusal),
    }
}
