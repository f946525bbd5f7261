//! What is asked of the program.

/// A command, borrowed from the arguments.
#[derive(Clone, Copy, Debug)]
pub enum Command<'a> {
    /// The replay of an outline over dictionaries, of which the first has the highest priority.
    Replay {
        outline: &'a str,
        files: &'a [String],
    },
    /// The replay of outlines that are written one after another, and what becomes of the boundaries between them.
    Explain {
        outlines: &'a [String],
        files: &'a [String],
    },
    /// The audit of dictionaries by 1 to 32 workers.
    Audit {
        workers: u32,
        files: &'a [String],
    },
    /// The same, with its report as JSON.
    AuditJson {
        workers: u32,
        files: &'a [String],
    },
    /// The rows of a report in JSON.
    Rows {
        file: &'a str,
    },
    /// An audit that writes its certificate before its report.
    AuditTo {
        certificate: &'a str,
        workers: u32,
        files: &'a [String],
    },
    /// The check of a certificate against dictionaries.
    Check {
        certificate: &'a str,
        files: &'a [String],
    },
    /// A certificate written anew in the second version.
    Upgrade {
        certificate: &'a str,
        target: &'a str,
    },
    /// The pairs that stay, by 1 to 32 workers.
    Settled {
        workers: u32,
        files: &'a [String],
    },
    /// Two readings of the same strokes, by 1 to 32 workers.
    Parse {
        workers: u32,
        files: &'a [String],
    },
    /// The trial of briefs, which are written with commas between them, by 1 to 4 workers.
    Try {
        workers: u32,
        briefs: &'a str,
        files: &'a [String],
    },
    /// The bytes of the generated dictionary of a start and a count of entries.
    Generate {
        start: u64,
        count: u32,
    },
    /// The audit of that dictionary by 1 to 32 workers.
    AuditGenerated {
        start: u64,
        count: u32,
        workers: u32,
    },
}
