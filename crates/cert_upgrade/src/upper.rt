//! The lines of a certificate down to the conflicts: whether their form is right, and which lines are made of them.

ghost use Rattle.std.specs.Prelude.{◌≡◌, [], ◌&&◌, nat_le, nat_lt, None, Some, OnOk, if◌then◌else◌};
ghost use Rattle.graph_rules.specs.Graphs.{most_numbers};
ghost use Rattle.cert_upgrade.specs.inside.Uppers.{TakesFormLine, failure_by, may_list, upper_failure};

use crate::runs::push_run;
use certificate::CertLine;
use report::Why;
use std::alloc::{AllocError, Global};

/// No stack has more numbers of states.
const MOST_STATES: u32 = 33_554_432;

/// What is known of the lines read so far.
#[derive(Drop)]
pub(crate) struct Upper {
    /// The version that the head announces.
    pub(crate) version: u32,
    /// How many numbers of states are announced.
    pub(crate) states: u32,
    /// The least number that may be listed next.
    pub(crate) next: u64,
    /// The lines of the new certificate.
    pub(crate) lines: Vec<CertLine>,
}

/// Why a line fails that may follow or not, and says what is right or not.
fn failure_of(may_follow: bool, is_right: bool, why: Why) -> Option<Why>
    ensures { result ≡ failure_by may_follow is_right why }
{
    if !may_follow {
        Some(Why::Form)
    } else if !is_right {
        Some(why)
    } else {
        None
    }
}

impl Upper {
    /// Nothing is known yet.
    pub(crate) fn new(alloc: Global) -> Upper
        ensures next { result.next ≡ 0 }
        ensures lines { result.lines.items ≡ [] }
    {
        Upper {
            version: 0,
            states: 0,
            next: 0,
            lines: Vec::new(alloc),
        }
    }

    /// Whether these states may be listed next.
    fn may_list(&self, first: u32, last: u32) -> bool
        ensures { result ≡ may_list self.now first last }
    {
        self.next <= u64::from(first) && last < self.states
    }

    /// Why a line behind so many others fails, if it does.
    pub(crate) fn failure(&self, before: u64, line: &CertLine) -> Option<Why>
        ensures { result ≡ upper_failure self.now before line.now }
    {
        match line {
            CertLine::Head { version } => failure_of(
                before == 0 && (*version == 1 || *version == 2),
                true,
                Why::Form,
            ),
            CertLine::Entries { .. } => failure_of(before == 1, true, Why::Entries),
            CertLine::States { count } => {
                failure_of(before == 2, *count <= MOST_STATES, Why::States)
            }
            CertLine::Distance { state, .. } => failure_of(
                before >= 3 && self.version == 1,
                self.may_list(*state, *state),
                Why::Number,
            ),
            CertLine::Run { first, last, .. } => failure_of(
                before >= 3 && (self.version == 2 && *first <= *last),
                self.may_list(*first, *last),
                Why::Number,
            ),
            CertLine::Conflicts { .. } => failure_of(before >= 3, true, Why::Form),
            CertLine::Row { .. } | CertLine::End => Some(Why::Form),
        }
    }

    /// Takes a line that may follow those read so far.
    pub(crate) fn take(&mut self, line: &CertLine) -> Result<(), AllocError>
        ensures { OnOk result (TakesFormLine self.old self.new line.now) }
    {
        match line {
            CertLine::Head { version } => {
                self.version = *version;
                self.lines.push(CertLine::Head { version: 2 })?;
            }
            CertLine::Entries { count } => {
                self.lines.push(CertLine::Entries { count: *count })?;
            }
            CertLine::States { count } => {
                self.states = *count;
                self.lines.push(CertLine::States { count: *count })?;
            }
            CertLine::Distance { state, distance } => {
                self.next = u64::from(*state) + 1;
                push_run(&mut self.lines, *state, *state, *distance)?;
            }
            CertLine::Run {
                first,
                last,
                distance,
            } => {
                self.next = u64::from(*last) + 1;
                push_run(&mut self.lines, *first, *last, *distance)?;
            }
            CertLine::Conflicts { .. } | CertLine::Row { .. } | CertLine::End => {}
        }
        Ok(())
    }
}
