//! Runs that are joined as they come.

ghost use Rattle.std.specs.Prelude.{◌≡◌, OnOk};
ghost use Rattle.cert_upgrade.specs.inside.Uppers.{run_before, with_run};

use certificate::CertLine;
use std::alloc::AllocError;

/// Where a run begins that goes on in one of this first state and distance, if the line is such a run.
fn run_before(line: &CertLine, first: u32, distance: u32) -> Option<u32>
    ensures { result ≡ run_before line.now first distance }
{
    match line {
        CertLine::Run {
            first: start,
            last,
            distance: same,
        } => {
            if u64::from(first) == u64::from(*last) + 1 && distance == *same {
                Some(*start)
            } else {
                None
            }
        }
        CertLine::Head { .. }
        | CertLine::Entries { .. }
        | CertLine::States { .. }
        | CertLine::Distance { .. }
        | CertLine::Conflicts { .. }
        | CertLine::Row { .. }
        | CertLine::End => None,
    }
}

/// Adds a run to the lines. It is joined to a last run that goes on in it.
pub(crate) fn push_run(
    lines: &mut Vec<CertLine>,
    first: u32,
    last: u32,
    distance: u32,
) -> Result<(), AllocError>
    ensures { OnOk result (lines.new.items ≡ with_run lines.old.items first last distance) }
{
    match lines.pop() {
        None => {}
        Some(line) => match run_before(&line, first, distance) {
            Some(start) => {
                lines.push(CertLine::Run {
                    first: start,
                    last,
                    distance,
                })?;
                return Ok(());
            }
            None => lines.push(line)?,
        },
    }
    lines.push(CertLine::Run {
        first,
        last,
        distance,
    })?;
    Ok(())
}
