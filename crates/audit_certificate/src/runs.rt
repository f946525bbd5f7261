//! The runs: states that follow one another and have one distance.

ghost use Rattle.std.specs.Prelude.{◌≡◌, ◌<◌, ◌≤◌, ◌↔◌, IsSome, IsTrue, MatchOption, None, Some, length, slice_index};
ghost use Rattle.graph_rules.specs.Graphs.{most_numbers};
ghost use Rattle.certificate.specs.Readers.{certificate_limit};
ghost use Rattle.audit_certificate.specs.OwnCertificates.{distance_of, reached_states};
ghost use Rattle.audit_certificate.specs.inside.Puts.{PutsLines, run_lines};
ghost use Rattle.audit_certificate.specs.inside.RunEnds.{IsRunEnd};

use crate::lines::put_line;
use certificate::{CertFault, CertLine, CertWriter};
use outside::Files;

/// How many values each half of a settled word has.
const HALF: u64 = 4_294_967_296;

/// The distance of a number with this settled word, if it was reached.
fn distance(word: u64) -> Option<u32>
    ensures { MatchOption result
        (distance_of word ≡ None) (λ distance. distance_of word ≡ Some distance) }
{
    if word == u64::MAX {
        None
    } else {
        Some((word / HALF) as u32)
    }
}

/// Whether a number with this settled word has this distance.
fn has_distance(word: u64, distance: u32) -> bool
    ensures { IsTrue result ↔ (distance_of word ≡ Some distance) }
{
    word != u64::MAX && word / HALF == u64::from(distance)
}

/// The place behind the run of this distance that begins at a state.
fn run_end(words: &[u64], first: usize, distance: u32) -> usize
    requires first { first < length words.now }
    requires distance { distance_of (slice_index words.now first) ≡ Some distance }
    ensures { IsRunEnd words.now first distance result }
{
    let mut end = first + 1;
    while end < words.len() && has_distance(words[end], distance) {
        end += 1;
    }
    end
}

/// Adds the runs of the reached states. It takes no memory of its own.
pub(crate) fn put_runs<F: Files>(
    writer: &mut CertWriter,
    files: &mut F,
    words: &[u64],
) -> Result<(), CertFault>
    requires writes { IsSome (F.view files.old).writing }
    requires within { writer.old ≤ certificate_limit }
    requires few { length words.now ≤ most_numbers }
    ensures { PutsLines (run_lines (reached_states words.now)) result writer.old writer.new
        (F.view files.old) (F.view files.new) }
{
    let mut at = 0;
    while at < words.len() {
        match distance(words[at]) {
            None => at += 1,
            Some(distance) => {
                let end = run_end(words, at, distance);
                let run = CertLine::Run {
                    first: at as u32,
                    last: (end - 1) as u32,
                    distance,
                };
                match put_line(writer, files, &run) {
                    Ok(()) => at = end,
                    Err(fault) => return Err(fault),
                }
            }
        }
    }
    Ok(())
}
