//! The certificate that an audit writes of itself: a file that proves the report without the search.
//!
//! A search leaves a settled word for each number of a state, and the conflicts are read from these.
//! [`write_certificate`] writes both to a file: the reached states with their distances, as runs of states that follow
//! one another and have one distance, and the conflicts with their examples. Whoever doubts the report checks this
//! file, without a search.
//!
//! That the certificate is valid, and that no run could be longer, is the law [`own_certificates`].
#![tactic(auto)]

mod lines;
mod rows;
mod runs;
mod writing;

ghost use Rattle.std.specs.Prelude.{ℕ, List, Bool, ◌≡◌, Some, length, map};
ghost use Rattle.longest_match.specs.Rows.{Row};
ghost use Rattle.certificate.specs.CertReading.{read_lines};
ghost use Rattle.certificate.specs.CertTexts.{certificate_lines, runs_of};
ghost use Rattle.certificate_laws.specs.Closures.{closure_of};
ghost use Rattle.certificate_laws.specs.Validity.{IsValid};
ghost use Rattle.audit_certificate.specs.Runs.{AreLongestRuns};
ghost use Rattle.audit_certificate.specs.OwnCertificates.{IsAudited, own_certificate, reached_states};

pub use writing::write_certificate;

/// The certificate that an audit writes of itself is valid. It is read back line by line, and its runs are longest.
pub fn own_certificates()
    ensures valid { (entries : List (List ℕ)) (flags : List Bool) (table : List ℕ) (rows : List Row)
        → IsAudited entries flags table rows
        → IsValid (closure_of entries flags) (own_certificate (length entries) table rows) }
    ensures lines { (entries : List (List ℕ)) (flags : List Bool) (table : List ℕ) (rows : List Row)
        → IsAudited entries flags table rows
        → read_lines (own_certificate (length entries) table rows)
        ≡ map Some (certificate_lines (length entries) (length table) (reached_states table) rows) }
    ensures runs { (table : List ℕ)
        → AreLongestRuns (reached_states table) (runs_of (reached_states table)) }
{}

#[cfg(test)]
mod tests;
