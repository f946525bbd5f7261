//! The laws of certificates: a valid certificate proves an audit by itself, whoever wrote it.
//!
//! What a valid certificate is stands in this crate's specs/: a list of checks of its lines, against the closure of the
//! entries. Each function here has an empty body, and its contract is a law, over every list of entries, every choice
//! of words among them, and every file.
#![tactic(auto)]

ghost use Rattle.std.specs.Prelude.{ℕ, List, Bool, Option, ◌≡◌, ◌<◌, ◌++◌, length};
ghost use Rattle.steno_rules.specs.Outlines.{AreEntries, AreWords, flagged_entries};
ghost use Rattle.steno_rules.specs.Conflicts.{IsLeast};
ghost use Rattle.steno_rules.specs.StateNumbers.{number_count};
ghost use Rattle.longest_match.specs.Rows.{AreConflicts};
ghost use Rattle.certificate.specs.CertReading.{read_lines};
ghost use Rattle.certificate.specs.CertTexts.{Listed};
ghost use Rattle.report.specs.declared.faults.Why.{Why};
ghost use Rattle.certificate_laws.specs.Checks.{Check, accepted, certificate_rows, first_failure, rejected};
ghost use Rattle.certificate_laws.specs.Closures.{Closure, closure_of, kept_numbers};
ghost use Rattle.certificate_laws.specs.Validity.{IsValid, check_outcome, fresh_first, move_checks_of};

/// The rows of a valid certificate are exactly the conflicts, each once and in order, with the fewest strokes and with
/// words that show it, and the certificate announces their number. A conflict has fewer strokes than there are numbers
/// of states.
pub fn valid_certificates()
    ensures conflicts { (entries : List (List ℕ)) (flags : List Bool) (bytes : List ℕ)
        → AreEntries entries → IsValid (closure_of entries flags) bytes
        → AreConflicts entries (flagged_entries entries flags)
        (certificate_rows (read_lines bytes)) }
    ensures number { (entries : List (List ℕ)) (flags : List Bool) (bytes : List ℕ)
        → AreEntries entries → (valid : IsValid (closure_of entries flags) bytes)
        → valid.0 ≡ length (certificate_rows (read_lines bytes)) }
    ensures few { (entries words : List (List ℕ)) (e place n : ℕ)
        → AreWords entries words → IsLeast entries words e place n → n < number_count entries }
{}

/// Where fresh is the first listed state, the first move that fails is the same whether all targets are checked or the
/// kept ones alone.
pub fn kept_moves()
    ensures { (entries : List (List ℕ)) (flags : List Bool) (all : List Listed)
        (most : Option ℕ) (at n : ℕ) (others : List (ℕ × Listed)) (more : List Check)
        → AreEntries entries
        → first_failure most (move_checks_of (closure_of entries flags).targets
        at all (fresh_first n others) ++ more)
        ≡ first_failure most (move_checks_of (kept_numbers entries flags)
        at all (fresh_first n others) ++ more) }
{}

/// Where the reader's limit lets the outcome be known, it is that of the definition: what is accepted is valid, and
/// what is rejected is not.
pub fn decided_certificates()
    ensures accepted { (closure : Closure) (bytes : List ℕ) (n : ℕ)
        → check_outcome closure bytes ≡ accepted n → IsValid closure bytes }
    ensures rejected { (closure : Closure) (bytes : List ℕ) (line : ℕ) (why : Why)
        → check_outcome closure bytes ≡ rejected line why → IsValid closure bytes → ⊥ }
{}
