//! Certificates: files that prove an audit by themselves, line by line.
//!
//! Whoever doubts a report can check its certificate without repeating the search. Here are its lines and their texts
//! alone: [`CertLine`] is a line, [`CertWriter`] writes lines to a file and [`CertReader`] reads them. Whether the
//! lines prove anything is decided by the crate that checks them.
//!
//! ```text
//! boundary-certificate 2      the version
//! entries 5                   how many entries there are
//! states 54                   how many numbers of states there are
//! g 1 2 1                     the states 1 to 2 are listed with distance 1 (`d 1 1` in version 1, state by state)
//! conflicts 1                 how many conflicts there are
//! r 3 1 5 0 2 4               entry 3, place 1, 5 strokes, words 0, 2 and 4
//! end
//! ```
#![tactic(auto)]

mod faults;
mod finding;
mod lines;
mod next_line;
mod numbers;
mod parsing;
mod pieces;
mod reading;
mod texts;
mod writing;

ghost use Rattle.std.specs.Prelude.{◌≡◌, true, ℕ, List, Some, ◌↔◌};
ghost use Rattle.certificate.specs.declared.lines.CertLine.{CertLine as Line};
ghost use Rattle.certificate.specs.CertLines.{line_text, fits};
ghost use Rattle.certificate.specs.CertReading.{read_line};
ghost use Rattle.certificate.specs.Readers.{certificate_limit};
ghost use Rattle.certificate.specs.declared.TheConstants.{LIMIT};

pub use faults::CertFault;
pub use lines::CertLine;
pub use reading::CertReader;
pub use writing::CertWriter;

/// The most bytes of a certificate.
const LIMIT: u64 = 4_294_967_296;

/// The most bytes of a certificate, as the definitions cite them, and this number.
pub fn limits()
    ensures bytes { (LIMIT ≡ certificate_limit) × (certificate_limit ≡ 4294967296) }
{}

/// A text is read as a line exactly where it is the text of this line, and the line's numbers have room in their
/// fields.
pub fn lines_read()
    ensures { (text : List ℕ) (line : Line)
        → (read_line text ≡ Some line) ↔ ((text ≡ line_text line) × (fits line ≡ true)) }
{}

#[cfg(test)]
mod tests;
