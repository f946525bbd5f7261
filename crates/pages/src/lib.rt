//! Texts on their way to a sink, for all that the program writes.
//!
//! A text is made on a page, which is put when it is full, so that a text of any length takes little memory and few
//! calls of the sink. What each call adds, and what was put where it ends early, is said once, by `AddsToPage`; the
//! lemmas of `PageSteps` join one part to the next.
#![tactic(auto)]

mod page;
mod quoting;

pub use page::{new_page, put_full};
pub use quoting::{push_number, push_outline, push_quoted};
