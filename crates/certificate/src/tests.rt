//! Whole certificates read and written back, lines that aren't any, lines longer than what is held, and each call of
//! the files failing in turn.

mod copying;
mod faults;
mod lines;
mod long;
