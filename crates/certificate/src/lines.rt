//! One line of a certificate.

use longest_match::Conflict;

/// A line of a certificate, of either version.
#[derive(Debug, Drop)]
pub enum CertLine {
    /// The first line.
    Head {
        version: u32,
    },
    /// How many entries there are.
    Entries {
        count: u32,
    },
    /// How many numbers of states there are.
    States {
        count: u32,
    },
    /// Version 1: a state is listed with its distance.
    Distance {
        state: u32,
        distance: u32,
    },
    /// Version 2: the states from the first to the last are listed with one distance.
    Run {
        first: u32,
        last: u32,
        distance: u32,
    },
    /// How many conflicts there are.
    Conflicts {
        count: u32,
    },
    /// A conflict.
    Row {
        conflict: Conflict,
    },
    /// The last line.
    End,
}
