//! The calls of a table's history.

/// A call on the table: by which pass, whether it is a relax or a look, on which number, the value that it put (a look
/// has 0) and the settled word that it found. Contracts alone speak of calls; the program makes no value of this type.
pub struct Call {
    pub pass: u64,
    pub relax: bool,
    pub state: u64,
    pub value: u64,
    pub reply: u64,
}
