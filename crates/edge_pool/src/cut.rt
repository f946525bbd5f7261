//! What a pool tells of its blocks to its history.
ghost use Rattle.std.specs.Prelude.{ℕ};

/// A block of a class: live with a length, or free with the length 0.
#[derive(Clone, Copy, Debug, Drop)]
pub(crate) struct Cut {
    pub(crate) place: u32,
    pub(crate) class: usize,
    pub(crate) len: u32,
}
