//! The first and the last place of a byte: where a line ends, and where a part of it does.

ghost use Rattle.std.specs.Prelude.{◌≡◌, false, MatchOption};
ghost use Rattle.text_rules.specs.Lines.{has_byte};
ghost use Rattle.certificate.specs.inside.Places.{IsFirstPlace, IsLastPlace};

use memchr::{memchr, memrchr};

/// Where the byte stands first.
pub(crate) fn first_place(byte: u8, bytes: &[u8]) -> Option<usize>
    ensures { MatchOption result (has_byte byte bytes.now ≡ false) (IsFirstPlace byte bytes.now) }
{
    memchr(byte, bytes)
}

/// Where the byte stands last.
pub(crate) fn last_place(byte: u8, bytes: &[u8]) -> Option<usize>
    ensures { MatchOption result (has_byte byte bytes.now ≡ false) (IsLastPlace byte bytes.now) }
{
    memrchr(byte, bytes)
}
