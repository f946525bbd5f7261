//! What two outlines begin with alike.
ghost use Rattle.std.specs.Prelude.{◌≡◌, ◌≤◌, length};
ghost use Rattle.outline_trie.specs.inside.Tables.{shared};

use stroke::Stroke;

/// How many strokes the two begin with alike.
pub(crate) fn shared_len(left: &[Stroke], right: &[Stroke]) -> usize
    ensures is { result ≡ shared left.now right.now }
    ensures left { result ≤ length left.now }
    ensures right { result ≤ length right.now }
{
    for place in 0..left.len().min(right.len()) {
        if left[place] != right[place] {
            return place;
        }
    }
    left.len().min(right.len())
}
