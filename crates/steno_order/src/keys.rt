//! The characters that keys are written with.

ghost use Rattle.std.specs.Prelude.{◌≡◌, ◌<◌, ◌≤◌, IfSome, IsTrue};
ghost use Rattle.steno_order.specs.inside.Steps.{has_keys, next_key_of};

/// The letter of each key.
pub(crate) const LETTERS: &[u8; 23] = b"#STKPWHRAO*EUFRPBLGTSDZ";

/// What each key is written with where the number bar is pressed: its digit, or its letter where it has none.
pub(crate) const NUMBERED: &[u8; 23] = b"#12K3W4R50*EU6R7B8G9SDZ";

/// The set of keys that are written with a character, as a code, for each character from `#` to `Z`.
static KEYS: [u32; 56] = [
    1, // #
    0, // $
    0, // %
    0, // &
    0, // '
    0, // (
    0, // )
    1 << 10, // *
    0, // +
    0, // ,
    0, // -
    0, // .
    0, // /
    1 << 9, // 0
    1 << 1, // 1
    1 << 2, // 2
    1 << 4, // 3
    1 << 6, // 4
    1 << 8, // 5
    1 << 13, // 6
    1 << 15, // 7
    1 << 17, // 8
    1 << 19, // 9
    0, // :
    0, // ;
    0, // <
    0, // =
    0, // >
    0, // ?
    0, // @
    1 << 8, // A
    1 << 16, // B
    0, // C
    1 << 21, // D
    1 << 11, // E
    1 << 13, // F
    1 << 18, // G
    1 << 6, // H
    0, // I
    0, // J
    1 << 3, // K
    1 << 17, // L
    0, // M
    0, // N
    1 << 9, // O
    1 << 4 | 1 << 15, // P
    0, // Q
    1 << 7 | 1 << 14, // R
    1 << 1 | 1 << 20, // S
    1 << 2 | 1 << 19, // T
    1 << 12, // U
    0, // V
    1 << 5, // W
    0, // X
    0, // Y
    1 << 22, // Z
];

/// The set of keys that are written with a character, as a code.
///
/// A table, since a `match` is a jump that no processor foresees.
fn keys_of(byte: u8) -> u32
    ensures { IsTrue (has_keys byte result) }
{
    if byte < b'#' || byte > b'Z' {
        return 0;
    }
    KEYS[usize::from(byte - b'#')]
}

/// The first key from `next` on that is written with a character.
pub(crate) fn next_key(byte: u8, next: u8) -> Option<u8>
    requires { next ≤ 23 }
    ensures first { result ≡ next_key_of next byte }
    ensures below { IfSome result (λ key. key < 23) }
{
    let keys = keys_of(byte) >> next;
    if keys == 0 {
        return None;
    }
    Some(next + keys.trailing_zeros() as u8)
}
