//! Numbers on the command line: decimal digits without a sign and without a leading zero.

ghost use Rattle.std.specs.Prelude.{◌≡◌, ◌<◌, ◌≤◌, MatchOption};
ghost use Rattle.std.specs.Char.{is_ascii_digit};
ghost use Rattle.std.specs.List.{list_all};
ghost use Rattle.text_rules.specs.Decimals.{is_decimal, decimal_value, digits_value};
ghost use Rattle.steal_rounds.specs.declared.searches.TheConstants.{MAX_WORKERS};

use steal_rounds::MAX_WORKERS;

/// Whether all bytes are digits.
fn has_digits(text: &[u8]) -> bool
    ensures { result ≡ list_all is_ascii_digit text.now }
{
    text.iter().all(|byte| byte.is_ascii_digit())
}

/// Whether the bytes are those of a number.
fn has_form(text: &[u8]) -> bool
    ensures { result ≡ is_decimal text.now }
{
    if text.is_empty() || !has_digits(text) {
        return false;
    }
    text[0] != b'0' || text.len() == 1
}

/// The value of digits, if it is at most this.
fn value(text: &[u8], most: u64) -> Option<u64>
    ensures { let value = digits_value text.now in
        MatchOption result (most < value) (λ n. (n ≡ value) × (n ≤ most)) }
{
    let mut value: u64 = 0;
    for byte in text {
        let next = 10 * u128::from(value) + u128::from(byte.saturating_sub(b'0'));
        if next > u128::from(most) {
            return None;
        }
        value = next as u64;
    }
    Some(value)
}

/// The number that an argument is, if it is one of at most `most`. It takes no memory.
pub(crate) fn read_number(arg: &str, most: u64) -> Option<u64>
    ensures { result ≡ decimal_value most arg.now }
{
    if has_form(arg.as_bytes()) {
        value(arg.as_bytes(), most)
    } else {
        None
    }
}

/// The number of workers that an argument is, if it is one of at most [`MAX_WORKERS`].
pub(crate) fn read_workers(arg: &str) -> Option<u64>
    ensures { result ≡ decimal_value MAX_WORKERS arg.now }
{
    read_number(arg, u64::from(MAX_WORKERS))
}
