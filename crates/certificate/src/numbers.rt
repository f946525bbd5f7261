//! The numbers of a line: decimal digits without a sign and without a leading zero, at most 2^32 - 1.

ghost use Rattle.std.specs.Prelude.{◌≡◌, ◌++◌, ◌∷◌, ◌<◌, ◌≤◌, ◌-◌, ◌^◌, [], IfOk, MatchOption, None, Some, if◌then◌else◌, option_map};
ghost use Rattle.std.specs.Char.{is_ascii_digit};
ghost use Rattle.std.specs.List.{list_all};
ghost use Rattle.text_rules.specs.Decimals.{is_decimal, decimal_value, digits_value};
ghost use Rattle.text_rules.specs.Lines.{parts_between};
ghost use Rattle.certificate.specs.CertReading.{numbers_of};

use crate::finding::first_place;
use std::alloc::AllocError;

/// Whether all bytes are digits.
fn has_digits(text: &[u8]) -> bool
    ensures { result ≡ list_all is_ascii_digit text.now }
{
    text.iter().all(|byte| byte.is_ascii_digit())
}

/// Whether the bytes are those of a number.
fn has_form(text: &[u8]) -> bool
    ensures { result ≡ is_decimal text.now }
{
    if text.is_empty() || !has_digits(text) {
        return false;
    }
    text[0] != b'0' || text.len() == 1
}

/// The value of digits, if it has room.
fn value(text: &[u8]) -> Option<u32>
    ensures { MatchOption result (2 ^ 32 - 1 < digits_value text.now)
        (λ n. (n ≡ digits_value text.now) × (n ≤ 2 ^ 32 - 1)) }
{
    let mut value: u32 = 0;
    for byte in text {
        let next = 10 * u64::from(value) + u64::from(byte.saturating_sub(b'0'));
        if next > u64::from(u32::MAX) {
            return None;
        }
        value = next as u32;
    }
    Some(value)
}

/// The number whose text this is, if it has room.
fn read_number(text: &[u8]) -> Option<u32>
    ensures { result ≡ decimal_value (2 ^ 32 - 1) text.now }
{
    if has_form(text) { value(text) } else { None }
}

/// AddsBytes the number whose text this is, and answers whether there is one.
fn push_number(numbers: &mut Vec<u32>, text: &[u8]) -> Result<bool, AllocError>
    ensures { IfOk result (λ is. option_map (λ n. numbers.old.items ++ n ∷ [])
        (decimal_value (2 ^ 32 - 1) text.now) ≡ (if is then Some numbers.new.items else None)) }
{
    match read_number(text) {
        Some(number) => {
            numbers.push(number)?;
            Ok(true)
        }
        None => Ok(false),
    }
}

/// AddsBytes the numbers of a text with one space between each two, and answers whether it is such a text.
pub(crate) fn push_numbers(numbers: &mut Vec<u32>, text: &[u8]) -> Result<bool, AllocError>
    ensures { IfOk result (λ are. option_map (λ ns. numbers.old.items ++ ns)
        (numbers_of (parts_between 32 text.now)) ≡ (if are then Some numbers.new.items else None)) }
{
    let mut rest = text;
    while let Some(space) = first_place(b' ', rest) {
        let (number, others) = rest.split_at(space);
        if !push_number(numbers, number)? {
            return Ok(false);
        }
        rest = &others[1..];
    }
    push_number(numbers, rest)
}
