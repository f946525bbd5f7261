//! A line from the bytes before its line feed.

ghost use Rattle.std.specs.Prelude.{◌≡◌, ◌≤◌, ◌∷◌, [], IfOk, length, option_and_then};
ghost use Rattle.std.specs.Str.{bytes_eq};
ghost use Rattle.text_rules.specs.Lines.{parts_between};
ghost use Rattle.certificate.specs.CertReading.{if_fits, named, of_words};

use crate::finding::first_place;
use crate::lines::CertLine;
use crate::numbers::push_numbers;
use longest_match::Conflict;
use std::alloc::{AllocError, Global};

/// Whether the name is this one.
pub(crate) fn is(name: &[u8], text: &[u8]) -> bool
    ensures { result ≡ bytes_eq name.now text.now }
{
    name == text
}

/// The line without numbers.
fn line_of_none(name: &[u8]) -> Option<CertLine>
    ensures { result ≡ option_and_then if_fits (named name.now []) }
{
    if is(name, b"end") {
        Some(CertLine::End)
    } else {
        None
    }
}

/// The line with one number.
fn line_of_one(name: &[u8], number: u32) -> Option<CertLine>
    ensures { result ≡ option_and_then if_fits (named name.now (number ∷ [])) }
{
    if is(name, b"boundary-certificate") {
        Some(CertLine::Head { version: number })
    } else if is(name, b"entries") {
        Some(CertLine::Entries { count: number })
    } else if is(name, b"states") {
        Some(CertLine::States { count: number })
    } else if is(name, b"conflicts") {
        Some(CertLine::Conflicts { count: number })
    } else {
        None
    }
}

/// The line with two numbers.
fn line_of_two(name: &[u8], state: u32, distance: u32) -> Option<CertLine>
    ensures { result ≡ option_and_then if_fits (named name.now (state ∷ distance ∷ [])) }
{
    if is(name, b"d") {
        Some(CertLine::Distance { state, distance })
    } else {
        None
    }
}

/// The line with three numbers.
fn line_of_three(name: &[u8], first: u32, last: u32, distance: u32) -> Option<CertLine>
    ensures { result ≡ option_and_then if_fits (named name.now (first ∷ last ∷ distance ∷ [])) }
{
    if is(name, b"g") {
        Some(CertLine::Run {
            first,
            last,
            distance,
        })
    } else {
        None
    }
}

/// The line with more numbers: a conflict, if its place has room.
fn line_of_many(alloc: Global, name: &[u8], numbers: &[u32]) -> Result<Option<CertLine>, AllocError>
    requires { 4 ≤ length numbers.now }
    ensures { IfOk result (λ line. line ≡ option_and_then if_fits (named name.now numbers.now)) }
{
    if !is(name, b"r") {
        return Ok(None);
    }
    match u8::try_from(numbers[1]) {
        Ok(place) => {
            let words = numbers[3..].to_vec(alloc)?;
            let conflict = Conflict::new(numbers[0], place, numbers[2], words);
            Ok(Some(CertLine::Row { conflict }))
        }
        Err(_) => Ok(None),
    }
}

/// The line of this name with these numbers.
pub(crate) fn named_line(
    alloc: Global,
    name: &[u8],
    numbers: &[u32],
) -> Result<Option<CertLine>, AllocError>
    ensures { IfOk result (λ line. line ≡ option_and_then if_fits (named name.now numbers.now)) }
{
    match numbers.len() {
        0 => Ok(line_of_none(name)),
        1 => Ok(line_of_one(name, numbers[0])),
        2 => Ok(line_of_two(name, numbers[0], numbers[1])),
        3 => Ok(line_of_three(name, numbers[0], numbers[1], numbers[2])),
        _ => line_of_many(alloc, name, numbers),
    }
}

/// The line whose text without the line feed this is. The list of numbers is room that serves line after line.
pub(crate) fn body_line(
    alloc: Global,
    numbers: &mut Vec<u32>,
    body: &[u8],
) -> Result<Option<CertLine>, AllocError>
    ensures { IfOk result (λ line. line ≡ of_words (parts_between 32 body.now)) }
{
    numbers.clear();
    let Some(space) = first_place(b' ', body) else {
        return named_line(alloc, body, numbers);
    };
    let (name, others) = body.split_at(space);
    if push_numbers(numbers, &others[1..])? {
        named_line(alloc, name, numbers)
    } else {
        Ok(None)
    }
}
