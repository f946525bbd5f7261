//! The parts of a report's text, taken from its tokens one after another.
//!
//! A fault of these functions says no more than that the next tokens are others, and the reader is not used after it.

ghost use Rattle.std.specs.Prelude.{◌≡◌, ◌∷◌, IfOk, OnOk, decimal};
ghost use Rattle.json.specs.Reads.{token_of};
ghost use Rattle.json.specs.Token.{begin_array, begin_object, end_array, end_object, key, string};
ghost use Rattle.steno_rules.specs.Outlines.{IsOutline};
ghost use Rattle.steno_order.specs.Canonical.{canonical_text};
ghost use Rattle.report_json.specs.inside.Readings.{AreRowWords, IsWithin};
ghost use Rattle.report_json.specs.inside.Tokens.{each_token, number_tokens, word_tokens};

use crate::faults::JsonFault;
use crate::reading::outline_of;
use json::{Reader, Token};
use pages::push_number;
use std::alloc::Global;
use stroke::Outline;

/// What is used again from one part to the next.
#[derive(Drop)]
pub(crate) struct Spare {
    text: String,
    digits: Vec<u8>,
}

impl Spare {
    /// Nothing is kept yet.
    pub(crate) fn new(alloc: Global) -> Spare {
        Spare {
            text: String::new(alloc),
            digits: Vec::new(alloc),
        }
    }
}

/// Takes the next token.
fn take_token<'a>(reader: &mut Reader<'a>) -> Result<Token<'a>, JsonFault>
    ensures { IfOk result (λ token. reader.old ≡ token_of token ∷ reader.new) }
{
    match reader.next() {
        Some(token) => Ok(token),
        None => Err(JsonFault::NotReport),
    }
}

/// Takes the beginning of an object.
pub(crate) fn take_begin_object(reader: &mut Reader<'_>) -> Result<(), JsonFault>
    ensures { OnOk result (reader.old ≡ begin_object ∷ reader.new) }
{
    match take_token(reader)? {
        Token::BeginObject => Ok(()),
        _ => Err(JsonFault::NotReport),
    }
}

/// Takes the end of an object.
pub(crate) fn take_end_object(reader: &mut Reader<'_>) -> Result<(), JsonFault>
    ensures { OnOk result (reader.old ≡ end_object ∷ reader.new) }
{
    match take_token(reader)? {
        Token::EndObject => Ok(()),
        _ => Err(JsonFault::NotReport),
    }
}

/// Takes the beginning of an array.
pub(crate) fn take_begin_array(reader: &mut Reader<'_>) -> Result<(), JsonFault>
    ensures { OnOk result (reader.old ≡ begin_array ∷ reader.new) }
{
    match take_token(reader)? {
        Token::BeginArray => Ok(()),
        _ => Err(JsonFault::NotReport),
    }
}

/// Takes the name of a member.
pub(crate) fn take_key(reader: &mut Reader<'_>, name: &str) -> Result<(), JsonFault>
    ensures { OnOk result (reader.old ≡ key name.now ∷ reader.new) }
{
    match take_token(reader)? {
        Token::Key(found) => {
            if found == name {
                Ok(())
            } else {
                Err(JsonFault::NotReport)
            }
        }
        _ => Err(JsonFault::NotReport),
    }
}

/// The number of these whose decimal text this is.
fn number_of(text: &str, least: u64, most: u64, spare: &mut Spare) -> Result<u64, JsonFault>
    ensures text { IfOk result (λ n. text.now ≡ decimal n) }
    ensures within { IfOk result (IsWithin least most) }
{
    let Ok(number) = text.parse::<u64>() else {
        return Err(JsonFault::NotReport);
    };
    if number < least || number > most {
        return Err(JsonFault::NotReport);
    }
    spare.digits.clear();
    push_number(&mut spare.digits, number)?;
    if spare.digits.as_slice() == text.as_bytes() {
        Ok(number)
    } else {
        Err(JsonFault::NotReport)
    }
}

/// Takes a member whose value is one of these numbers.
pub(crate) fn take_number(
    reader: &mut Reader<'_>,
    name: &str,
    least: u64,
    most: u64,
    spare: &mut Spare,
) -> Result<u64, JsonFault>
    ensures taken { IfOk result (λ n. reader.old ≡ number_tokens name.now n reader.new) }
    ensures within { IfOk result (IsWithin least most) }
{
    take_key(reader, name)?;
    match take_token(reader)? {
        Token::Number(text) => number_of(text, least, most, spare),
        _ => Err(JsonFault::NotReport),
    }
}

/// Takes the canonical text of an outline.
pub(crate) fn take_outline(
    alloc: Global,
    reader: &mut Reader<'_>,
    spare: &mut Spare,
) -> Result<Outline, JsonFault>
    ensures taken { IfOk result
        (λ outline. reader.old ≡ string (canonical_text outline) ∷ reader.new) }
    ensures is_outline { IfOk result IsOutline }
{
    match take_token(reader)? {
        Token::String(text) => outline_of(alloc, text, &mut spare.text),
        _ => Err(JsonFault::NotReport),
    }
}

/// Takes the words of a row, one or more, and the end of their array.
pub(crate) fn take_words(
    alloc: Global,
    reader: &mut Reader<'_>,
    spare: &mut Spare,
) -> Result<Vec<Outline>, JsonFault>
    ensures taken { IfOk result
        (λ words. reader.old ≡ each_token word_tokens words.items (end_array ∷ reader.new)) }
    ensures are { IfOk result (λ words. AreRowWords words.items) }
{
    let mut words = Vec::new(alloc);
    'words: while !reader.take_end_array() {
        words.push(take_outline(alloc, reader, spare)?)?;
    }
    if words.is_empty() {
        Err(JsonFault::NotReport)
    } else {
        Ok(words)
    }
}
