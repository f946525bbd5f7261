//! The members of an object whose values are all texts, straight from the tokens of its text.
//!
//! `Invalid` of these functions says no more than that a text is no such object.

ghost use Rattle.std.specs.Prelude.{◌≡◌, ◌∷◌, IfOk, OnOk, Some};
ghost use Rattle.json.specs.Token.{begin_object, end_object, string};
ghost use Rattle.serde_json.specs.Data.{no_members, object};
ghost use Rattle.dict_json.specs.Reading.{reading};
ghost use Rattle.dict_json.specs.inside.Texts.{put_texts, text_tokens};

use json::{Error, Reader, Scratch, Token};
use std::alloc::Global;
use std::marker::Model;

/// A key and its text, both borrowed.
#[derive(Drop)]
pub(crate) struct Member<'a> {
    key: &'a str,
    text: &'a str,
}

impl<'a> Model for Member<'a> {
    ghost use Rattle.dict_json.specs.Reading.{Keyed};

    ghost Value = { Keyed };

    ghost view = { λ m. record { key = m.key.now; text = m.text.now } };
}

impl<'a> Member<'a> {
    /// The member of a key and its text.
    fn new(key: &'a str, text: &'a str) -> Member<'a>
        ensures { result ≡ record { key = key.now; text = text.now } }
    {
        Member { key, text }
    }

    /// The key.
    pub(crate) fn key(&self) -> &str
        ensures { result.now ≡ self.now.key }
    {
        self.key
    }

    /// The text.
    pub(crate) fn text(&self) -> &str
        ensures { result.now ≡ self.now.text }
    {
        self.text
    }
}

/// Takes the beginning of an object.
fn take_begin_object(reader: &mut Reader<'_>) -> Result<(), Error>
    ensures { OnOk result (reader.old ≡ begin_object ∷ reader.new) }
{
    match reader.next() {
        Some(Token::BeginObject) => Ok(()),
        _ => Err(Error::Invalid),
    }
}

/// Takes a value that is a text.
fn take_text<'a>(reader: &mut Reader<'a>) -> Result<&'a str, Error>
    ensures { IfOk result (λ text. reader.old ≡ string text.now ∷ reader.new) }
{
    match reader.next() {
        Some(Token::String(text)) => Ok(text),
        _ => Err(Error::Invalid),
    }
}

/// Takes the members of an object, and its end.
fn take_members<'a>(alloc: Global, reader: &mut Reader<'a>) -> Result<Vec<Member<'a>>, Error>
    ensures { IfOk result
        (λ members. reader.old ≡ text_tokens members.items (end_object ∷ reader.new)) }
{
    let mut members = Vec::new(alloc);
    'members: while let Some(key) = reader.next_key()? {
        let text = take_text(reader)?;
        match members.push(Member::new(key, text)) {
            Ok(()) => {}
            Err(_) => return Err(Error::OutOfMemory),
        }
    }
    Ok(members)
}

/// The members of a text, in the order in which they stand there.
fn members_in<'a>(
    alloc: Global,
    text: &'a str,
    scratch: &'a mut Scratch,
) -> Result<Vec<Member<'a>>, Error>
    ensures { IfOk result
        (λ members. reading text.now ≡ Some (object (put_texts members.items no_members))) }
{
    let mut reader = Reader::new(text, scratch)?;
    take_begin_object(&mut reader)?;
    let members = take_members(alloc, &mut reader)?;
    match reader.next() {
        None => Ok(members),
        Some(_) => Err(Error::Invalid),
    }
}

/// The members of a file's bytes, in the order in which they stand there, where the bytes are an object of texts.
pub(crate) fn read_members<'a>(
    alloc: Global,
    bytes: &'a [u8],
    scratch: &'a mut Scratch,
) -> Result<Vec<Member<'a>>, Error>
    ensures { IfOk result
        (λ members. reading bytes.now ≡ Some (object (put_texts members.items no_members))) }
{
    match str::from_utf8(bytes) {
        Ok(text) => members_in(alloc, text, scratch),
        Err(_) => Err(Error::Invalid),
    }
}
