//! Reading a dictionary from the bytes of its file.

ghost use Rattle.std.specs.Prelude.{◌≡◌, ◌<◌, ◌^◌, All, None, Some, length, filter_map, find, is_none, IfOk, IfErr};
ghost use Rattle.serde_json.specs.Data.{no_members};
ghost use Rattle.serde_json.specs.View.{view, members_view};
ghost use Rattle.dict_json.specs.Reading.{keyed, members_of, reading};
ghost use Rattle.dict_json.specs.Outcomes.{dictionary, dictionary_outcome, object_outcome, value_outcome};
ghost use Rattle.dict_json.specs.Faults.{IsDictCause};
ghost use Rattle.dict_json.specs.inside.Texts.{put_texts};
ghost use Rattle.dict_json.specs.inside.Walks.{AreKeysOf, walked};

use crate::dictionaries::Dictionary;
use crate::faults::DictFault;
use crate::keys::Keys;
use crate::members::{Member, read_members};
use crate::order::{keep_last_of_each, keep_last_of_each_key};
use crate::texts::Text;
use json::{Error, Scratch};
use serde_json::{Map, Value};
use std::alloc::{AllocError, Global};

/// The value of a file's bytes.
fn read_value(alloc: Global, bytes: &[u8]) -> Result<Value, DictFault>
    ensures ok { IfOk result (λ v. reading bytes.now ≡ Some (view v)) }
    ensures err { IfErr result (IsDictCause (value_outcome (reading bytes.now))) }
{
    match Value::from_slice(alloc, bytes) {
        Ok(value) => Ok(value),
        Err(error) if error.is_memory() => Err(DictFault::Memory),
        Err(_) => Err(DictFault::NotJson),
    }
}

/// The keys of an object's members, whose values are texts.
fn walk(alloc: Global, map: Map<String, Value>) -> Result<Keys, DictFault>
    requires { All (λ m. length m.name < 2 ^ 32) (members_of (members_view map.entries)) }
    ensures texts { IfOk result
        (λ keys. find (λ m. is_none (keyed m)) (members_of (members_view map.entries)) ≡ None) }
    ensures keys { IfOk result (λ keys. keys ≡
        walked (filter_map keyed (members_of (members_view map.entries)))) }
    ensures err { IfErr result (IsDictCause (object_outcome (Some (members_view map.entries)))) }
{
    let mut keys = Keys::with_capacity(alloc, map.len())?;
    for (key, value) in map {
        match value {
            Value::String(text) => keys.add(alloc, key.as_str(), Text::new(text))?,
            _ => return Err(DictFault::NotText {
                key: Text::new(key),
            }),
        }
    }
    Ok(keys)
}

/// The keys of the object that a file's bytes are, by the JSON value of the whole.
fn keys_of_value(alloc: Global, bytes: &[u8]) -> Result<Keys, DictFault>
    requires { length bytes.now < 2 ^ 32 }
    ensures ok { IfOk result (AreKeysOf bytes.now) }
    ensures err { IfErr result (IsDictCause (dictionary_outcome bytes.now)) }
{
    match read_value(alloc, bytes)? {
        Value::Object(map) => walk(alloc, map),
        _ => Err(DictFault::NotObject),
    }
}

/// The keys of members whose keys are in order.
fn walk_members(alloc: Global, members: &[Member<'_>]) -> Result<Keys, AllocError>
    requires { All (λ m. length m.key < 2 ^ 32) members.now }
    ensures { IfOk result (λ keys. keys ≡ walked members.now) }
{
    let mut keys = Keys::with_capacity(alloc, members.len())?;
    for member in members {
        keys.add(alloc, member.key(), Text::copy_of(alloc, member.text())?)?;
    }
    Ok(keys)
}

/// The keys of the object that a file's bytes are, by its members in the order in which they stand there.
fn keys_of_members(alloc: Global, mut members: Vec<Member<'_>>) -> Result<Keys, AllocError>
    requires { All (λ m. length m.name < 2 ^ 32)
        (members_of (put_texts members.items no_members)) }
    ensures texts { IfOk result (λ keys. find (λ m. is_none (keyed m))
        (members_of (put_texts members.entry.items no_members)) ≡ None) }
    ensures keys { IfOk result (λ keys. keys ≡
        walked (filter_map keyed (members_of (put_texts members.entry.items no_members)))) }
{
    keep_last_of_each_key(&mut members)?;
    walk_members(alloc, &members)
}

/// The keys of the object that a file's bytes are.
fn read_keys(alloc: Global, bytes: &[u8]) -> Result<Keys, DictFault>
    requires { length bytes.now < 2 ^ 32 }
    ensures ok { IfOk result (AreKeysOf bytes.now) }
    ensures err { IfErr result (IsDictCause (dictionary_outcome bytes.now)) }
{
    let mut scratch = Scratch::new(alloc);
    match read_members(alloc, bytes, &mut scratch) {
        Ok(members) => Ok(keys_of_members(alloc, members)?),
        Err(Error::OutOfMemory) => Err(DictFault::Memory),
        Err(_) => keys_of_value(alloc, bytes),
    }
}

/// The dictionary of a file's bytes.
///
/// Refused where the bytes have no reading by `serde_json`; where the value is no object; where some value is no text;
/// and where some key has more than [`Outline::MAX`](stroke::Outline::MAX) parts, all readable. Of the causes that hold
/// the first one in this order is returned, and of keys the first by bytes. The cost is that of reading the JSON and of
/// sorting the entries; each text is kept once. An object of texts is read straight from its tokens, and all else once
/// more as a value.
pub fn read_dictionary(alloc: Global, bytes: &[u8]) -> Result<Dictionary, DictFault>
    requires { length bytes.now < 2 ^ 32 }
    ensures ok { IfOk result (λ d. dictionary_outcome bytes.now ≡ dictionary d) }
    ensures err { IfErr result (IsDictCause (dictionary_outcome bytes.now)) }
{
    let Keys {
        mut entries,
        skipped,
        too_long,
    } = read_keys(alloc, bytes)?;
    if let Some((key, parts)) = too_long {
        return Err(DictFault::TooLong { key, parts });
    }
    let folded = keep_last_of_each(&mut entries)?;
    Ok(Dictionary::new(entries, skipped, folded))
}
