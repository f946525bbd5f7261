//! Dictionaries that are made of two numbers, as large inputs that anybody can make again.

ghost use Rattle.std.specs.Prelude.{◌≡◌, ◌<◌, ◌≤◌, ◌+◌, ◌%◌, ◌^◌, ◌∷◌, ◌++◌, [], codes, decimal, flat_map, map, nat_lt, slice_index_or, length, string_bytes, if◌then◌else◌, IfOk, OnOk};
ghost use Rattle.steno_order.specs.Keys.{slash};
ghost use Rattle.text_rules.specs.Quoted.{escaped, quoted};
ghost use Rattle.dict_json.specs.Dictionaries.{DictionaryView, IsWhole};
ghost use Rattle.dict_json.specs.Outcomes.{dictionary, dictionary_outcome};
ghost use Rattle.dict_json.specs.Generated.{after_draws, drawn, generated_text, key_text, members_text, entry_length, most_generated, stroke_text};

use std::alloc::{AllocError, Global};
use std::collections::HashSet;
use std::fmt::Write;
use std::marker::Model;

/// What the left keys of a stroke are written as.
const LEFT: [&str; 16] = [
    "", "S", "T", "K", "P", "W", "H", "R", "ST", "TP", "KW", "PH", "HR", "TKPW", "SKWR", "STPH",
];

/// What its vowels are written as.
const VOWELS: [&str; 8] = ["A", "O", "E", "U", "AO", "AE", "EU", "AOEU"];

/// What its right keys are written as.
const RIGHT: [&str; 16] = [
    "", "F", "R", "P", "B", "L", "G", "T", "S", "D", "Z", "PB", "PL", "BG", "TS", "FRPB",
];

/// The most entries that a dictionary is made of.
pub const MAX_GENERATED: u32 = 100_000;

/// The minimal standard generator of Park and Miller (1988) with its first multiplier, 16,807. Seen as its value.
#[derive(Drop)]
struct Draws {
    value: u64,
}

impl Model for Draws {
    ghost use Rattle.std.specs.Prelude.{ℕ, ◌<◌};

    ghost Value = { ℕ };

    ghost view = { λ d. d.value };

    ghost invariant = { λ d. d.value < 2147483647 };
}

impl Draws {
    /// The generator that a start seeds.
    fn new(start: u64) -> Draws
        ensures { result ≡ start % 2147483646 + 1 }
    {
        Draws {
            value: start % 2_147_483_646 + 1,
        }
    }

    /// The next value.
    fn draw(&mut self) -> u64
        ensures new { self.new ≡ drawn self.old }
        ensures result { result ≡ drawn self.old }
    {
        self.value = 16_807 * self.value % 2_147_483_647;
        self.value
    }

    /// The next key: one draw for the number of its strokes, and one for each stroke.
    fn key(&mut self, alloc: Global) -> Result<String, AllocError>
        ensures key { IfOk result (λ key. string_bytes key ≡ key_text (drawn self.old)) }
        ensures draws { OnOk result (self.new ≡
            after_draws (entry_length (drawn self.old)) (drawn self.old)) }
    {
        let strokes = 1 + self.draw() % 3;
        let mut key = String::new(alloc);
        for place in 0..strokes {
            push_part(&mut key, place, self.draw() % 2048)?;
        }
        Ok(key)
    }
}

/// Adds a stroke after those before it.
fn push_part(key: &mut String, place: u64, number: u64) -> Result<(), AllocError>
    requires { number < 2048 }
    ensures { OnOk result (string_bytes key.new ≡ string_bytes key.old
        ++ ((if nat_lt 0 place then slash ∷ [] else []) ++ stroke_text number)) }
{
    if place > 0 {
        key.push_str("/")?;
    }
    push_stroke(key, number)
}

/// Adds the text of a stroke's number.
fn push_stroke(key: &mut String, number: u64) -> Result<(), AllocError>
    requires { number < 2048 }
    ensures { OnOk result (string_bytes key.new ≡ string_bytes key.old ++ stroke_text number) }
{
    let number = number as usize;
    key.push_str(text_at(&LEFT, number % 16))?;
    key.push_str(text_at(&VOWELS, number / 16 % 8))?;
    key.push_str(text_at(&RIGHT, number / 128))?;
    Ok(())
}

/// The text of a place.
fn text_at(texts: &[&'static str], place: usize) -> &'static str
    requires { place < length texts.now }
    ensures { result.now ≡ slice_index_or (map (λ text. text.now) texts.now) place [] }
{
    texts[place]
}

/// The members of the object, without those whose key was already written.
fn members(alloc: Global, start: u64, count: u32) -> Result<String, AllocError>
    ensures { IfOk result (λ members. string_bytes members ≡ members_text start count) }
{
    let mut draws = Draws::new(start);
    let mut written = HashSet::new(alloc);
    let mut members = String::new(alloc);
    for i in 0..count {
        let key = draws.key(alloc)?;
        if written.contains(key.as_str()) {
            continue;
        }
        push_member(&mut members, key.as_str(), i)?;
        written.insert(key)?;
    }
    Ok(members)
}

/// Adds a member after those before it: a key that needs no escape, and the text of its number.
fn push_member(members: &mut String, key: &str, number: u32) -> Result<(), AllocError>
    requires { flat_map escaped key.now ≡ key.now }
    ensures { let before = if nat_lt 0 number then codes ",\n" else [] in
        let member = quoted key.now ++ codes ": " ++ quoted (codes "w" ++ decimal number) in
        OnOk result (string_bytes members.new ≡ string_bytes members.old ++ (before ++ member)) }
{
    if number > 0 {
        members.push_str(",\n")?;
    }
    write_member(members, key, number)
}

/// Writes a member: a key that needs no escape, and the text of its number.
fn write_member(members: &mut String, key: &str, number: u32) -> Result<(), AllocError>
    requires { flat_map escaped key.now ≡ key.now }
    ensures { OnOk result (string_bytes members.new ≡ string_bytes members.old
        ++ (quoted key.now ++ codes ": " ++ quoted (codes "w" ++ decimal number))) }
{
    write!(members, "\"{key}\": \"w{number}\"")
}

/// The text of the dictionary: the members between lines of braces.
fn object(alloc: Global, start: u64, count: u32) -> Result<String, AllocError>
    ensures { IfOk result (λ text. string_bytes text ≡ generated_text start count) }
{
    let mut text = String::new(alloc);
    if count == 0 {
        text.push_str("{}\n")?;
        return Ok(text);
    }
    let members = members(alloc, start, count)?;
    text.push_str("{\n")?;
    text.push_str(members.as_str())?;
    text.push_str("\n}\n")?;
    Ok(text)
}

/// The bytes of the dictionary that is made of a start and a number of entries.
///
/// An entry whose key was already written is left out, so the bytes read as a dictionary without skipped or folded
/// keys. The cost is linear in the count.
pub fn generated(alloc: Global, start: u64, count: u32) -> Result<Vec<u8>, AllocError>
    requires { count ≤ most_generated }
    ensures bytes { IfOk result (λ bytes. bytes.items ≡ generated_text start count) }
    ensures few { IfOk result (λ bytes. length bytes.items < 2 ^ 32) }
    ensures reads { IfOk result (λ bytes. (d : DictionaryView)
        × (dictionary_outcome bytes.items ≡ dictionary d) × IsWhole d) }
{
    Ok(object(alloc, start, count)?.into_bytes())
}
