//! The dictionary of a file.

ghost use Rattle.std.specs.Prelude.{◌≡◌, ◌<◌, ◌≤◌, ◌+◌, ◌^◌, length, All};
ghost use Rattle.steno_rules.specs.Outlines.{AreEntries, IsOutline};
ghost use Rattle.dict_json.specs.Dictionaries.{IsDictionary, entry_outlines};
ghost use Rattle.dict_json.specs.Reading.{AreInOrder};

use crate::texts::Text;
use std::marker::Model;
use stroke::Outline;

/// An outline with its translation.
#[derive(Debug, Drop)]
pub struct DictEntry {
    outline: Outline,
    text: Text,
}

impl Model for DictEntry {
    ghost use Rattle.dict_json.specs.Dictionaries.{Entry};

    ghost Value = { Entry };

    ghost view = { λ e. record { outline = e.outline; text = e.text } };
}

impl DictEntry {
    /// The entry of an outline and its translation.
    pub(crate) fn new(outline: Outline, text: Text) -> DictEntry
        ensures { result ≡ record { outline = outline; text = text } }
    {
        DictEntry { outline, text }
    }

    /// The outline.
    pub fn outline(&self) -> &Outline
        ensures { result.now ≡ self.now.outline }
    {
        &self.outline
    }

    /// The translation.
    pub fn text(&self) -> &str
        ensures { result.now ≡ self.now.text }
    {
        self.text.as_str()
    }

    /// The outline and the translation, without a copy.
    pub fn into_parts(self) -> (Outline, Text)
        ensures outline { result.0 ≡ self.outline }
        ensures text { result.1 ≡ self.text }
    {
        (self.outline, self.text)
    }
}

/// The dictionary of a file: its entries in outline order, the keys that were skipped, and the number of keys that were
/// folded.
///
/// A key is skipped where it has a part that spells no stroke. Of the keys that spell one outline the greatest by bytes
/// stands, and the others are folded.
#[derive(Debug, Drop)]
pub struct Dictionary {
    entries: Vec<DictEntry>,
    skipped: Vec<Text>,
    folded: u64,
}

impl Model for Dictionary {
    ghost use Rattle.dict_json.specs.Dictionaries.{DictionaryView, IsDictionary};

    ghost Value = { DictionaryView };

    ghost view = { λ d. record { entries = d.entries.items; skipped = d.skipped.items; folded = d.folded } };

    ghost invariant = { λ d. IsDictionary (record {
      entries = d.entries.items;
      skipped = d.skipped.items;
      folded = d.folded;
    }) };
}

impl Dictionary {
    /// The dictionary of these entries, skipped keys and number of folded keys.
    pub(crate) fn new(entries: Vec<DictEntry>, skipped: Vec<Text>, folded: u64) -> Dictionary
        requires { IsDictionary (record {
          entries = entries.items;
          skipped = skipped.items;
          folded = folded;
        }) }
        ensures { result ≡ record {
          entries = entries.items;
          skipped = skipped.items;
          folded = folded;
        } }
    {
        Dictionary {
            entries,
            skipped,
            folded,
        }
    }

    /// The entries, in strictly rising order of their outlines.
    pub fn entries(&self) -> &[DictEntry]
        ensures entries { result.now ≡ self.now.entries }
        ensures are_entries { AreEntries (entry_outlines self.now.entries) }
        ensures are_outlines { All IsOutline (entry_outlines self.now.entries) }
        ensures few { length self.now.entries < 2 ^ 32 }
    {
        self.entries.as_slice()
    }

    /// The skipped keys, in order of their bytes.
    pub fn skipped(&self) -> &[Text]
        ensures skipped { result.now ≡ self.now.skipped }
        ensures rising { AreInOrder self.now.skipped }
        ensures few { self.now.folded + length self.now.skipped < 2 ^ 32 }
    {
        self.skipped.as_slice()
    }

    /// The number of folded keys.
    pub fn folded(&self) -> u64
        ensures folded { result ≡ self.now.folded }
        ensures few { self.now.folded + length self.now.skipped < 2 ^ 32 }
    {
        self.folded
    }

    /// The entries, the skipped keys and the number of folded keys, without a copy.
    pub fn into_parts(self) -> (Vec<DictEntry>, Vec<Text>, u64)
        ensures entries { result.0.items ≡ self.entries }
        ensures skipped { result.1.items ≡ self.skipped }
        ensures folded { result.2 ≡ self.folded }
        ensures are_entries { AreEntries (entry_outlines self.entries) }
        ensures are_outlines { All IsOutline (entry_outlines self.entries) }
        ensures skipped_rise { AreInOrder self.skipped }
        ensures few_entries { length self.entries < 2 ^ 32 }
        ensures few_keys { self.folded + length self.skipped < 2 ^ 32 }
    {
        (self.entries, self.skipped, self.folded)
    }
}
