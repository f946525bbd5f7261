//! The entries of all dictionaries in one list, dictionary by dictionary.

ghost use Rattle.std.specs.Prelude.{◌≡◌, ◌<◌, ◌≤◌, ◌+◌, ◌*◌, ◌++◌, ◌^◌, ◌∷◌, [], All, map, length, OnOk, IfOk};
ghost use Rattle.steno_rules.specs.Outlines.{IsOutline};
ghost use Rattle.dict_json.specs.Dictionaries.{entry_outlines};
ghost use Rattle.dict_stack.specs.inside.Candidates.{candidate, AreFew, IsCollected};
ghost use Rattle.dict_stack.specs.Stacks.{most_dictionaries};

use dict_json::{DictEntry, Dictionary, Text};
use std::alloc::{AllocError, Global};

/// An entry of a dictionary, which stands unless an earlier dictionary has its outline too.
#[derive(Drop)]
pub struct Candidate {
    pub entry: DictEntry,
    /// The place of its dictionary.
    pub place: u8,
    /// Whether its dictionary supplies words.
    pub is_word: bool,
}

/// What the dictionaries of a stack hold, moved out of them.
#[derive(Drop)]
pub struct Collected {
    /// The entries, dictionary by dictionary.
    pub candidates: Vec<Candidate>,
    /// The skipped keys of each dictionary.
    pub skipped: Vec<Vec<Text>>,
    /// The number of all skipped keys.
    pub skipped_total: u64,
    /// The number of all folded keys.
    pub folded_total: u64,
}

impl Collected {
    /// Moves in what the next dictionary holds.
    fn add(&mut self, dictionary: Dictionary, is_word: bool) -> Result<(), AllocError>
        requires few { length self.old.skipped.items < most_dictionaries }
        requires few_keys { AreFew self.old }
        ensures candidates { OnOk result (self.new.candidates.items ≡ self.old.candidates.items
            ++ map (candidate (length self.old.skipped.items) is_word) dictionary.entries) }
        ensures skipped { OnOk result (map (λ keys. keys.items) self.new.skipped.items ≡
            map (λ keys. keys.items) self.old.skipped.items ++ dictionary.skipped ∷ []) }
        ensures skipped_total { OnOk result (self.new.skipped_total ≡
            self.old.skipped_total + length dictionary.skipped) }
        ensures folded_total { OnOk result (self.new.folded_total ≡
            self.old.folded_total + dictionary.folded) }
        ensures are_outlines { All IsOutline (entry_outlines dictionary.entries) }
        ensures few_more { dictionary.folded + length dictionary.skipped < 2 ^ 32 }
    {
        let (entries, skipped, folded) = dictionary.into_parts();
        let place = self.skipped.len() as u8;
        self.skipped_total += skipped.len() as u64;
        self.folded_total += folded;
        self.skipped.push(skipped)?;
        add_entries(&mut self.candidates, entries, place, is_word)
    }
}

/// What the dictionaries hold, each of which supplies words where its truth value says so.
pub fn collect(
    alloc: Global,
    dictionaries: Vec<Dictionary>,
    word_files: &[bool],
) -> Result<Collected, AllocError>
    requires few { length dictionaries.items ≤ most_dictionaries }
    requires each { length word_files.now ≡ length dictionaries.items }
    ensures { IfOk result (IsCollected dictionaries.items word_files.now) }
{
    let mut collected = Collected {
        candidates: Vec::with_capacity(alloc, entry_total(&dictionaries))?,
        skipped: Vec::with_capacity(alloc, dictionaries.len())?,
        skipped_total: 0,
        folded_total: 0,
    };
    for dictionary in dictionaries {
        let is_word = word_files[collected.skipped.len()];
        collected.add(dictionary, is_word)?;
    }
    Ok(collected)
}

/// How many entries the dictionaries have together.
fn entry_total(dictionaries: &[Dictionary]) -> usize {
    let mut total: usize = 0;
    for dictionary in dictionaries {
        total = total.saturating_add(dictionary.entries().len());
    }
    total
}

/// Adds the entries of the dictionary at a place.
fn add_entries(
    candidates: &mut Vec<Candidate>,
    entries: Vec<DictEntry>,
    place: u8,
    is_word: bool,
) -> Result<(), AllocError>
    ensures { OnOk result (candidates.new.items ≡
        candidates.old.items ++ map (candidate place is_word) entries.items) }
{
    for entry in entries {
        candidates.push(Candidate {
            entry,
            place,
            is_word,
        })?;
    }
    Ok(())
}
