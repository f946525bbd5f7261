//! The stack of dictionaries, the first of which has the highest priority.

ghost use Rattle.std.specs.Prelude.{◌≡◌, ◌<◌, ◌≤◌, ◌+◌, ◌^◌, [], All, length, sum_by, slice_index, slice_index_or, IfOk, IfErr};
ghost use Rattle.steno_rules.specs.Outlines.{AreEntries, AreWords, IsOutline, entry_number, outline_of, flagged_entries};
ghost use Rattle.dict_stack.specs.Stacks.{stack_of, all_outlines, most_entries, most_dictionaries};
ghost use Rattle.dict_stack.specs.Appearances.{strokes_of_all};
ghost use Rattle.dict_stack.specs.Faults.{IsStackCause};

use crate::candidates::{Collected, collect};
use crate::columns::{Columns, merge};
use crate::faults::StackFault;
use crate::finding::find_outline;
use crate::stroke_numbers::StrokeNumbers;
use dict_json::{Dictionary, Text};
use std::alloc::{AllocError, Global};
use std::marker::Model;
use stroke::{Outline, Stroke};

/// Up to [`Stack::MAX_DICTIONARIES`] dictionaries as one: the outlines that some dictionary has, in outline order, each
/// with the translation of the first dictionary that has it.
///
/// An entry is named by its place among them, its number. Some dictionaries only translate: an entry is a word where
/// some other dictionary has it.
#[derive(Drop)]
pub struct Stack {
    outlines: Vec<Outline>,
    texts: Vec<Text>,
    from: Vec<u8>,
    words: Vec<bool>,
    skipped: Vec<Vec<Text>>,
    skipped_total: u64,
    folded_total: u64,
}

impl Model for Stack {
    ghost use Rattle.std.specs.Prelude.{◌≡◌, map, length, sum_by};
    ghost use Rattle.dict_stack.specs.Stacks.{StackView, IsStack};

    ghost Value = { StackView };

    ghost view = { λ s. record {
      outlines = s.outlines.items;
      texts = s.texts.items;
      from = s.from.items;
      words = s.words.items;
      skipped = map (λ keys. keys.items) s.skipped.items;
      folded = s.folded_total;
    } };

    ghost invariant = { λ s. IsStack (record {
      outlines = s.outlines.items;
      texts = s.texts.items;
      from = s.from.items;
      words = s.words.items;
      skipped = map (λ keys. keys.items) s.skipped.items;
      folded = s.folded_total;
    })
        × (s.skipped_total ≡ sum_by length (map (λ keys. keys.items) s.skipped.items)) };
}

impl Stack {
    /// The most entries of a stack.
    pub const MAX_ENTRIES: usize = 1_048_576;

    /// The most dictionaries of a stack.
    pub const MAX_DICTIONARIES: usize = 16;

    /// The stack of dictionaries by falling priority, each of which supplies words where its truth value says so.
    ///
    /// Translations and outlines are moved, not copied. The cost is that of merging the dictionaries. Refused
    /// where more than [`Stack::MAX_ENTRIES`] outlines stand.
    pub fn new(
        alloc: Global,
        dictionaries: Vec<Dictionary>,
        word_files: Vec<bool>,
    ) -> Result<Stack, StackFault>
        requires few { length dictionaries.items ≤ most_dictionaries }
        requires each { length word_files.items ≡ length dictionaries.items }
        ensures stack { IfOk result (λ s. s ≡ stack_of dictionaries.items word_files.items) }
        ensures few_entries { IfOk result (λ _.
            length (all_outlines dictionaries.items) ≤ most_entries) }
        ensures err { IfErr result (IsStackCause (all_outlines dictionaries.items)) }
    {
        let Collected {
            candidates,
            skipped,
            skipped_total,
            folded_total,
        } = collect(alloc, dictionaries, &word_files)?;
        let Columns {
            outlines,
            texts,
            from,
            words,
        } = merge(alloc, candidates)?;
        Ok(Stack {
            outlines,
            texts,
            from,
            words,
            skipped,
            skipped_total,
            folded_total,
        })
    }

    /// The number of entries.
    pub fn entry_count(&self) -> u32
        ensures count { result ≡ length self.now.outlines }
        ensures few { length self.now.outlines ≤ most_entries }
    {
        self.outlines.len() as u32
    }

    /// The entries, in strictly rising order.
    pub fn outlines(&self) -> &[Outline]
        ensures outlines { result.now ≡ self.now.outlines }
        ensures are_entries { AreEntries self.now.outlines }
        ensures are_outlines { All IsOutline self.now.outlines }
        ensures few { length self.now.outlines ≤ most_entries }
    {
        self.outlines.as_slice()
    }

    /// The outline of an entry.
    pub fn outline(&self, entry: u32) -> &Outline
        requires { entry < length self.now.outlines }
        ensures outline { result.now ≡ outline_of self.now.outlines entry }
    {
        &self.outlines[entry as usize]
    }

    /// The translation of an entry, from the first dictionary that has it.
    pub fn translation(&self, entry: u32) -> &str
        requires { entry < length self.now.outlines }
        ensures { result.now ≡ slice_index_or self.now.texts entry [] }
    {
        self.texts[entry as usize].as_str()
    }

    /// The place of the dictionary that an entry's translation is from.
    pub fn from_dictionary(&self, entry: u32) -> u32
        requires { entry < length self.now.outlines }
        ensures place { result ≡ slice_index self.now.from entry }
        ensures within { result < length self.now.skipped }
    {
        u32::from(self.from[entry as usize])
    }

    /// The number of the entry with these strokes, in a binary search.
    pub fn find(&self, strokes: &[Stroke]) -> Option<u32>
        ensures { result ≡ entry_number self.now.outlines strokes.now }
    {
        match find_outline(&self.outlines, strokes) {
            Ok(entry) => Some(entry),
            Err(_) => None,
        }
    }

    /// For each entry whether it is a word.
    pub fn words(&self) -> &[bool]
        ensures words { result.now ≡ self.now.words }
        ensures each { length self.now.words ≡ length self.now.outlines }
        ensures are_words { let outlines = self.now.outlines in
            AreWords outlines (flagged_entries outlines self.now.words) }
    {
        self.words.as_slice()
    }

    /// The strokes of the entries, numbered in order of first appearance. The cost is that of a look-up in a hash table
    /// for each stroke, so they are numbered only where that is asked.
    pub fn stroke_numbers(&self, alloc: Global) -> Result<StrokeNumbers, AllocError>
        ensures { IfOk result (λ numbers. numbers ≡ strokes_of_all self.now.outlines) }
    {
        StrokeNumbers::of(alloc, &self.outlines)
    }

    /// How many different strokes the entries have. They are numbered for that.
    pub fn count_strokes(&self, alloc: Global) -> Result<u32, AllocError>
        ensures { IfOk result (λ count. count ≡ length (strokes_of_all self.now.outlines)) }
    {
        let numbers = self.stroke_numbers(alloc)?;
        Ok(numbers.count())
    }

    /// The number of dictionaries.
    pub fn dictionary_count(&self) -> u32
        ensures count { result ≡ length self.now.skipped }
        ensures few { length self.now.skipped ≤ most_dictionaries }
    {
        self.skipped.len() as u32
    }

    /// The keys that were skipped in the dictionary at a place, in order of bytes.
    pub fn skipped(&self, dictionary: u32) -> &[Text]
        requires { dictionary < length self.now.skipped }
        ensures { result.now ≡ slice_index_or self.now.skipped dictionary [] }
    {
        self.skipped[dictionary as usize].as_slice()
    }

    /// The number of skipped keys of all dictionaries.
    pub fn skipped_total(&self) -> u64
        ensures { result ≡ sum_by length self.now.skipped }
    {
        self.skipped_total
    }

    /// The number of folded keys of all dictionaries.
    pub fn folded_total(&self) -> u64
        ensures { result ≡ self.now.folded }
    {
        self.folded_total
    }
}
