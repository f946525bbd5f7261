//! The keys of a file, collected one by one in order of their bytes.

ghost use Rattle.std.specs.Prelude.{◌≡◌, ◌<◌, ◌≤◌, ◌∷◌, ◌++◌, ◌^◌, [], List, length, IfOk, OnOk, Some};
ghost use Rattle.std.specs.Option.{option_or};
ghost use Rattle.dict_json.specs.Reading.{Keyed};
ghost use Rattle.dict_json.specs.inside.Walks.{AddsKey, walked, with_entry, with_skipped, with_too_long};

use crate::dictionaries::DictEntry;
use crate::texts::Text;
use std::alloc::{AllocError, Global};
use std::marker::Model;
use steno_order::{OutlineFault, read_outline};
use stroke::Outline;

/// What the keys so far come to.
#[derive(Drop)]
pub(crate) struct Keys {
    /// The entries of the readable keys, in order of the keys.
    pub(crate) entries: Vec<DictEntry>,
    /// The keys that have an unreadable part.
    pub(crate) skipped: Vec<Text>,
    /// The first key that is too long, with its number of parts.
    pub(crate) too_long: Option<(Text, u64)>,
}

impl Model for Keys {
    ghost use Rattle.dict_json.specs.inside.Walks.{KeysView};

    ghost Value = { KeysView };

    ghost view = { λ k. record { entries = k.entries.items; skipped = k.skipped.items; too_long = k.too_long } };
}

impl Keys {
    /// No keys, with places for so many entries.
    pub(crate) fn with_capacity(alloc: Global, count: usize) -> Result<Keys, AllocError>
        ensures { IfOk result (λ keys. keys ≡ walked []) }
    {
        Ok(Keys {
            entries: Vec::with_capacity(alloc, count)?,
            skipped: Vec::new(alloc),
            too_long: None,
        })
    }

    /// Adds a key with its text, which is moved. The key is copied where it is skipped or too long.
    pub(crate) fn add(&mut self, alloc: Global, key: &str, text: Text) -> Result<(), AllocError>
        requires { length key.now < 2 ^ 32 }
        ensures { OnOk result (AddsKey self.old key.now text self.new) }
    {
        match read_outline(alloc, key) {
            Ok(outline) => self.add_entry(outline, text),
            Err(OutlineFault::Unreadable { .. }) => self.add_skipped(alloc, key),
            Err(OutlineFault::TooLong { parts }) => self.add_too_long(alloc, key, parts),
            Err(OutlineFault::Memory) => Err(AllocError),
        }
    }

    /// Adds the entry of a readable key.
    fn add_entry(&mut self, outline: Outline, text: Text) -> Result<(), AllocError>
        ensures { OnOk result (self.new ≡ with_entry self.old outline text) }
    {
        self.entries.push(DictEntry::new(outline, text))?;
        Ok(())
    }

    /// Adds a key that has an unreadable part.
    fn add_skipped(&mut self, alloc: Global, key: &str) -> Result<(), AllocError>
        ensures { OnOk result (self.new ≡ with_skipped self.old key.now) }
    {
        self.skipped.push(Text::copy_of(alloc, key)?)?;
        Ok(())
    }

    /// Notes a key that is too long, if it is the first.
    fn add_too_long(&mut self, alloc: Global, key: &str, parts: u64) -> Result<(), AllocError>
        ensures { OnOk result (self.new ≡ with_too_long self.old key.now parts) }
    {
        if self.too_long.is_none() {
            self.too_long = Some((Text::copy_of(alloc, key)?, parts));
        }
        Ok(())
    }
}
