//! Whether words, written one after another, swallow a boundary: the quick test, over a trie.
ghost use Rattle.std.specs.Prelude.{◌≡◌, ◌<◌, ◌↔◌, length, IsTrue, IfOk};
ghost use Rattle.longest_match.specs.Rows.{word_limit};
ghost use Rattle.steno_rules.specs.Conflicts.{AreEntryNumbers, Shows};
ghost use Rattle.steno_rules.specs.Outlines.{AreEntries};

use crate::whole::translate;
use longest_match::{is_cut, joined};
use outline_trie::Trie;
use std::alloc::{AllocError, Global};
use stroke::Outline;

/// Whether the words, given by their numbers among the entries, show the place in the entry, as `longest_match::shows`
/// says.
///
/// The trie is that of the entries. The strokes of the words are translated by the live translator, so the time follows
/// the strokes and not the number of entries.
pub fn shows(
    alloc: Global,
    trie: &Trie,
    entries: &[Outline],
    words: &[u32],
    entry: u32,
    place: u8,
) -> Result<bool, AllocError>
    requires trie { trie.now ≡ entries.now }
    requires entries { AreEntries entries.now }
    requires words { AreEntryNumbers entries.now words.now }
    requires word_count { length words.now < word_limit }
    requires entry { entry < length entries.now }
    ensures { IfOk result (λ answer. IsTrue answer ↔ Shows entries.now words.now entry place) }
{
    let strokes = joined(alloc, entries, words)?;
    let found = translate(alloc, trie, strokes.as_slice())?;
    let Some(last) = found.last() else {
        return Ok(false);
    };
    let place = u32::from(place);
    if last.entry != Some(entry) || place == 0 || place >= last.len {
        return Ok(false);
    }
    Ok(is_cut(entries, words, strokes.len() as u32 - last.len + place))
}
