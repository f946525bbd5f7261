//! Laws of the definitions, as functions that do no work: their contracts hold for all values.

ghost use Rattle.std.specs.Prelude.{◌≡◌, ◌↔◌, ℕ, List};
ghost use Rattle.steno_rules.specs.Outlines.{AreRising};
ghost use Rattle.dict_json.specs.Dictionaries.{DictionaryView};
ghost use Rattle.dict_stack.specs.Stacks.{IsHeldBySome, IsLive, all_outlines, most_dictionaries, most_entries};
ghost use Rattle.dict_stack.specs.declared.stacks.TheConstants.Stack.{MAX_DICTIONARIES, MAX_ENTRIES};

/// The limits of the types are those that the definitions cite, and these numbers.
pub fn limits()
    ensures entries { (MAX_ENTRIES ≡ most_entries) × (most_entries ≡ 1048576) }
    ensures dictionaries { (MAX_DICTIONARIES ≡ most_dictionaries) × (most_dictionaries ≡ 16) }
{}

/// The entries of a stack are the rising list with just the outlines that some dictionary has.
pub fn live_outlines()
    ensures rising { (ds : List DictionaryView) → AreRising (all_outlines ds) }
    ensures members { (ds : List DictionaryView) (x : List ℕ) → IsLive ds x ↔ IsHeldBySome ds x }
{}
