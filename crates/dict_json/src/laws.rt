//! What the definitions rest on, as functions that do no work: their contracts hold for all values.

ghost use Rattle.std.specs.Prelude.{◌≡◌, ℕ, List, Some};
ghost use Rattle.serde_json.specs.Data.{Members, object};
ghost use Rattle.dict_json.specs.Dictionaries.{DictionaryView};
ghost use Rattle.dict_json.specs.Generated.{most_generated};
ghost use Rattle.dict_json.specs.Reading.{AreInOrder, names_of, reading};
ghost use Rattle.dict_json.specs.Standing.{IsOfObject, IsReadAs};
ghost use Rattle.dict_json.specs.declared.generator.TheConstants.{MAX_GENERATED};

/// The limits of the types are those that the definitions cite, and these numbers.
pub fn limits()
    ensures generated { (MAX_GENERATED ≡ most_generated) × (most_generated ≡ 100000) }
{}

/// The keys of an object that is read come in order of their bytes, each once. So the first of some of its keys is the
/// least by bytes, and the last the greatest.
pub fn keys_in_order()
    ensures { (x : List ℕ) (ms : Members) →
        reading x ≡ Some (object ms) → AreInOrder (names_of ms) }
{}

/// Of the keys that spell one outline the greatest by bytes stands, and each outline that some key spells is an
/// entry's.
pub fn greatest_keys_stand()
    ensures { (x : List ℕ) (d : DictionaryView) → IsReadAs x d → IsOfObject x d }
{}
