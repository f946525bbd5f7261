//! Laws of the definitions, as functions that do no work: their contracts hold for all values.

ghost use Rattle.std.specs.Prelude.{◌≡◌, ◌↔◌, ℕ, Contains, List};
ghost use Rattle.steno_rules.specs.Nodes.{in_order};
ghost use Rattle.steno_rules.specs.Outlines.{AreRising, key_count, most_strokes};
ghost use Rattle.stroke.specs.declared.outlines.TheConstants.Outline.{MAX};
ghost use Rattle.stroke.specs.declared.strokes.TheConstants.Stroke.{KEYS};

/// The limits of the types are those that the definitions cite, and these numbers.
pub fn limits()
    ensures keys { (KEYS ≡ key_count) × (key_count ≡ 23) }
    ensures strokes { (MAX ≡ most_strokes) × (most_strokes ≡ 64) }
{}

/// Outlines in their order, each once: they rise, and are just the members of the list.
pub fn outlines_in_order()
    ensures rising { (outlines : List (List ℕ)) → AreRising (in_order outlines) }
    ensures members { (xs : List (List ℕ)) (x : List ℕ) → Contains (in_order xs) x ↔ Contains xs x }
{}
