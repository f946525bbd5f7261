//! Laws of the definitions: that a text's reading is its spelling, and that each stroke's text is one of its spellings.
//!
//! Each is a function that does nothing; its contract is the law.

ghost use Rattle.std.specs.Prelude.{◌≡◌, ◌<◌, ◌≤◌, ◌^◌, ◌↔◌, All, List, None, Option, Some, [], length, ℕ};
ghost use Rattle.steno_rules.specs.Outlines.{IsStroke, most_strokes};
ghost use Rattle.steno_order.specs.Canonical.{canonical, canonical_text};
ghost use Rattle.steno_order.specs.Reading.{stroke_of, spelt_strokes, unreadable_part};
ghost use Rattle.steno_order.specs.Spelling.{Spelling, SpellingOfAll, parts_of};

/// A text spells the stroke that it is read as and no other, and what it spells is a stroke.
pub fn spellings()
    ensures read { (text : List ℕ) (code : ℕ) → Spelling text code ↔ (stroke_of text ≡ Some code) }
    ensures one { (text : List ℕ) (a b : ℕ) → Spelling text a → Spelling text b → a ≡ b }
    ensures stroke { (text : List ℕ) (code : ℕ) → Spelling text code → IsStroke code }
{}

/// The canonical text of a stroke spells it and is read as it, and no two strokes have one text.
pub fn canonical_spellings()
    ensures spells { (code : ℕ) → IsStroke code → Spelling (canonical code) code }
    ensures back { (code : ℕ) → IsStroke code → stroke_of (canonical code) ≡ Some code }
    ensures differ { (a b : ℕ) → IsStroke a → IsStroke b → canonical a ≡ canonical b → a ≡ b }
{}

/// The same as [`spellings`] for lists; no text spells the empty list, and a text spells none just where a part does.
pub fn list_spellings()
    ensures read { (text : List ℕ) (strokes : List ℕ) →
        SpellingOfAll text strokes ↔ (spelt_strokes text ≡ Some strokes) }
    ensures one { (text : List ℕ) (a b : List ℕ) →
        SpellingOfAll text a → SpellingOfAll text b → a ≡ b }
    ensures strokes { (text : List ℕ) (strokes : List ℕ) →
        SpellingOfAll text strokes → All IsStroke strokes }
    ensures parts { (text : List ℕ) (strokes : List ℕ) →
        SpellingOfAll text strokes → length strokes ≡ length (parts_of text) }
    ensures not_empty { (text : List ℕ) → SpellingOfAll text [] → ⊥ }
    ensures none { (text : List ℕ) →
        (spelt_strokes text ≡ None) ↔ ((part : ℕ) × (unreadable_part text ≡ Some part)) }
{}

/// The same as [`canonical_spellings`] for lists of one or more strokes; the text of an outline is short enough to be
/// read.
pub fn canonical_lists()
    ensures spells { (strokes : List ℕ) →
        0 < length strokes → All IsStroke strokes → SpellingOfAll (canonical_text strokes) strokes }
    ensures back { (strokes : List ℕ) → 0 < length strokes → All IsStroke strokes →
        spelt_strokes (canonical_text strokes) ≡ Some strokes }
    ensures short { (x : List ℕ) → length x ≤ most_strokes → length (canonical_text x) < 2 ^ 32 }
{}
