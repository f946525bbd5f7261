//! The laws of pairs that stay: which entries stay in a finished sequence of words although they swallow a boundary
//! between two of them, wherever in the sequence they stand, and how few strokes such a sequence has.
//!
//! Each function here has an empty body, and its contract is a law, over every list of entries and every list of words
//! among them. The definitions are those of `steno_rules`, of `graph_rules` and of this crate's specs/;
//! docs/DEFINITIONS.md tells them and these laws in plain words.
#![tactic(auto)]

ghost use Rattle.std.specs.Prelude.{◌≡◌, ◌↔◌, ◌+◌, ◌<◌, ◌≤◌, ℕ, List, length};
ghost use Rattle.graph_rules.specs.Graphs.{AreSettled, word_half};
ghost use Rattle.steno_rules.specs.ClosureGraphs.{kept_lists};
ghost use Rattle.steno_rules.specs.Conflicts.{AreWordNumbers, IsLeast, joined_strokes, outlines_of};
ghost use Rattle.steno_rules.specs.Outlines.{AreWords};
ghost use Rattle.steno_rules.specs.StateNumbers.{number_count};
ghost use Rattle.settled_laws.specs.ChosenOpenHits.{IsChosenOpen, finished_example};
ghost use Rattle.settled_laws.specs.OpenHits.{IsLeastReached, IsReachedHit};
ghost use Rattle.settled_laws.specs.OpenNumbers.{IsLeastOpen, IsOpenNumber};
ghost use Rattle.settled_laws.specs.SettledPairs.{IsLeastSettled, SettledPair, Stays};

/// The pairs that stay are the open hits that are reached and can finish, and their fewest strokes the least sum of the
/// moves and the strokes that finish. Each conflict is one, with no more strokes.
pub fn settled_pairs()
    ensures pairs { (entries words : List (List ℕ)) (e place : ℕ) → AreWords entries words →
        SettledPair entries words e place ↔
        ((n : ℕ) × (z : List ℕ) × IsReachedHit entries words e place n z) }
    ensures least { (entries words : List (List ℕ)) (e place n : ℕ) → AreWords entries words →
        IsLeastSettled entries words e place n ↔ IsLeastReached entries words e place n }
    ensures numbers { (entries words : List (List ℕ)) (table : List ℕ) (e place n : ℕ) →
        AreWords entries words → AreSettled 0 (kept_lists entries words) table →
        IsLeastSettled entries words e place n ↔ IsLeastOpen entries words e place n }
    ensures conflicts { (entries words : List (List ℕ)) (e place n : ℕ) →
        IsLeast entries words e place n → SettledPair entries words e place
        × ((k : ℕ) → IsLeastSettled entries words e place k → k ≤ n) }
{}

/// A pair has at most one chosen open hit, and its moves and the strokes that finish it are the pair's fewest strokes.
pub fn chosen_open_hits()
    ensures once { (entries words : List (List ℕ)) (e place number n other k : ℕ) (z y : List ℕ) →
        IsChosenOpen entries words e place number n z →
        IsChosenOpen entries words e place other k y →
        (number ≡ other) × (n ≡ k) × (length z ≡ length y) }
    ensures least { (entries words : List (List ℕ)) (table : List ℕ) (e place number n : ℕ)
        (z : List ℕ) → AreWords entries words → AreSettled 0 (kept_lists entries words) table →
        IsChosenOpen entries words e place number n z →
        IsLeastSettled entries words e place (n + length z) }
{}

/// The walk to an open hit, back by the settled words, spells words that have the hit's pair, together with the word
/// that is ended where one is open. Their strokes are the moves and those that finish: for the chosen open hit the
/// fewest.
pub fn finished_examples()
    ensures words { (entries words : List (List ℕ))
        (table : List ℕ) (e place number n : ℕ) (z : List ℕ) → AreWords entries words →
        number_count entries < word_half → AreSettled 0 (kept_lists entries words) table →
        (h : IsOpenNumber entries words e place number n z) →
        (ws : List ℕ) × AreWordNumbers entries words ws
        × (outlines_of entries ws ≡ finished_example entries words table n number h.state.v z) }
    ensures stays { (entries words : List (List ℕ))
        (table : List ℕ) (e place number n : ℕ) (z : List ℕ) → AreWords entries words →
        number_count entries < word_half → AreSettled 0 (kept_lists entries words) table →
        (h : IsOpenNumber entries words e place number n z) → (ws : List ℕ) →
        outlines_of entries ws ≡ finished_example entries words table n number h.state.v z →
        Stays entries ws e place × (length (joined_strokes entries ws) ≡ n + length z) }
{}
