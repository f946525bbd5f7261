//! The laws of two readings: whether the strokes of words can be read as words in one way only, and if not, which
//! strokes are the fewest that can be read in two ways.
//!
//! Each function here has an empty body, and its contract is a law, over every list of entries and every list of words
//! among them. The definitions are those of `steno_rules`, of `graph_rules` and of this crate's specs/;
//! docs/DEFINITIONS.md tells them and these laws in plain words.
#![tactic(auto)]

ghost use Rattle.std.specs.Prelude.{◌≡◌, ◌≢◌, ◌/◌, ◌<◌, ◌≤◌, ◌↔◌, ◌⊎◌, true, AllPairs, flat_map, map, Contains, ℕ, List, length, slice_index};
ghost use Rattle.graph_rules.specs.Graphs.{AreSettled, Reaches, row, unreached, word_half};
ghost use Rattle.steno_rules.specs.Outlines.{AreWords};
ghost use Rattle.steno_rules.specs.StateNumbers.{number_count};
ghost use Rattle.steno_rules.specs.States.{strokes_in};
ghost use Rattle.reading_laws.specs.ChosenReadings.{AreShortest, Halves, chosen_halves};
ghost use Rattle.reading_laws.specs.DanglingSuffixes.{DanglingWord};
ghost use Rattle.reading_laws.specs.ForkNumbers.{end_number, fork_at, fork_count, fork_lists, fork_number};
ghost use Rattle.reading_laws.specs.Forks.{Fork, End, ForkWalk, IsLeastEnd, fork_targets, fork_targets_by, has_open_words};
ghost use Rattle.reading_laws.specs.Readings.{IsFree, IsLeastTwo};

/// The words can be read in one way only exactly where no dangling suffix is a word.
pub fn free_words()
    ensures { (entries words : List (List ℕ)) →
        AreWords entries words → IsFree words ↔ (DanglingWord words → ⊥) }
{}

/// Two readings are found by walks of forks to the end, and their fewest strokes are the fewest moves.
pub fn fork_walks()
    ensures free { (entries words : List (List ℕ)) →
        AreWords entries words → IsFree words ↔ ((n : ℕ) → ForkWalk words n End → ⊥) }
    ensures least { (entries words : List (List ℕ)) (n : ℕ) →
        AreWords entries words → IsLeastTwo words n ↔ IsLeastEnd words n }
{}

/// The list of a fork's targets has its moves and nothing else, whichever strokes it is made from, as long as they rise
/// and have each stroke of a move.
pub fn fork_moves()
    ensures are { (words : List (List ℕ)) (s t : Fork) → Contains (fork_targets words s) t ↔
        ((has_open_words words s ≡ true) × ((c : ℕ) × Contains (fork_targets_by words s c) t)) }
    ensures over { (words : List (List ℕ)) (s : Fork) (strokes : List ℕ) →
        AllPairs (λ a b. a < b) strokes →
        ((c : ℕ) (t : Fork) → Contains (fork_targets_by words s c) t → Contains strokes c) →
        flat_map (fork_targets_by words s) strokes ≡
        flat_map (fork_targets_by words s) (strokes_in words) }
{}

/// The walks of forks are those of the graph of their numbers. There are two numbers, or no more than of states.
pub fn fork_graph()
    ensures count { (entries words : List (List ℕ)) →
        length (fork_lists entries words) ≡ fork_count entries }
    ensures row { (entries words : List (List ℕ)) (n : ℕ) → row (fork_lists entries words) n ≡
        map (fork_number entries) (fork_targets words (fork_at entries n)) }
    ensures back { (entries words : List (List ℕ)) (n : ℕ) (s : Fork) →
        AreWords entries words → ForkWalk words n s → (fork_at entries (fork_number entries s) ≡ s)
        × (fork_number entries s < fork_count entries) }
    ensures walks { (entries words : List (List ℕ)) (n m : ℕ) →
        AreWords entries words → Reaches 0 (fork_lists entries words) n m ↔
        ((s : Fork) × ForkWalk words n s × (fork_number entries s ≡ m)) }
    ensures few { (entries : List (List ℕ)) →
        (fork_count entries ≡ 2) ⊎ (fork_count entries ≤ number_count entries) }
{}

/// With the settled words at hand: the words are free where the end isn't reached; else the high half of its word is
/// the fewest strokes of two readings, and the walk to the end, back by the settled words, spells two of just so many,
/// of which the first one comes first.
pub fn chosen_readings()
    ensures free { (entries words : List (List ℕ)) (table : List ℕ) → AreWords entries words →
        fork_count entries < word_half → AreSettled 0 (fork_lists entries words) table →
        IsFree words ↔ (slice_index table (end_number entries) ≡ unreached) }
    ensures strokes { (entries words : List (List ℕ)) (table : List ℕ) → AreWords entries words →
        fork_count entries < word_half → AreSettled 0 (fork_lists entries words) table →
        slice_index table (end_number entries) ≢ unreached →
        IsLeastTwo words (slice_index table (end_number entries) / word_half) }
    ensures shortest { (entries words : List (List ℕ)) (table : List ℕ) (n : ℕ) →
        AreWords entries words → fork_count entries < word_half →
        AreSettled 0 (fork_lists entries words) table → IsLeastTwo words n →
        AreShortest words (Halves.first (chosen_halves entries words table n))
        (Halves.second (chosen_halves entries words table n)) n }
{}
