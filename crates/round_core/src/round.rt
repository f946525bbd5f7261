//! What a round of the machine keeps: which batches nobody took, and which numbers it noted.
ghost use Rattle.std.specs.Prelude.{◌≡◌, ◌<◌, ◌≤◌, ◌++◌, ◌∷◌, [], true, false, length, replicate, slice_index, slice_index_or};
ghost use Rattle.std.specs.Vec.{vec_capacity};
ghost use Rattle.round_core.specs.Machines.{lowered, none_untaken, noted_with, sorted};

/// So many batches that nobody took, for which there is room.
pub(crate) fn refill(untaken: &mut Vec<bool>, count: usize)
    requires { count ≤ vec_capacity untaken.old }
    ensures items { untaken.new.items ≡ replicate count true }
    ensures room { vec_capacity untaken.old ≤ vec_capacity untaken.new }
{
    untaken.clear();
    for batch in 0..count {
        untaken.push_reserved(true);
    }
}

/// Whether there is such a batch, and nobody took it.
pub(crate) fn is_untaken(untaken: &[bool], batch: usize) -> bool
    ensures { result ≡ slice_index_or untaken.now batch false }
{
    batch < untaken.len() && untaken[batch]
}

/// Whether each batch was taken.
pub(crate) fn are_taken(untaken: &[bool]) -> bool
    ensures { result ≡ none_untaken untaken.now }
{
    for flag in untaken {
        if *flag {
            return false;
        }
    }
    true
}

/// A number more, for which there is room.
fn note(noted: &mut Vec<u32>, state: u32)
    requires { length noted.old.items < vec_capacity noted.old }
    ensures items { noted.new.items ≡ noted.old.items ++ state ∷ [] }
    ensures room { vec_capacity noted.old ≤ vec_capacity noted.new }
{
    noted.push_reserved(state);
}

/// A walk to the target was found, whose settled word this is. The lesser settled word stays, and the target is noted
/// where it is new.
pub(crate) fn lower(words: &mut Vec<u64>, noted: &mut Vec<u32>, target: u32, word: u64)
    requires below { target < length words.old.items }
    requires room { length noted.old.items < vec_capacity noted.old }
    ensures words { words.new.items ≡ lowered words.old.items target word }
    ensures noted { noted.new.items ≡
        noted_with noted.old.items target (slice_index words.old.items target) }
    ensures room { vec_capacity noted.old ≤ vec_capacity noted.new }
{
    let found = words[target as usize];
    words[target as usize] = found.min(word);
    if found == u64::MAX {
        note(noted, target);
    }
}

/// The numbers in rising order.
pub(crate) fn rise(front: &mut Vec<u32>)
    ensures items { front.new.items ≡ sorted front.old.items }
    ensures room { vec_capacity front.new ≡ vec_capacity front.old }
{
    front.sort_unstable();
}
