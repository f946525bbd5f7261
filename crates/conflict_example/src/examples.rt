//! The words of an example, rebuilt from the walk to its hit.

ghost use Rattle.std.specs.Prelude.{◌≡◌, ℕ, ◌++◌, if◌then◌else◌, [], IfOk, IfSome, List, OnOk, length, nat_eq};
ghost use Rattle.steno_rules.specs.Outlines.{entry_number};
ghost use Rattle.closure_laws.specs.Examples.{example as example_of, last_stroke, trail};
ghost use Rattle.conflict_example.specs.inside.Closures.{IsWalkEnd};
ghost use Rattle.conflict_example.specs.inside.Spellings.{if_there, made_after, node_of, numbered_state, numbers_among, opened};
ghost use Rattle.outline_trie.specs.Tries.{IsNode};
ghost use Rattle.closure_state.specs.NodeStates.{IsNodeState, state_at};

use crate::hits::NUMBERS;
use closure_state::State;
use state_numbering::Numbering;
use std::alloc::{AllocError, Global};

/// What is used again from one example to the next.
#[derive(Drop)]
pub struct Scratch {
    /// The numbers of a walk, the last one first.
    path: Vec<u32>,
}

impl Scratch {
    /// Nothing is kept yet.
    pub fn new(alloc: Global) -> Scratch {
        Scratch {
            path: Vec::new(alloc),
        }
    }
}

/// Lists the numbers of the walk to a number, the last one first and without the start.
fn walk_back(
    words: &[u64],
    number: u32,
    distance: u32,
    path: &mut Vec<u32>,
) -> Result<(), AllocError>
    requires { IsWalkEnd words.now number distance }
    ensures { OnOk result (path.new.items ≡ trail words.now distance number) }
{
    path.clear();
    let mut at = number;
    for _ in 0..distance {
        path.push(at)?;
        at = (words[at as usize] % NUMBERS) as u32;
    }
    Ok(())
}

/// Where a walk stands after one more state.
#[derive(Clone, Copy)]
struct Step {
    /// The node of the open word's strokes with the state's stroke, if it is one.
    node: Option<u32>,
    /// Whether no word is open in the state.
    ends: bool,
}

/// The node of the open word's strokes and a state's stroke, if it is one.
fn follow(numbering: &Numbering<'_>, node: Option<u32>, state: State) -> Option<u32>
    requires node { IfSome node (IsNode numbering.now.entries) }
    requires state { IsNodeState numbering.now.entries numbering.now.words state }
    ensures inside { IfSome result (IsNode numbering.now.entries) }
    ensures node { let entries = numbering.now.entries in
        (strokes : List ℕ) → node ≡ node_of entries strokes →
        result ≡ node_of entries (strokes ++ last_stroke (state_at entries state)) }
{
    match node {
        Some(node) => numbering.follow(node, state),
        None => None,
    }
}

/// Goes on to a number's state.
fn step_to(numbering: &Numbering<'_>, node: Option<u32>, number: u32) -> Step
    requires { IfSome node (IsNode numbering.now.entries) }
    ensures inside { IfSome result.node (IsNode numbering.now.entries) }
    ensures node { let entries = numbering.now.entries in
        let state = numbered_state entries numbering.now.words number in
        (strokes : List ℕ) → node ≡ node_of entries strokes →
        result.node ≡ node_of entries (strokes ++ last_stroke state) }
    ensures ends { let state = numbered_state numbering.now.entries numbering.now.words number in
        result.ends ≡ nat_eq (length state.v) 0 }
{
    match numbering.state(number) {
        Some(state) => Step {
            node: follow(numbering, node, state),
            ends: state.word == 0,
        },
        None => Step { node, ends: true },
    }
}

/// The entry that a word's node is, if it is one.
fn entry_at(numbering: &Numbering<'_>, node: Option<u32>) -> Option<u32>
    requires { IfSome node (IsNode numbering.now.entries) }
    ensures { (word : List ℕ) → node ≡ node_of numbering.now.entries word →
        result ≡ entry_number numbering.now.entries word }
{
    match node {
        Some(node) => numbering.entry(node),
        None => None,
    }
}

/// Adds the entry that a word's node is to the words, if it is one.
fn push_word(
    numbering: &Numbering<'_>,
    node: Option<u32>,
    made: &mut Vec<u32>,
) -> Result<(), AllocError>
    requires { IfSome node (IsNode numbering.now.entries) }
    ensures { (word : List ℕ) → node ≡ node_of numbering.now.entries word →
        OnOk result (made.new.items
        ≡ made.old.items ++ if_there (entry_number numbering.now.entries word)) }
{
    match entry_at(numbering, node) {
        Some(entry) => {
            made.push(entry)?;
            Ok(())
        }
        None => Ok(()),
    }
}

/// Goes on to a number's state: its stroke is added to the open word, which ends where no word is open any more. The
/// answer is the node of the word that is open then, if its strokes are one.
fn spell(
    numbering: &Numbering<'_>,
    node: Option<u32>,
    number: u32,
    made: &mut Vec<u32>,
) -> Result<Option<u32>, AllocError>
    requires { IfSome node (IsNode numbering.now.entries) }
    ensures node { let entries = numbering.now.entries in
        let state = numbered_state entries numbering.now.words number in
        (strokes : List ℕ) → node ≡ node_of entries strokes →
        IfOk result (λ open_node. open_node ≡ node_of entries (opened state strokes)) }
    ensures words { let entries = numbering.now.entries in
        let state = numbered_state entries numbering.now.words number in
        (strokes : List ℕ) → node ≡ node_of entries strokes →
        OnOk result (made.new.items ≡ made_after entries state strokes made.old.items) }
{
    let step = step_to(numbering, node, number);
    if step.ends {
        push_word(numbering, step.node, made)?;
        Ok(Some(0))
    } else {
        Ok(step.node)
    }
}

/// The words of the walk of so many moves to a number, by their entries' numbers. The node of the open word is kept
/// from state to state, so a stroke costs one look-up among the children of a node and a word none.
pub fn example(
    alloc: Global,
    numbering: &Numbering<'_>,
    words: &[u64],
    number: u32,
    distance: u32,
    scratch: &mut Scratch,
) -> Result<Vec<u32>, AllocError>
    requires { IsWalkEnd words.now number distance }
    ensures { let v = numbering.now in
        IfOk result (λ made. made.items
        ≡ numbers_among v.entries (example_of v.entries v.words words.now distance number)) }
{
    walk_back(words, number, distance, &mut scratch.path)?;
    let mut made = Vec::new(alloc);
    let mut node = Some(0);
    while let Some(number) = scratch.path.pop() {
        node = spell(numbering, node, number, &mut made)?;
    }
    Ok(made)
}
