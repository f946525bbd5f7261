//! The worked rows of the trie: the nodes of five entries, of none, and of one more than fit.
ghost use Rattle.std.specs.Prelude.{◌≡◌, ◌<◌};
ghost use Rattle.outline_trie.specs.Tries.{IsNode};

use crate::{Trie, TrieFault};
use std::alloc::Global;
use std::marker::Brand;
use std::process::Abort;
use std::sync::ledger::{Blank, Ledger};
use steps::Steps;
use stroke::{Outline, Stroke, are_entries};

/// The outline of these codes.
fn outline_of_codes(rt: &impl Abort, alloc: Global, codes: &[u32]) -> Outline {
    let mut outline = Outline::new(alloc);
    for &code in codes {
        if outline.strokes().len() < Outline::MAX {
            outline
                .push(Stroke::new(code).expect(rt, "a code"))
                .expect(rt, "memory");
        }
    }
    outline
}

/// The trie of these outlines, which are entries.
fn trie_of(rt: &impl Abort, alloc: Global, outlines: &[Outline]) -> Result<Trie, TrieFault> {
    if outlines.len() < 1 << 31 && are_entries(outlines) {
        Trie::new(alloc, outlines)
    } else {
        panic!(rt; "these are no entries")
    }
}

/// What is asked of each node of the five entries.
fn check_node(
    rt: &impl Abort,
    trie: &Trie,
    strokes: &[Stroke],
    node: u32,
    entry: Option<u32>,
    parent: Option<u32>,
) {
    assert_eq!(rt; trie.find(strokes), Some(node));
    if node < trie.node_count() {
        assert_eq!(rt; trie.entry(node), entry, "entry of {node}");
        assert_eq!(rt; trie.depth(node) as usize, strokes.len());
        assert_eq!(rt; trie.parent(node), parent);
        assert_eq!(rt; trie.last(node), strokes.last().copied());
        assert_eq!(rt; trie.suffix(node, 0), Some(0));
        assert_eq!(rt; trie.suffix(node, strokes.len().min(64) as u32), Some(node));
        assert_eq!(rt; trie.suffix(node, strokes.len().min(64) as u32 + 1), None);
    }
}

/// A child found by the counted look-up.
fn step<L: Ledger>(trie: &Trie, node: u32, stroke: Stroke, blank: Blank) -> Option<u32>
    requires node { IsNode trie.now node }
    requires name { blank.name ≡ L.name }
    requires parts { blank.parts ≡ L.parts }
    requires some { 0 < L.parts }
{
    let mut steps: Steps<L> = Steps::new(blank);
    trie.child_step(node, stroke, &mut steps)
}

/// A child that is looked up by a step that is counted.
fn counted_child(trie: &Trie, node: u32, stroke: Stroke) -> Option<u32>
    requires { IsNode trie.now node }
{
    step::<Brand>(trie, node, stroke, Blank::new(1))
}

/// The outlines of five entries.
fn five_outlines(rt: &impl Abort, alloc: Global) -> Vec<Outline> {
    let mut outlines = Vec::new(alloc);
    for codes in [[2].as_slice(), &[2, 4], &[4, 8, 16], &[16, 32], &[32]] {
        outlines
            .push(outline_of_codes(rt, alloc, codes))
            .expect(rt, "memory");
    }
    outlines
}

/// The nodes of the five entries, each by its strokes with its entry and its parent.
fn check_nodes(rt: &impl Abort, alloc: Global, trie: &Trie) {
    for (codes, node, entry, parent) in [
        ([].as_slice(), 0, None, None),
        (&[2], 1, Some(0), Some(0)),
        (&[2, 4], 2, Some(1), Some(1)),
        (&[4], 3, None, Some(0)),
        (&[4, 8], 4, None, Some(3)),
        (&[4, 8, 16], 5, Some(2), Some(4)),
        (&[16], 6, None, Some(0)),
        (&[16, 32], 7, Some(3), Some(6)),
        (&[32], 8, Some(4), Some(0)),
    ] {
        let outline = outline_of_codes(rt, alloc, codes);
        check_node(rt, trie, outline.strokes(), node, entry, parent);
    }
}

/// Children and suffixes among the nodes of the five entries.
fn check_children(rt: &impl Abort, trie: &Trie) {
    assert!(rt; trie.node_count() > 8);
    assert_eq!(rt;
        trie.children(0),
        [(2, 1), (4, 3), (16, 6), (32, 8)].as_slice()
    );
    assert!(rt; trie.children(8).is_empty());
    let stroke = Stroke::new(8).expect(rt, "K");
    assert_eq!(rt; trie.child(3, stroke), Some(4));
    assert_eq!(rt; counted_child(trie, 3, stroke), Some(4));
    assert_eq!(rt; trie.child(0, stroke), None);
    assert_eq!(rt; trie.suffix(5, 1), Some(6));
    assert_eq!(rt; trie.suffix(5, 2), None);
    assert_eq!(rt; trie.suffix(7, 1), Some(8));
}

#[test]
fn numbers_nodes_in_order(rt: HostRuntime) {
    let outlines = five_outlines(&rt, rt.alloc());
    let trie = trie_of(&rt, rt.alloc(), outlines.as_slice()).expect(&rt, "a trie");
    assert_eq!(&rt; trie.node_count(), 9);
    assert_eq!(&rt; trie.longest_entry(), 3);
    check_nodes(&rt, rt.alloc(), &trie);
    check_children(&rt, &trie);
}

#[test]
fn has_one_node_without_entries(rt: HostRuntime) {
    let trie = trie_of(&rt, rt.alloc(), &[]).expect(&rt, "a trie");
    assert_eq!(&rt; trie.node_count(), 1);
    assert_eq!(&rt; trie.longest_entry(), 0);
    assert_eq!(&rt; trie.find(&[]), Some(0));
}

#[test]
fn refuses_one_node_too_many(rt: HostRuntime) {
    let alloc = rt.alloc();
    let mut outlines = Vec::with_capacity(alloc, 65_536).expect(&rt, "memory");
    let mut codes = [2; 64];
    for code in 1..=65_536 {
        codes[0] = code;
        outlines
            .push(outline_of_codes(&rt, alloc, &codes))
            .expect(&rt, "memory");
    }
    match trie_of(&rt, alloc, outlines.as_slice()) {
        Err(fault) => assert!(&rt; fault == TrieFault::TooManyNodes { count: 4_194_305 }),
        Ok(_) => panic!(&rt; "one node too many"),
    }
}
