//! The targets of a fork by one stroke.
ghost use Rattle.std.specs.Prelude.{◌≡◌, ◌<◌, [], length, map};
ghost use Rattle.outline_trie.specs.Tries.{IsNode, node_strokes};
ghost use Rattle.reading_laws.specs.ForkNumbers.{fork_count, fork_number};
ghost use Rattle.reading_laws.specs.Forks.{targets_of_same, targets_of_two};
ghost use Rattle.free_parse.specs.Cursors.{AreForkNumbers, IsChildOf, OwnsTargets, targets_left};
ghost use Rattle.free_parse.specs.inside.Forks.{targets_to};
ghost use Rattle.free_parse.specs.inside.Waits.{waits_for};

use crate::graph::FreeGraph;
use crate::moves::ForkMoves;
use crate::waiting::{Waiting, number_if};

impl FreeGraph<'_> {
    /// The targets by a stroke from a fork of one open word, given by the node of the word with the stroke.
    fn targets_of_one(&self, child: u32) -> Waiting
        requires { IsNode self.now.entries child }
        ensures targets { waits_for result ≡ map (fork_number self.now.entries)
            (targets_of_same self.now.words (node_strokes self.now.entries child)) }
        ensures below { AreForkNumbers (fork_count self.now.entries) (waits_for result) }
    {
        let opens = self.opens(child);
        let is_word = self.is_word(child);
        let start = self.part(child);
        Waiting {
            first: number_if(opens, start),
            second: number_if(is_word, 0),
            third: number_if(opens & is_word, start + 1),
            fourth: None,
        }
    }

    /// The targets by a stroke from a fork of two open words, given by the nodes of the words with the stroke.
    fn targets_of_both(&self, longer: u32, shorter: u32) -> Waiting
        requires longer { IsNode self.now.entries longer }
        requires shorter { IsNode self.now.entries shorter }
        requires fewer { length (node_strokes self.now.entries shorter)
            < length (node_strokes self.now.entries longer) }
        ensures targets { waits_for result ≡ map (fork_number self.now.entries)
            (targets_of_two self.now.words
            (node_strokes self.now.entries longer) (node_strokes self.now.entries shorter)) }
        ensures below { AreForkNumbers (fork_count self.now.entries) (waits_for result) }
    {
        let longer_opens = self.opens(longer);
        let longer_ends = self.is_word(longer);
        let shorter_opens = self.opens(shorter);
        let shorter_ends = self.is_word(shorter);
        let start = self.part(longer) + 1;
        Waiting {
            first: number_if(longer_opens & shorter_opens, start + self.depth(shorter)),
            second: number_if(longer_opens & shorter_ends, start),
            third: number_if(shorter_opens & longer_ends, self.part(shorter) + 1),
            fourth: number_if(longer_ends & shorter_ends, self.end()),
        }
    }

    /// The targets by the last stroke of a child of the longer open word.
    fn targets_by(&self, shorter: Option<u32>, child: u32) -> Waiting
        requires { IsChildOf self.now.entries shorter child }
        ensures targets { waits_for result ≡ map (fork_number self.now.entries)
            (targets_to self.now.entries self.now.words shorter child) }
        ensures below { AreForkNumbers (fork_count self.now.entries) (waits_for result) }
    {
        match shorter {
            None => self.targets_of_one(child),
            Some(shorter) => match self.child_by(shorter, child) {
                Some(other) => self.targets_of_both(child, other),
                None => Waiting::none(),
            },
        }
    }

    /// Goes on to the targets by the next child that has some.
    pub(crate) fn refill(&self, cursor: &mut ForkMoves<'_>)
        requires owns { OwnsTargets self.now cursor.old }
        requires empty { waits_for cursor.old.waiting ≡ [] }
        ensures owns { OwnsTargets self.now cursor.new }
        ensures left { targets_left self.now cursor.new ≡ targets_left self.now cursor.old }
        ensures done { waits_for cursor.new.waiting ≡ [] → targets_left self.now cursor.new ≡ [] }
    {
        while let Some((pair, rest)) = cursor.row.split_first() {
            cursor.row = rest;
            cursor.waiting = self.targets_by(cursor.shorter, pair.1);
            if !cursor.waiting.is_empty() {
                return;
            }
        }
    }
}
