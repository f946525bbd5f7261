//! The lines of a certificate down to the conflicts: whether what they say is right, and which states they list.

ghost use Rattle.std.specs.Prelude.{◌≡◌, ◌≤◌, ◌<◌, ◌+◌, [], ◌&&◌, ◌==◌, nat_le, true, false, Bool, List, length, IfOk, IsTrue, Some, None, is_some, ℕ, if◌then◌else◌};
ghost use Rattle.steno_rules.specs.Outlines.{flagged_entries, AreEntries};
ghost use Rattle.steno_rules.specs.StateNumbers.{number_count};
ghost use Rattle.state_numbering.specs.Causes.{most_states};
ghost use Rattle.certificate.specs.declared.lines.CertLine.TheVariants as of;
ghost use Rattle.certificate_laws.specs.Checks.{is_conflicts};
ghost use Rattle.certificate_laws.specs.Closures.{closure_of};
ghost use Rattle.cert_check.specs.Verdicts.{closure_at, numbering_at};
ghost use Rattle.cert_check.specs.inside.Runs.{ListsRun};
ghost use Rattle.cert_check.specs.inside.Uppers.{AnswersLine, TakesLine, IsSound, IsSoundNext};

use crate::places::{Place, list_run};
use certificate::CertLine;
use dict_stack::Stack;
use report::Why;
use state_numbering::Numbering;
use std::alloc::{AllocError, Global};

/// What is known of the lines read so far.
#[derive(Drop)]
pub(crate) struct Upper {
    pub(crate) version: u32,
    pub(crate) lines: u32,
    pub(crate) places: Vec<Place>,
}

/// Why a line fails that may follow or not, and says what is right or not.
fn failure_of(may_follow: bool, is_right: bool, why: Why) -> Option<Why>
    ensures { result
        ≡ (if may_follow then (if is_right then None else Some why) else Some Why.Form) }
{
    if !may_follow {
        Some(Why::Form)
    } else if !is_right {
        Some(why)
    } else {
        None
    }
}

impl Upper {
    /// Nothing is known yet. Room is made for a place for each number of a state.
    pub(crate) fn new(alloc: Global, numbering: &Numbering<'_>) -> Result<Upper, AllocError>
        ensures lines { IfOk result (λ u. u.lines ≡ 0) }
        ensures places { IfOk result (λ u. u.places.items ≡ []) }
        ensures few { IfOk result (λ _. number_count numbering.now.entries ≤ most_states) }
    {
        Ok(Upper {
            version: 0,
            lines: 0,
            places: Vec::with_capacity(alloc, numbering.count() as usize)?,
        })
    }

    /// The head: one of two versions.
    fn head(&mut self, version: u32) -> Option<Why>
        ensures answers { (entries : List (List ℕ)) (flags : List Bool)
            → AnswersLine (closure_of entries flags) self.old self.new (of.Head version) result }
        ensures early { result ≡ None → self.old.lines ≤ 2 }
        ensures lines { self.new.lines ≡ self.old.lines }
        ensures places { self.new.places.items ≡ self.old.places.items }
    {
        self.version = if self.lines == 0 {
            version
        } else {
            self.version
        };
        failure_of(
            self.lines == 0 && (version == 1 || version == 2),
            true,
            Why::Form,
        )
    }

    /// The number of entries.
    fn entries(&self, count: u32, stack: &Stack) -> Option<Why>
        ensures answers { (flags : List Bool)
            → AnswersLine (closure_of stack.now.outlines flags)
            self.now self.now (of.Entries count) result }
        ensures early { result ≡ None → self.now.lines ≤ 2 }
    {
        failure_of(self.lines == 1, count == stack.entry_count(), Why::Entries)
    }

    /// The number of numbers of states.
    fn states(&self, count: u32, numbering: &Numbering<'_>) -> Option<Why>
        ensures answers { (flags : List Bool)
            → AnswersLine (closure_of numbering.now.entries flags)
            self.now self.now (of.States count) result }
        ensures early { result ≡ None → self.now.lines ≤ 2 }
    {
        failure_of(self.lines == 2, count == numbering.count(), Why::States)
    }

    /// Lists the states of a run on this line, if the line may follow and the states may be listed behind those before.
    fn list(
        &mut self,
        numbering: &Numbering<'_>,
        may_follow: bool,
        first: u32,
        last: u32,
        distance: u32,
    ) -> Result<bool, AllocError>
        requires order { IsTrue may_follow → first ≤ last }
        requires sound { IsSound numbering.now.entries self.old }
        ensures listed { IfOk result (λ answer. IsTrue may_follow
            → ListsRun numbering.now.entries numbering.now.words
            (self.old.lines + 1) first last distance
            self.old.places.items self.new.places.items answer) }
        ensures not_listed { IfOk result (λ answer. may_follow ≡ false → answer ≡ false) }
        ensures lines { self.new.lines ≡ self.old.lines }
        ensures version { self.new.version ≡ self.old.version }
    {
        if !may_follow {
            return Ok(false);
        }
        let place = Place {
            line: self.lines + 1,
            distance,
        };
        list_run(numbering, &mut self.places, first, last, place)
    }

    /// Whether a state with its distance may follow.
    fn may_list_state(&self) -> bool
        ensures { result ≡ (nat_le 3 self.now.lines && (self.now.version == 1)) }
    {
        self.lines >= 3 && self.version == 1
    }

    /// Whether a run of states with one distance may follow.
    fn may_list_run(&self, first: u32, last: u32) -> bool
        ensures follows { result
            ≡ (nat_le 3 self.now.lines && ((self.now.version == 2) && nat_le first last)) }
        ensures order { IsTrue result → first ≤ last }
    {
        self.lines >= 3 && self.version == 2 && first <= last
    }

    /// A state with its distance, in version 1.
    fn distance(
        &mut self,
        numbering: &Numbering<'_>,
        state: u32,
        distance: u32,
    ) -> Result<Option<Why>, AllocError>
        requires sound { IsSound numbering.now.entries self.old }
        ensures answers { IfOk result (λ failure. (flags : List Bool)
            → AreEntries numbering.now.entries
            → numbering.now.words ≡ flagged_entries numbering.now.entries flags
            → AnswersLine (closure_of numbering.now.entries flags)
            self.old self.new (of.Distance state distance) failure) }
        ensures sound { IfOk result (λ failure. failure ≡ None
            → IsSoundNext numbering.now.entries self.new) }
        ensures lines { self.new.lines ≡ self.old.lines }
    {
        let may_follow = self.may_list_state();
        let is_right = self.list(numbering, may_follow, state, state, distance)?;
        Ok(failure_of(may_follow, is_right, Why::Number))
    }

    /// A run of states with one distance, in version 2.
    fn run(
        &mut self,
        numbering: &Numbering<'_>,
        first: u32,
        last: u32,
        distance: u32,
    ) -> Result<Option<Why>, AllocError>
        requires sound { IsSound numbering.now.entries self.old }
        ensures answers { IfOk result (λ failure. (flags : List Bool)
            → AreEntries numbering.now.entries
            → numbering.now.words ≡ flagged_entries numbering.now.entries flags
            → AnswersLine (closure_of numbering.now.entries flags)
            self.old self.new (of.Run first last distance) failure) }
        ensures sound { IfOk result (λ failure. failure ≡ None
            → IsSoundNext numbering.now.entries self.new) }
        ensures lines { self.new.lines ≡ self.old.lines }
    {
        let may_follow = self.may_list_run(first, last);
        let is_right = self.list(numbering, may_follow, first, last, distance)?;
        Ok(failure_of(may_follow, is_right, Why::Number))
    }

    /// Takes the line behind those read so far: why it fails, if it does.
    pub(crate) fn accept(
        &mut self,
        stack: &Stack,
        numbering: &Numbering<'_>,
        line: &CertLine,
    ) -> Result<Option<Why>, AllocError>
        requires over { numbering.now ≡ numbering_at stack.now }
        requires entries { AreEntries stack.now.outlines }
        requires sound { IsSound stack.now.outlines self.old }
        ensures answers { IfOk result (λ failure. is_conflicts (Some line.now) ≡ false
            → TakesLine (closure_at stack.now) self.old self.new line.now failure) }
        ensures sound { IfOk result (λ failure. is_conflicts (Some line.now) ≡ false
            → failure ≡ None → IsSound stack.now.outlines self.new) }
        ensures counted { IfOk result (λ failure. self.new.lines
            ≡ (if is_some failure then self.old.lines else (self.old.lines + 1))) }
    {
        let failure = self.answer(stack, numbering, line)?;
        if failure.is_none() {
            self.lines += 1;
        }
        Ok(failure)
    }

    /// What is answered to the line behind those read so far, which isn't counted yet.
    fn answer(
        &mut self,
        stack: &Stack,
        numbering: &Numbering<'_>,
        line: &CertLine,
    ) -> Result<Option<Why>, AllocError>
        requires over { numbering.now ≡ numbering_at stack.now }
        requires entries { AreEntries stack.now.outlines }
        requires sound { IsSound stack.now.outlines self.old }
        ensures answers { IfOk result (λ failure. is_conflicts (Some line.now) ≡ false
            → AnswersLine (closure_at stack.now) self.old self.new line.now failure) }
        ensures sound { IfOk result (λ failure. is_conflicts (Some line.now) ≡ false
            → failure ≡ None → IsSoundNext stack.now.outlines self.new) }
        ensures few { self.new.lines ≤ 4294967290 }
        ensures same { self.new.lines ≡ self.old.lines }
    {
        match line {
            CertLine::Head { version } => Ok(self.head(*version)),
            CertLine::Entries { count } => Ok(self.entries(*count, stack)),
            CertLine::States { count } => Ok(self.states(*count, numbering)),
            CertLine::Distance { state, distance } => self.distance(numbering, *state, *distance),
            CertLine::Run {
                first,
                last,
                distance,
            } => self.run(numbering, *first, *last, *distance),
            CertLine::Conflicts { .. } | CertLine::Row { .. } | CertLine::End => Ok(Some(
                Why::Form,
            )),
        }
    }
}
