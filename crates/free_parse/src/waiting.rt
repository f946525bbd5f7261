//! The targets by one stroke, until they are asked for.
ghost use Rattle.std.specs.Prelude.{◌≡◌, ◌↔◌, [], IsTrue};
ghost use Rattle.free_parse.specs.inside.Waits.{IsTakenFrom, number_if as number_if_set, waits_for};

/// The numbers that are left, at most four.
#[derive(Drop)]
pub(crate) struct Waiting {
    pub(crate) first: Option<u32>,
    pub(crate) second: Option<u32>,
    pub(crate) third: Option<u32>,
    pub(crate) fourth: Option<u32>,
}

/// The number, if the flag is set.
pub(crate) fn number_if(flag: bool, number: u32) -> Option<u32>
    ensures { result ≡ number_if_set flag number }
{
    if flag { Some(number) } else { None }
}

impl Waiting {
    /// No number.
    pub(crate) fn none() -> Waiting
        ensures { waits_for result ≡ [] }
    {
        Waiting {
            first: None,
            second: None,
            third: None,
            fourth: None,
        }
    }

    /// Whether no number is left.
    pub(crate) fn is_empty(&self) -> bool
        ensures { IsTrue result ↔ (waits_for self.now ≡ []) }
    {
        self.first.is_none()
            && self.second.is_none()
            && self.third.is_none()
            && self.fourth.is_none()
    }

    /// The next number.
    pub(crate) fn take(&mut self) -> Option<u32>
        ensures { IsTakenFrom (waits_for self.old) result (waits_for self.new) }
    {
        if let Some(target) = self.first {
            self.first = None;
            return Some(target);
        }
        if let Some(target) = self.second {
            self.second = None;
            return Some(target);
        }
        if let Some(target) = self.third {
            self.third = None;
            return Some(target);
        }
        let last = self.fourth;
        self.fourth = None;
        last
    }
}
