//! Laws of the definitions, as functions that do no work: their contracts hold for all values.

ghost use Rattle.std.specs.Prelude.{◌≡◌, ◌↔◌, ◌⊎◌, ℕ, List, Contains};
ghost use Rattle.steno_rules.specs.Outlines.{AreRising};
ghost use Rattle.brief_trial.specs.Trials.{AreTrials, TrialView, with_brief};
ghost use Rattle.brief_trial.specs.declared.briefs.TheConstants.{MAX_BRIEFS, MAX_TRIERS};

/// Briefs have one list of trials at most. So what is found depends neither on the number of workers nor on which of
/// them is done first.
pub fn one_list()
    ensures { (entries words briefs : List (List ℕ)) (xs ys : List TrialView) →
        AreTrials entries words briefs xs → AreTrials entries words briefs ys → xs ≡ ys }
{}

/// With a brief rising outlines still rise, and are the same ones and the brief.
pub fn trial_stack()
    ensures rising { (outlines : List (List ℕ)) (brief : List ℕ) → AreRising outlines →
        AreRising (with_brief outlines brief) }
    ensures members { (outlines : List (List ℕ)) (brief x : List ℕ) →
        Contains (with_brief outlines brief) x ↔ ((brief ≡ x) ⊎ Contains outlines x) }
{}

/// The limits of one call.
pub fn limits()
    ensures briefs { MAX_BRIEFS ≡ 32 }
    ensures triers { MAX_TRIERS ≡ 4 }
{}
