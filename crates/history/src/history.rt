//! The list, and the one way to make it longer. A proof by hand sets it, since no code computes it.
ghost use Rattle.std.specs.Prelude.{◌≡◌, List, [], ◌∷◌};
ghost use Rattle.std.specs.Borrow.{ftrue};

use std::marker::{Model, PhantomData};

/// Values that were told, the newest first: clauses read them as `items`.
#[derive(Drop)]
pub struct History<T> {
    of: PhantomData<T>,
    pub ghost items: { List T },
}

impl<T> Model for History<T> {
    ghost also_owns = { λ _. ftrue };
}

// It owns nothing.
unsafe impl<T> Send for History<T> {}

unsafe impl<T> Sync for History<T> {}

impl<T> History<T> {
    /// Nothing was told yet.
    pub fn new() -> History<T>
        ensures { result.items ≡ [] }
    {
        History { of: PhantomData }
    }

    /// The history in which this value, as clauses see it, is told last. It keeps nothing of the value.
    pub fn and(&self, item: &T) -> History<T>
        ensures { result.items ≡ item.now ∷ self.now.items }
    {
        History { of: PhantomData }
    }
}
