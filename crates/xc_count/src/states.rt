//! The states of a layer, one after the other.
ghost use Rattle.std.specs.Prelude.{◌≡◌, List, [], ◌∷◌, ◌++◌, IfSome, IfNone};
ghost use Rattle.xc_count.specs.inner.Worth.{CountState};

use crate::counted::CountState;

/// States that are to be passed on, the last one first: those of a vector are freed one by one, and those of a slice
/// are kept.
pub trait States {
    ghost left: { Self → List CountState };

    /// The next one.
    fn next_state(&self) -> Option<&CountState>
        ensures some { IfSome result (λ s. (ss : List CountState) × (left self.now ≡ ss ++ s.now ∷ [])) }
        ensures none { IfNone result (left self.now ≡ []) };

    /// Is done with the next one.
    fn drop_state(&mut self)
        ensures { (ss : List CountState) (s : CountState) → left self.old ≡ ss ++ s ∷ [] → left self.new ≡ ss };
}

impl States for Vec<CountState> {
    ghost left = { λ ss. ss.items };

    #[inline(always)]
    fn next_state(&self) -> Option<&CountState> {
        self.last()
    }

    #[inline(always)]
    fn drop_state(&mut self) {
        self.pop();
    }
}

impl<'s> States for &'s [CountState] {
    ghost left = { λ ss. ss.now };

    #[inline(always)]
    fn next_state(&self) -> Option<&CountState> {
        self.last()
    }

    #[inline(always)]
    fn drop_state(&mut self) {
        if let Some((_, before)) = self.split_last() {
            *self = before;
        }
    }
}
