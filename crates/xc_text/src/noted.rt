//! A value that only proofs read. It takes no memory, and its constructor does nothing at run time.
ghost use Rattle.std.specs.Prelude.{◌≡◌};
ghost use Rattle.std.specs.Borrow.{ftrue};

use std::marker::{Model, PhantomData};

/// A value of a `T` that no code holds, such as a count of writes. A clause reads it as `value`.
#[derive(Drop)]
pub struct Noted<T> {
    marker: PhantomData<T>,
    pub ghost value: { T },
}

impl<T> Model for Noted<T> {
    ghost also_owns = { λ _. ftrue };
}

impl<T> Noted<T> {
    /// The value that the caller's proof picks from what it passes.
    #[inline(always)]
    pub fn of<X>(_from: &X) -> Noted<T>
        ghost picked: { T }
        ensures { result.value ≡ picked }
    {
        Noted {
            marker: PhantomData,
        }
    }
}
