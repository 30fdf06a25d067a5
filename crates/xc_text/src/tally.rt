//! A tally that only proofs read. It takes no memory, and its functions do nothing at run time.
ghost use Rattle.std.specs.Prelude.{◌≡◌, ◌+◌};

use crate::noted::Noted;
use std::marker::Model;

/// How often something was done, as a cell written or a sink flushed. A clause reads it as `count`.
#[derive(Drop)]
pub struct Tally {
    noted: Noted<usize>,
}

impl Model for Tally {
    ghost use Rattle.xc_text.specs.Counted.{Counted};

    ghost Value = { Counted };

    ghost view = { λ a. record { count = a.noted.value } };
}

impl Tally {
    /// Nothing done yet.
    pub fn new() -> Tally
        ensures { result.count ≡ 0 }
    {
        Tally {
            noted: Noted::of(&()),
        }
    }

    /// Once more.
    #[inline(always)]
    pub fn one_more(before: &Tally) -> Tally
        ensures { result.count ≡ before.now.count + 1 }
    {
        Tally::more(before, &1)
    }

    /// So many times more.
    #[inline(always)]
    pub fn more(before: &Tally, times: &usize) -> Tally
        ensures { result.count ≡ before.now.count + times.now }
    {
        Tally {
            noted: Noted::of(&(before, times)),
        }
    }
}
