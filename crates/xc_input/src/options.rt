//! The options of a problem, one after another.

ghost use Rattle.std.specs.Prelude.{◌≡◌};
ghost use Rattle.std.specs.Iterator.{YieldsFirstRef, item_count};

use crate::problem::{Problem, Use};
use std::marker::Model;

/// The options of a problem that are still to come, in order, each as its uses in file order.
#[derive(Drop)]
pub struct Options<'a> {
    problem: &'a Problem,
    gone: u32,
}

impl<'a> Model for Options<'a> {
    ghost use Rattle.std.specs.Prelude.{◌≤◌, List, drop};
    ghost use Rattle.xc_input.specs.Problem.{option_count};
    ghost use Rattle.xc_input.specs.declared.problem.Use.{Use};

    ghost Value = { List (List Use) };

    ghost view = { λ s. drop s.gone s.problem.now.puzzle.options };

    ghost invariant = { λ s. s.gone ≤ option_count s.problem.now.puzzle };
}

impl<'a> Options<'a> {
    /// All options of the problem.
    pub fn new(problem: &'a Problem) -> Options<'a>
        ensures { result ≡ problem.now.puzzle.options }
    {
        Options { problem, gone: 0 }
    }
}

impl<'a> Iterator for Options<'a> {
    type Item = &'a [Use];

    ghost next_gives = { YieldsFirstRef (λ s. s) };

    ghost remaining = { item_count (λ s. s) };

    fn next(&mut self) -> Option<&'a [Use]> {
        if self.gone == self.problem.options() {
            return None;
        }
        self.gone += 1;
        Some(self.problem.option(self.gone))
    }
}
