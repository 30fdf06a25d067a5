//! The literals that are true.
ghost use Rattle.std.specs.Prelude.{◌≡◌, ◌<◌, ◌-◌, ◌++◌, [], ◌∷◌, length, take, slice_index, slice_set, Contains};
ghost use Rattle.std.specs.Prelude.{IsTrue, IfOk, false, replicate};
ghost use Rattle.refutation.specs.Refutation.{negated as opposite};

use crate::literal::negated;
use std::alloc::{AllocError, Global};
use std::marker::Model;

/// The literals that are true, in the order in which they became so, and a mark at each.
#[derive(Drop)]
pub(crate) struct Trail {
    literals: Vec<u32>,
    /// By literal. A literal past its end is never marked.
    marks: Vec<bool>,
}

impl Model for Trail {
    ghost use Rattle.std.specs.Prelude.{List, ℕ};
    ghost use Rattle.refutation.specs.inner.Steps.{AreAmong};

    ghost Value = { List ℕ };

    ghost view = { λ t. t.literals.items };

    ghost invariant = { λ t. AreAmong t.marks.items t.literals.items };
}

/// A mark for each literal below a number, none of them set.
fn no_marks(alloc: Global, literals: usize) -> Result<Vec<bool>, AllocError>
    ensures { IfOk result (λ marks. marks.items ≡ replicate literals false) }
{
    vec![in alloc; false; literals]
}

/// Sets the mark of a literal, if there is one.
#[inline(always)]
#[tactic(auto, using(std::proofs::lemmas::List::set_past))]
fn set_mark(marks: &mut Vec<bool>, literal: u32, is_set: bool)
    ensures { marks.new.items ≡ slice_set marks.old.items literal is_set }
{
    let place = literal as usize;
    if place < marks.len() {
        marks[place] = is_set;
    }
}

impl Trail {
    /// No literals, with a mark for each below a number.
    pub(crate) fn new(alloc: Global, literals: usize) -> Result<Trail, AllocError>
        ensures { IfOk result (λ t. t ≡ []) }
    {
        let marks = no_marks(alloc, literals)?;
        Ok(Trail {
            literals: Vec::new(alloc),
            marks,
        })
    }

    /// How many literals there are.
    #[inline(always)]
    pub(crate) fn len(&self) -> usize
        ensures { result ≡ length self.now }
    {
        self.literals.len()
    }

    /// The literal at a place.
    #[inline(always)]
    pub(crate) fn at(&self, place: usize) -> u32
        requires { place < length self.now }
        ensures { result ≡ slice_index self.now place }
    {
        self.literals[place]
    }

    /// Whether a literal is true.
    #[inline(always)]
    pub(crate) fn is_true(&self, literal: u32) -> bool
        ensures { IsTrue result → Contains self.now literal }
    {
        match self.marks.get(literal as usize) {
            Some(mark) => *mark,
            None => false,
        }
    }

    /// Whether a literal is false.
    #[inline(always)]
    pub(crate) fn is_false(&self, literal: u32) -> bool
        ensures { IsTrue result → Contains self.now (opposite literal) }
    {
        self.is_true(negated(literal))
    }

    /// One more literal is true.
    #[inline(always)]
    pub(crate) fn push(&mut self, literal: u32) -> Result<(), AllocError>
        ensures { IfOk result (λ _. self.new ≡ self.old ++ literal ∷ []) }
    {
        self.literals.push(literal)?;
        set_mark(&mut self.marks, literal, true);
        Ok(())
    }

    /// The last literal is no longer true.
    #[inline(always)]
    fn pop(&mut self)
        ensures { self.new ≡ take (length self.old - 1) self.old }
    {
        if let Some(literal) = self.literals.pop() {
            set_mark(&mut self.marks, literal, false);
        }
    }

    /// The literals from a place on are no longer true.
    pub(crate) fn cut(&mut self, place: usize)
        ensures { self.new ≡ take place self.old }
    {
        'cutting: while self.len() > place {
            self.pop();
        }
    }
}
