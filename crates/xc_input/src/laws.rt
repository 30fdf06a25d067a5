//! What holds of every text.

ghost use Rattle.std.specs.Prelude.{◌↔◌, IsTrue};
ghost use Rattle.xc_input.specs.declared.at_fault.FaultyToken.{FaultyToken};
ghost use Rattle.xc_input.specs.declared.problem.Item.{Item};
ghost use Rattle.xc_input.specs.Laws.{FaultlessStand, StandForOne, StandAlso, TokensAgree};
ghost use Rattle.xc_input.specs.Laws.{HaveTexts, IsSameItem, IsSameToken};
ghost use Rattle.xc_text.specs.Equality.{DecidesEquality, IsEqualClone};
ghost use Rattle.xc_input.specs.declared.kind.Kind.TheVariants.{Plain, Colours, Bounds};

use crate::{FaultKind, FaultyToken, InputError, Item, Kind, Use};
use xc_text::{FoldingHasher, ReadFailed, Seed, Unread};

/// A text has a first fault or, by each seed, stands for one problem, and never both. It ties the checks to the
/// grammar, so that a slip in one of the two, which nothing else would show, breaks a proof.
pub fn fault_or_problem()
    ensures stands { FaultlessStand }
    ensures one { StandForOne }
{}

/// A text that stands for a problem as one kind stands for the same problem, with the same ignored
/// lines, as each kind that allows more.
pub fn kinds_that_allow_more()
    ensures plain_as_colours { StandAlso Plain Colours }
    ensures plain_as_bounds { StandAlso Plain Bounds }
    ensures colours_as_bounds { StandAlso Colours Bounds }
{}

/// A problem is sound, and its colours are numbered as its uses meet them, exactly if some text stands for it. So
/// neither the grammar nor `IsSound` is narrower or wider than meant.
pub fn problems_have_texts()
    ensures { HaveTexts }
{}

/// The token that `faulty_token` finds in a line has the fault that a reader reports of the line, after lines without a
/// fault.
#[tactic(auto, using(crate::proofs::FaultLemmas::tokens_agree))]
pub fn tokens_agree()
    ensures { TokensAgree }
{}

/// Two values of any of these types are equal exactly if `==` says so.
pub fn equality<'a>()
    ensures kinds { DecidesEquality ⟦<Kind as PartialEq>⟧.eq }
    ensures faults { DecidesEquality ⟦<FaultKind as PartialEq>⟧.eq }
    ensures errors { DecidesEquality ⟦<InputError as PartialEq>⟧.eq }
    ensures tokens { (a b : FaultyToken) → IsTrue (⟦<FaultyToken<'a> as PartialEq>⟧.eq a b) ↔ IsSameToken a b }
    ensures bounds { DecidesEquality ⟦<crate::Bounds as PartialEq>⟧.eq }
    ensures items { (a b : Item) → IsTrue (⟦<Item as PartialEq>⟧.eq a b) ↔ IsSameItem a b }
    ensures uses { DecidesEquality ⟦<Use as PartialEq>⟧.eq }
{}

/// A clone of a value of any of these types is equal to it.
pub fn clones<'a>()
    ensures kinds { IsEqualClone ⟦<Kind as Clone>⟧.is_clone }
    ensures faults { IsEqualClone ⟦<FaultKind as Clone>⟧.is_clone }
    ensures errors { IsEqualClone ⟦<InputError as Clone>⟧.is_clone }
    ensures tokens { IsEqualClone ⟦<FaultyToken<'a> as Clone>⟧.is_clone }
    ensures bounds { IsEqualClone ⟦<crate::Bounds as Clone>⟧.is_clone }
    ensures items { (a b : Item) → ⟦<Item as Clone>⟧.is_clone a b → IsSameItem a b }
    ensures uses { IsEqualClone ⟦<Use as Clone>⟧.is_clone }
{}
