//! What holds of lists after moves, and of the types here, as calls whose contracts say it.
ghost use Rattle.std.specs.Prelude.{◌≡◌, ◌<◌, ℕ, List, ◌∷◌, ◌++◌, AllPairs, slice_get};
ghost use Rattle.xc_text.specs.Equality.{DecidesEquality, IsEqualClone};
ghost use Rattle.xc_input.specs.Problem.{Puzzle};
ghost use Rattle.xc_moves.specs.Moves.{listed_numbers, next_above};
ghost use Rattle.xc_moves.specs.declared.dance.Move.{Move};

use crate::{Count, Full, Move};

/// The options of an item's list rise in number. So `first` answers its head, and `below` of an option the next one.
pub fn lists_rise()
    ensures rise { (p : Puzzle) (t : List Move) (i : ℕ) → AllPairs (λ m n. m < n) (0 ∷ listed_numbers p t i) }
    ensures next { (p : Puzzle) (t : List Move) (i o : ℕ) (front back : List ℕ) →
        0 ∷ listed_numbers p t i ≡ front ++ o ∷ back → next_above o (listed_numbers p t i) ≡ slice_get back 0 }
{}

/// Two values of any of these types are equal exactly if `==` says so.
pub fn equality()
    ensures moves { DecidesEquality ⟦<Move as PartialEq>⟧.eq }
    ensures counts { DecidesEquality ⟦<Count as PartialEq>⟧.eq }
    ensures full { DecidesEquality ⟦<Full as PartialEq>⟧.eq }
{}

/// A clone of a value of any of these types is equal to it.
pub fn clones()
    ensures moves { IsEqualClone ⟦<Move as Clone>⟧.is_clone }
    ensures counts { IsEqualClone ⟦<Count as Clone>⟧.is_clone }
    ensures full { IsEqualClone ⟦<Full as Clone>⟧.is_clone }
{}
