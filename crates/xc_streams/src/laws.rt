//! That answers of the system are compared and cloned as they are.
ghost use Rattle.xc_text.specs.Equality.{DecidesEquality, IsEqualClone};

use crate::system::Answer;

/// Two answers of the system are equal exactly if they are the same, and a clone of one is the same.
pub fn answers()
    ensures equality { DecidesEquality ⟦<Answer as PartialEq>⟧.eq }
    ensures clones { IsEqualClone ⟦<Answer as Clone>⟧.is_clone }
{}
