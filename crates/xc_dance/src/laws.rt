//! What the tables promise of moves and their undoing, as calls whose contracts say it.
ghost use Rattle.std.specs.Prelude.{◌≡◌, ◌+◌, ◌<◌, ◌↔◌, length, IfOk, IsOk, OnErr};
ghost use Rattle.xc_text.specs.Equality.{DecidesEquality, IsEqualClone};
ghost use Rattle.xc_dance.specs.Cost.{cost_of};
ghost use Rattle.xc_moves.specs.Moves.{IsLegal};
ghost use Rattle.xc_dance.specs.Same.{IsSame};

use crate::{Field, Links};
pub use xc_moves::laws::lists_rise;
use xc_moves::{Count, Dance, Full, Move};

/// Makes a legal move and undoes it. Each field of the tables is then what it was, those of nodes
/// that no list shows included, and both wrote as many cells. Where the trail is full, nothing changes.
#[tactic(auto, using(std::proofs::lemmas::Grind::common_steps, crate::proofs::MoveSteps::none_newest))]
pub fn there_and_back(links: &mut Links, m: Move) -> Result<(Count, Count), Full>
    requires { IsLegal links.old.puzzle links.old.trail m }
    ensures same { IsSame links.old.puzzle links.old.trail links.new.puzzle links.new.trail }
    ensures cost { IfOk result
        (λ counts. (counts.0.0 ≡ cost_of links.old.puzzle links.old.trail m) × (counts.1 ≡ counts.0)) }
    ensures undone { IfOk result (λ counts. links.new ≡ record links.old
        { undone = links.old.undone + 1; written = links.old.written + counts.0.0 + counts.1.0 }) }
    ensures full { OnErr result ((links.new ≡ links.old) × (length links.old.trail ≡ links.old.room)) }
    ensures room { IsOk result ↔ (length links.old.trail < links.old.room) }
{
    let made = links.apply(m)?;
    let undone = links.undo();
    Ok((made, undone))
}

/// Two fields are equal exactly if `==` says so.
pub fn equality()
    ensures fields { DecidesEquality ⟦<Field as PartialEq>⟧.eq }
{}

/// A clone of a field is equal to it.
pub fn clones()
    ensures fields { IsEqualClone ⟦<Field as Clone>⟧.is_clone }
{}
