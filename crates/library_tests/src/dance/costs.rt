//! Moves that are made and undone, each with its cost.
ghost use Rattle.std.specs.Prelude.{◌≡◌, ◌∷◌, IsSome};

use xc_dance::{Dance, Move};

/// Makes the move and returns its cost; None if it is illegal or there is no room.
pub fn make<D: Dance>(dance: &mut D, m: Move) -> Option<u64>
    ensures made { IsSome result → (D.state dance.new).trail ≡ m ∷ (D.state dance.old).trail }
    ensures problem { (D.state dance.new).puzzle ≡ (D.state dance.old).puzzle }
{
    if !dance.can(&m) {
        return None;
    }
    match dance.apply(m) {
        Ok(count) => Some(count.0),
        Err(_) => None,
    }
}

/// Makes these moves, up to one that isn't made; whether all were.
pub fn make_all<D: Dance>(dance: &mut D, moves: &[Move]) -> bool {
    for m in moves {
        if make(dance, *m).is_none() {
            return false;
        }
    }
    true
}

/// Undoes the newest move and returns its cost; None if there is no move.
pub fn undo<D: Dance>(dance: &mut D) -> Option<u64>
    ensures { (D.state dance.new).puzzle ≡ (D.state dance.old).puzzle }
{
    if dance.moves().is_empty() {
        return None;
    }
    Some(dance.undo().0)
}

/// Makes two tweaks of the item and undoes them at once. Returns the three costs.
pub fn two_tweaks_at_once<D: Dance>(dance: &mut D, i: u32) -> Option<[u64; 3]>
    ensures { (D.state dance.new).puzzle ≡ (D.state dance.old).puzzle }
{
    let first = make(dance, Move::Tweak(i))?;
    let second = make(dance, Move::Tweak(i))?;
    Some([first, second, dance.undo_tweaks(2).0])
}
