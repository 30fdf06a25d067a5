//! The row of a search's levels beside another row.
ghost use Rattle.std.specs.Prelude.{◌≡◌, ℕ, List, ◌++◌, map, reverse, option_map, true, false};
ghost use Rattle.xc_search.specs.Spans.{precedes, is_before};

use crate::level::Level;

/// How the row of levels compares to another row.
#[derive(Clone, Copy)]
pub enum Place {
    /// It comes before it, as does each row that it begins.
    Before,
    /// It begins it.
    Begins,
    /// It doesn't come before it.
    Reached,
}

/// How the row of these levels, the oldest first, compares to another row.
#[inline(always)]
pub fn place_of(levels: &[Level], row: &[u32]) -> Place
    ensures before { result ≡ Place.Before →
        (x : List ℕ) → precedes (map (λ l. l.begun) levels.now ++ x) row.now ≡ true }
    ensures begins { result ≡ Place.Begins → precedes (map (λ l. l.begun) levels.now) row.now ≡ true }
    ensures reached { result ≡ Place.Reached → precedes (map (λ l. l.begun) levels.now) row.now ≡ false }
{
    let mut below = levels;
    let mut behind = row;
    while let [level, levels @ ..] = below {
        let [number, numbers @ ..] = behind else {
            return Place::Reached;
        };
        if level.begun < *number {
            return Place::Before;
        }
        if level.begun > *number {
            return Place::Reached;
        }
        below = levels;
        behind = numbers;
    }
    match behind {
        [] => Place::Reached,
        [_, ..] => Place::Begins,
    }
}

/// Whether the row of these levels, the oldest first, comes before the end of a span.
#[inline(always)]
pub fn is_before(levels: &[Level], until: Option<&[u32]>) -> bool
    ensures { result ≡ is_before (option_map (λ u. u.now) until.entry) (map (λ l. l.begun) levels.now) }
{
    let Some(until) = until else {
        return true;
    };
    match place_of(levels, until) {
        Place::Before | Place::Begins => true,
        Place::Reached => false,
    }
}
