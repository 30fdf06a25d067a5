//! Laws of the listing: its members are the covers, each once, and those of its spans in turn.
ghost use Rattle.std.specs.Prelude.{ℕ, ◌≡◌, ◌<◌, ◌↔◌, List, [], ◌∷◌, ◌++◌, map, count_by, length, Some, None};
ghost use Rattle.std.specs.Prelude.{Option, IfSome, AllPairs, true, false};
ghost use Rattle.xc_text.specs.Equality.{IsEqualClone};
ghost use Rattle.xc_input.specs.Problem.{Puzzle, IsValid};
ghost use Rattle.xc_search.specs.Listing.{Residual, whole, branch_item, level, listing};
ghost use Rattle.xc_search.specs.Ends.{ends};
ghost use Rattle.xc_search.specs.Worked.{choice, seven_items, two_colours, once_or_twice, equal_options};
ghost use Rattle.xc_search.specs.Worked.{missing_item, one_colour, up_to_twice, no_options, largest_bound};
ghost use Rattle.xc_search.specs.Worked.{both_options, blank_secondary, bounds_and_colours, bound_beside_one};
ghost use Rattle.xc_search.specs.Cover.{members, HasSetAt, EachMemberCovers, EachCoverIsListedOnce};
ghost use Rattle.xc_input.specs.Cover.{IsCover};
ghost use Rattle.xc_search.specs.Spans.{row_of, precedes, between, spans_from, RowsRise};
ghost use Rattle.xc_search.specs.Nodes.{IsRowOf, RowsGoOn, row_count};

use crate::choice::Choice;
use crate::marks::Mark;
use crate::search::Step;
use crate::span::RowNumber;
use crate::went::{Halt, Went};

/// The listing is one level over itself.
#[tactic(auto, using(crate::proofs::ListingLemmas::listing_unrolled))]
pub fn listing_unrolls()
    ensures { (r : Residual) → listing r ≡ level listing (branch_item r) r }
{}

/// Each member of a valid problem's listing is a cover.
pub fn each_member_covers()
    ensures { (p : Puzzle) → IsValid p → EachMemberCovers p }
{}

/// Each cover of a valid problem is the set of options of a member of its listing.
#[tactic(auto, using(crate::proofs::Completeness::each_cover_is_listed))]
pub fn each_cover_is_listed()
    ensures { (p : Puzzle) (s : List ℕ) → IsValid p → IsCover p s → (k : ℕ) × HasSetAt p k s }
{}

/// Members at two places of a valid problem's listing have different sets of options.
pub fn no_set_twice()
    ensures { (p : Puzzle) (j k : ℕ) (s : List ℕ) → IsValid p → HasSetAt p j s → HasSetAt p k s → j ≡ k }
{}

/// Each cover of a valid problem is the set of options of exactly one member of its listing.
#[tactic(auto, using(crate::proofs::Completeness::each_cover_is_listed_once))]
pub fn each_cover_is_listed_once()
    ensures { (p : Puzzle) → IsValid p → EachCoverIsListedOnce p }
{}

/// As many of the ends of a search's tree are solutions as the listing has members.
#[tactic(auto, using(crate::proofs::EndLemmas::solutions_counted, crate::proofs::EndLemmas::as_many_solutions))]
pub fn solutions_are_members()
    ensures { (r : Residual) → count_by (λ e. e) (ends r) ≡ length (listing r) }
{}

/// Two choices are equal exactly if they are the same.
pub fn equal_choices(a: &Choice, b: &Choice) -> bool
    ensures { result ≡ true ↔ a.now ≡ b.now }
{
    a == b
}

/// Two marks are equal exactly if they are the same.
pub fn equal_marks(a: &Mark, b: &Mark) -> bool
    ensures { result ≡ true ↔ a.now ≡ b.now }
{
    a == b
}

/// Two results of `next` are equal exactly if they are the same.
pub fn equal_steps(a: &Step, b: &Step) -> bool
    ensures { result ≡ true ↔ a.now ≡ b.now }
{
    a == b
}

/// Two results of `go_on` are equal exactly if they are the same.
pub fn equal_ways(a: &Went, b: &Went) -> bool
    ensures { result ≡ true ↔ a.now ≡ b.now }
{
    a == b
}

/// Two numbers of rows are equal exactly if they are the same.
pub fn equal_row_numbers(a: &RowNumber, b: &RowNumber) -> bool
    ensures { result ≡ true ↔ a.now ≡ b.now }
{
    a == b
}

/// A clone of a value of any of these types is equal to it.
pub fn clones()
    ensures choices { IsEqualClone ⟦<Choice as Clone>⟧.is_clone }
    ensures marks { IsEqualClone ⟦<Mark as Clone>⟧.is_clone }
    ensures steps { IsEqualClone ⟦<Step as Clone>⟧.is_clone }
    ensures halts { IsEqualClone ⟦<Halt as Clone>⟧.is_clone }
    ensures ways { IsEqualClone ⟦<Went as Clone>⟧.is_clone }
    ensures numbers { IsEqualClone ⟦<RowNumber as Clone>⟧.is_clone }
{}

/// The members of a listing are in the order of their rows.
#[tactic(auto, using(crate::proofs::RowLemmas::members_rise))]
pub fn rows_rise()
    ensures { (p : Puzzle) → AllPairs (λ a b. precedes (row_of a) (row_of b) ≡ true) (members p) }
{}

/// Two spans whose ends meet are one span.
#[tactic(auto, using(crate::proofs::RowLemmas::spans_meet))]
pub fn spans_meet()
    ensures { (p : Puzzle) (a b : List ℕ) (until : Option (List ℕ)) → precedes b a ≡ false →
        IfSome until (λ u. precedes u b ≡ false) → between p a (Some b) ++ between p b until ≡ between p a until }
{}

/// Rows that rise, from the empty row to the end, cut the listing into spans that in turn are all of its members.
#[tactic(auto, using(crate::proofs::RowLemmas::spans_join))]
pub fn spans_join()
    ensures { (p : Puzzle) (rows : List (List ℕ)) → RowsRise [] rows → spans_from p [] rows ≡ members p }
{}

/// Of rows of a problem's tree that each come after the one in front there are no more than the tree has.
///
/// So searches of spans that each begin at the row where the last one halted, with a member and a step to go, come to
/// the end: `Span::new` is at no row before the one that it was asked for, and `Span::go_on` ends or is at a later one
/// of the tree (`row`, `later`, `node`).
#[tactic(auto, using(crate::proofs::RowLemmas::rows_end))]
pub fn rows_come_to_an_end()
    ensures { (p : Puzzle) (from : List ℕ) (rows : List (List ℕ)) → IsRowOf (whole p) from → RowsGoOn p from rows →
        length rows < row_count (whole p) }
{}

/// The listings of worked problems, computed by the definitions.
pub fn worked_listings()
    ensures seven_items { members seven_items
        ≡ (choice 1 (Some 4) 2 2 ∷ choice 2 (Some 5) 1 1 ∷ choice 3 (Some 1) 1 1 ∷ []) ∷ [] }
    ensures two_colours { members two_colours ≡ (choice 2 (Some 4) 2 2 ∷ choice 1 (Some 2) 1 1 ∷ []) ∷ [] }
    ensures once_or_twice { members once_or_twice
        ≡ (choice 1 (Some 1) 1 2 ∷ choice 1 (Some 2) 1 2 ∷ [])
        ∷ (choice 1 (Some 1) 1 2 ∷ choice 1 None 2 2 ∷ choice 2 (Some 3) 1 1 ∷ [])
        ∷ (choice 1 (Some 2) 2 2 ∷ choice 1 None 1 1 ∷ []) ∷ [] }
    ensures equal_options { members equal_options
        ≡ (choice 1 (Some 1) 1 3 ∷ []) ∷ (choice 1 (Some 2) 2 3 ∷ []) ∷ (choice 1 (Some 3) 3 3 ∷ []) ∷ [] }
    ensures missing_item { members missing_item ≡ [] }
    ensures one_colour { members one_colour ≡ (choice 1 (Some 1) 1 1 ∷ choice 2 (Some 2) 1 1 ∷ []) ∷ [] }
    ensures up_to_twice { members up_to_twice
        ≡ (choice 1 (Some 1) 1 3 ∷ choice 1 (Some 2) 1 2 ∷ []) ∷ (choice 1 (Some 1) 1 3 ∷ choice 1 None 2 2 ∷ [])
        ∷ (choice 1 (Some 2) 2 3 ∷ choice 1 None 1 1 ∷ []) ∷ (choice 1 None 3 3 ∷ []) ∷ [] }
    ensures no_options { members no_options ≡ (choice 1 None 1 1 ∷ []) ∷ [] }
    ensures largest_bound { members largest_bound ≡ [] }
    ensures both_options { members both_options ≡ (choice 1 (Some 1) 1 1 ∷ choice 1 (Some 2) 1 1 ∷ []) ∷ [] }
    ensures blank_secondary { members blank_secondary
        ≡ (choice 1 (Some 1) 1 2 ∷ choice 2 (Some 4) 1 2 ∷ [])
        ∷ (choice 1 (Some 1) 1 2 ∷ choice 2 (Some 5) 2 2 ∷ [])
        ∷ (choice 1 (Some 2) 2 2 ∷ choice 2 (Some 3) 1 2 ∷ [])
        ∷ (choice 1 (Some 2) 2 2 ∷ choice 2 (Some 5) 2 2 ∷ []) ∷ [] }
    ensures bounds_and_colours { members bounds_and_colours
        ≡ (choice 1 (Some 1) 1 2 ∷ choice 1 (Some 2) 1 2 ∷ [])
        ∷ (choice 1 (Some 1) 1 2 ∷ choice 1 (Some 3) 2 2 ∷ []) ∷ [] }
    ensures bound_beside_one { members bound_beside_one
        ≡ (choice 2 (Some 1) 1 1 ∷ choice 1 (Some 2) 1 2 ∷ []) ∷ (choice 2 (Some 1) 1 1 ∷ choice 1 None 2 2 ∷ [])
        ∷ [] }
{}

/// Spans of worked problems, computed by the definitions.
pub fn worked_spans()
    ensures beginning { precedes (3 ∷ []) (3 ∷ 1 ∷ []) ≡ true }
    ensures number { precedes (3 ∷ 9 ∷ []) (4 ∷ []) ≡ true }
    ensures itself { precedes (3 ∷ 1 ∷ []) (3 ∷ 1 ∷ []) ≡ false }
    ensures rows { map row_of (members up_to_twice)
        ≡ (1 ∷ 1 ∷ []) ∷ (1 ∷ 2 ∷ []) ∷ (2 ∷ 1 ∷ []) ∷ (3 ∷ []) ∷ [] }
    ensures from { map row_of (between up_to_twice (2 ∷ 0 ∷ []) None) ≡ (2 ∷ 1 ∷ []) ∷ (3 ∷ []) ∷ [] }
    ensures until { map row_of (between up_to_twice (1 ∷ 2 ∷ []) (Some (3 ∷ [])))
        ≡ (1 ∷ 2 ∷ []) ∷ (2 ∷ 1 ∷ []) ∷ [] }
    ensures nothing { between up_to_twice (1 ∷ 2 ∷ []) (Some (1 ∷ 2 ∷ [])) ≡ [] }
    ensures all_rows { row_count (whole up_to_twice) ≡ 11 }
{}
