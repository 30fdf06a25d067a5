//! What the definitions say of worked problems and words.
ghost use Rattle.std.specs.Prelude.{ℕ, ◌≡◌, ◌↔◌, true, ◌<◌, ◌-◌, ◌^◌, All, List, [], ◌∷◌, ◌++◌, codes, Ok, Err, Some};
ghost use Rattle.std.specs.Prelude.{length};
ghost use Rattle.xc_input.specs.Problem.{Puzzle};
ghost use Rattle.xc_search.specs.Listing.{whole};
ghost use Rattle.xc_search.specs.Nodes.{IsRowOf, row_count};
ghost use Rattle.xc_search.specs.declared.went.Went.{Went};
ghost use Rattle.xc_text.specs.Equality.{IsEqualClone};
ghost use Rattle.xc_input.specs.Named.{Named, IsSound};
ghost use Rattle.xc_list.specs.Digests.{problem_numbers};
ghost use Rattle.xc_list.specs.Messages.{summary_text};
ghost use Rattle.xc_list.specs.Output.{output};
ghost use Rattle.xc_list.specs.Runs.{end_of};
ghost use Rattle.xc_list.specs.Settings.{read_words};
ghost use Rattle.xc_list.specs.SpanRuns.{StopInTurn};
ghost use Rattle.xc_list.specs.SpanTexts.{row_text};
ghost use Rattle.xc_list.specs.SpanWords.{AskedSpan, row_word};
ghost use Rattle.xc_list.specs.Worked.{seven, three_alike, colours};
ghost use Rattle.xc_list.specs.declared.ends.End.TheVariants.{Done, Limit};
ghost use Rattle.xc_list.specs.declared.words.WordFault.TheVariants.{Unknown, BadNumber, ZeroLimit};

use crate::ends::{End, SpanFault};
use crate::text_digest::TextDigest;
use crate::words::{WordFault, Words};
pub use xc_check::laws::{equal_listing_faults, equal_verdicts};

/// Two ends of runs are equal exactly if they are the same.
pub fn equal_ends(a: &End, b: &End) -> bool
    ensures { result ≡ true ↔ a.now ≡ b.now }
{
    a == b
}

/// What two commands mean is equal exactly if it is the same.
pub fn equal_words(a: &Words, b: &Words) -> bool
    ensures { result ≡ true ↔ a.now ≡ b.now }
{
    a == b
}

/// Two faults of words are equal exactly if they are the same.
pub fn equal_word_faults(a: &WordFault, b: &WordFault) -> bool
    ensures { result ≡ true ↔ a.now ≡ b.now }
{
    a == b
}

/// Two faults of runs over spans are equal exactly if they are the same.
pub fn equal_span_faults(a: &SpanFault, b: &SpanFault) -> bool
    ensures { result ≡ true ↔ a.now ≡ b.now }
{
    a == b
}

/// A clone of a value of any of these types is equal to it.
pub fn clones()
    ensures ends { IsEqualClone ⟦<End as Clone>⟧.is_clone }
    ensures words { IsEqualClone ⟦<Words as Clone>⟧.is_clone }
    ensures word_faults { IsEqualClone ⟦<WordFault as Clone>⟧.is_clone }
    ensures span_faults { IsEqualClone ⟦<SpanFault as Clone>⟧.is_clone }
    ensures text_digests { IsEqualClone ⟦<TextDigest as Clone>⟧.is_clone }
{}

/// The outputs and the ends of worked problems.
pub fn worked_texts()
    ensures seven { output seven 1 100 ≡ codes "1:\n a d f (2 of 2)\n b g (1 of 1)\n c e (1 of 1)\n" }
    ensures colours { output colours 1 100 ≡ codes "1:\n q x:A (2 of 2)\n p r x:A y (1 of 1)\n" }
    ensures spaced { output three_alike 2 100 ≡ codes "2:\n A (2 of 3)\n" }
    ensures limited { output three_alike 1 2 ≡ codes "1:\n A (1 of 3)\n2:\n A (2 of 3)\n" }
    ensures counted { output three_alike 0 100 ≡ [] }
    ensures done { end_of three_alike 4 ≡ Done 3 }
    ensures limit { end_of three_alike 3 ≡ Limit 3 }
    ensures one { summary_text (Done 1) ≡ codes "Altogether 1 solution.\n" }
    ensures met { summary_text (Limit 12) ≡ codes "Altogether 12 solutions (limit).\n" }
{}

/// What words mean.
pub fn worked_words()
    ensures none { read_words [] ≡ Ok (record { spacing = 0; limit = 2 ^ 64 - 1 }) }
    ensures last_holds { read_words (codes "m1" ∷ codes "t007" ∷ codes "m3" ∷ [])
        ≡ Ok (record { spacing = 3; limit = 7 }) }
    ensures first_fault { read_words (codes "m" ∷ codes "t0" ∷ []) ≡ Err (BadNumber 1) }
    ensures zero_limit { read_words (codes "m2" ∷ codes "t00" ∷ codes "x" ∷ []) ≡ Err (ZeroLimit 2) }
    ensures empty { read_words (codes "t18446744073709551615" ∷ [] ∷ []) ≡ Err (Unknown 2) }
    ensures large { read_words (codes "t18446744073709551616" ∷ []) ≡ Err (BadNumber 1) }
{}

/// A row is known by its text, so two rows that have one text are one row.
pub fn rows_by_texts()
    ensures { (row : List ℕ) → All (λ n. n < 2 ^ 32) row → row_word (row_text row) ≡ Some row }
{}

/// Of searches that each begin at the row where the one in front stopped, fewer stop than the tree has rows. So texts of
/// spans that each begin where the one in front ends come to the listing's end.
#[tactic(auto, using(crate::proofs::SpanLemmas::stops_end))]
pub fn spans_come_to_an_end()
    ensures { (p : Puzzle) (from : List ℕ) (runs : List (AskedSpan × List ℕ × Went)) → IsRowOf (whole p) from
        → StopInTurn p from runs → length runs < row_count (whole p) }
{}

/// Two problems of the same numbers are the same but for their seeds, so all that was read is in what a digest hashes.
pub fn problems_by_numbers()
    ensures { (a b : Named) → IsSound a → IsSound b → problem_numbers a ≡ problem_numbers b
        → a ≡ record b { seed = a.seed } }
{}
