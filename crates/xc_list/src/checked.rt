//! Listings judged, those that are printed here among them.
ghost use Rattle.std.specs.Prelude.{◌≡◌, ◌≢◌, ◌<◌, ◌^◌, ℕ, codes, All, IsTrue, IfOk, IfErr, MatchResult};
ghost use Rattle.xc_text.specs.Lines.{lines_of};
ghost use Rattle.xc_check.specs.Listed.{fault_in_lines, AreVerdicts, IsListingFault};
ghost use Rattle.xc_check.specs.declared.verdict.ListingFault.TheVariants.{Memory};
ghost use Rattle.xc_list.specs.Output.{output};

use std::alloc::Global;
use xc_check::{ListingFault, Verdict};
use xc_input::Problem;

/// The verdicts on the solutions of a listing, or its first fault.
pub fn check(alloc: Global, problem: &Problem, listing: &[u8]) -> Result<Vec<Verdict>, ListingFault>
    ensures accepted { IfOk result (λ vs. fault_in_lines problem.now 0 (lines_of listing.now) ≡ None) }
    ensures verdicts { IfOk result (λ vs. AreVerdicts problem.now (lines_of listing.now) vs.items) }
    ensures fault { IfErr result (IsListingFault problem.now (lines_of listing.now)) }

    // What is printed for the problem is a listing of covers, unless an item is named `null`.
    ensures outputs { (spacing limit : ℕ) → limit < 2 ^ 64 → All (λ name. name ≢ codes "null") problem.now.names
        → listing.now ≡ output problem.now spacing limit
        → MatchResult result (λ vs. All (λ v. IsTrue v.cover) vs.items) (λ e. e ≡ Memory) }
{
    xc_check::check(alloc, problem, listing)
}
