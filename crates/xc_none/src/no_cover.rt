//! Whether a proof shows that a problem has no cover.
ghost use Rattle.std.specs.Prelude.{ℕ, ◌≡◌, List, IfOk};
ghost use Rattle.refutation.specs.declared.answer.Answer.TheVariants.{Refuted};
ghost use Rattle.xc_input.specs.Cover.{IsCover};
ghost use Rattle.xc_none.specs.Reported.{IsReported};

use crate::errors::NoneError;
use crate::formula::clauses;
use refutation::{Answer, refute};
use std::alloc::Global;
use xc_input::Problem;
use xc_text::Source;

/// What a proof in DRAT, of the clauses that `write_cnf` writes of a problem, shows of it. The clauses are made here
/// again, so that nothing has to be believed of those that an engine was given.
pub fn has_no_cover<S: Source>(
    alloc: Global,
    problem: &Problem,
    source: &mut S,
) -> Result<Answer, NoneError>
    ensures none { IfOk result (λ answer. answer ≡ Refuted → (s : List ℕ) → IsCover problem.now.puzzle s → ⊥) }
    ensures reported { IsReported (S.state source.old).failures (S.state source.new).failures result }
{
    let formula = clauses(alloc, problem)?;
    let literals = formula.meanings.len().saturating_add(1).saturating_mul(2);
    Ok(refute(alloc, formula.clauses.as_slice(), literals, source)?)
}
