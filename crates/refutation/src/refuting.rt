//! Whether a proof refutes clauses.
ghost use Rattle.std.specs.Prelude.{IfOk};
ghost use Rattle.refutation.specs.Answers.{IsTrueOf};
ghost use Rattle.refutation.specs.inner.Derivations.{Keeps, Entails, AnswersRightly};
ghost use Rattle.xc_text.specs.WholeTexts.{IsCounted};

use crate::answer::Answer;
use crate::derivation::Derivation;
use crate::steps::{Kind, Steps};
use std::alloc::{AllocError, Global};
use xc_text::{Source, Unread};

/// Takes a clause if it is shown to follow. Whether it was.
#[tactic(auto, using(crate::proofs::DerivationLemmas::keeps_taken))]
fn follow(alloc: Global, derivation: &mut Derivation, clause: &[u32]) -> Result<bool, AllocError>
    ensures { IfOk result (λ _. Keeps derivation.old derivation.new) }
{
    if !derivation.shows(clause)? {
        return Ok(false);
    }
    derivation.take(Vec::from_slice(alloc, clause)?)?;
    Ok(true)
}

/// The clauses, all taken as they are.
#[tactic(auto, using(crate::proofs::DerivationLemmas::entails_axiom))]
fn given(alloc: Global, formula: &[Vec<u32>], literals: usize) -> Result<Derivation, AllocError>
    ensures { IfOk result (λ d. Entails formula.now d) }
{
    let mut derivation = Derivation::new(alloc, literals)?;
    for clause in formula {
        derivation.take(Vec::from_slice(alloc, clause.as_slice())?)?;
    }
    Ok(derivation)
}

/// What a step comes to: an answer, or none yet.
fn judge(
    alloc: Global,
    derivation: &mut Derivation,
    number: u64,
    kind: Kind,
    clause: &[u32],
) -> Result<Option<Answer>, AllocError>
    ensures kept { IfOk result (λ _. Keeps derivation.old derivation.new) }
    ensures judged { IfOk result (λ answer. AnswersRightly derivation.new answer) }
{
    match kind {
        Kind::Add => {
            if !follow(alloc, derivation, clause)? {
                return Ok(Some(Answer::DoesNotFollow(number)));
            }
            Ok(if derivation.is_refuted() {
                Some(Answer::Refuted)
            } else {
                None
            })
        }
        Kind::Drop => {
            derivation.drop_clause(clause)?;
            Ok(None)
        }
        Kind::End => Ok(Some(Answer::Unfinished)),
        Kind::Fault => Ok(Some(Answer::NoStep(number))),
    }
}

/// What a proof in DRAT shows of clauses whose literals are below a number: variable n has the literals 2n and 2n + 1,
/// and is n in the proof too.
///
/// Each clause that the proof adds has to follow from those before it by unit propagation (RUP). A clause that needs
/// more of DRAT (RAT) doesn't follow. A clause that the proof deletes is no longer used, and what it led to stays; one
/// that isn't there is passed over. The answer is `Refuted` as soon as unit propagation refutes the clauses, so the
/// rest of the proof isn't read.
///
/// The proof is binary if its first byte is `a`, or if that is `d` and one of the first ten bytes is none that a text
/// has; else it is a text. Variables are from 1 to 2^31 - 1. An error is a failed read or too little memory. The method
/// is that of E. Goldberg and Y. Novikov, "Verification of proofs of unsatisfiability for CNF formulas" (2003), with
/// two watched literals for each clause.
#[tactic(auto, using(crate::proofs::DerivationLemmas::entails_kept, crate::proofs::DerivationLemmas::refuted_by))]
pub fn refute<S: Source>(
    alloc: Global,
    formula: &[Vec<u32>],
    literals: usize,
    source: &mut S,
) -> Result<Answer, Unread>
    ensures right { IfOk result (λ answer. IsTrueOf formula.now answer) }
    ensures counted { IsCounted (S.state source.old).failures (S.state source.new).failures result }
{
    let mut derivation = given(alloc, formula, literals)?;
    if derivation.is_refuted() {
        return Ok(Answer::Refuted);
    }
    let mut steps = Steps::new(alloc, source)?;
    let mut clause = Vec::new(alloc);
    for number in 1..u64::MAX {
        let kind = steps.next(source, &mut clause)?;
        let judged = judge(alloc, &mut derivation, number, kind, clause.as_slice())?;
        if let Some(answer) = judged {
            return Ok(answer);
        }
    }
    Ok(Answer::Unfinished)
}
