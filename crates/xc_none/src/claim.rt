//! Clauses of what their literals are to say.
//!
//! A claim is looked up at the place where its variable was put, and the meaning found there is compared. So how
//! variables are numbered needs no proof.
ghost use Rattle.std.specs.Prelude.{◌≡◌, true, IfOk, OnOk};
ghost use Rattle.xc_none.specs.Meanings.{AreTrueOfCovers, IsLiteralOf};
ghost use Rattle.xc_none.specs.inner.Claims.{Says, OneHolds};

use crate::errors::ClausesError;
use crate::meaning::Meaning;
use std::alloc::Global;
use xc_input::Problem;

/// What a literal is to say: that something is so, or that it isn't. Its variable is at this place.
#[derive(Clone, Copy)]
pub struct Claim {
    pub meaning: Meaning,
    pub place: usize,
    pub so: bool,
}

/// Whether two meanings are the same.
fn is_same(one: Meaning, other: Meaning) -> bool
    ensures { result ≡ true → one ≡ other }
{
    match one {
        Meaning::Chosen(option) => match other {
            Meaning::Chosen(second) => option == second,
            _ => false,
        },
        Meaning::AtLeast(item, option, count) => match other {
            Meaning::AtLeast(i, o, c) => item == i && option == o && count == c,
            _ => false,
        },
        Meaning::UpTo(item, place) => match other {
            Meaning::UpTo(i, p) => item == i && place == p,
            _ => false,
        },
    }
}

/// The literal that says what a claim says.
fn literal(meanings: &[Meaning], claim: Claim) -> Result<u32, ClausesError>
    ensures says { IfOk result (λ l. Says meanings.now l claim) }
    ensures known { IfOk result (λ l. IsLiteralOf meanings.now l) }
{
    if claim.place >= meanings.len() || claim.place >= 0x4000_0000 {
        return Err(ClausesError::Lost);
    }
    if !is_same(meanings[claim.place], claim.meaning) {
        return Err(ClausesError::Lost);
    }
    let positive = (claim.place as u32 + 1) * 2;
    if claim.so {
        Ok(positive)
    } else {
        Ok(positive + 1)
    }
}

/// Adds a clause that says what these claims say.
pub(crate) fn add_clause(
    alloc: Global,
    clauses: &mut Vec<Vec<u32>>,
    problem: &Problem,
    meanings: &[Meaning],
    claims: &[Claim],
) -> Result<(), ClausesError>
    requires so_far { AreTrueOfCovers problem.now.puzzle meanings.now clauses.old.items }
    requires holds { OneHolds problem.now.puzzle claims.now }
    ensures { OnOk result (AreTrueOfCovers problem.now.puzzle meanings.now clauses.new.items) }
{
    let mut clause = Vec::with_capacity(alloc, claims.len())?;
    for claim in claims {
        clause.push(literal(meanings, *claim)?)?;
    }
    clauses.push(clause)?;
    Ok(())
}
