//! What follows from literals that are true.
ghost use Rattle.std.specs.Prelude.{◌≡◌, true, IfOk};
ghost use Rattle.refutation.specs.inner.Steps.{LeadTo, is_conflict};

use crate::clause::{Status, settle};
use crate::literal::negated;
use crate::trail::Trail;
use crate::watches::{Watch, Watches};
use std::alloc::{AllocError, Global};

/// What becomes of a watch that was looked at.
pub(crate) enum Watched {
    Stays,
    Moved,
    Conflict,
}

/// Looks at a clause that watches a literal which became false.
#[inline(always)]
#[tactic(auto, using(crate::proofs::ClauseLemmas::lead_to_same, crate::proofs::ClauseLemmas::lead_to_by))]
fn look(
    clauses: &[Vec<u32>],
    watches: &mut Watches,
    trail: &mut Trail,
    falsified: u32,
    watch: &mut Watch,
) -> Result<Watched, AllocError>
    ensures { IfOk result (λ w. LeadTo clauses.now trail.old (is_conflict w) trail.new) }
{
    if trail.is_true(watch.other) {
        return Ok(Watched::Stays);
    }
    let Some(clause) = clauses.get(watch.clause as usize) else {
        return Ok(Watched::Moved);
    };
    let Some(pair) = watches.pair(watch.clause) else {
        return Ok(Watched::Moved);
    };
    if clause.is_empty() {
        return Ok(Watched::Moved);
    }
    let other = if pair.first == falsified {
        pair.second
    } else {
        pair.first
    };
    watch.other = other;
    Ok(match settle(trail, clause.as_slice(), other)? {
        Status::Settled => Watched::Stays,
        Status::False => Watched::Conflict,
        Status::Open(literal) => {
            let clause = watch.clause;
            watches.exchange(clause, falsified, literal);
            watches.add(literal, Watch { clause, other })?;
            Watched::Moved
        }
    })
}

/// Looks at all clauses that watch a literal which became false. Whether the literals of one are all false.
#[tactic(auto, using(crate::proofs::ClauseLemmas::lead_to_same, crate::proofs::ClauseLemmas::lead_on))]
fn visit(
    alloc: Global,
    clauses: &[Vec<u32>],
    watches: &mut Watches,
    trail: &mut Trail,
    falsified: u32,
) -> Result<bool, AllocError>
    ensures { IfOk result (λ conflict. LeadTo clauses.now trail.old conflict trail.new) }
{
    let mut list = watches.take(alloc, falsified);
    let mut kept = 0;
    let mut conflict = false;
    for i in 0..list.len() {
        if conflict && kept == i {
            // All watches behind it stay where they are.
            kept = list.len();
            break;
        }
        let mut watch = list[i];
        if !conflict {
            match look(clauses, watches, trail, falsified, &mut watch)? {
                Watched::Moved => continue,
                Watched::Stays => {}
                Watched::Conflict => conflict = true,
            }
        }
        list[kept] = watch;
        kept += 1;
    }
    list.truncate(kept);
    watches.put(falsified, list);
    Ok(conflict)
}

/// Adds what follows from the literals from a place on. Whether the literals of a clause are all false.
#[tactic(auto, using(crate::proofs::ClauseLemmas::lead_to_same, crate::proofs::ClauseLemmas::lead_on))]
pub(crate) fn propagate(
    alloc: Global,
    clauses: &[Vec<u32>],
    watches: &mut Watches,
    trail: &mut Trail,
    from: usize,
    most: usize,
) -> Result<bool, AllocError>
    ensures { IfOk result (λ conflict. LeadTo clauses.now trail.old conflict trail.new) }
{
    let mut place = from;
    for turn in 0..most {
        if place >= trail.len() {
            return Ok(false);
        }
        let literal = trail.at(place);
        place += 1;
        if visit(alloc, clauses, watches, trail, negated(literal))? {
            return Ok(true);
        }
    }
    Ok(false)
}
