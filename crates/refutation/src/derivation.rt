//! Clauses that follow from those of a formula.
ghost use Rattle.std.specs.Prelude.{◌≡◌, ◌<◌, length, IfOk, IsTrue, ℕ, Bool};
ghost use Rattle.refutation.specs.inner.Steps.{Assumes, Leads, PutsAmong, Shown};
ghost use Rattle.refutation.specs.inner.Derivations.{Holds, Keeps, TakesClause, Shows};

use crate::clause::{Status, settle};
use crate::index::Index;
use crate::literal::negated;
use crate::propagation::propagate;
use crate::trail::Trail;
use crate::watches::{Pair, Watches};
use std::alloc::{AllocError, Global};
use std::mem;

/// How many clauses are dropped at least before their numbers are given to others.
const SWEPT: usize = 1024;

/// Clauses and literals that follow from those of a formula.
#[derive(Drop)]
pub(crate) struct Derivation {
    alloc: Global,
    /// One without literals is one that was dropped.
    clauses: Vec<Vec<u32>>,
    watches: Watches,
    trail: Trail,
    index: Index,
    /// The numbers of dropped clauses, which nothing has to do with.
    free: Vec<u32>,
    /// The numbers of clauses that were dropped since, which may still be watched.
    dropped: Vec<u32>,
    /// How many literals there are.
    literals: usize,
    /// Whether the clauses can't all be true.
    refuted: bool,
}

/// Two literals of a clause to be watched, those that aren't false first. Of a clause with one literal both are that.
fn first_pair(trail: &Trail, clause: &[u32]) -> Pair {
    let mut first = None;
    let mut second = None;
    let mut false_one = None;
    let mut false_two = None;
    for literal in clause {
        if trail.is_false(*literal) {
            if false_one.is_none() {
                false_one = Some(*literal);
            } else if false_two.is_none() {
                false_two = Some(*literal);
            }
        } else if first.is_none() {
            first = Some(*literal);
        } else {
            second = Some(*literal);
            break;
        }
    }
    let (first, rest) = match first {
        Some(literal) => (literal, false_one),
        None => (false_one.unwrap_or(0), false_two),
    };
    let second = second.or(rest).unwrap_or(first);
    Pair { first, second }
}

/// The opposites of a clause's literals are true. Whether one of its literals is.
#[tactic(auto, using(crate::proofs::ClauseLemmas::assumes_none, crate::proofs::ClauseLemmas::assumes_found))]
fn assume(trail: &mut Trail, clause: &[u32]) -> Result<bool, AllocError>
    ensures { IfOk result (λ found. Assumes clause.now trail.old found trail.new) }
{
    for literal in clause {
        if trail.is_true(*literal) {
            return Ok(true);
        }
        let opposite = negated(*literal);
        if !trail.is_false(*literal) {
            trail.push(opposite)?;
        }
    }
    Ok(false)
}

/// Whether what the opposites of a clause's literals lead to shows that it is true.
#[tactic(auto, using(crate::proofs::ClauseLemmas::shown_found, crate::proofs::ClauseLemmas::shown_by))]
fn is_shown(
    alloc: Global,
    clauses: &[Vec<u32>],
    watches: &mut Watches,
    trail: &mut Trail,
    clause: &[u32],
    literals: usize,
) -> Result<bool, AllocError>
    ensures { IfOk result (λ shown. Shown clauses.now clause.now trail.old shown trail.new) }
{
    let from = trail.len();
    if assume(trail, clause)? {
        return Ok(true);
    }
    propagate(alloc, clauses, watches, trail, from, literals)
}

/// Takes what a clause comes to, in which at most the other literals are false. Whether all are.
#[tactic(auto, using(crate::proofs::ClauseLemmas::leads_same))]
fn is_made_false(trail: &mut Trail, clause: &[u32], open: u32) -> Result<bool, AllocError>
    requires { 0 < length clause.now }
    ensures { IfOk result (λ fails. Leads clause.now trail.old fails trail.new) }
{
    Ok(match settle(trail, clause, open)? {
        Status::False => true,
        Status::Settled | Status::Open(_) => false,
    })
}

/// Puts a clause in a free place, or behind the others. Its number.
#[tactic(auto, using(crate::proofs::DerivationLemmas::puts_behind, crate::proofs::DerivationLemmas::puts_at))]
fn put(
    clauses: &mut Vec<Vec<u32>>,
    free: &mut Vec<u32>,
    clause: Vec<u32>,
) -> Result<u32, AllocError>
    ensures { IfOk result (λ _. PutsAmong clauses.old.items clause.items clauses.new.items) }
{
    if let Some(number) = free.pop() {
        if (number as usize) < clauses.len() {
            clauses[number as usize] = clause;
            return Ok(number);
        }
    }
    let number = u32::try_from(clauses.len()).unwrap_or(u32::MAX);
    clauses.push(clause)?;
    Ok(number)
}

impl Derivation {
    /// No clauses, of the literals below a number.
    pub(crate) fn new(alloc: Global, literals: usize) -> Result<Derivation, AllocError>
        ensures { IfOk result (λ d. (v : ℕ → Bool) → Holds v d) }
    {
        Ok(Derivation {
            alloc,
            clauses: Vec::new(alloc),
            watches: Watches::new(alloc, literals)?,
            trail: Trail::new(alloc, literals)?,
            index: Index::new(alloc, literals)?,
            free: Vec::new(alloc),
            dropped: Vec::new(alloc),
            literals,
            refuted: false,
        })
    }

    /// Whether the clauses can't all be true.
    pub(crate) fn is_refuted(&self) -> bool
        ensures { result ≡ self.now.refuted }
    {
        self.refuted
    }

    /// Whether a clause follows, by what its literals' opposites lead to.
    #[tactic(auto, using(crate::proofs::DerivationLemmas::kept_by, crate::proofs::DerivationLemmas::shows_by))]
    pub(crate) fn shows(&mut self, clause: &[u32]) -> Result<bool, AllocError>
        ensures kept { IfOk result (λ _. Keeps self.old self.new) }
        ensures shown { IfOk result (λ yes. IsTrue yes → Shows self.old clause.now) }
    {
        let from = self.trail.len();
        let shown = is_shown(
            self.alloc,
            self.clauses.as_slice(),
            &mut self.watches,
            &mut self.trail,
            clause,
            self.literals,
        )?;
        self.trail.cut(from);
        Ok(shown)
    }

    /// Takes a clause that follows.
    #[tactic(auto, using(crate::proofs::DerivationLemmas::taken))]
    pub(crate) fn take(&mut self, clause: Vec<u32>) -> Result<(), AllocError>
        ensures { IfOk result (λ _. TakesClause self.old clause.items self.new) }
    {
        if clause.is_empty() {
            self.refuted = true;
            return Ok(());
        }
        let from = self.trail.len();
        let pair = first_pair(&self.trail, clause.as_slice());
        let is_watched = clause.len() > 1;
        let fails = is_made_false(&mut self.trail, clause.as_slice(), pair.first)?;
        let number = put(&mut self.clauses, &mut self.free, clause)?;
        self.watches.set(number, pair, is_watched)?;
        self.index.add(number, self.clauses.as_slice())?;
        if fails {
            self.refuted = true;
            return Ok(());
        }
        if propagate(
            self.alloc,
            self.clauses.as_slice(),
            &mut self.watches,
            &mut self.trail,
            from,
            self.literals,
        )? {
            self.refuted = true;
        }
        Ok(())
    }

    /// Drops a clause, if it is among these. What it led to stays.
    pub(crate) fn drop_clause(&mut self, clause: &[u32]) -> Result<(), AllocError>
        ensures { IfOk result (λ _. Keeps self.old self.new) }
    {
        let Some(number) = self.index.remove(clause, self.clauses.as_slice()) else {
            return Ok(());
        };
        if let Some(place) = self.clauses.get_mut(number as usize) {
            *place = Vec::new(self.alloc);
        }
        self.dropped.push(number)?;
        let most = self
            .clauses
            .len()
            .saturating_add(self.literals)
            .saturating_add(SWEPT)
            / 2;
        if self.dropped.len() > most {
            self.watches.sweep(self.clauses.as_slice());
            self.free.append(&mut self.dropped)?;
        }
        Ok(())
    }
}
