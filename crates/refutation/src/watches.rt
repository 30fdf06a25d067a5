//! Which clauses to look at where a literal becomes false. What is proved of a refutation doesn't rest on any of this:
//! it only says where to look.
use std::alloc::{AllocError, Global};
use std::mem;

/// A clause to be looked at, and another literal of it: where that is true, the clause is.
#[derive(Clone, Copy)]
pub(crate) struct Watch {
    pub(crate) clause: u32,
    pub(crate) other: u32,
}

/// The literals of a clause that are watched.
#[derive(Clone, Copy)]
pub(crate) struct Pair {
    pub(crate) first: u32,
    pub(crate) second: u32,
}

/// By each literal the clauses that watch it.
#[derive(Drop)]
pub(crate) struct Watches {
    lists: Vec<Vec<Watch>>,
    pairs: Vec<Pair>,
}

impl Watches {
    /// None, for the literals below a number.
    pub(crate) fn new(alloc: Global, literals: usize) -> Result<Watches, AllocError> {
        let mut lists = Vec::new(alloc);
        for _ in 0..literals {
            lists.push(Vec::new(alloc))?;
        }
        Ok(Watches {
            lists,
            pairs: Vec::new(alloc),
        })
    }

    /// The watches of a literal, which has none then.
    #[inline(always)]
    pub(crate) fn take(&mut self, alloc: Global, literal: u32) -> Vec<Watch> {
        match self.lists.get_mut(literal as usize) {
            Some(list) => mem::replace(list, Vec::new(alloc)),
            None => Vec::new(alloc),
        }
    }

    /// The watches of a literal are these.
    #[inline(always)]
    pub(crate) fn put(&mut self, literal: u32, watches: Vec<Watch>) {
        if let Some(list) = self.lists.get_mut(literal as usize) {
            *list = watches;
        }
    }

    /// One more watch of a literal.
    #[inline(always)]
    pub(crate) fn add(&mut self, literal: u32, watch: Watch) -> Result<(), AllocError> {
        if let Some(list) = self.lists.get_mut(literal as usize) {
            list.push(watch)?;
        }
        Ok(())
    }

    /// The literals that a clause watches.
    #[inline(always)]
    pub(crate) fn pair(&self, clause: u32) -> Option<Pair> {
        self.pairs.get(clause as usize).copied()
    }

    /// A clause with this number is there, and watches these literals if it is to.
    pub(crate) fn set(
        &mut self,
        clause: u32,
        pair: Pair,
        is_watched: bool,
    ) -> Result<(), AllocError> {
        let place = clause as usize;
        if place >= self.pairs.len() {
            self.pairs.push(pair)?;
        } else {
            self.pairs[place] = pair;
        }
        if !is_watched {
            return Ok(());
        }
        let other = pair.second;
        self.add(pair.first, Watch { clause, other })?;
        let other = pair.first;
        self.add(pair.second, Watch { clause, other })
    }

    /// A clause watches a literal in place of another one.
    #[inline(always)]
    pub(crate) fn exchange(&mut self, clause: u32, old: u32, new: u32) {
        if let Some(pair) = self.pairs.get_mut(clause as usize) {
            if pair.first == old {
                pair.first = new;
            } else {
                pair.second = new;
            }
        }
    }

    /// Drops the watches of clauses without literals.
    pub(crate) fn sweep(&mut self, clauses: &[Vec<u32>]) {
        for list in &mut self.lists {
            list.retain(|watch| clauses
                .get(watch.clause as usize)
                .is_some_and(|clause| !clause.is_empty()));
        }
    }
}
