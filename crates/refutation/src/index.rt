//! Where a clause is among many. What is proved of a refutation doesn't rest on it: it only says which clause to drop.
use std::alloc::{AllocError, Global};

/// How many chains there are at first, a power of two.
const FIRST_CHAINS: usize = 1024;

/// The end of a chain.
const END: u32 = u32::MAX;

/// What is noted of a clause: its hash, and the next clause of its chain.
#[derive(Clone, Copy)]
struct Entry {
    hash: u32,
    next: u32,
}

/// The numbers of clauses in chains, by a hash of their literals. There are as many chains as clauses, or more.
#[derive(Drop)]
pub(crate) struct Index {
    /// The first clause of each chain.
    heads: Vec<u32>,
    /// By the number of a clause.
    entries: Vec<Entry>,
    /// By literal the last search for a clause that has it.
    sought: Vec<u64>,
    searches: u64,
}

/// A number that is the same for the same literals in any order.
fn hash_of(clause: &[u32]) -> u32 {
    let mut sum = 0u64;
    for literal in clause {
        let mixed = u64::from(*literal).wrapping_mul(0x9E37_79B9_7F4A_7C15);
        sum = sum.wrapping_add(mixed ^ (mixed >> 29));
    }
    (sum.wrapping_mul(0xBF58_476D_1CE4_E5B9) >> 32) as u32
}

impl Index {
    /// No clauses, of the literals below a number.
    pub(crate) fn new(alloc: Global, literals: usize) -> Result<Index, AllocError> {
        Ok(Index {
            heads: vec![in alloc; END; FIRST_CHAINS]?,
            entries: Vec::new(alloc),
            sought: vec![in alloc; 0; literals]?,
            searches: 0,
        })
    }

    /// The chain of a hash.
    fn chain(&self, hash: u32) -> usize {
        hash as usize & self.heads.len().wrapping_sub(1)
    }

    /// A clause has this number, the next one or an earlier one.
    pub(crate) fn add(&mut self, number: u32, clauses: &[Vec<u32>]) -> Result<(), AllocError> {
        let Some(clause) = clauses.get(number as usize) else {
            return Ok(());
        };
        let entry = Entry {
            hash: hash_of(clause.as_slice()),
            next: END,
        };
        if number as usize >= self.entries.len() {
            self.entries.push(entry)?;
        } else {
            self.entries[number as usize] = entry;
        }
        if self.entries.len() > self.heads.len() {
            self.grow(clauses)
        } else {
            self.link(number);
            Ok(())
        }
    }

    /// Puts a clause in front of its chain.
    fn link(&mut self, number: u32) {
        let place = number as usize;
        let Some(entry) = self.entries.get(place).copied() else {
            return;
        };
        let chain = self.chain(entry.hash);
        let Some(next) = self.heads.get(chain).copied() else {
            return;
        };
        if place < self.entries.len() && chain < self.heads.len() {
            let hash = entry.hash;
            self.entries[place] = Entry { hash, next };
            self.heads[chain] = number;
        }
    }

    /// Twice as many chains, of the clauses that have literals.
    fn grow(&mut self, clauses: &[Vec<u32>]) -> Result<(), AllocError> {
        let chains = self.heads.len().saturating_mul(2);
        self.heads.clear();
        self.heads.resize(chains, END)?;
        for (number, clause) in clauses.iter().enumerate() {
            if !clause.is_empty() {
                self.link(u32::try_from(number).unwrap_or(END));
            }
        }
        Ok(())
    }

    /// Begins a search for a clause.
    fn seek(&mut self, clause: &[u32]) {
        self.searches = self.searches.wrapping_add(1);
        for literal in clause {
            if let Some(last) = self.sought.get_mut(*literal as usize) {
                *last = self.searches;
            }
        }
    }

    /// Whether each literal is one that is sought.
    fn are_sought(&self, clause: &[u32]) -> bool {
        clause.iter().all(|literal| self.sought.get(*literal as usize) == Some(&self.searches))
    }

    /// The number of a clause with these literals in any order, if there is one, which is no longer here then.
    pub(crate) fn remove(&mut self, clause: &[u32], clauses: &[Vec<u32>]) -> Option<u32> {
        self.seek(clause);
        let hash = hash_of(clause);
        let chain = self.chain(hash);
        let mut before = END;
        let mut number = self.heads.get(chain).copied()?;
        for _ in 0..self.entries.len() {
            let entry = self.entries.get(number as usize).copied()?;
            let found = clauses.get(number as usize)?;
            if entry.hash == hash
                && found.len() == clause.len()
                && self.are_sought(found.as_slice())
            {
                if let Some(earlier) = self.entries.get_mut(before as usize) {
                    earlier.next = entry.next;
                } else if let Some(head) = self.heads.get_mut(chain) {
                    *head = entry.next;
                }
                return Some(number);
            }
            before = number;
            number = entry.next;
        }
        None
    }
}
