//! The items that an order may take next, of which it takes the best.
//!
//! An item is put in again when it got better, and what was put in before is passed over when it comes. So the next one
//! is found in few steps, however many there are.

ghost use Rattle.std.specs.Prelude.{◌≡◌, ◌+◌, length, IfSome};
ghost use Rattle.std.specs.BinaryHeap.{heap_len};

use crate::errors::CountError;
use crate::narrow::values::{set_value, value_at};
use crate::order::filled;
use std::alloc::Global;
use std::cmp::Reverse;
use std::collections::BinaryHeap;

/// An item, after what decides whether it is to be taken before another: how many items near it are not reached, and
/// when one near it was reached first.
#[derive(Clone, Copy, PartialEq, Eq, PartialOrd, Ord, Drop)]
pub struct Candidate {
    pub fresh: u32,
    pub since: u32,
    pub item: u32,
}

/// The items that an order may take next.
#[derive(Drop)]
pub struct Queue {
    candidates: BinaryHeap<Reverse<Candidate>>,
    /// The items that changed since the last one was taken.
    changed: Vec<u32>,
    /// For each item 1 where it is one of these.
    noted: Vec<u32>,
}

impl Queue {
    /// A queue of nothing, for so many items.
    pub fn new(alloc: Global, items: u32) -> Result<Queue, CountError> {
        Ok(Queue {
            candidates: BinaryHeap::with_capacity(alloc, items as usize)?,
            changed: Vec::with_capacity(alloc, items as usize)?,
            noted: filled(alloc, items as usize, 0)?,
        })
    }

    /// Notes that an item changed.
    pub fn note(&mut self, item: u32) -> Result<(), CountError> {
        if value_at(self.noted.as_slice(), item) == 0 {
            set_value(&mut self.noted, item, 1);
            self.changed.push(item)?;
        }
        Ok(())
    }

    /// An item that changed, taken off.
    pub fn pop_changed(&mut self) -> Option<u32>
        ensures { IfSome result (λ _. length self.new.changed.items + 1 ≡ length self.old.changed.items) }
    {
        let item = self.changed.pop()?;
        set_value(&mut self.noted, item, 0);
        Some(item)
    }

    /// Puts a candidate in.
    pub fn push(&mut self, candidate: Candidate) -> Result<(), CountError>
        ensures { self.new.changed.items ≡ self.old.changed.items }
    {
        self.candidates.push(Reverse(candidate))?;
        Ok(())
    }

    /// The best candidate, taken off.
    pub fn pop(&mut self) -> Option<Candidate>
        ensures { IfSome result (λ _. heap_len self.new.candidates + 1 ≡ heap_len self.old.candidates) }
    {
        match self.candidates.pop() {
            Some(Reverse(candidate)) => Some(candidate),
            None => None,
        }
    }
}
