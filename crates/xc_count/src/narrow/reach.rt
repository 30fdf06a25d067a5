//! How far an order has come, and which item it takes next.

use crate::errors::CountError;
use crate::narrow::near::uses_of;
use crate::narrow::queue::{Candidate, Queue};
use crate::narrow::values::{add_one, list_of, set_value, take_one, value_at};
use crate::order::filled;
use std::alloc::Global;
use xc_input::Problem;

/// The most open items that a cost tells apart.
const MOST_OPEN: u32 = 110;

/// How many steps it takes to put an item into the queue and to take it off, about.
const QUEUE_STEPS: u64 = 20;

/// How far an order has come.
#[derive(Drop)]
pub struct Reach {
    pub order: Vec<u32>,
    /// For each item 1 where the order has it.
    taken: Vec<u32>,
    /// For each option 1 where the order has one of its items.
    dead: Vec<u32>,
    /// For each item how many of its options are not dead.
    live: Vec<u32>,
    /// For each item 1 where the order has an item near it.
    reached: Vec<u32>,
    /// For each item how many near it are not reached.
    fresh: Vec<u32>,
    /// For each item how many near it are reached, and primary or in an option that is not dead.
    pulls: Vec<u32>,
    /// For each item when one near it was reached first.
    since: Vec<u32>,
    /// The items that are left and near one that was reached.
    queue: Queue,
    /// The order has each item up to this one.
    passed: u32,
    /// How many items were reached.
    clock: u32,
    /// How many of these have an option that is not dead.
    open: u32,
    /// The sum, over the places so far, of 2 to the number of open items.
    pub cost: u128,
    /// How many steps it took.
    pub steps: u64,
}

/// Counts the elements of each list.
fn lengths(alloc: Global, lists: &[Vec<u32>]) -> Result<Vec<u32>, CountError> {
    let mut lengths = Vec::with_capacity(alloc, lists.len())?;
    for list in lists {
        lengths.push(u32::try_from(list.len()).unwrap_or(u32::MAX))?;
    }
    Ok(lengths)
}

impl Reach {
    /// An order of nothing.
    pub fn new(
        alloc: Global,
        problem: &Problem,
        holders: &[Vec<u32>],
        near: &[Vec<u32>],
    ) -> Result<Reach, CountError> {
        let many = problem.items() as usize;
        Ok(Reach {
            order: Vec::with_capacity(alloc, problem.primary() as usize)?,
            taken: filled(alloc, many, 0)?,
            dead: filled(alloc, problem.options() as usize, 0)?,
            live: lengths(alloc, holders)?,
            reached: filled(alloc, many, 0)?,
            fresh: lengths(alloc, near)?,
            pulls: filled(alloc, many, 0)?,
            since: filled(alloc, many, u32::MAX)?,
            queue: Queue::new(alloc, problem.items())?,
            passed: 0,
            clock: 0,
            open: 0,
            cost: 0,
            steps: u64::from(problem.items()) + u64::from(problem.options()),
        })
    }

    /// Notes that an item is reached.
    fn reach(&mut self, primary: u32, near: &[u32], item: u32) -> Result<(), CountError> {
        set_value(&mut self.reached, item, 1);
        let is_live = value_at(self.live.as_slice(), item) > 0;
        if is_live {
            self.open = self.open.saturating_add(1);
        }
        for x in near {
            take_one(&mut self.fresh, *x);
            if value_at(self.since.as_slice(), *x) > self.clock {
                set_value(&mut self.since, *x, self.clock);
            }
            if is_live || item <= primary {
                add_one(&mut self.pulls, *x);
            }
            if *x <= primary {
                self.queue.note(*x)?;
            }
        }
        self.clock = self.clock.saturating_add(1);
        self.steps = self.steps.saturating_add(near.len() as u64);
        Ok(())
    }

    /// Notes that an item has no option any more that is not dead.
    fn lose(&mut self, primary: u32, near: &[u32], item: u32) {
        if value_at(self.reached.as_slice(), item) == 0 {
            return;
        }
        self.open = self.open.saturating_sub(1);
        if item > primary {
            for x in near {
                take_one(&mut self.pulls, *x);
            }
            self.steps = self.steps.saturating_add(near.len() as u64);
        }
    }

    /// Notes that an option is dead.
    fn kill(&mut self, problem: &Problem, near: &[Vec<u32>], option: u32) {
        if value_at(self.dead.as_slice(), option) > 0 {
            return;
        }
        set_value(&mut self.dead, option, 1);
        let uses = uses_of(problem, option);
        self.steps = self.steps.saturating_add(uses.len() as u64);
        for u in uses {
            take_one(&mut self.live, u.item);
            if value_at(self.live.as_slice(), u.item) == 0 {
                self.lose(problem.primary(), list_of(near, u.item), u.item);
            }
        }
    }

    /// Takes an item into the order.
    pub fn take(
        &mut self,
        problem: &Problem,
        holders: &[Vec<u32>],
        near: &[Vec<u32>],
        item: u32,
    ) -> Result<(), CountError> {
        self.order.push(item)?;
        set_value(&mut self.taken, item, 1);
        for option in list_of(holders, item) {
            self.kill(problem, near, *option);
        }
        for x in list_of(near, item) {
            if value_at(self.reached.as_slice(), *x) == 0 {
                self.reach(problem.primary(), list_of(near, *x), *x)?;
            }
        }
        self.cost = self.cost.saturating_add(1 << self.open.min(MOST_OPEN));
        Ok(())
    }

    /// What an item is in the queue, if it may be in it: it is left, and one near it is reached that pulls it.
    fn candidate(&self, item: u32) -> Option<Candidate> {
        if value_at(self.taken.as_slice(), item) > 0 || value_at(self.pulls.as_slice(), item) == 0 {
            return None;
        }
        Some(Candidate {
            fresh: value_at(self.fresh.as_slice(), item),
            since: value_at(self.since.as_slice(), item),
            item,
        })
    }

    /// Puts the items that changed into the queue.
    fn queue_changed(&mut self) -> Result<(), CountError> {
        while let Some(item) = self.queue.pop_changed() {
            if let Some(candidate) = self.candidate(item) {
                self.queue.push(candidate)?;
                self.steps = self.steps.saturating_add(QUEUE_STEPS);
            }
        }
        Ok(())
    }

    /// The first item that is left.
    fn first_left(&mut self, primary: u32) -> Option<u32> {
        while self.passed < primary {
            if value_at(self.taken.as_slice(), self.passed + 1) == 0 {
                return Some(self.passed + 1);
            }
            self.passed += 1;
        }
        None
    }

    /// The item to be taken next, if one is left.
    pub fn next(&mut self, primary: u32) -> Result<Option<u32>, CountError> {
        self.queue_changed()?;
        while let Some(candidate) = self.queue.pop() {
            if self.candidate(candidate.item) == Some(candidate) {
                return Ok(Some(candidate.item));
            }
        }
        Ok(self.first_left(primary))
    }
}
