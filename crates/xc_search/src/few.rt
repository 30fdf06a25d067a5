//! What is left of a problem, where it is little, counted by words of bits without a move.
mod bounded;
mod collecting;
mod filling;
mod wanted;

ghost use Rattle.std.specs.Prelude.{ℕ, ◌≡◌, ◌<◌, ◌≤◌, ◌+◌, ◌^◌, ◌-◌, length, take, true, IfSome};
ghost use Rattle.xc_input.specs.Problem.{item_count};
ghost use Rattle.xc_moves.specs.Moves.{open_items};
ghost use Rattle.xc_search.specs.Listing.{listing};
ghost use Rattle.xc_search.specs.inner.Filled.{HasColourRoom};
ghost use Rattle.xc_search.specs.Once.{IsOnce};
ghost use Rattle.xc_search.specs.inner.Levels.{IsSearchable, residual_of};

use crate::counts::count_primary;
use crate::few::bounded::fill_bounded;
use crate::few::collecting::{Items, collect_items, collect_options};
use crate::few::filling::fill;
use crate::few::wanted::{Survey, collect_watched, survey_items};
use std::alloc::{AllocError, Global};
use xc_input::Problem;
use xc_moves::Dance;
use xc_words::{BoundedWords, MOST, Words, count_bounded, count_left};

/// The most nodes that a count may visit for the solutions that are still to be passed over. Without it a count below a
/// search of all of them would have no bound.
const MOST_NODES: u64 = 1 << 18;

/// Where what is left is gathered, and hints from how many levels on it is little.
#[derive(Drop)]
pub struct Few {
    words: Words,
    bounded: BoundedWords,
    /// The open items, by their bits.
    items: [u32; 64],
    /// The options that are left, by their bits.
    options: [u32; 64],
    /// By item, the options that hold it.
    holders: Vec<u64>,
    /// By item and colour, if there are colours, the options that give the item this colour.
    coloured: Vec<u64>,
    /// From how many levels on it is tried.
    from: usize,
    /// How many primary items an option holds, about.
    each: usize,
    /// How many tries are still passed over, and how many were after the last count.
    wait: usize,
    pause: usize,
    /// Below how many levels the last count was.
    last: usize,
    /// How many nodes may still be visited.
    credit: u64,
    ghost some: { 0 < each },
    ghost few: { each ≤ 64 },
}

impl Few {
    /// Room for any problem with as many items and colours, and hints for this one. Each count asks whether there is
    /// room.
    pub fn new(alloc: Global, problem: &Problem) -> Result<Few, AllocError> {
        let holders = vec![in alloc; 0; problem.items() as usize + 1]?;
        let coloured = vec![in alloc; 0; coloured_len(problem)]?;
        Ok(Few {
            words: Words::new(),
            bounded: BoundedWords::new(),
            items: [0; 64],
            options: [0; 64],
            holders,
            coloured,
            from: 1,
            each: most_held(problem),
            wait: 0,
            pause: 0,
            last: 0,
            credit: u64::MAX,
        })
    }

    /// Bounds the nodes that are visited from now on in all, for a run that is bounded itself.
    pub fn allow(&mut self, nodes: u64) {
        self.credit = nodes;
    }

    /// Whether it is tried below so many levels.
    #[inline(always)]
    pub fn is_tried(&mut self, depth: usize) -> bool {
        if depth < self.from || self.credit == 0 {
            return false;
        }
        if self.wait > 0 {
            self.wait -= 1;
            return false;
        }
        true
    }

    /// Notes that there was too much below so many levels, by so many open items.
    fn pass_by(&mut self, depth: usize, beside: usize)
        ensures { self.new.credit ≡ self.old.credit }
    {
        self.from = depth.saturating_add((beside / self.each).max(1));
    }

    /// Notes that a count below so many levels, over so many options, took so many nodes. Where these are few, moves
    /// would have taken as long: then a level higher is tried, and where that was too much, the next tries are passed
    /// over, four times as many as before and three, up to 255.
    fn weigh(&mut self, depth: usize, nodes: u64, options: usize)
        ensures { self.new.credit ≡ self.old.credit }
    {
        if nodes >= options as u64 / 2 {
            self.pause = 0;
        } else {
            self.pause = if depth < self.last {
                0
            } else {
                self.pause.min(63) * 4 + 3
            };
            if depth > 1 {
                self.from = depth - 1;
            }
        }
        self.last = depth;
        self.wait = self.pause;
    }

    /// How many solutions what is left has, if it is little, and they are no more than `most`.
    pub fn count<D: Dance>(
        &mut self,
        dance: &D,
        problem: &Problem,
        depth: usize,
        most: u64,
    ) -> Option<u64>
        requires same { (D.state dance.now).puzzle ≡ problem.now.puzzle }
        requires once { IsOnce problem.now.puzzle }
        requires searchable { IsSearchable problem.now.puzzle (D.state dance.now).trail }
        requires some { 0 < most }
        ensures counted { IfSome result (λ n.
            n ≡ length (listing (residual_of problem.now.puzzle (D.state dance.now).trail))) }
        ensures within { IfSome result (λ n. n ≤ most) }
    {
        if !self.has_room(problem) {
            return None;
        }
        match collect_items(dance, &mut self.items, self.each * MOST) {
            Items::All(items) => self.count_items(dance, problem, items, depth, most),
            Items::Dead => Some(0),
            Items::TooMany(beside) => {
                self.pass_by(depth, beside);
                None
            }
        }
    }

    /// The same, where the open items are the first so many of those that were collected.
    #[inline(always)]
    fn count_items<D: Dance>(
        &mut self,
        dance: &D,
        problem: &Problem,
        items: usize,
        depth: usize,
        most: u64,
    ) -> Option<u64>
        requires same { (D.state dance.now).puzzle ≡ problem.now.puzzle }
        requires once { IsOnce problem.now.puzzle }
        requires searchable { IsSearchable problem.now.puzzle (D.state dance.now).trail }
        requires some { 0 < most }
        requires room { item_count problem.now.puzzle < length self.old.holders.items }
        requires colour_room { HasColourRoom problem.now (length self.old.coloured.items) }
        requires few { items ≤ 64 }
        requires opened { take items self.old.items ≡ open_items problem.now.puzzle (D.state dance.now).trail }
        ensures counted { IfSome result (λ n.
            n ≡ length (listing (residual_of problem.now.puzzle (D.state dance.now).trail))) }
        ensures within { IfSome result (λ n. n ≤ most) }
    {
        let Some(options) = collect_options(dance, problem, &mut self.options) else {
            self.pass_by(depth, 0);
            return None;
        };
        let most_nodes = self.most_nodes(most);
        let items = &self.items[..items];
        let options = &self.options[..options];
        fill(
            problem,
            items,
            options,
            self.holders.as_mut_slice(),
            self.coloured.as_mut_slice(),
            &mut self.words,
        );
        let many = options.len();
        let mut budget = most_nodes;
        let found = count_left(
            &self.words,
            full(many),
            full(items.len()),
            most,
            &mut budget,
        );
        self.note_count(dance, depth, many, most_nodes - budget, found.is_some());
        found
    }

    /// How many solutions what is left has, if it is little, and they are no more than `most`, where items may be held
    /// within bounds.
    pub fn count_within<D: Dance>(
        &mut self,
        dance: &D,
        problem: &Problem,
        depth: usize,
        most: u64,
    ) -> Option<u64>
        requires same { (D.state dance.now).puzzle ≡ problem.now.puzzle }
        requires searchable { IsSearchable problem.now.puzzle (D.state dance.now).trail }
        requires some { 0 < most }
        ensures counted { IfSome result (λ n.
            n ≡ length (listing (residual_of problem.now.puzzle (D.state dance.now).trail))) }
        ensures within { IfSome result (λ n. n ≤ most) }
    {
        if !self.has_room(problem) {
            return None;
        }
        match survey_items(dance, problem, self.each * MOST) {
            Survey::Few => self.count_watched(dance, problem, depth, most),
            Survey::Dead => Some(0),
            Survey::TooMany(beside) => {
                self.pass_by(depth, beside);
                None
            }
        }
    }

    /// The same, where few items have to be held.
    #[inline(always)]
    fn count_watched<D: Dance>(
        &mut self,
        dance: &D,
        problem: &Problem,
        depth: usize,
        most: u64,
    ) -> Option<u64>
        requires same { (D.state dance.now).puzzle ≡ problem.now.puzzle }
        requires searchable { IsSearchable problem.now.puzzle (D.state dance.now).trail }
        requires some { 0 < most }
        requires room { item_count problem.now.puzzle < length self.old.holders.items }
        requires colour_room { HasColourRoom problem.now (length self.old.coloured.items) }
        ensures counted { IfSome result (λ n.
            n ≡ length (listing (residual_of problem.now.puzzle (D.state dance.now).trail))) }
        ensures within { IfSome result (λ n. n ≤ most) }
    {
        let Some(options) = collect_options(dance, problem, &mut self.options) else {
            self.pass_by(depth, 0);
            return None;
        };
        let Some(items) = collect_watched(dance, problem, options, &mut self.items) else {
            self.pass_by(depth, 0);
            return None;
        };
        let most_nodes = self.most_nodes(most);
        let items = &self.items[..items];
        let options = &self.options[..options];
        fill_bounded(
            dance,
            problem,
            items,
            options,
            self.holders.as_mut_slice(),
            self.coloured.as_mut_slice(),
            &mut self.bounded,
        );
        let many = options.len();
        let mut budget = most_nodes;
        let found = count_bounded(
            &self.bounded,
            full(many),
            full(items.len()),
            most,
            &mut budget,
        );
        self.note_count(dance, depth, many, most_nodes - budget, found.is_some());
        found
    }

    /// Whether there is room for the words of the problem's items and colours.
    fn has_room(&self, problem: &Problem) -> bool
        ensures items { result ≡ true → item_count problem.now.puzzle < length self.now.holders.items }
        ensures colours { result ≡ true → HasColourRoom problem.now (length self.now.coloured.items) }
    {
        self.holders.len() > problem.items() as usize
            && self.coloured.len() >= coloured_len(problem)
    }

    /// How many nodes a count may visit for so many solutions.
    #[inline(always)]
    fn most_nodes(&self, most: u64) -> u64
        ensures { result ≤ self.now.credit }
    {
        ((most / 16).min(MOST_NODES) + 2000).min(self.credit)
    }

    /// Notes that a count below so many levels, over so many options, took so many nodes, and whether it ended.
    #[inline(always)]
    fn note_count<D: Dance>(
        &mut self,
        dance: &D,
        depth: usize,
        options: usize,
        nodes: u64,
        ended: bool,
    )
        requires { nodes ≤ self.old.credit }
        ensures { self.new.credit + nodes ≡ self.old.credit }
    {
        dance.note_unmoved(nodes);
        self.credit -= nodes;
        self.weigh(depth, nodes, options);
        if !ended {
            self.pass_by(depth, 0);
        } else if options <= 32 && depth > 1 {
            self.from = depth - 1;
        }
    }
}

/// How many primary items one of the first options holds at most, from 1 to as many as are counted by words.
fn most_held(problem: &Problem) -> usize
    ensures some { 0 < result }
    ensures few { result ≤ 64 }
{
    let mut each: usize = 1;
    for o in 0..problem.options().min(100) {
        each = each.max(count_primary(problem, problem.option(o + 1)));
    }
    each.min(MOST)
}

/// The word of so many bits.
fn full(n: usize) -> u64
    requires { n ≤ 64 }
    ensures { result ≡ 2 ^ n - 1 }
{
    if n == MOST { u64::MAX } else { (1u64 << n) - 1 }
}

/// Whether items and colours are so few that the words for them take no more than a MiB. A count reads few of them, but
/// all are there from the start.
pub fn are_colours_few(problem: &Problem) -> bool {
    coloured_len(problem) <= 1 << 17
}

/// How many words there are by item and colour.
fn coloured_len(problem: &Problem) -> usize
    ensures { (n : ℕ) → n < 2 ^ 63 → result ≤ n → HasColourRoom problem.now n }
{
    if problem.colours() == 0 {
        return 0;
    }
    (problem.items() as usize + 1).saturating_mul(problem.colours() as usize + 1)
}
