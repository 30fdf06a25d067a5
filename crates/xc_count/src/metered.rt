//! Linked tables that tell how much work their moves were.
ghost use Rattle.std.specs.Prelude.{◌≡◌};

use std::cell::Cell;
use xc_dance::Links;
use xc_input::Problem;
use xc_moves::{Count, Dance, Full, Move};

/// Of how many options that are committed one is looked at.
pub const SAMPLE: u64 = 29;

/// How many nodes of a count by words take about as long as going over the options that one stands for.
const NODES: u64 = 8;

/// Linked tables that add up how many options their moves go over, as options are committed: of each `SAMPLE`th one, so
/// that a search is hardly slower. What is counted by words without a move is added as options that take as long.
#[derive(Drop)]
pub struct Metered<'a> {
    pub links: Links,
    pub problem: &'a Problem,
    pub gone_over: &'a Cell<u64>,
    /// How many options are committed until one is looked at.
    until_sample: u64,
    ghost same: { links.puzzle ≡ problem.now.puzzle },
}

impl<'a> Metered<'a> {
    /// Tables of this problem, without a move so far.
    pub fn new(links: Links, problem: &'a Problem, gone_over: &'a Cell<u64>) -> Metered<'a>
        requires { links.puzzle ≡ problem.now.puzzle }
        ensures { result.links ≡ links }
    {
        Metered {
            links,
            problem,
            gone_over,
            until_sample: SAMPLE,
        }
    }

    /// How many options a move went over: those of its item's list.
    #[inline(always)]
    fn options_of(&self, m: &Move) -> u64 {
        let (Move::Cover(i) | Move::Purify(i, _)) = m else {
            return 0;
        };
        if *i == 0 || *i > self.problem.items() {
            return 0;
        }
        u64::from(self.links.len(*i))
    }

    /// Adds the options that the moves of a commit went over, which are those from a place of the trail on, and its
    /// share of those of its item: the Cover of the item goes once over the options that are its branches.
    // Taken in, since a call by reference would keep the tables' bases in memory.
    #[inline(always)]
    fn note_moves(&self, from: usize) {
        let moves = self.links.moves();
        let mut sum = self.gone_over.get().wrapping_add(1);
        if from <= moves.len() {
            for m in &moves[from..] {
                sum = sum.wrapping_add(self.options_of(m));
            }
        }
        self.gone_over.set(sum);
    }
}

impl<'a> Dance for Metered<'a> {
    ghost use Rattle.xc_dance.specs.Linked.{dancing_of};

    ghost state = { λ s. dancing_of s.links };

    #[inline(always)]
    fn can(&self, m: &Move) -> bool {
        self.links.can(m)
    }

    #[inline(always)]
    fn apply(&mut self, m: Move) -> Result<Count, Full> {
        self.links.apply(m)
    }

    #[inline(always)]
    fn make(&mut self, m: Move) -> Count {
        self.links.make(m)
    }

    #[inline(always)]
    fn undo(&mut self) -> Count {
        self.links.undo()
    }

    #[inline(always)]
    fn undo_tweaks(&mut self, k: usize) -> Count {
        self.links.undo_tweaks(k)
    }

    #[inline(always)]
    fn counts_unmoved(&self) -> bool {
        self.links.counts_unmoved()
    }

    #[inline(always)]
    fn note_unmoved(&self, nodes: u64) {
        self.gone_over
            .set(self.gone_over.get().wrapping_add(nodes.div_ceil(NODES)));
    }

    #[inline(always)]
    fn moves(&self) -> &[Move] {
        self.links.moves()
    }

    #[inline(always)]
    fn room(&self) -> usize {
        self.links.room()
    }

    #[inline(always)]
    fn len(&self, i: u32) -> u32 {
        self.links.len(i)
    }

    #[inline(always)]
    fn first(&self, i: u32) -> Option<u32> {
        self.links.first(i)
    }

    #[inline(always)]
    fn below(&self, i: u32, o: u32) -> Option<u32> {
        self.links.below(i, o)
    }

    #[inline(always)]
    fn open_after(&self, i: u32) -> Option<u32> {
        self.links.open_after(i)
    }

    #[inline(always)]
    fn bound(&self, i: u32) -> u32 {
        self.links.bound(i)
    }

    #[inline(always)]
    fn node_below(&self, problem: &Problem, i: u32, place: u32) -> u32 {
        self.links.node_below(problem, i, place)
    }

    #[inline(always)]
    fn option_of(&self, problem: &Problem, i: u32, place: u32) -> u32 {
        self.links.option_of(problem, i, place)
    }

    #[inline(always)]
    fn is_first_at(&self, problem: &Problem, i: u32, place: u32) -> bool {
        self.links.is_first_at(problem, i, place)
    }

    #[inline(always)]
    fn commit(&mut self, problem: &Problem, i: u32, place: u32) {
        let from = self.links.moves().len();
        self.links.commit(problem, i, place);
        self.until_sample = self.until_sample.wrapping_sub(1);
        if self.until_sample == 0 {
            self.until_sample = SAMPLE;
            self.note_moves(from);
        }
    }
}
