//! A dance of a caller's own, and the calls that a search makes of it. A move that is undone leaves nothing that a
//! contract sees.
ghost use Rattle.std.specs.Prelude.{◌≡◌, ◌<◌, ◌↔◌, ◌∷◌, length, drop, IsOk, OnOk, OnErr, IfSome, []};
ghost use Rattle.xc_moves.specs.Moves.{IsLegal, AreTweaks};
ghost use Rattle.xc_dance.specs.Linked.{dancing_of};
ghost use Rattle.xc_search.specs.Room.{room_for};

use library_tests::fixtures::{ALONE, Wanted, wrong_row};
use std::alloc::Global;
use std::cell::Cell;
use xc_dance::{Count, Dance, Full, Links, Move};
use xc_input::{Kind, Problem};
use xc_search::Search;

/// How often a keeper was called: moves that were made, moves that were undone one by one, and calls that undid tweaks
/// at once.
pub type Calls = [u64; 3];

/// A keeper that passes every call on to linked tables, and counts those that change them.
#[derive(Drop)]
pub struct Counting {
    links: Links,
    made: u64,
    undone: u64,
    at_once: u64,
    /// Whether solutions may be counted without a move, and by how many nodes they were.
    unmoved: bool,
    nodes: Cell<u64>,
}

impl Dance for Counting {
    ghost use Rattle.xc_dance.specs.Linked.{dancing_of};

    ghost state = { λ s. dancing_of s.links };

    fn can(&self, m: &Move) -> bool {
        self.links.can(m)
    }

    fn apply(&mut self, m: Move) -> Result<Count, Full> {
        let count = self.links.apply(m)?;
        self.made = self.made.saturating_add(1);
        Ok(count)
    }

    fn undo(&mut self) -> Count {
        self.undone = self.undone.saturating_add(1);
        self.links.undo()
    }

    fn undo_tweaks(&mut self, k: usize) -> Count {
        self.at_once = self.at_once.saturating_add(1);
        self.links.undo_tweaks(k)
    }

    fn moves(&self) -> &[Move] {
        self.links.moves()
    }

    fn room(&self) -> usize {
        self.links.room()
    }

    fn len(&self, i: u32) -> u32 {
        self.links.len(i)
    }

    fn first(&self, i: u32) -> Option<u32> {
        self.links.first(i)
    }

    fn below(&self, i: u32, o: u32) -> Option<u32> {
        self.links.below(i, o)
    }

    fn open_after(&self, i: u32) -> Option<u32> {
        self.links.open_after(i)
    }

    fn bound(&self, i: u32) -> u32 {
        self.links.bound(i)
    }

    fn counts_unmoved(&self) -> bool {
        self.unmoved
    }

    fn note_unmoved(&self, nodes: u64) {
        self.nodes.set(self.nodes.get().saturating_add(nodes));
    }
}

/// The calls that a keeper counted.
pub fn calls(counting: &Counting) -> Calls {
    [counting.made, counting.undone, counting.at_once]
}

/// A keeper for a search.
pub fn keeper(alloc: Global, problem: &Problem) -> Option<Counting>
    ensures same { IfSome result (λ k. (dancing_of k.links).puzzle ≡ problem.now.puzzle) }
    ensures none { IfSome result (λ k. (dancing_of k.links).trail ≡ []) }
    ensures room { IfSome result (λ k. (dancing_of k.links).room ≡ room_for problem.now.puzzle) }
{
    match Links::for_search(alloc, problem) {
        Ok(links) => Some(Counting {
            links,
            made: 0,
            undone: 0,
            at_once: 0,
            unmoved: false,
            nodes: Cell::new(0),
        }),
        Err(_) => None,
    }
}

/// The calls of a search that goes on so often by so many solutions, and is closed.
pub fn calls_of_search(alloc: Global, problem: &Problem, steps: u64, many: u64) -> Option<Calls> {
    let mut search = Search::new(alloc, keeper(alloc, problem)?, problem).ok()?;
    for _ in 0..steps {
        let _ = search.pass(many);
    }
    Some(calls(&search.close()))
}

/// How often a search goes on, by how many solutions, and its calls.
struct Moves(u64, u64, Calls);

const SEARCHES: [(Kind, &[u8], Moves); 12] = [
    // The first level makes a tweak before each of its first two branches, the second level one where an option is left
    // for it (docs/SEARCH.md), and each level undoes its tweaks at once.
    (Kind::Bounds, ALONE, Moves(0, 1, [0, 0, 0])),
    (Kind::Bounds, ALONE, Moves(1, 1, [5, 3, 2])),
    (Kind::Bounds, ALONE, Moves(2, 1, [5, 3, 2])),
    (Kind::Bounds, ALONE, Moves(3, 1, [8, 5, 2])),
    (Kind::Bounds, ALONE, Moves(4, 1, [9, 6, 2])),
    (Kind::Bounds, ALONE, Moves(5, 1, [9, 6, 2])),
    // A search that is done makes no move.
    (Kind::Bounds, ALONE, Moves(9, 1, [9, 6, 2])),
    (Kind::Plain, PAIRS_OF_4, Moves(9, 1, [20, 20, 0])),
    // A level spends and covers its item, and each branch the other item of its option: 2 + 3 * (2 + 2 + 2) moves for
    // four items, and 2 + 5 * (2 + 2 + 3 * (2 + 2 + 2)) for six.
    (Kind::Plain, PAIRS_OF_4, Moves(4, 1, [20, 20, 0])),
    (Kind::Plain, PAIRS_OF_6, Moves(16, 1, [112, 112, 0])),
    // Where solutions are passed over, the last level and its branch are left out, but below the first solution, which is
    // reached: 4 moves of each of the two and 14 others.
    (Kind::Plain, PAIRS_OF_4, Moves(1, u64::MAX, [12, 12, 0])),
    (Kind::Plain, PAIRS_OF_6, Moves(1, u64::MAX, [56, 56, 0])),
];

/// An option for each two of four items, and of six. The first level is that of `a`, and each choice leaves two items
/// fewer, each two of them in an option.
const PAIRS_OF_4: &[u8] = b"a b c d\na b\na c\na d\nb c\nb d\nc d\n";

const PAIRS_OF_6: &[u8] =
    b"a b c d e f\na b\na c\na d\na e\na f\nb c\nb d\nb e\nb f\nc d\nc e\nc f\nd e\nd f\ne f\n";

impl Wanted for Moves {
    fn is_so(&self, alloc: Global, problem: &Problem) -> bool {
        calls_of_search(alloc, problem, self.0, self.1) == Some(self.2)
    }
}

#[test]
fn calls_of_searches(rt: HostRuntime) {
    assert_eq!(rt; wrong_row(rt.alloc(), &SEARCHES), None);
}

/// How many solutions are passed over at once, by how many moves, and by how many nodes without a move.
#[derive(Clone, Copy, Debug, PartialEq, Eq)]
struct Unmoved(u64, u64, u64);

const UNMOVED: [(Kind, &[u8], Unmoved); 2] = [
    // The first level makes 2 moves and each of its branches 2. Below it four items have 4 nodes, two items one.
    (Kind::Plain, PAIRS_OF_4, Unmoved(3, 8, 3)),
    (Kind::Plain, PAIRS_OF_6, Unmoved(15, 12, 20)),
];

/// What a search makes that passes over all solutions, and may count them without a move.
fn count_unmoved(alloc: Global, problem: &Problem) -> Option<Unmoved> {
    let mut keeper = keeper(alloc, problem)?;
    keeper.unmoved = true;
    let mut search = Search::new(alloc, keeper, problem).ok()?;
    let passed = search.pass(u64::MAX);
    let keeper = search.close();
    Some(Unmoved(passed, keeper.made, keeper.nodes.get()))
}

impl Wanted for Unmoved {
    fn is_so(&self, alloc: Global, problem: &Problem) -> bool {
        count_unmoved(alloc, problem) == Some(*self)
    }
}

#[test]
fn counts_without_moves(rt: HostRuntime) {
    assert_eq!(rt; wrong_row(rt.alloc(), &UNMOVED), None);
}
