//! Moves and back, over both keepers: what is there after each move is there again before its undoing.
ghost use Rattle.std.specs.Prelude.{◌≡◌};
ghost use Rattle.xc_input.specs.Problem.{IsItem};

use crate::dance::costs::{make, two_tweaks_at_once, undo};
use crate::dance::keepers::{are_lists, are_open, bound, links, lists, refuses};
use crate::fixtures::{COLOURED, SEVEN, TWICE, read};
use std::alloc::Global;
use std::test::Fail;
use xc_dance::{Dance, Links, Move};
use xc_input::Kind;

/// What is there: the lists of all items, the open primary items, what is left of the upper bound of
/// item 1, and moves that are illegal.
struct State {
    lists: &'static [&'static [u32]],
    open: &'static [u32],
    left: u32,
    illegal: &'static [Move],
}

/// A move, its cost in linked tables, and what is there after it.
struct Step {
    made: Move,
    cost: u64,
    then: State,
}

/// A text with its last item, what is there before any move, and moves.
struct Way {
    text: &'static [u8],
    last: u32,
    start: State,
    steps: &'static [Step],
}

const WAYS: [Way; 3] = [
    // To the solution of the problem with colours.
    Way {
        text: COLOURED,
        last: 5,
        start: State {
            lists: &[&[1, 2, 3], &[1, 4], &[2, 5], &[1, 2, 3, 4], &[1, 2, 5]],
            open: &[1, 2, 3],
            left: 1,
            illegal: &[],
        },
        steps: &[
            Step {
                made: Move::Spend(2),
                cost: 1,
                then: State {
                    lists: &[&[1, 2, 3], &[1, 4], &[2, 5], &[1, 2, 3, 4], &[1, 2, 5]],
                    open: &[1, 2, 3],
                    left: 1,
                    illegal: &[Move::Spend(2)],
                },
            },
            Step {
                made: Move::Cover(2),
                cost: 14,
                then: State {
                    lists: &[&[2, 3], &[1, 4], &[2, 5], &[2, 3], &[2, 5]],
                    open: &[1, 3],
                    left: 1,
                    illegal: &[Move::Cover(2)],
                },
            },
            Step {
                made: Move::Purify(4, 1),
                cost: 5,
                then: State {
                    lists: &[&[2], &[1, 4], &[2, 5], &[2, 3], &[2, 5]],
                    open: &[1, 3],
                    left: 1,
                    illegal: &[
                        Move::Cover(0),
                        Move::Cover(2),
                        Move::Cover(4),
                        Move::Cover(6),
                        Move::Purify(4, 1),
                        Move::Purify(5, 0),
                        Move::Purify(1, 1),
                        Move::Tweak(4),
                        Move::Spend(2),
                        Move::Spend(5),
                    ],
                },
            },
            Step {
                made: Move::Spend(1),
                cost: 1,
                then: State {
                    lists: &[&[2], &[1, 4], &[2, 5], &[2, 3], &[2, 5]],
                    open: &[1, 3],
                    left: 0,
                    illegal: &[],
                },
            },
            Step {
                made: Move::Cover(1),
                cost: 8,
                then: State {
                    lists: &[&[2], &[1, 4], &[5], &[2, 3], &[5]],
                    open: &[3],
                    left: 0,
                    illegal: &[],
                },
            },
            Step {
                made: Move::Spend(3),
                cost: 1,
                then: State {
                    lists: &[&[2], &[1, 4], &[5], &[2, 3], &[5]],
                    open: &[3],
                    left: 0,
                    illegal: &[],
                },
            },
            Step {
                made: Move::Cover(3),
                cost: 5,
                then: State {
                    lists: &[&[2], &[1, 4], &[5], &[2, 3], &[]],
                    open: &[],
                    left: 0,
                    illegal: &[],
                },
            },
            Step {
                made: Move::Cover(5),
                cost: 2,
                then: State {
                    lists: &[&[2], &[1, 4], &[5], &[2, 3], &[]],
                    open: &[],
                    left: 0,
                    illegal: &[],
                },
            },
        ],
    },
    // All tweaks of an item that may be held twice.
    Way {
        text: TWICE,
        last: 2,
        start: State {
            lists: &[&[1, 2], &[2, 3]],
            open: &[1, 2],
            left: 2,
            illegal: &[],
        },
        steps: &[
            Step {
                made: Move::Spend(1),
                cost: 1,
                then: State {
                    lists: &[&[1, 2], &[2, 3]],
                    open: &[1, 2],
                    left: 1,
                    illegal: &[],
                },
            },
            Step {
                made: Move::Tweak(1),
                cost: 3,
                then: State {
                    lists: &[&[2], &[2, 3]],
                    open: &[1, 2],
                    left: 1,
                    illegal: &[],
                },
            },
            Step {
                made: Move::Tweak(1),
                cost: 6,
                then: State {
                    lists: &[&[], &[3]],
                    open: &[1, 2],
                    left: 1,
                    illegal: &[Move::Tweak(1)],
                },
            },
        ],
    },
    // One cover of seven items.
    Way {
        text: SEVEN,
        last: 7,
        start: State {
            lists: &[
                &[2, 4],
                &[3, 5],
                &[1, 3],
                &[2, 4, 6],
                &[1, 6],
                &[3, 4],
                &[2, 5, 6],
            ],
            open: &[1, 2, 3, 4, 5, 6, 7],
            left: 1,
            illegal: &[],
        },
        steps: &[Step {
            made: Move::Cover(1),
            cost: 14,
            then: State {
                lists: &[&[2, 4], &[3, 5], &[1, 3], &[6], &[1, 6], &[3], &[5, 6]],
                open: &[2, 3, 4, 5, 6, 7],
                left: 1,
                illegal: &[Move::Cover(1)],
            },
        }],
    },
];

/// Whether this is there of items 1 to `last`.
fn is_at<D: Dance>(dance: &D, last: u32, state: &State) -> bool
    requires { IsItem (D.state dance.now).puzzle last }
{
    are_lists(dance, last, state.lists)
        && are_open(dance, state.open)
        && bound(dance, 1) == state.left
        && refuses(dance, state.illegal)
}

/// Makes the moves of the steps, and looks at what is there after each.
fn forth<D: Dance>(dance: &mut D, last: u32, steps: &[Step], counts: bool) -> bool
    requires { IsItem (D.state dance.old).puzzle last }
    ensures { (D.state dance.new).puzzle ≡ (D.state dance.old).puzzle }
{
    for step in steps {
        if make(dance, step.made) != Some(if counts { step.cost } else { 0 })
            || !is_at(dance, last, &step.then)
        {
            return false;
        }
    }
    true
}

/// Undoes the moves of the steps, and looks at what is before each undoing.
fn back<D: Dance>(dance: &mut D, last: u32, steps: &[Step], counts: bool) -> bool
    requires { IsItem (D.state dance.old).puzzle last }
    ensures { (D.state dance.new).puzzle ≡ (D.state dance.old).puzzle }
{
    for step in steps.iter().rev() {
        if !is_at(dance, last, &step.then)
            || undo(dance) != Some(if counts { step.cost } else { 0 })
        {
            return false;
        }
    }
    true
}

/// Whether a keeper was made, and goes forth and back, and once more by two tweaks that are undone at
/// once. `counts` says whether it returns its costs.
fn goes<D: Dance + Drop>(made: Option<D>, way: &Way, counts: bool) -> bool {
    match made {
        Some(mut dance) => {
            dance.can(&Move::Cover(way.last))
                && is_at(&dance, way.last, &way.start)
                && forth(&mut dance, way.last, way.steps, counts)
                && dance.moves().len() == way.steps.len()
                && back(&mut dance, way.last, way.steps, counts)
                && two_tweaks_at_once(&mut dance, 1).is_some()
                && is_at(&dance, way.last, &way.start)
                && dance.moves().is_empty()
        }
        None => false,
    }
}

/// Tables with room for each search.
fn for_search(alloc: Global, text: &[u8]) -> Option<Links> {
    let problem = read(alloc, Kind::Bounds, text, 100).ok()?.problem;
    Links::for_search(alloc, &problem).ok()
}

#[test]
fn there_and_back(rt: HostRuntime) -> Result<(), Fail> {
    for (row, way) in WAYS.iter().enumerate() {
        if !goes(links(rt.alloc(), Kind::Bounds, way.text, 8), way, true)
            || !goes(lists(rt.alloc(), Kind::Bounds, way.text, 8), way, false)
            || !goes(for_search(rt.alloc(), way.text), way, true)
        {
            return Err(Fail::new(format_args!("row {row}")));
        }
    }
    Ok(())
}
