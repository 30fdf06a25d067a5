//! What is there for callers: bytes in memory as a source, and names, colours and places of uses.
use crate::fixtures::COLOURED;
use std::alloc::Global;
use xc_input::{Kind, Problem, Seed, SliceSource, Use, place_in, read_problem_by};

/// Whether the last option ends in `y` with the colour `B`, its second use.
fn ends_in_y(problem: &Problem) -> bool {
    let Some([first, used]) = problem.get_option(5) else {
        return false;
    };
    if used.item == 0 || used.item > problem.items() || used.colour > problem.colours() {
        return false;
    }
    let without = Use {
        item: used.item,
        colour: 0,
    };
    problem.name_of(*used) == b"y".as_slice()
        && problem.colour_of(*used) == Some(b"B".as_slice())
        && problem.colour_of(without).is_none()
        && place_in(&[*first, *used], used.item) == 1
}

/// Whether the problem with colours is read by a seed.
fn gives_colours(alloc: Global, seed: Seed) -> bool {
    let mut source = SliceSource::new(COLOURED);
    match read_problem_by(alloc, seed, Kind::Colours, &mut source) {
        Ok(read) => ends_in_y(&read.problem),
        Err(_) => false,
    }
}

#[test]
fn a_slice_is_read_by_each_seed(rt: HostRuntime) {
    let seed = Seed::new(0x1234_5678_9abc_def0);
    assert!(rt; gives_colours(rt.alloc(), Seed::FIXED));
    assert!(rt; gives_colours(rt.alloc(), seed));
}
