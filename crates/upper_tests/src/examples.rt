//! The functions of `helgrothy::counting`, as they are run.
use library_tests::fixtures::SEVEN;
use std::alloc::Global;
use std::test::Fail;
use xc_count::{count, nth};
use xc_input::{Kind, Problem, SliceSource, read_problem};

fn how_many(alloc: Global, problem: &Problem) -> Result<Vec<u8>, Fail> {
    let covers = count(alloc, problem, 512_000_000)?;
    Ok(covers.to_decimal(alloc)?)
}

fn last_cover(alloc: Global, problem: &Problem) -> Result<Option<Vec<u32>>, Fail> {
    let covers = count(alloc, problem, 512_000_000)?;
    let Some(choices) = nth(alloc, problem, &covers, 512_000_000)? else {
        return Ok(None);
    };
    Ok(Some(choices.iter().filter_map(|c| c.option).collect(alloc)?))
}

/// Whether they find what is known of a problem of one cover.
fn are_right(alloc: Global, problem: &Problem) -> Result<bool, Fail> {
    if how_many(alloc, problem)?.as_slice() != b"1".as_slice() {
        return Ok(false);
    }
    Ok(match last_cover(alloc, problem)? {
        Some(options) => options.as_slice() == [4u32, 5, 1].as_slice(),
        None => false,
    })
}

/// Whether they do so of Knuth's problem of seven items.
fn are_right_of_seven(alloc: Global) -> Result<bool, Fail> {
    match read_problem(alloc, Kind::Bounds, &mut SliceSource::new(SEVEN)) {
        Ok(read) => are_right(alloc, &read.problem),
        Err(_) => Ok(false),
    }
}

#[test]
fn the_functions_of_counting(rt: HostRuntime) -> Result<(), Fail> {
    assert!(rt; are_right_of_seven(rt.alloc())?);
    Ok(())
}
