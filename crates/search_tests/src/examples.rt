//! The programs of the first page of `helgrothy`, as they are run.
use std::alloc::Global;
use std::test::Fail;
use xc_dance::Links;
use xc_input::{Kind, Problem, SliceSource, read_problem};
use xc_list::{VecSink, Words, check, run};
use xc_search::Search;

const TEXT: &[u8] = b"a b c d e f g\nc e\na d g\nb c f\na d f\nb g\nd e g\n";

fn next_cover(alloc: Global, search: &mut Search<Links>) -> Result<Option<Vec<u32>>, Fail> {
    let Some(choices) = search.next_solution() else {
        return Ok(None);
    };
    Ok(Some(choices.iter().filter_map(|c| c.option).collect(alloc)?))
}

fn first_cover(alloc: Global, problem: &Problem) -> Result<Option<Vec<u32>>, Fail> {
    let links = Links::for_search(alloc, problem)?;
    let mut search = Search::begin(alloc, links, problem)?;
    next_cover(alloc, &mut search)
}

fn count(alloc: Global, problem: &Problem, limit: u64) -> Result<u64, Fail> {
    let words = Words { spacing: 0, limit };
    let end = run(alloc, problem, words, &mut VecSink::new(alloc))?;
    Ok(end.solutions())
}

fn are_covers(alloc: Global, problem: &Problem, listing: &[u8]) -> Result<bool, Fail> {
    let verdicts = check(alloc, problem, listing)?;
    Ok(verdicts.iter().all(|v| v.cover))
}

/// Whether they find what is known of a problem of one cover.
fn are_right(alloc: Global, problem: &Problem) -> Result<bool, Fail> {
    let listing: &[u8] = b"1:\n a d f (2 of 2)\n b g (1 of 1)\n c e (1 of 1)\n";
    if count(alloc, problem, 10)? != 1 || !are_covers(alloc, problem, listing)? {
        return Ok(false);
    }
    Ok(match first_cover(alloc, problem)? {
        Some(options) => options.as_slice() == [4u32, 5, 1].as_slice(),
        None => false,
    })
}

/// Whether they do so of the problem of `TEXT`.
fn are_right_of_the_text(alloc: Global) -> Result<bool, Fail> {
    match read_problem(alloc, Kind::Bounds, &mut SliceSource::new(TEXT)) {
        Ok(read) => are_right(alloc, &read.problem),
        Err(_) => Ok(false),
    }
}

#[test]
fn the_programs_of_the_first_page(rt: HostRuntime) -> Result<(), Fail> {
    assert!(rt; are_right_of_the_text(rt.alloc())?);
    Ok(())
}
