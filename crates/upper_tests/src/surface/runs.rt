//! The calls of `xc_tools`, each by its signature.
use std::alloc::Global;
use xc_input::{Kind, Source};
use xc_list::Sink;
use xc_tools::{judge, solve};

fn solved<S: Source, O: Sink, E: Sink>(
    alloc: Global,
    kind: Kind,
    words: &[Vec<u8>],
    input: &mut S,
    out: &mut O,
    err: &mut E,
) -> u8 {
    solve(alloc, kind, words, input, out, err)
}

fn judged<P: Source, L: Source, O: Sink, E: Sink>(
    alloc: Global,
    words: &[Vec<u8>],
    problem: &mut P,
    listing: &mut L,
    out: &mut O,
    err: &mut E,
) -> u8 {
    judge(alloc, words, problem, listing, out, err)
}
