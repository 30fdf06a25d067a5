//! The calls and types of `xc_list`, each by its signature.
ghost use Rattle.std.specs.Prelude.{◌≡◌, ◌≤◌, ◌<◌, All, []};
ghost use Rattle.xc_list.specs.Known.{IsKnownChoice};
ghost use Rattle.xc_search.specs.Room.{room_for};

use std::alloc::Global;
use xc_dance::{Dance, Memory};
use xc_input::{Problem, Read};
use xc_list::{
    End, ListingFault, Sink, SinkFault, Tray, Verdict, WordFault, Words, WriteFailed, check, run,
    run_over, summary, warnings, write_solution,
};
use xc_search::Choice;

fn read_words(words: &[Vec<u8>]) -> Result<Words, WordFault> {
    Words::read(words)
}

fn parts_of_words(words: Words) -> (u64, u64) {
    let Words { spacing, limit } = words;
    (spacing, limit)
}

fn place_of(fault: WordFault) -> usize {
    match fault {
        WordFault::Unknown(place) => place,
        WordFault::BadNumber(place) => place,
        WordFault::ZeroLimit(place) => place,
    }
}

fn write<S: Sink>(sink: &mut S, bytes: &[u8]) -> Result<usize, WriteFailed> {
    sink.write(bytes)
}

fn flush<S: Sink>(sink: &mut S) -> Result<(), WriteFailed> {
    sink.flush()
}

fn new_tray(alloc: Global, step: usize, room: usize, zero: bool) -> Result<Tray, Memory>
    requires { 0 < step }
{
    Tray::new(alloc, step, room, zero)
}

fn bytes(tray: &Tray) -> &[u8] {
    tray.bytes()
}

fn text_of_solution<S: Sink>(
    number: u64,
    choices: &[Choice],
    problem: &Problem,
    sink: &mut S,
) -> Result<(), SinkFault>
    requires { All (IsKnownChoice problem.now.puzzle) choices.now }
{
    write_solution(number, choices, problem, sink)
}

fn last_line<S: Sink>(end: &End, sink: &mut S) -> Result<(), SinkFault> {
    summary(end, sink)
}

fn first_lines<S: Sink>(read: &Read, sink: &mut S) -> Result<(), SinkFault> {
    warnings(read, sink)
}

fn has_failed(fault: SinkFault) -> bool {
    match fault {
        SinkFault::Failed => true,
    }
}

fn solutions_of(end: End) -> u64 {
    match end {
        End::Done(solutions) => solutions,
        End::Limit(solutions) => solutions,
        End::WriteFailed(solution) => solution,
    }
}

fn ran_over<D: Dance, S: Sink>(
    alloc: Global,
    dance: D,
    problem: &Problem,
    words: Words,
    sink: &mut S,
) -> (D, Result<End, Memory>)
    requires same { (D.state dance).puzzle ≡ problem.now.puzzle }
    requires none { (D.state dance).trail ≡ [] }
    requires room { room_for problem.now.puzzle ≤ (D.state dance).room }
{
    run_over(alloc, dance, problem, words, sink)
}

fn ran<S: Sink>(
    alloc: Global,
    problem: &Problem,
    words: Words,
    sink: &mut S,
) -> Result<End, Memory> {
    run(alloc, problem, words, sink)
}

fn judged(alloc: Global, problem: &Problem, listing: &[u8]) -> Result<Vec<Verdict>, ListingFault> {
    check(alloc, problem, listing)
}

fn parts_of_verdict(verdict: Verdict) -> (u64, bool) {
    let Verdict { number, cover } = verdict;
    (number, cover)
}

fn line_of(fault: ListingFault) -> Option<u64> {
    match fault {
        ListingFault::BadLine(line) => Some(line),
        ListingFault::UnknownOption(line) => Some(line),
        ListingFault::Memory => None,
    }
}
