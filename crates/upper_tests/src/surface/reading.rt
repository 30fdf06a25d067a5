//! The calls and types of `xc_input`, each by its signature.
ghost use Rattle.std.specs.Prelude.{◌≡◌, ◌≤◌, ◌<◌, false, length};
ghost use Rattle.xc_input.specs.Problem.{IsItem, IsOption};
ghost use Rattle.xc_text.specs.Words.{has};

use std::alloc::Global;
use xc_input::{
    FaultKind, Feed, InputError, Item, Kind, Problem, Read, ReadFailed, Reader, Source, Use,
    read_problem,
};

fn numbers(problem: &Problem) -> (u32, u32, u32, u32) {
    (
        problem.items(),
        problem.primary(),
        problem.options(),
        problem.colours(),
    )
}

fn item(problem: &Problem, i: u32) -> &Item
    requires { IsItem problem.now.puzzle i }
{
    problem.item(i)
}

fn option(problem: &Problem, o: u32) -> &[Use]
    requires { IsOption problem.now.puzzle o }
{
    problem.option(o)
}

fn colour(problem: &Problem, c: u32) -> &[u8]
    requires { (1 ≤ c) × (c ≤ length problem.now.colours) }
{
    problem.colour(c)
}

fn parts_of_item(item: &Item) -> (&Vec<u8>, u32, u32) {
    (&item.name, item.low, item.high)
}

fn parts_of_use(u: &Use) -> (u32, u32) {
    (u.item, u.colour)
}

fn new_reader(alloc: Global, kind: Kind) -> Reader {
    Reader::new(alloc, kind)
}

fn line(reader: &mut Reader, line: &[u8]) -> Result<(), InputError>
    requires { has 10 line.now ≡ false }
{
    reader.line(line)
}

fn finish(reader: Reader) -> Result<Read, InputError> {
    reader.finish()
}

fn parts_of_read(read: Read) -> (Problem, Vec<u64>) {
    let Read { problem, ignored } = read;
    (problem, ignored)
}

fn feed(bytes: &[u8], step: usize, fail_at: Option<u64>) -> Feed<'_>
    requires { 0 < step }
{
    Feed::new(bytes, step, fail_at)
}

fn read<S: Source>(source: &mut S, buf: &mut [u8]) -> Result<usize, ReadFailed>
    requires { 0 < length buf.old }
{
    source.read(buf)
}

fn problem_of<S: Source>(alloc: Global, kind: Kind, source: &mut S) -> Result<Read, InputError> {
    read_problem(alloc, kind, source)
}

fn number_of_kind(kind: Kind) -> u8 {
    match kind {
        Kind::Plain => 1,
        Kind::Colours => 2,
        Kind::Bounds => 3,
    }
}

fn line_of(error: InputError) -> Option<u64> {
    match error {
        InputError::Fault { line, kind: _ } => Some(line),
        InputError::Device => None,
        InputError::Memory => None,
    }
}

fn number_of_fault(kind: FaultKind) -> u8 {
    match kind {
        FaultKind::NoItems => 1,
        FaultKind::NulByte => 2,
        FaultKind::EmptyName => 3,
        FaultKind::NameTooLong => 4,
        FaultKind::BadByteInName => 5,
        FaultKind::RepeatedName => 6,
        FaultKind::TwoBars => 7,
        FaultKind::BadBound => 8,
        FaultKind::BoundOrder => 9,
        FaultKind::BoundOnSecondary => 10,
        FaultKind::UnknownItem => 11,
        FaultKind::RepeatedInOption => 12,
        FaultKind::ColourOnPrimary => 13,
        FaultKind::BadColour => 14,
        FaultKind::ColourNotHere => 15,
        FaultKind::TooManyItems => 16,
        FaultKind::TooManyUses => 17,
    }
}
