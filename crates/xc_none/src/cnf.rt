//! The clauses of a problem as text, for SAT engines.
ghost use Rattle.std.specs.Prelude.{◌++◌, codes, flat_map};
ghost use Rattle.std.specs.List.{enumerate_from};
ghost use Rattle.xc_text.specs.Texts.{Writes};
ghost use Rattle.xc_none.specs.Cnf.{clause_text, cnf_parts, cnf_text, comment_text, literal_text, meaning_text};
ghost use Rattle.xc_none.specs.Cnf.{name_at};
ghost use Rattle.xc_none.specs.Cnf.{place_text};
ghost use Rattle.xc_none.specs.declared.meaning.Meaning.TheVariants.{AtLeast, UpTo};

use crate::formula::Formula;
use crate::meaning::Meaning;
use xc_input::Problem;
use xc_text::{Sink, SinkFault, write_all, write_number, write_numbered, write_two_numbers};

/// Writes the name of an item, if there is one of this number.
fn write_item<S: Sink>(sink: &mut S, problem: &Problem, item: u32) -> Result<(), SinkFault>
    ensures { Writes (S.state sink.old) (S.state sink.new) result (name_at problem.now.names item) }
{
    if item == 0 || item > problem.items() {
        return Ok(());
    }
    write_all(sink, problem.item(item).name.as_slice())
}

/// Writes the bytes of a colour, if there is one of this number.
fn write_colour<S: Sink>(sink: &mut S, problem: &Problem, colour: u64) -> Result<(), SinkFault>
    ensures { Writes (S.state sink.old) (S.state sink.new) result (name_at problem.now.colours colour) }
{
    if colour == 0 || colour > u64::from(problem.colours()) {
        return Ok(());
    }
    write_all(sink, problem.colour(colour as u32))
}

/// Writes that a place reaches up to a colour.
fn write_last_colour<S: Sink>(sink: &mut S, problem: &Problem, colour: u64) -> Result<(), SinkFault>
    ensures { Writes (S.state sink.old) (S.state sink.new) result
        (codes " without a colour or with one up to " ++ name_at problem.now.colours colour) }
{
    write_all(sink, b" without a colour or with one up to ")?;
    write_colour(sink, problem, colour)
}

/// Writes up to which option without a colour, or up to which colour, a place reaches.
fn write_place<S: Sink>(sink: &mut S, problem: &Problem, place: u64) -> Result<(), SinkFault>
    ensures { Writes (S.state sink.old) (S.state sink.new) result (place_text problem.now place) }
{
    let options = u64::from(problem.options());
    if place <= options {
        return write_numbered(sink, b" without a colour up to ", place, b"");
    }
    write_last_colour(sink, problem, place - options)
}

/// Writes what a variable of a chain means.
fn write_at_least<S: Sink>(
    sink: &mut S,
    problem: &Problem,
    item: u32,
    option: u64,
    count: u64,
) -> Result<(), SinkFault>
    ensures { Writes (S.state sink.old) (S.state sink.new) result (meaning_text problem.now
        (AtLeast item option count)) }
{
    write_numbered(sink, b"of the options up to ", option, b" with ")?;
    write_item(sink, problem, item)?;
    write_all(sink, b" at least ")?;
    write_number(sink, count)
}

/// Writes what a variable of a secondary item means.
fn write_up_to<S: Sink>(
    sink: &mut S,
    problem: &Problem,
    item: u32,
    place: u64,
) -> Result<(), SinkFault>
    ensures { Writes (S.state sink.old) (S.state sink.new) result (meaning_text problem.now (UpTo item place)) }
{
    write_all(sink, b"one of the options with ")?;
    write_item(sink, problem, item)?;
    write_place(sink, problem, place)
}

/// Writes what a variable means.
fn write_meaning<S: Sink>(
    sink: &mut S,
    problem: &Problem,
    meaning: Meaning,
) -> Result<(), SinkFault>
    ensures { Writes (S.state sink.old) (S.state sink.new) result (meaning_text problem.now meaning) }
{
    match meaning {
        Meaning::Chosen(option) => write_numbered(
            sink,
            b"option ",
            u64::from(option),
            b" is chosen",
        ),
        Meaning::AtLeast(item, option, count) => {
            write_at_least(sink, problem, item, u64::from(option), u64::from(count))
        }
        Meaning::UpTo(item, place) => write_up_to(sink, problem, item, place),
    }
}

/// Writes the comment on a variable.
fn write_comment<S: Sink>(
    sink: &mut S,
    problem: &Problem,
    number: u64,
    meaning: Meaning,
) -> Result<(), SinkFault>
    ensures { Writes (S.state sink.old) (S.state sink.new) result (comment_text problem.now number meaning) }
{
    write_numbered(sink, b"c ", number, b" ")?;
    write_meaning(sink, problem, meaning)?;
    write_all(sink, b"\n")
}

/// Writes a comment for each variable.
fn write_comments<S: Sink>(
    sink: &mut S,
    problem: &Problem,
    meanings: &[Meaning],
) -> Result<(), SinkFault>
    ensures { Writes (S.state sink.old) (S.state sink.new) result
        (flat_map (λ nm. comment_text problem.now nm.0 nm.1) (enumerate_from 1 meanings.now)) }
{
    for k in 0..meanings.len() {
        write_comment(sink, problem, k as u64 + 1, meanings[k])?;
    }
    Ok(())
}

/// Writes a literal.
fn write_literal<S: Sink>(sink: &mut S, literal: u32) -> Result<(), SinkFault>
    ensures { Writes (S.state sink.old) (S.state sink.new) result (literal_text literal) }
{
    let number = u64::from(literal / 2);
    if literal % 2 == 0 {
        return write_numbered(sink, b"", number, b" ");
    }
    write_numbered(sink, b"-", number, b" ")
}

/// Writes literals.
fn write_literals<S: Sink>(sink: &mut S, literals: &[u32]) -> Result<(), SinkFault>
    ensures { Writes (S.state sink.old) (S.state sink.new) result (flat_map literal_text literals.now) }
{
    for literal in literals {
        write_literal(sink, *literal)?;
    }
    Ok(())
}

/// Writes the line of a clause.
fn write_clause<S: Sink>(sink: &mut S, clause: &[u32]) -> Result<(), SinkFault>
    ensures { Writes (S.state sink.old) (S.state sink.new) result (clause_text clause.now) }
{
    write_literals(sink, clause)?;
    write_all(sink, b"0\n")
}

/// Writes the clauses.
fn write_clauses<S: Sink>(sink: &mut S, clauses: &[Vec<u32>]) -> Result<(), SinkFault>
    ensures { Writes (S.state sink.old) (S.state sink.new) result (flat_map (λ c. clause_text c.items) clauses.now) }
{
    for clause in clauses {
        write_clause(sink, clause.as_slice())?;
    }
    Ok(())
}

/// Writes the comments, the line with so many variables and clauses, and the clauses.
fn write_parts<S: Sink>(
    sink: &mut S,
    problem: &Problem,
    meanings: &[Meaning],
    clauses: &[Vec<u32>],
    variables: u64,
    many: u64,
) -> Result<(), SinkFault>
    ensures { Writes (S.state sink.old) (S.state sink.new) result
        (cnf_parts problem.now meanings.now clauses.now variables many) }
{
    write_comments(sink, problem, meanings)?;
    write_two_numbers(sink, b"p cnf ", variables, b" ", many, b"\n")?;
    write_clauses(sink, clauses)
}

/// Writes the clauses of a problem in the format DIMACS CNF, after a comment for each variable that says what it means:
///
/// ```text
/// c 17 option 17 is chosen
/// c 40 of the options up to 12 with a at least 2
/// c 51 one of the options with x without a colour or with one up to B
/// p cnf 51 120
/// -17 40 0
/// ```
///
/// The colours are in the order in which they occur in the file first.
pub fn write_cnf<S: Sink>(
    sink: &mut S,
    problem: &Problem,
    formula: &Formula,
) -> Result<(), SinkFault>
    ensures { Writes (S.state sink.old) (S.state sink.new) result
        (cnf_text problem.now formula.now.meanings.items formula.now.clauses.items) }
{
    let meanings = formula.meanings.as_slice();
    let clauses = formula.clauses.as_slice();
    write_parts(
        sink,
        problem,
        meanings,
        clauses,
        meanings.len() as u64,
        clauses.len() as u64,
    )
}
