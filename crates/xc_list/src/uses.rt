//! Uses as text.
ghost use Rattle.std.specs.Prelude.{◌≡◌, ◌≤◌, length, All, flat_map, OnErr, IsTrue};
ghost use Rattle.xc_text.specs.Texts.{Writes};
ghost use Rattle.xc_input.specs.Problem.{IsItem, uses_of, IsOption};
ghost use Rattle.xc_input.specs.Named.{IsKnownUse, IsSound};
ghost use Rattle.xc_check.specs.UseTexts.{bytes_at, from_item};
ghost use Rattle.xc_check.specs.inner.Classes.{colour_text};
ghost use Rattle.xc_list.specs.inner.Writing.{use_text};

use xc_input::{Problem, Use, place_in};
use xc_text::{Sink, SinkFault, write_all};

/// The name of item `i`.
pub fn name_of<'a>(problem: &'a Problem, i: u32) -> &'a [u8]
    requires { IsItem problem.now.puzzle i }
    ensures value { result.now ≡ bytes_at problem.now.names i }
    ensures whole { IsSound problem.now }
{
    problem.item(i).name.as_slice()
}

/// The bytes of colour `c`.
pub fn colour_of<'a>(problem: &'a Problem, c: u32) -> &'a [u8]
    requires { (1 ≤ c) × (c ≤ length problem.now.colours) }
    ensures { result.now ≡ bytes_at problem.now.colours c }
{
    problem.colour(c)
}

/// The uses of option `o`.
pub fn uses_at<'a>(problem: &'a Problem, o: u32) -> &'a [Use]
    requires { IsOption problem.now.puzzle o }
    ensures value { result.now ≡ uses_of problem.now.puzzle o }
    ensures known { All (IsKnownUse problem.now) result.now }
{
    problem.option(o)
}

/// Writes the name of item `i`.
pub fn write_name<S: Sink>(problem: &Problem, i: u32, sink: &mut S) -> Result<(), SinkFault>
    requires { IsItem problem.now.puzzle i }
    ensures { Writes (S.state sink.old) (S.state sink.new) result (bytes_at problem.now.names i) }
{
    write_all(sink, name_of(problem, i))
}

fn write_colour<S: Sink>(problem: &Problem, c: u32, sink: &mut S) -> Result<(), SinkFault>
    requires { c ≤ length problem.now.colours }
    ensures { Writes (S.state sink.old) (S.state sink.new) result (colour_text problem.now.colours c) }
{
    if c == 0 {
        return Ok(());
    }
    write_all(sink, b":")?;
    write_all(sink, colour_of(problem, c))
}

fn write_use<S: Sink>(problem: &Problem, u: &Use, sink: &mut S) -> Result<(), SinkFault>
    requires { IsKnownUse problem.now u.now }
    ensures { Writes (S.state sink.old) (S.state sink.new) result (use_text problem.now u.now) }
{
    write_all(sink, b" ")?;
    write_name(problem, u.item, sink)?;
    write_colour(problem, u.colour, sink)
}

/// Writes uses, each after a space.
pub fn write_uses<S: Sink>(problem: &Problem, uses: &[Use], sink: &mut S) -> Result<(), SinkFault>
    requires { All (IsKnownUse problem.now) uses.now }
    ensures { Writes (S.state sink.old) (S.state sink.new) result (flat_map (use_text problem.now) uses.now) }
{
    for u in uses {
        write_use(problem, u, sink)?;
    }
    Ok(())
}

/// Writes an option's uses, cyclically from an item's.
pub fn write_option<S: Sink>(
    problem: &Problem,
    item: u32,
    o: u32,
    sink: &mut S,
) -> Result<(), SinkFault>
    requires { IsOption problem.now.puzzle o }
    ensures { Writes (S.state sink.old) (S.state sink.new)
        result (flat_map (use_text problem.now) (from_item item (uses_of problem.now.puzzle o))) }
{
    let uses = uses_at(problem, o);
    let (before, after) = uses.split_at(place_in(uses, item));
    write_uses(problem, after, sink)?;
    write_uses(problem, before, sink)
}
