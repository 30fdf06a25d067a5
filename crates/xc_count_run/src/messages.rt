//! What is reported of a count.
ghost use Rattle.std.specs.Prelude.{◌≡◌, ◌++◌, IfOk};
ghost use Rattle.natural.specs.Numerals.{numeral};
ghost use Rattle.xc_text.specs.Texts.{Writes};
ghost use Rattle.xc_count_run.specs.Alone.{gave_up_text};
ghost use Rattle.xc_count_run.specs.LastLine.{count_text};
ghost use Rattle.xc_count_run.specs.Solutions.{fewer_text};

use natural::Natural;
use std::alloc::{AllocError, Global};
use xc_list::solutions_word;
use xc_text::{Sink, SinkFault, write_all};

/// The last line of a count.
pub fn count_line(alloc: Global, count: &Natural) -> Result<Vec<u8>, AllocError>
    ensures { IfOk result (λ line. line.items ≡ count_text count.now) }
{
    let is_one = *count == Natural::from_u64(alloc, 1);
    let mut line = Vec::from_slice(alloc, b"Altogether ")?;
    count.write_decimal(&mut line)?;
    line.extend_from_slice(solutions_word(is_one))?;
    line.extend_from_slice(b".\n")?;
    Ok(line)
}

/// A number between two texts.
pub fn line_of(
    alloc: Global,
    before: &[u8],
    number: &Natural,
    after: &[u8],
) -> Result<Vec<u8>, AllocError>
    ensures { IfOk result (λ line. line.items ≡ before.now ++ numeral number.now ++ after.now) }
{
    let mut line = Vec::from_slice(alloc, before)?;
    number.write_decimal(&mut line)?;
    line.extend_from_slice(after)?;
    Ok(line)
}

/// The line where there is no solution of a number.
pub fn fewer_line(alloc: Global, number: &Natural) -> Result<Vec<u8>, AllocError>
    ensures { IfOk result (λ line. line.items ≡ fewer_text number.now) }
{
    if *number == Natural::from_u64(alloc, 1) {
        Vec::from_slice(alloc, b"There are no solutions.\n")
    } else {
        line_of(alloc, b"There are fewer than ", number, b" solutions.\n")
    }
}

/// Reports that the states take too much memory. Where that can't be written, nobody waits for a search that may never
/// end.
pub fn write_gave_up<E: Sink>(err: &mut E) -> Result<(), SinkFault>
    ensures { Writes (E.state err.old) (E.state err.new) result gave_up_text }
{
    write_all(
        err,
        b"The states take too much memory: the search goes on alone.\n",
    )
}
