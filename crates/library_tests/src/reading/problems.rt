//! Problems as they are read, by steps of one byte and of many.
use crate::fixtures::{COLOURED, read};
use std::alloc::Global;
use std::test::Fail;
use xc_input::{Bounds, Kind, Problem, Read, Seed, Use};

/// A text, and what is read of it.
struct Row {
    kind: Kind,
    text: &'static [u8],
    primary: u32,
    /// Names with their bounds.
    items: &'static [(&'static [u8], u32, u32)],
    /// The items and colours of the uses.
    options: &'static [&'static [(u32, u32)]],
    uses: usize,
    colours: &'static [&'static [u8]],
    ignored: &'static [u64],
}

/// A name as long as one may be, of digits.
const LONGEST: &[u8] = b"12345678901234567890123456789012";

const ROWS: [Row; 5] = [
    // Colours are numbered by their first use in an option that is kept.
    Row {
        kind: Kind::Colours,
        text: b"A B | x\nx:lost\nA x:red\nB x:12345678\nB x:red A",
        primary: 2,
        items: &[(b"A", 1, 1), (b"B", 1, 1), (b"x", 0, 1)],
        options: &[
            &[(1, 0), (3, 1)],
            &[(2, 0), (3, 2)],
            &[(2, 0), (3, 1), (1, 0)],
        ],
        uses: 7,
        colours: &[b"red", b"12345678"],
        ignored: &[2],
    },
    // Comments, and carriage returns.
    Row {
        kind: Kind::Plain,
        text: b"| test\r\n\r\nA | x\r\nx\r\nA x",
        primary: 1,
        items: &[(b"A", 1, 1), (b"x", 0, 1)],
        options: &[&[(1, 0), (2, 0)]],
        uses: 2,
        colours: &[],
        ignored: &[4],
    },
    // Bars and bounds.
    Row {
        kind: Kind::Bounds,
        text: b"2|A 0:1|B 999999999|12345678901234567890123456789012 |x\ty\nA B y\n |c\nB y:|\n",
        primary: 3,
        items: &[
            (b"A", 2, 2),
            (b"B", 0, 1),
            (LONGEST, 999_999_999, 999_999_999),
            (b"x", 0, 1),
            (b"y", 0, 1),
        ],
        options: &[&[(1, 0), (2, 0), (5, 0)], &[(2, 0), (5, 1)]],
        uses: 5,
        colours: &[b"|"],
        ignored: &[],
    },
    // The longest name.
    Row {
        kind: Kind::Plain,
        text: b"A 12345678901234567890123456789012\nA 12345678901234567890123456789012",
        primary: 2,
        items: &[(b"A", 1, 1), (LONGEST, 1, 1)],
        options: &[&[(1, 0), (2, 0)]],
        uses: 2,
        colours: &[],
        ignored: &[],
    },
    Row {
        kind: Kind::Colours,
        text: COLOURED,
        primary: 3,
        items: &[
            (b"p", 1, 1),
            (b"q", 1, 1),
            (b"r", 1, 1),
            (b"x", 0, 1),
            (b"y", 0, 1),
        ],
        options: &[
            &[(1, 0), (2, 0), (4, 0), (5, 1)],
            &[(1, 0), (3, 0), (4, 1), (5, 0)],
            &[(1, 0), (4, 2)],
            &[(2, 0), (4, 1)],
            &[(3, 0), (5, 2)],
        ],
        uses: 14,
        colours: &[b"A", b"B"],
        ignored: &[],
    },
];

/// Whether the items have these names and bounds, and are found by their names.
fn are_items(problem: &Problem, wanted: &[(&[u8], u32, u32)]) -> bool {
    let mut i: u32 = 0;
    for (item, (name, low, high)) in problem.all_items().iter().zip(wanted) {
        let bounds = Bounds {
            low: *low,
            high: *high,
        };
        i = i.saturating_add(1);
        if item.name.as_slice() != *name
            || item.bounds() != bounds
            || problem.find(*name) != Some(i)
        {
            return false;
        }
    }
    problem.all_items().len() == wanted.len() && problem.find(b"lost").is_none()
}

/// Whether these are the uses of an option.
fn are_uses(option: &[Use], wanted: &[(u32, u32)]) -> bool {
    for (used, (item, colour)) in option.iter().zip(wanted) {
        if used.item != *item || used.colour != *colour {
            return false;
        }
    }
    option.len() == wanted.len()
}

/// Whether these are the options, by their order and by their numbers.
fn are_options(problem: &Problem, wanted: &[&[(u32, u32)]]) -> bool {
    let mut o: u32 = 0;
    for (option, uses) in problem.all_options().zip(wanted) {
        o = o.saturating_add(1);
        if o > problem.options()
            || !are_uses(option, *uses)
            || !are_uses(problem.option(o), *uses)
        {
            return false;
        }
    }
    problem.options() as usize == wanted.len()
        && problem.get_option(0).is_none()
        && problem.get_option(o.saturating_add(1)).is_none()
}

/// Whether these are the colours, and are found by their bytes.
fn are_colours(problem: &Problem, wanted: &[&[u8]]) -> bool {
    let mut c: u32 = 0;
    for bytes in wanted {
        c = c.saturating_add(1);
        if c > problem.colours()
            || problem.colour(c) != *bytes
            || problem.find_colour(*bytes) != Some(c)
        {
            return false;
        }
    }
    problem.colours() == c && problem.find_colour(b"lost").is_none()
}

fn is_row(read: &Read, row: &Row) -> bool {
    read.problem.primary() == row.primary
        && are_items(&read.problem, row.items)
        && are_options(&read.problem, row.options)
        && are_colours(&read.problem, row.colours)
        && read.problem.uses() == row.uses
        && read.problem.seed() == Seed::FIXED
        && read.ignored.as_slice() == row.ignored
}

/// Whether the row's text is read so, in pieces of so many bytes.
fn is_read(alloc: Global, row: &Row, step: usize) -> bool {
    match read(alloc, row.kind, row.text, step) {
        Ok(read) => is_row(&read, row),
        Err(_) => false,
    }
}

#[test]
fn problems_are_read(rt: HostRuntime) -> Result<(), Fail> {
    for (n, row) in ROWS.iter().enumerate() {
        if !is_read(rt.alloc(), row, 1) || !is_read(rt.alloc(), row, 65536) {
            return Err(Fail::new(format_args!("row {n}")));
        }
    }
    Ok(())
}
