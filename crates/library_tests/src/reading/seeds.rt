//! The seed that hashes names: what is read is the same by each.
use std::alloc::Global;
use std::hash::BuildHasher;
use std::test::Fail;
use xc_input::{
    Kind, Problem, ReadFailed, Reader, Seed, SliceSource, Source, Use, read_problem,
    read_problem_by,
};

/// Names whose hashes by the fixed seed are one in the 32 bits that a table takes.
const ONE_HASH: [&[u8]; 3] = [b"zywtca", b"wiigga", b"vnqsna"];

/// These names as items and as colours, with an option of each.
const TEXT_OF_ONE_HASH: &[u8] =
    b"zywtca wiigga vnqsna | x\nzywtca x:zywtca\nwiigga x:wiigga\nvnqsna x:vnqsna\n";

#[test]
fn names_have_one_hash(rt: HostRuntime) -> Result<(), Fail> {
    for (row, name) in ONE_HASH.iter().enumerate() {
        let hash = Seed::FIXED.hash_one(*name);
        // `tests/hostile/collisions.py` hashes as this does: it has the same number.
        if (hash ^ (hash >> 32)) & 0xffff_ffff != 0x636b_03c0 {
            return Err(Fail::new(format_args!("row {row}")));
        }
    }
    Ok(())
}

/// The numbers of a problem's items, options and colours, those of some names and colours, and the uses of options.
struct Known {
    numbers: [u32; 3],
    names: &'static [(&'static [u8], u32)],
    colours: &'static [(&'static [u8], u32)],
    options: &'static [(u32, &'static [(u32, u32)])],
}

/// Whether option o has these uses.
fn has_option(problem: &Problem, o: u32, uses: &[(u32, u32)]) -> bool {
    if o < 1 || problem.options() < o {
        return false;
    }
    let option = problem.option(o);
    if option.len() != uses.len() {
        return false;
    }
    for (found, (item, colour)) in option.iter().zip(uses) {
        let wanted = Use {
            item: *item,
            colour: *colour,
        };
        if *found != wanted {
            return false;
        }
    }
    true
}

/// Whether a problem is so, and hashes by this seed.
fn is_known(problem: &Problem, seed: Seed, known: &Known) -> bool {
    for (name, item) in known.names {
        if problem.find(*name) != Some(*item) {
            return false;
        }
    }
    for (name, colour) in known.colours {
        if problem.find_colour(*name) != Some(*colour) {
            return false;
        }
    }
    for (option, uses) in known.options {
        if !has_option(problem, *option, *uses) {
            return false;
        }
    }
    [problem.items(), problem.options(), problem.colours()] == known.numbers
        && problem.seed() == seed
}

/// Whether a source gives such a problem, where it is read by this seed.
fn gives<S: Source>(alloc: Global, seed: Seed, source: &mut S, known: &Known) -> bool {
    match read_problem_by(alloc, seed, Kind::Colours, source) {
        Ok(read) => is_known(&read.problem, seed, known),
        Err(_) => false,
    }
}

/// Names of one hash are known apart, as items and as colours.
const APART: Known = Known {
    numbers: [4, 3, 3],
    names: &[(b"zywtca", 1), (b"wiigga", 2), (b"vnqsna", 3)],
    colours: &[(b"zywtca", 1), (b"wiigga", 2), (b"vnqsna", 3)],
    options: &[
        (1, &[(1, 0), (4, 1)]),
        (2, &[(2, 0), (4, 2)]),
        (3, &[(3, 0), (4, 3)]),
    ],
};

#[test]
fn names_of_one_hash(rt: HostRuntime) {
    let mut source = SliceSource::new(TEXT_OF_ONE_HASH);
    let is_read = match read_problem(rt.alloc(), Kind::Colours, &mut source) {
        Ok(read) => is_known(&read.problem, Seed::FIXED, &APART),
        Err(_) => false,
    };
    assert!(rt; is_read);
}

/// A source of a caller's own, around another, which passes its reads on.
#[derive(Drop)]
struct Around<'a> {
    source: SliceSource<'a>,
}

impl<'a> Source for Around<'a> {
    ghost state = { λ s. ⟦<SliceSource<'a> as Source>⟧.state s.source };

    fn read(&mut self, buf: &mut [u8]) -> Result<usize, ReadFailed> {
        self.source.read(buf)
    }
}

/// A problem of two items and two others, with colours.
const TEXT: &[u8] = b"a b | x y\na x:red\nb y:green x:red\n";

const KNOWN: Known = Known {
    numbers: [4, 2, 2],
    names: &[(b"a", 1), (b"b", 2), (b"x", 3), (b"y", 4)],
    colours: &[(b"red", 1), (b"green", 2)],
    options: &[(1, &[(1, 0), (3, 1)]), (2, &[(2, 0), (4, 2), (3, 1)])],
};

/// Whether it is read to its end by this seed.
fn is_read_by(alloc: Global, seed: Seed) -> bool {
    let mut source = Around {
        source: SliceSource::new(TEXT),
    };
    gives(alloc, seed, &mut source, &KNOWN) && source.read(&mut [0; 10]) == Ok(0)
}

#[test]
fn each_seed_reads_the_same(rt: HostRuntime) -> Result<(), Fail> {
    assert!(rt; is_read_by(rt.alloc(), Seed::FIXED));
    for keys in &[0, 12_345, u128::MAX] {
        if Seed::new(*keys) == Seed::FIXED || !is_read_by(rt.alloc(), Seed::new(*keys)) {
            return Err(Fail::new(format_args!("keys {keys}")));
        }
    }
    Ok(())
}

/// What is read of two lines.
const LINES: Known = Known {
    numbers: [2, 1, 0],
    names: &[(b"a", 1), (b"b", 2)],
    colours: &[],
    options: &[(1, &[(2, 0), (1, 0)])],
};

#[test]
fn lines_by_a_seed(rt: HostRuntime) {
    let seed = Seed::new(7);
    let mut reader = Reader::with_seed(rt.alloc(), Kind::Plain, seed);
    let taken = reader.line(b"a b").is_ok() && reader.line(b"b a").is_ok();
    let kept = match reader.finish() {
        Ok(read) => is_known(&read.problem, seed, &LINES),
        Err(_) => false,
    };
    assert!(rt; taken && kept);
}
