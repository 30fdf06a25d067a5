//! What tests share: problems with their listings, and what is made of texts.
use std::alloc::{AllocError, Global};
use xc_input::{Feed, InputError, Kind, Problem, Read, read_problem};

/// Seven items, and six options with one cover.
pub const SEVEN: &[u8] = b"a b c d e f g\nc e\na d g\nb c f\na d f\nb g\nd e g\n";

pub const SEVEN_LISTING: &[u8] = b"1:\n a d f (2 of 2)\n b g (1 of 1)\n c e (1 of 1)\n";

/// One item in three equal options.
pub const THREE_ALIKE: &[u8] = b"A\nA\nA\nA\n";

pub const THREE_LISTING: &[u8] = b"1:\n A (1 of 3)\n2:\n A (2 of 3)\n3:\n A (3 of 3)\n";

/// Three primary items and two secondary ones, with colours.
pub const COLOURED: &[u8] = b"p q r | x y\np q x y:A\np r x:A y\np x:B\nq x:A\nr y:B\n";

pub const COLOURED_LISTING: &[u8] = b"1:\n q x:A (2 of 2)\n p r x:A y (1 of 1)\n";

/// Two items; the first may be held twice.
pub const TWICE: &[u8] = b"1:2|A B\nA\nA B\nB\n";

pub const TWICE_LISTING: &[u8] =
    b"1:\n A (1 of 2)\n A B (1 of 2)\n2:\n A (1 of 2)\n null A (2 of 2)\n B (1 of 1)\n3:\n A B (2 of 2)\n null A (1 of 1)\n";

/// Two items and two options.
pub const SMALL: &[u8] = b"A B\nA\nA B\n";

/// One item in two options, which may be left out or held twice.
pub const ALONE: &[u8] = b"0:2|A\nA\nA\n";

pub const ALONE_LISTING: &[u8] =
    b"1:\n A (1 of 3)\n A (1 of 2)\n2:\n A (1 of 3)\n null A (2 of 2)\n3:\n A (2 of 3)\n null A (1 of 1)\n4:\n null A (3 of 3)\n";

/// What a text is read as, in pieces of so many bytes.
pub fn read(alloc: Global, kind: Kind, text: &[u8], step: usize) -> Result<Read, InputError> {
    read_problem(alloc, kind, &mut Feed::new(text, step.max(1), None))
}

/// Words as a program gathers them.
pub fn gathered(alloc: Global, words: &[&[u8]]) -> Result<Vec<Vec<u8>>, AllocError> {
    let mut all = Vec::new(alloc);
    for word in words {
        all.push(word.to_vec(alloc)?)?;
    }
    Ok(all)
}

/// What is wanted of a problem. (A trait, since a function that is passed by name would cost three proofs more.)
pub trait Wanted {
    fn is_so(&self, alloc: Global, problem: &Problem) -> bool;
}

/// Whether the problem that a text stands for is as wanted.
fn is_wanted<W: Wanted>(alloc: Global, kind: Kind, text: &[u8], wanted: &W) -> bool {
    match read(alloc, kind, text, 100) {
        Ok(read) => wanted.is_so(alloc, &read.problem),
        Err(_) => false,
    }
}

/// The first row of a table whose problem isn't as wanted: the kind of each, its text, and what is wanted of it.
pub fn wrong_row<W: Wanted>(alloc: Global, rows: &[(Kind, &[u8], W)]) -> Option<usize> {
    for (row, (kind, text, wanted)) in rows.iter().enumerate() {
        if !is_wanted(alloc, *kind, text, wanted) {
            return Some(row);
        }
    }
    None
}
