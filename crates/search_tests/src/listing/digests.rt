//! The digests of problems.
use library_tests::fixtures::{ALONE, COLOURED, SEVEN, THREE_ALIKE, TWICE, Wanted, wrong_row};
use std::alloc::Global;
use xc_input::{Kind, Problem};
use xc_list::problem_digest;

/// The problem `COLOURED` without its colours.
const PLAIN_COLOURED: &[u8] = b"p q r | x y\np q x y\np r x y\np x\nq x\nr y\n";

/// The problem `COLOURED` with one colour in place of two.
const ONE_COLOUR: &[u8] = b"p q r | x y\np q x y:A\np r x:A y\np x:A\nq x:A\nr y:A\n";

/// The problem `COLOURED` with its options the other way round.
const COLOURED_FROM_BEHIND: &[u8] = b"p q r | x y\nr y:B\nq x:A\np x:B\np r x:A y\np q x y:A\n";

/// The problem `TWICE` with another bound.
const TWICE_OR_NONE: &[u8] = b"0:2|A B\nA\nA B\nB\n";

/// A comment, blank lines, more white space than need be, an option that is ignored, and bounds in both forms.
const PADDED: &[u8] = b"| c\n\n  a\t3:12|b 2|c | x \n\n| c\n b  x:1 a\nx:2\n \na\n";

/// The same problem without these.
const UNPADDED: &[u8] = b"1:1|a 3:12|b 2:2|c | x\nb x:1 a\na\n";

/// No option.
const ONE_ITEM: &[u8] = b"A\n";

/// A digest, which the function `digest_of` of the Python tests computed from the text.
struct Digest(&'static [u8]);

const DIGESTS: [(Kind, &[u8], Digest); 12] = [
    (Kind::Plain, SEVEN, Digest(b"5f4feb9a050fe0f5")),
    (Kind::Plain, THREE_ALIKE, Digest(b"12589a6a85a80440")),
    (Kind::Plain, ONE_ITEM, Digest(b"047ed80a5276bdcd")),
    (Kind::Colours, COLOURED, Digest(b"7006ee82645433a3")),
    (Kind::Colours, PLAIN_COLOURED, Digest(b"798964c806e0113a")),
    (Kind::Colours, ONE_COLOUR, Digest(b"2b07ff1564b18ebe")),
    (
        Kind::Colours,
        COLOURED_FROM_BEHIND,
        Digest(b"9a1087026ababf67"),
    ),
    (Kind::Bounds, TWICE, Digest(b"18dfe1040992a59e")),
    (Kind::Bounds, TWICE_OR_NONE, Digest(b"70124c789f4448d5")),
    (Kind::Bounds, ALONE, Digest(b"7fb783099f48db80")),
    (Kind::Bounds, PADDED, Digest(b"d68b10b560500d88")),
    (Kind::Bounds, UNPADDED, Digest(b"d68b10b560500d88")),
];

impl Wanted for Digest {
    fn is_so(&self, _alloc: Global, problem: &Problem) -> bool {
        problem_digest(problem).as_slice() == self.0
    }
}

#[test]
fn digests_of_problems(rt: HostRuntime) {
    assert_eq!(rt; wrong_row(rt.alloc(), &DIGESTS), None);
}
