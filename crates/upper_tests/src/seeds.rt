//! Names are hashed by a random seed.
use xc_input::{Kind, SliceSource, read_problem_by};
use xc_tools::random_seed;

#[test]
fn a_random_seed_reads_the_same(rt: HostRuntime) {
    let seed = random_seed(&rt);
    let mut source = SliceSource::new(b"a b\nb a\na\n");
    let is_read = match read_problem_by(rt.alloc(), seed, Kind::Plain, &mut source) {
        Ok(read) => read.problem.seed() == seed
            && [read.problem.items(), read.problem.options()] == [2, 2],
        Err(_) => false,
    };
    assert!(rt; is_read);
}
