//! What a caller may bring: a source, a sink and a keeper. Each has the promised methods and no other.
ghost use Rattle.std.specs.Prelude.{◌≡◌, IfSome, []};
ghost use Rattle.xc_search.specs.Room.{room_for};

use library_tests::fixtures::{SEVEN, SEVEN_LISTING, gathered, read};
use std::alloc::Global;
use xc_dance::{Count, Dance, Full, Lists, Memory, Move, most_moves};
use xc_input::{Feed, Kind, Problem, ReadFailed, Source};
use xc_list::{End, Sink, Tray, Words, WriteFailed, run_over};
use xc_tools::solve;

#[derive(Drop)]
struct OwnSource<'a> {
    feed: Feed<'a>,
}

impl<'a> Source for OwnSource<'a> {
    ghost state = { λ s. ⟦<Feed<'a> as Source>⟧.state s.feed };

    fn read(&mut self, buf: &mut [u8]) -> Result<usize, ReadFailed> {
        self.feed.read(buf)
    }
}

#[derive(Drop)]
struct OwnSink {
    tray: Tray,
}

impl Sink for OwnSink {
    ghost state = { λ s. ⟦<Tray as Sink>⟧.state s.tray };

    fn write(&mut self, bytes: &[u8]) -> Result<usize, WriteFailed> {
        self.tray.write(bytes)
    }

    fn flush(&mut self) -> Result<(), WriteFailed> {
        self.tray.flush()
    }
}

#[derive(Drop)]
struct OwnKeeper {
    lists: Lists,
}

impl Dance for OwnKeeper {
    ghost state = { λ s. s.lists };

    fn can(&self, m: &Move) -> bool {
        self.lists.can(m)
    }

    fn apply(&mut self, m: Move) -> Result<Count, Full> {
        self.lists.apply(m)
    }

    fn undo(&mut self) -> Count {
        self.lists.undo()
    }

    fn undo_tweaks(&mut self, k: usize) -> Count {
        self.lists.undo_tweaks(k)
    }

    fn moves(&self) -> &[Move] {
        self.lists.moves()
    }

    fn room(&self) -> usize {
        self.lists.room()
    }

    fn len(&self, i: u32) -> u32 {
        self.lists.len(i)
    }

    fn first(&self, i: u32) -> Option<u32> {
        self.lists.first(i)
    }

    fn below(&self, i: u32, o: u32) -> Option<u32> {
        self.lists.below(i, o)
    }

    fn open_after(&self, i: u32) -> Option<u32> {
        self.lists.open_after(i)
    }

    fn bound(&self, i: u32) -> u32 {
        self.lists.bound(i)
    }
}

/// A sink with room for a kilobyte.
fn own_sink(alloc: Global) -> Result<OwnSink, Memory> {
    Ok(OwnSink {
        tray: Tray::new(alloc, 7, 1000, false)?,
    })
}

/// What a solver writes that prints each solution of a source to a sink, and its status.
fn solved(alloc: Global) -> Option<(u8, OwnSink)> {
    let words = gathered(alloc, &[b"m1"]).ok()?;
    let mut input = OwnSource {
        feed: Feed::new(SEVEN, 3, None),
    };
    let mut out = own_sink(alloc).ok()?;
    let mut err = own_sink(alloc).ok()?;
    let status = solve(alloc, Kind::Plain, &words, &mut input, &mut out, &mut err);
    Some((status, out))
}

#[test]
fn own_streams_serve_a_solver(rt: HostRuntime) {
    let is_listed = match solved(rt.alloc()) {
        Some((status, out)) => status == 0 && out.tray.bytes() == SEVEN_LISTING,
        None => false,
    };
    assert!(rt; is_listed);
}

/// A keeper for a search.
fn keeper(alloc: Global, problem: &Problem) -> Option<OwnKeeper>
    ensures same { IfSome result (λ k. k.lists.puzzle ≡ problem.now.puzzle) }
    ensures none { IfSome result (λ k. k.lists.trail ≡ []) }
    ensures room { IfSome result (λ k. k.lists.room ≡ room_for problem.now.puzzle) }
{
    match Lists::new(alloc, problem, most_moves(problem)) {
        Ok(lists) => Some(OwnKeeper { lists }),
        Err(_) => None,
    }
}

/// How a run over a keeper ends.
fn ran(alloc: Global, problem: &Problem) -> Option<End> {
    let words = Words {
        spacing: 1,
        limit: u64::MAX,
    };
    let mut out = own_sink(alloc).ok()?;
    let (_, end) = run_over(alloc, keeper(alloc, problem)?, problem, words, &mut out);
    end.ok()
}

#[test]
fn an_own_keeper_serves_a_run(rt: HostRuntime) {
    let is_done = match read(rt.alloc(), Kind::Plain, SEVEN, 100) {
        Ok(read) => ran(rt.alloc(), &read.problem) == Some(End::Done(1)),
        Err(_) => false,
    };
    assert!(rt; is_done);
}
