//! A run over a search.
//!
//! `run` goes through `run_over_links`, which returns its tables with the answer. So the promise that they are as built
//! is made by a call that the programs use.
ghost use Rattle.std.specs.Prelude.{◌≡◌, ℕ, ◌+◌, ◌-◌, ◌<◌, ◌≤◌, false, [], All, IfOk, IsTrue, MatchResult};
ghost use Rattle.std.specs.Prelude.{OnErr, length};
ghost use Rattle.xc_text.specs.Texts.{seen, Writes};
ghost use Rattle.xc_search.specs.Cover.{members, EachMemberCovers, EachCoverIsListedOnce};
ghost use Rattle.xc_search.specs.Room.{room_for};
ghost use Rattle.xc_search.specs.Listing.{whole};
ghost use Rattle.xc_search.specs.Ends.{ends};
ghost use Rattle.xc_moves.specs.Dancing.{moves_made};
ghost use Rattle.xc_dance.specs.Linked.{dancing_of};
ghost use Rattle.xc_list.specs.Output.{is_printed};
ghost use Rattle.xc_list.specs.Known.{IsKnownChoice};
ghost use Rattle.xc_list.specs.Runs.{IsRun, AnswersRun, RunMakesFew};
ghost use Rattle.xc_list.specs.inner.Writing.{printed_text, WentTo, AreKept};
ghost use Rattle.xc_dance.specs.Same.{IsSame};

use crate::bodies::Bodies;
use crate::ends::End;
use crate::page::Page;
use crate::print::write_by_page;
use crate::words::Words;
use std::alloc::Global;
use xc_dance::Links;
use xc_input::Problem;
use xc_moves::{Dance, most_moves};
use xc_search::Walk;
use xc_text::{Memory, Sink, SinkFault};

/// Whether the solution with this number is printed.
fn is_printed(spacing: u64, number: u64) -> bool
    ensures { result ≡ is_printed spacing number }
{
    // The first test spares a division where each solution is printed.
    spacing == 1 || spacing != 0 && number % spacing == 0
}

/// Writes the solution that a walk is at if its number is one to print.
fn write_printed<'a, D: Dance, S: Sink>(
    spacing: u64,
    number: u64,
    walk: &Walk<'a, D>,
    bodies: &Bodies,
    page: &mut Page,
    sink: &mut S,
) -> Result<(), SinkFault>
    requires same { walk.now.puzzle ≡ bodies.now.puzzle }
    requires known { All (IsKnownChoice bodies.now.puzzle) walk.now.shown }
    requires kept { AreKept bodies.now page.old.text page.old.kept }
    ensures written { Writes (S.state sink.old) (S.state sink.new)
        result (printed_text bodies.now spacing (number, walk.now.shown)) }
    ensures kept { AreKept bodies.now page.new.text page.new.kept }
{
    if is_printed(spacing, number) {
        write_by_page(number, walk, bodies, page, sink)
    } else {
        Ok(())
    }
}

/// How many solutions on from `found` the next one to print is; where the limit comes before
/// it, how many are left up to the limit. So a count is one call of `pass`, whose loop keeps its state in registers.
fn steps_to_printed(spacing: u64, found: u64, limit: u64) -> u64
    requires { found < limit }
    ensures some { 0 < result }
    ensures within { found + result ≤ limit }
    ensures silent { (k : ℕ) → found < k → k < found + result → is_printed spacing k ≡ false }
{
    let left = limit - found;
    if spacing == 0 {
        left
    } else if spacing == 1 {
        1
    } else {
        left.min(spacing - found % spacing)
    }
}

/// Writes what a walk has to come, up to the limit.
fn write_members<'a, D: Dance, S: Sink>(
    walk: &mut Walk<'a, D>,
    bodies: &Bodies,
    words: &Words,
    sink: &mut S,
) -> End
    requires puzzle { walk.old.puzzle ≡ bodies.now.puzzle }
    requires all { walk.old.to_come ≡ members bodies.now.puzzle }
    requires ends { walk.old.ahead ≡ ends (whole bodies.now.puzzle) }
    ensures still { walk.new ≡ record walk.old {
      to_come = walk.new.to_come;
      shown = walk.new.shown;
      ahead = walk.new.ahead;
      made = walk.new.made;
    } }
    ensures moves { RunMakesFew bodies.now.puzzle walk.old.made walk.new.made result }
    ensures moved { 0 < words.now.limit → 0 < walk.new.made }
    ensures went { WentTo (members bodies.now.puzzle) walk.new result }
    ensures run { IsRun bodies.now words.now.spacing words.now.limit
        (S.state sink.old) (S.state sink.new) result }
{
    let mut page = Page::new();
    let mut found = 0;
    while found < words.limit {
        let steps = steps_to_printed(words.spacing, found, words.limit);
        let passed = walk.pass(steps);
        if passed < steps {
            return End::Done(found + passed);
        }
        let number = found + steps;
        match write_printed(words.spacing, number, walk, bodies, &mut page, sink) {
            Ok(()) => {}
            Err(_) => return End::WriteFailed(number),
        }
        found = number;
    }
    End::Limit(words.limit)
}

/// Whether options may be printed as often as there are options, which makes it worth while to lay
/// all of them out.
fn prints_many(problem: &Problem, words: &Words) -> bool {
    let solutions = words.limit.checked_div(words.spacing).unwrap_or(0);
    let choices = solutions.saturating_mul(u64::from(problem.primary()));
    choices > 0 && choices >= u64::from(problem.options())
}

/// Searches for the solutions, writes the listing as far as the words say, unwinds, and
/// returns the dance with no moves. Lack of memory is met before the first move alone.
/// Each member of the listing is a cover, and each cover is the set of exactly one member.
pub fn run_over<D: Dance, S: Sink>(
    alloc: Global,
    dance: D,
    problem: &Problem,
    words: Words,
    sink: &mut S,
) -> (D, Result<End, Memory>)
    requires same { (D.state dance).puzzle ≡ problem.now.puzzle }
    requires none { (D.state dance).trail ≡ [] }
    requires room { room_for problem.now.puzzle ≤ (D.state dance).room }
    ensures dance { D.state result.0 ≡ record (D.state dance) { undone = (D.state result.0).undone } }
    ensures moves { IfOk result.1
        (RunMakesFew problem.now.puzzle (moves_made (D.state dance)) (moves_made (D.state result.0))) }
    ensures moved { IfOk result.1 (λ _. 0 < words.limit → 0 < moves_made (D.state result.0)) }
    ensures back { OnErr result.1 (D.state result.0 ≡ D.state dance) }
    ensures run { AnswersRun problem.now words.spacing words.limit
        (seen S.state sink.old) (seen S.state sink.new) result.1 }
    ensures right { EachMemberCovers problem.now.puzzle }
    ensures complete { EachCoverIsListedOnce problem.now.puzzle }
{
    match Walk::new(alloc, dance, problem) {
        Ok(mut walk) => {
            let bodies = Bodies::for_printing(alloc, problem, prints_many(problem, &words));
            let end = write_members(&mut walk, &bodies, &words, sink);
            (walk.close(), Ok(end))
        }
        Err((dance, memory)) => (dance, Err(memory)),
    }
}

/// Does what `run_over` does over linked tables of its own, and returns them beside the answer.
/// However the run ended, by exhaustion, by its limit, at a failed write or for lack of memory: each
/// field of the tables is as it was built. Fails with nothing written where there was no memory for
/// them.
pub fn run_over_links<S: Sink>(
    alloc: Global,
    problem: &Problem,
    words: Words,
    sink: &mut S,
) -> Result<(Links, Result<End, Memory>), Memory>
    ensures built { IfOk result (λ back. IsSame back.0.puzzle back.0.trail problem.now.puzzle []) }
    ensures moves { IfOk result (λ back. IfOk back.1
        (RunMakesFew problem.now.puzzle 0 (moves_made (dancing_of back.0)))) }
    ensures moved { IfOk result (λ back. IfOk back.1 (λ _. 0 < words.limit → 0 < moves_made (dancing_of back.0))) }
    ensures run { MatchResult result (λ back. AnswersRun problem.now words.spacing words.limit
        (seen S.state sink.old) (seen S.state sink.new) back.1) (λ _. sink.new ≡ sink.old) }
    ensures right { EachMemberCovers problem.now.puzzle }
    ensures complete { EachCoverIsListedOnce problem.now.puzzle }
{
    let links = Links::new(alloc, problem, most_moves(problem))?;
    Ok(run_over(alloc, links, problem, words, sink))
}

/// Does what `run_over_links` does, and lets the tables go. Lack of memory is answered with nothing
/// written.
pub fn run<S: Sink>(
    alloc: Global,
    problem: &Problem,
    words: Words,
    sink: &mut S,
) -> Result<End, Memory>
    ensures run { AnswersRun problem.now words.spacing words.limit
        (seen S.state sink.old) (seen S.state sink.new) result }
    ensures right { EachMemberCovers problem.now.puzzle }
    ensures complete { EachCoverIsListedOnce problem.now.puzzle }
{
    let (_, end) = run_over_links(alloc, problem, words, sink)?;
    end
}
