//! Listings judged.
//!
//! In the definition bodies are words, not items: a body stands for an option by the words of its uses, as they are
//! printed. So the definition looks nothing up, and needs no rule for names or colours that the problem doesn't have.
//! The code here cuts each word at its first colon into a name and a colour, with the same result.
ghost use Rattle.std.specs.Prelude.{◌≡◌, ◌<◌, ◌≤◌, ℕ, List, [], length, is_some, true, Some, All};
ghost use Rattle.std.specs.Prelude.{OnOk, IfOk, IfErr, IfSome};
ghost use Rattle.xc_input.specs.Named.{IsSound};
ghost use Rattle.xc_text.specs.Lines.{lines_of};
ghost use Rattle.xc_check.specs.ListingLines.{words_in};
ghost use Rattle.xc_check.specs.inner.Listings.{read, Header, Body, IsClassOfLine};
ghost use Rattle.xc_check.specs.inner.Classes.{IsClassOfBody};
ghost use Rattle.xc_check.specs.Listed.{fault_in_lines, AreVerdicts, IsListingFault};
ghost use Rattle.xc_check.specs.inner.Checking.{IsProgress, AreAllTaken, Closes, Takes, Refuses};

mod counts;
mod cover_counter;
mod listing_lines;
mod option_index;
mod rotation;
mod seen_lines;

use crate::checker::cover_counter::CoverCounter;
use crate::checker::listing_lines::read_line;
use crate::checker::option_index::OptionIndex;
use crate::checker::seen_lines::SeenLines;
use crate::judged_line::ListingLine;
use crate::verdict::{ListingFault, Verdict};
pub use listing_lines::branch_number;
use std::alloc::{AllocError, Global};
use std::marker::Model;
use xc_input::Problem;
use xc_text::cut_line;

/// How many choice lines are noted at most: lines that were chosen for it can make the notes of no use, and
/// they take no more memory then.
const MOST_PLACES: usize = 65536;

/// A listing judged up to some line.
#[derive(Drop)]
struct Checker<'a> {
    options: OptionIndex<'a>,
    counter: CoverCounter,
    /// The number of the solution that is open.
    open_number: Option<u64>,
    /// The classes of its choice lines.
    chosen: Vec<usize>,
    /// The verdicts on the solutions before it.
    verdicts: Vec<Verdict>,
    /// Choice lines that were met.
    seen: SeenLines,
}

impl<'a> Model for Checker<'a> {
    ghost use Rattle.std.specs.Prelude.{◌≡◌, ◌<◌, length, All};
    ghost use Rattle.xc_check.specs.inner.Classes.{IsIndexed, places_of};
    ghost use Rattle.xc_check.specs.inner.Checking.{Progress};
    ghost use Rattle.xc_check.specs.inner.Listings.{IsRightly};

    ghost Value = { Progress };

    ghost view = { λ s. record {
      options = s.options;
      open_number = s.open_number;
      chosen = s.chosen.items;
      verdicts = s.verdicts.items;
    } };

    ghost invariant = { λ s. record {
      places : s.counter ≡ places_of s.options;
      indexed : IsIndexed s.options;
      known : All (λ k. k < length s.options.classes) s.chosen.items;
      seen : All (IsRightly s.options) s.seen.lines.items;
    } };
}

impl<'a> Checker<'a> {
    /// No line of any listing is judged.
    #[tactic(auto, using(crate::proofs::CheckLemmas::listed_solutions))]
    fn new(alloc: Global, problem: &'a Problem, places: usize) -> Result<Checker<'a>, AllocError>
        requires { places ≤ 65536 }
        ensures problem { IfOk result (λ s. s.options.problem ≡ problem.now) }
        ensures whole { IsSound problem.now }
        ensures begun { IfOk result (λ s. (all : List (List ℕ)) → IsProgress all 0 all s) }
    {
        let options = OptionIndex::new(alloc, problem)?;
        let counter = CoverCounter::new(alloc, problem, options.classes())?;
        let seen = SeenLines::new(alloc, places)?;
        Ok(Checker {
            options,
            counter,
            open_number: None,
            chosen: Vec::new(alloc),
            verdicts: Vec::new(alloc),
            seen,
        })
    }

    /// Judges the solution that is open.
    fn end_solution(&mut self) -> Result<(), AllocError>
        ensures options { self.new.options ≡ self.old.options }
        ensures closes { OnOk result (Closes self.old self.new) }
    {
        if let Some(number) = self.open_number {
            let cover = self.counter.is_cover(&self.options, self.chosen.as_slice());
            self.verdicts.push(Verdict { number, cover })?;
        }
        Ok(())
    }

    #[tactic(auto, using(crate::proofs::CheckLemmas::header_taken, crate::proofs::CheckLemmas::progress))]
    fn take_header(&mut self, number: u64) -> Result<(), AllocError>
        ensures options { self.new.options ≡ self.old.options }
        ensures takes { OnOk result (Takes (Header number) self.old self.new) }
    {
        self.end_solution()?;
        self.chosen.clear();
        self.open_number = Some(number);
        Ok(())
    }

    /// Takes a choice line whose body stands for this class.
    fn take_class(&mut self, class: usize) -> Result<(), AllocError>
        requires open { is_some self.old.open_number ≡ true }
        requires known { class < length self.old.options.classes }
        ensures options { self.new.options ≡ self.old.options }
        ensures takes { OnOk result
            ((words : List (List ℕ)) → IsClassOfBody self.old.options words (Some class)
            → Takes (Body words) self.old self.new) }
    {
        self.chosen.push(class)?;
        Ok(())
    }

    /// Takes the choice line with this number, and its body.
    fn take_body(&mut self, number: u64, line: &[u8], body: &[u8]) -> Result<(), ListingFault>
        requires { read line.now ≡ Body (words_in body.now) }
        ensures options { self.new.options ≡ self.old.options }
        ensures takes { OnOk result (Takes (Body (words_in body.now)) self.old self.new) }
        ensures fault { IfErr result (Refuses number (Body (words_in body.now)) self.old) }
    {
        if self.open_number.is_none() {
            return Err(ListingFault::BadLine(number));
        }
        match self.options.class_of(body) {
            Err(fault) => Err(fault.into()),
            Ok(Some(class)) => {
                self.seen.note(line, class);
                Ok(self.take_class(class)?)
            }
            Ok(None) if self.options.is_none(body) => Ok(()),
            Ok(None) => Err(ListingFault::UnknownOption(number)),
        }
    }

    /// Takes the line with this number, word by word.
    fn take_new_line(&mut self, number: u64, line: &[u8]) -> Result<(), ListingFault>
        ensures options { self.new.options ≡ self.old.options }
        ensures takes { OnOk result (Takes (read line.now) self.old self.new) }
        ensures fault { IfErr result (Refuses number (read line.now) self.old) }
    {
        match read_line(line) {
            ListingLine::Header(solution) => Ok(self.take_header(solution)?),
            ListingLine::Body(body) => self.take_body(number, line, body),
            ListingLine::Other => Err(ListingFault::BadLine(number)),
        }
    }

    /// The class of a choice line that was met. No other line begins with a space, and none is
    /// looked for.
    fn seen_class(&self, line: &[u8]) -> Option<usize>
        ensures { IfSome result (IsClassOfLine self.now.options line.now) }
    {
        match line {
            [b' ', ..] => self.seen.class_of(line),
            _ => None,
        }
    }

    /// Takes the line with this number.
    fn take_line(&mut self, number: u64, line: &[u8]) -> Result<(), ListingFault>
        ensures options { self.new.options ≡ self.old.options }
        ensures takes { OnOk result (Takes (read line.now) self.old self.new) }
        ensures fault { IfErr result (Refuses number (read line.now) self.old) }
    {
        match self.seen_class(line) {
            Some(class) if self.open_number.is_some() => Ok(self.take_class(class)?),
            _ => self.take_new_line(number, line),
        }
    }

    /// Takes the lines of a listing, in order.
    fn take_lines(&mut self, listing: &[u8]) -> Result<(), ListingFault>
        requires { IsProgress (lines_of listing.now) 0 (lines_of listing.now) self.old }
        ensures options { self.new.options ≡ self.old.options }
        ensures taken { OnOk result (AreAllTaken (lines_of listing.now) self.new) }
        ensures fault { IfErr result (IsListingFault self.old.options.problem (lines_of listing.now)) }
    {
        let mut lines: u64 = 0;
        let mut rest = listing;
        while !rest.is_empty() {
            let (line, others) = cut_line(rest);
            lines = lines.saturating_add(1);
            self.take_line(lines, line)?;
            rest = others;
        }
        Ok(())
    }

    /// The verdicts, once all lines are judged.
    fn finish(mut self) -> Result<Vec<Verdict>, AllocError>
        ensures { IfOk result (λ vs. (all : List (List ℕ)) (done : ℕ) → IsProgress all done [] self.entry
            → AreVerdicts self.entry.options.problem all vs.items) }
    {
        self.end_solution()?;
        Ok(self.verdicts)
    }
}

/// The verdicts on the solutions of a listing, or its first fault.
pub fn check(alloc: Global, problem: &Problem, listing: &[u8]) -> Result<Vec<Verdict>, ListingFault>
    ensures accepted { IfOk result (λ vs. fault_in_lines problem.now 0 (lines_of listing.now) ≡ None) }
    ensures verdicts { IfOk result (λ vs. AreVerdicts problem.now (lines_of listing.now) vs.items) }
    ensures fault { IfErr result (IsListingFault problem.now (lines_of listing.now)) }
    ensures whole { IsSound problem.now }
{
    // Lines that were met are known again, by a place for each 64 bytes of the listing: the judge then takes half the
    // time or less.
    let mut checker = Checker::new(alloc, problem, (listing.len() / 64).min(MOST_PLACES))?;
    checker.take_lines(listing)?;
    Ok(checker.finish()?)
}
