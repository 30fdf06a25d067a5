//! A search through all members of the listing.
//!
//! Whatever searches here goes by this one: a walk over tables without a meter was a second loop in the program, and
//! the compiler took the moves of the tables into neither, which made counting a tenth slower.
ghost use Rattle.std.specs.Prelude.{◌≡◌, ◌<◌, drop, length, min, IfOk, IfSome, Some, []};
ghost use Rattle.xc_search.specs.Cover.{members, EachMemberCovers};
ghost use Rattle.xc_search.specs.InSpan.{left_of};
ghost use Rattle.xc_search.specs.Listing.{whole};
ghost use Rattle.xc_search.specs.Nodes.{IsRowOf};
ghost use Rattle.xc_search.specs.Outlook.{shown_after};

use crate::metered::Metered;
use std::alloc::Global;
use std::cell::Cell;
use xc_dance::Links;
use xc_input::Problem;
use xc_search::{Halt, Span};
use xc_text::Memory;

/// A search before the first member. All its memory is taken here. `gone_over` is for it alone.
pub fn all_members<'a>(
    alloc: Global,
    problem: &'a Problem,
    gone_over: &'a Cell<u64>,
) -> Result<Span<'a, Metered<'a>>, Memory>
    ensures puzzle { IfOk result (λ s. s.puzzle ≡ problem.now.puzzle) }
    ensures left { IfOk result (λ s. left_of s ≡ members problem.now.puzzle) }
    ensures node { IfOk result (λ s. IfSome s.row (λ row. IsRowOf (whole problem.now.puzzle) row)) }
{
    let links = Links::for_search(alloc, problem)?;
    let metered = Metered::new(links, problem, gone_over);
    match Span::new(alloc, metered, problem, &[], None) {
        Ok(span) => Ok(span),
        Err((_, memory)) => Err(memory),
    }
}

/// Goes on by so many members, or over all where fewer are left, and returns by how many. `choices` then returns those
/// of the last one, where there were so many.
pub fn pass<'a>(span: &mut Span<'a, Metered<'a>>, many: u64) -> u64
    requires some { 0 < many }
    requires node { IfSome span.old.row (λ row. IsRowOf (whole span.old.puzzle) row) }
    ensures node { IfSome span.new.row (λ row. IsRowOf (whole span.new.puzzle) row) }
    ensures puzzle { span.new.puzzle ≡ span.old.puzzle }
    ensures left { left_of span.new ≡ drop many (left_of span.old) }
    ensures count { result ≡ min many (length (left_of span.old)) }
    ensures shown { result ≡ many → span.new.shown ≡ shown_after many (left_of span.old) span.old.shown }
{
    let mut left = many;
    loop {
        let went = span.go_on(left, u64::MAX);
        left -= went.members;
        match went.halt {
            Halt::Member | Halt::End => return many - left,
            Halt::Steps => {}
        }
    }
}
