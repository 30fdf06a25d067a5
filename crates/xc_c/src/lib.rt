//! Exact cover problems for C, and for all that calls C: calls on numbers and bytes, whose header is
//! `bindings/c/helgrothy.h`. Each returns a status: 0 where all was done, 1 for a number of no kind, 2 for a text with
//! a fault, 3 where a listing or a number is longer than its buffer, 4 for lack of memory, 5 where a search met its
//! limit. Names and colours are hashed by the seed, and the answer is the same by each.
//!
//! A call keeps nothing: no handle to a search and the problem that it borrows can be both exported and proved
//! (`docs/DECISIONS.md`).
#![tactic(auto)]

ghost use Rattle.std.specs.Prelude.{◌≡◌};
ghost use Rattle.xc_c.specs.Answers.{Counts, Lists, Searches, TellsFault, Totals};
ghost use Rattle.xc_c.specs.Numbers.{version_number};

mod numbers;
mod seeds;
mod texts;

use crate::numbers::{
    DONE, FAULT, LIMIT, NO_KIND, NO_MEMORY, error_status, fault_number, kind_by_number,
};
use crate::seeds::seed_by_number;
use crate::texts::{count_solutions, first_fault, list_solutions, put_total};
use std::alloc::Global;
use xc_list::Words;

/// The version: ten thousand times the first number, a hundred times the second, and the third.
#[unsafe(no_mangle)]
pub extern "C" fn helgrothy_version() -> u32
    ensures { result ≡ version_number 0 1 0 }
{
    100
}

/// The line and the number of the first fault of a text, with status 2; zeros with another.
#[unsafe(no_mangle)]
pub extern "C" fn helgrothy_fault(
    alloc: Global,
    kind: u32,
    text: &[u8],
    seed: u64,
    line: &mut u64,
    fault: &mut u32,
) -> u32
    ensures { TellsFault kind text.now result line.new fault.new }
{
    *line = 0;
    *fault = 0;
    let Some(kind) = kind_by_number(kind) else {
        return NO_KIND;
    };
    match first_fault(alloc, kind, text, seed_by_number(seed)) {
        Ok(None) => DONE,
        Ok(Some((at, kind))) => {
            *line = at;
            *fault = fault_number(kind);
            FAULT
        }
        Err(_) => NO_MEMORY,
    }
}

/// How many solutions the problem of a text has, up to a limit; 0 where nothing was searched.
#[unsafe(no_mangle)]
pub extern "C" fn helgrothy_count(
    alloc: Global,
    kind: u32,
    text: &[u8],
    seed: u64,
    limit: u64,
    count: &mut u64,
) -> u32
    ensures { Searches kind text.now result (count.new ≡ 0) (Counts limit result count.new) }
{
    *count = 0;
    let Some(kind) = kind_by_number(kind) else {
        return NO_KIND;
    };
    match count_solutions(alloc, kind, text, seed_by_number(seed), limit) {
        Ok(found) => {
            *count = found;
            if found < limit { DONE } else { LIMIT }
        }
        Err(error) => error_status(&error),
    }
}

/// How many solutions the problem of a text has, in decimal, whatever their number: by a count of states beside a
/// search (`xc_count::count`), whose states take about so many bytes at most. The first digits are put into the buffer,
/// as many as there is room for, and counted; what is left of the buffer stays as it was.
#[unsafe(no_mangle)]
pub extern "C" fn helgrothy_total(
    alloc: Global,
    kind: u32,
    text: &[u8],
    seed: u64,
    bytes: usize,
    buffer: &mut [u8],
    used: &mut usize,
) -> u32
    ensures { Searches kind text.now result ((buffer.new ≡ buffer.old) × (used.new ≡ 0))
        (Totals buffer.old buffer.new result used.new) }
{
    *used = 0;
    let Some(kind) = kind_by_number(kind) else {
        return NO_KIND;
    };
    match put_total(alloc, kind, text, seed_by_number(seed), bytes, buffer) {
        Ok((status, digits)) => {
            *used = digits;
            status
        }
        Err(error) => error_status(&error),
    }
}

/// Lists the solutions of the problem of a text into a buffer: each whose number `spacing` divides, none
/// for 0, up to a limit. Its first bytes are put there, as many as there is room for, and counted; what
/// is left of the buffer stays as it was. It takes as much memory again as the buffer has.
#[unsafe(no_mangle)]
pub extern "C" fn helgrothy_list(
    alloc: Global,
    kind: u32,
    text: &[u8],
    seed: u64,
    spacing: u64,
    limit: u64,
    buffer: &mut [u8],
    used: &mut usize,
) -> u32
    ensures { Searches kind text.now result ((buffer.new ≡ buffer.old) × (used.new ≡ 0))
        (Lists spacing limit buffer.old buffer.new result used.new) }
{
    *used = 0;
    let Some(kind) = kind_by_number(kind) else {
        return NO_KIND;
    };
    let words = Words { spacing, limit };
    match list_solutions(alloc, kind, text, seed_by_number(seed), words, buffer) {
        Ok((status, bytes)) => {
            *used = bytes;
            status
        }
        Err(error) => error_status(&error),
    }
}
