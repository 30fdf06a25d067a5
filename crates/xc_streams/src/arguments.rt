//! What the programs take from the command line.
//!
//! Arguments are read one by one, since the program's own name, in a folder of any name, may not be UTF-8; by
//! `env::args` all would then fail. An argument that isn't UTF-8 gets `Out of memory.` and status 4.
ghost use Rattle.std.specs.Prelude.{◌≡◌, ◌≤◌, ℕ, List, [], Option, None, All, IfOk, IfSome, IsSomeAnd, slice_get};
ghost use Rattle.std.specs.Prelude.{drop, length, map, option_map};
ghost use Rattle.std.specs.Str.{IsUtf8};
ghost use Rattle.xc_streams.specs.Arguments.{IsWordAt};

use crate::incoming::Incoming;
use crate::lazy_file::NamedFile;
use crate::system::System;
use std::alloc::{AllocError, AllocGlobal, Global};
use std::env::{Env, FillError};
use std::fs::Files;
use std::str;

/// How many bytes most words have at most.
const USUAL: usize = 256;

/// The words of a command line.
// In place of `Env`, whose contract doesn't say which word a call puts there.
pub trait Arguments {
    /// The words, the program's name first, where they are reported.
    ghost told: { Self → Option (List (List ℕ)) };

    /// Puts the word at this place into the front of a buffer, and says how long it is.
    fn fill(&self, place: usize, buf: &mut [u8]) -> Result<usize, FillError>
        ensures bound { IfOk result (λ n. n ≤ length buf.new) }
        ensures word { IfSome (told self.now) (λ words. IsWordAt words place buf.new result) };
}

/// Those of the system, whose words contracts don't know.
#[derive(Drop)]
pub struct CommandLine<'a, R: Env> {
    rt: &'a R,
}

impl<'a, R: Env> Arguments for CommandLine<'a, R> {
    ghost told = { λ _. None };

    fn fill(&self, place: usize, buf: &mut [u8]) -> Result<usize, FillError> {
        self.rt.arg(place, buf)
    }
}

/// The word at this place, by its bytes, or none where there are fewer words.
fn word<A: Arguments>(
    alloc: Global,
    arguments: &A,
    place: usize,
) -> Result<Option<Vec<u8>>, AllocError>
    ensures { IfOk result (λ found. IfSome (A.told arguments.now)
        (λ words. option_map (λ w. w.items) found ≡ slice_get words place)) }
{
    let mut size = USUAL;
    for _ in 0..usize::BITS {
        let mut word = vec![in alloc; 0; size]?;
        match arguments.fill(place, &mut word) {
            Ok(len) => {
                word.truncate(len);
                return Ok(Some(word));
            }
            Err(FillError::NotPresent) => return Ok(None),
            Err(FillError::TooLong) => size = size.saturating_mul(2),
        }
    }
    Err(AllocError)
}

/// The words after the first one, which is the program's name, in order and each whole. One that isn't UTF-8 is
/// answered as lack of memory.
pub fn read_words<A: Arguments>(alloc: Global, arguments: &A) -> Result<Vec<Vec<u8>>, AllocError>
    ensures all { IfOk result (λ read. IfSome (A.told arguments.now)
        (λ words. map (λ w. w.items) read.items ≡ drop 1 words)) }
    ensures utf8 { IfOk result (λ read. All (λ w. IsUtf8 w.items) read.items) }
{
    let mut words = Vec::new(alloc);
    for place in 1..usize::MAX {
        let Some(word) = word(alloc, arguments, place)? else {
            return Ok(words);
        };
        if str::from_utf8(&word).is_err() {
            return Err(AllocError);
        }
        words.push(word)?;
    }
    Err(AllocError)
}

/// The words after the program's name, by their bytes: `read_words` of the system's. They are fetched one by one:
/// `env::args` would fail as a whole where the program's name isn't UTF-8.
pub fn words<R: Env + AllocGlobal>(rt: &R) -> Result<Vec<Vec<u8>>, AllocError>
    ensures utf8 { IfOk result (λ read. All (λ w. IsUtf8 w.items) read.items) }
{
    read_words(rt.alloc(), &CommandLine { rt })
}

/// The file that the first word names, as a source. It is opened at the first read, which fails where there is no such
/// file to read. Without a word nothing is opened.
pub fn named_file<'a, R: Files>(
    rt: &'a R,
    words: &'a [Vec<u8>],
) -> Incoming<System<NamedFile<'a, R>>>
    ensures missing { words.now ≡ [] → result.reader ≡ None }
    ensures named { IfSome (slice_get words.now 0) (λ w. IsUtf8 w.items →
        IsSomeAnd result.reader (λ r. r.stream.path.now ≡ w.items)) }
{
    let Some(word) = words.first() else {
        return Incoming::new(None);
    };
    match str::from_utf8(word) {
        Ok(path) => Incoming::new(Some(NamedFile::new(rt, path))),
        Err(_) => Incoming::new(None),
    }
}
