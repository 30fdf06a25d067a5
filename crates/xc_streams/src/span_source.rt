//! Files that are read one after another, or standard input.
ghost use Rattle.std.specs.Prelude.{◌≤◌, length, IfOk};

use crate::incoming::Incoming;
use crate::located::{Located, Place};
use crate::system::System;
use std::alloc::{AllocError, Global};
use std::fs::{self, Files};
use std::io::{self, Read};
use std::str;

/// How many line feeds were read up to a file's end, and whether its last line has none.
#[derive(Clone, Copy)]
struct Ending {
    feeds: u64,
    cut: bool,
}

/// The named files as one text, each opened when it is reached and closed after its end; standard input
/// where no file is named.
#[derive(Drop)]
pub struct SpanFiles<'a, R: Files, I: Read + Drop> {
    rt: &'a R,
    names: &'a [Vec<u8>],
    stdin: I,
    /// The open file, and how many were reached.
    file: Option<R::File>,
    reached: usize,
    /// The ends of the files that were read.
    ends: Vec<Ending>,
    /// What was read up to now.
    read: Ending,
}

impl<'a, R: Files, I: Read + Drop> SpanFiles<'a, R, I> {
    /// Files by their names, or standard input.
    fn new(
        alloc: Global,
        rt: &'a R,
        names: &'a [Vec<u8>],
        stdin: I,
    ) -> Result<SpanFiles<'a, R, I>, AllocError> {
        Ok(SpanFiles {
            rt,
            names,
            stdin,
            file: None,
            reached: 0,
            ends: Vec::with_capacity(alloc, names.len())?,
            read: Ending {
                feeds: 0,
                cut: false,
            },
        })
    }

    /// Counts the lines of a piece.
    fn count(&mut self, piece: &[u8]) {
        let mut feeds: u64 = 0;
        for b in piece {
            feeds = feeds.wrapping_add(u64::from(*b == b'\n'));
        }
        self.read.feeds = self.read.feeds.saturating_add(feeds);
        if let Some(last) = piece.last() {
            self.read.cut = *last != b'\n';
        }
    }

    /// Opens the next file, if there is one.
    fn open_next(&mut self) -> io::Result<bool> {
        let Some(name) = self.names.get(self.reached) else {
            return Ok(false);
        };
        self.reached += 1;
        let path = str::from_utf8(name).unwrap_or("");
        self.file = Some(fs::open(self.rt, path)?);
        Ok(true)
    }

    /// Reads from the open file, and closes it at its end.
    fn read_open(&mut self, buf: &mut [u8]) -> io::Result<usize>
        ensures { IfOk result (λ n. n ≤ length buf.new) }
    {
        let Some(file) = &mut self.file else {
            return Ok(0);
        };
        let n = file.read(buf)?;
        if n == 0 {
            self.file = None;
            self.ends.push(self.read)?;
            self.read.cut = false;
        }
        Ok(n)
    }

    /// The file of a line, by its number from 0, how many lines are before it, and how many it has, the
    /// last one with or without a line feed.
    fn file_of(&self, line: u64) -> (usize, u64, u64) {
        let mut before = 0;
        for (k, end) in self.ends.iter().enumerate() {
            let last = end.feeds.saturating_add(u64::from(end.cut));
            if line <= last || k + 1 == self.names.len() {
                return (k, before, end.feeds);
            }
            before = end.feeds;
        }
        (self.ends.len(), before, u64::MAX)
    }
}

impl<'a, R: Files, I: Read + Drop> Read for SpanFiles<'a, R, I> {
    fn read(&mut self, buf: &mut [u8]) -> io::Result<usize> {
        if self.names.is_empty() || buf.is_empty() {
            return self.stdin.read(buf);
        }
        for _ in 0..=self.names.len() {
            if self.file.is_none() && !self.open_next()? {
                return Ok(0);
            }
            let n = self.read_open(buf)?;
            if n > 0 {
                self.count(&buf[..n]);
                return Ok(n);
            }
        }
        Ok(0)
    }
}

impl<'a, R: Files, I: Read + Drop> Located for Incoming<System<SpanFiles<'a, R, I>>> {
    fn place(&self, begun: u64, line: u64) -> Place {
        let Some(files) = self.stream() else {
            return Place { file: 0, line };
        };
        let (first, before, feeds) = files.file_of(begun);
        let (other, others, _) = files.file_of(line);
        let line = if first == other {
            line.saturating_sub(others)
        } else {
            feeds.saturating_sub(before).saturating_add(1)
        };
        Place { file: first, line }
    }

    fn reading(&self) -> usize {
        match self.stream() {
            Some(files) => files.reached.saturating_sub(1),
            None => 0,
        }
    }
}

/// The files of these names as a source, or standard input where there is none.
pub fn span_files<'a, R: Files, I: Read + Drop>(
    alloc: Global,
    rt: &'a R,
    names: &'a [Vec<u8>],
    stdin: I,
) -> Result<Incoming<System<SpanFiles<'a, R, I>>>, AllocError> {
    Ok(Incoming::new(Some(SpanFiles::new(alloc, rt, names, stdin)?)))
}
