//! A file that is opened when it is read.
ghost use Rattle.std.specs.Io.{ReadsAtMost};
ghost use Rattle.std.specs.Prelude.{◌≡◌, None, IsSome, OnOk, option_and_then};
ghost use Rattle.std.specs.Io.KnownBytes.{ReadConsumes};

use std::fs::{self, Files};
use std::io::{self, Read};

/// A file by its path. It is opened at the first read, so that a run that doesn't read it doesn't wait for it.
#[derive(Drop)]
pub struct NamedFile<'a, R: Files> {
    rt: &'a R,
    pub(crate) path: &'a str,
    file: Option<R::File>,
}

impl<'a, R: Files> NamedFile<'a, R> {
    /// A file that isn't opened yet.
    pub(crate) fn new(rt: &'a R, path: &'a str) -> NamedFile<'a, R>
        ensures path { result.path.now ≡ path.now }
        ensures unopened { result.file ≡ None }
    {
        NamedFile {
            rt,
            path,
            file: None,
        }
    }
}

impl<'a, R: Files> Read for NamedFile<'a, R> {
    ghost remaining = { λ s. option_and_then R.File.Read.remaining s.file };

    fn read(&mut self, buf: &mut [u8]) -> io::Result<usize>
        ensures bound { ReadsAtMost result buf.new }
        ensures bytes { ReadConsumes (option_and_then R.File.Read.remaining self.old.file)
            (option_and_then R.File.Read.remaining self.new.file) result buf.new }

        // What was read stays open, so the next read goes on where this one ended.
        ensures open { OnOk result (IsSome self.new.file) }
    {
        match &mut self.file {
            Some(file) => file.read(buf),
            None => {
                let mut file = fs::open(self.rt, self.path)?;
                let read = file.read(buf);
                self.file = Some(file);
                read
            }
        }
    }
}
