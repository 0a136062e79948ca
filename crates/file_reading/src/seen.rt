// The file at a path, as a source.
ghost use Rattle.std.specs.Prelude.{◌≡◌, None};

use crate::beginnings::{Beginning, beginning_of};
use byte_io::{ReadFault, Source};
use std::fs;
use std::io::{ErrorKind, Read};
use std::rt::Files;

/// The file at a path, opened by the first read; where it cannot be opened, that read fails. What is seen of it is kept.
#[derive(Drop)]
pub struct SeenFile<'a, R: Files> {
    rt: &'a R,
    path: &'a str,
    file: Option<R::File>,
    /// By the bytes of the first read.
    beginning: Option<Beginning>,
    /// Why it was not opened, or a read of it failed.
    failed: Option<ErrorKind>,
}

impl<'a, R: Files> SeenFile<'a, R> {
    /// The file at a path, not opened yet.
    pub fn new(rt: &'a R, path: &'a str) -> SeenFile<'a, R>
        ensures { result.file ≡ None }
    {
        SeenFile {
            rt,
            path,
            file: None,
            beginning: None,
            failed: None,
        }
    }

    /// How it begins, if it was read.
    pub fn beginning(&self) -> Option<Beginning>
        ensures { result ≡ self.now.beginning }
    {
        self.beginning
    }

    /// Why it was not opened, or a read of it failed.
    pub fn failed(&self) -> Option<ErrorKind>
        ensures { result ≡ self.now.failed }
    {
        self.failed
    }

    /// Opens it. No guarantee: which file is at a path, the checker does not know.
    fn open(&mut self) -> Result<R::File, ReadFault>
        ensures { self.new.file ≡ self.old.file }
    {
        match fs::open(self.rt, self.path) {
            Ok(file) => Ok(file),
            Err(error) => {
                self.failed = Some(error.kind());
                Err(ReadFault)
            }
        }
    }
}

impl<R: Files> Source for SeenFile<'_, R> {
    ghost use Rattle.file_reading.specs.Seen.{SeenReads};

    ghost reads = { SeenReads R.File.remaining };

    fn read(&mut self, buf: &mut [u8]) -> Result<usize, ReadFault> {
        if self.file.is_none() {
            self.file = Some(self.open()?);
        }
        let Some(file) = &mut self.file else {
            return Err(ReadFault);
        };
        match file.read(buf) {
            Ok(count) => {
                if self.beginning.is_none() {
                    self.beginning = Some(beginning_of(&buf[..count]));
                }
                Ok(count)
            }
            Err(error) => {
                self.failed = Some(error.kind());
                Err(ReadFault)
            }
        }
    }
}
