// The bytes of files that are imported.
ghost use Rattle.std.specs.Prelude.{◌≡◌, None};

use crate::{Opened, ReadFault, Source};
use std::fs;
use std::rt::Files;

/// The file at a path, opened by the first read; where it cannot be opened, that read fails.
#[derive(Drop)]
pub struct FileSource<'a, R: Files> {
    rt: &'a R,
    path: &'a str,
    file: Option<Opened<R::File>>,
}

impl<'a, R: Files> FileSource<'a, R> {
    /// The file at a path, not opened yet.
    pub fn new(rt: &'a R, path: &'a str) -> FileSource<'a, R>
        ensures { result.file ≡ None }
    {
        FileSource {
            rt,
            path,
            file: None,
        }
    }
}

/// The file at a path, opened. No guarantee: which file that is, the checker does not know.
fn open_at<R: Files>(rt: &R, path: &str) -> Result<Opened<R::File>, ReadFault> {
    match fs::open(rt, path) {
        Ok(file) => Ok(Opened::new(file)),
        Err(_) => Err(ReadFault),
    }
}

impl<R: Files> Source for FileSource<'_, R> {
    ghost use Rattle.byte_io.specs.Imported.{FileReads};

    ghost reads = { FileReads R.File.remaining };

    fn read(&mut self, buf: &mut [u8]) -> Result<usize, ReadFault> {
        if self.file.is_none() {
            self.file = Some(open_at(self.rt, self.path)?);
        }
        match &mut self.file {
            Some(file) => file.read(buf),
            None => Err(ReadFault),
        }
    }
}
