//! A file that is only read: each method makes at most one call of the system, and notes it with its answer.
ghost use Rattle.std.specs.Prelude.{◌≡◌, ◌<◌, ◌≤◌, ◌^◌, [], ◌∷◌, length, IfOk};
ghost use Rattle.sqlite_disk.specs.Events.{settled};

use crate::record::Record;
use sqlite_disk::{Calls, is_no_room};
use std::os::unix::fs::FileExt;
use std::{fs, io};

const SETTLED: u64 = 0;

const MEASURED: u64 = 1;

const READ: u64 = 2;

const WRITTEN: u64 = 3;

const CUT: u64 = 4;

const FLUSHED: u64 = 5;

const TESTED: u64 = 6;

const MAX_OFFSET: usize = (1 << 63) - 1;

/// A file that is open to be read, or none: a log that is missing is as one of no bytes.
#[derive(Drop)]
pub struct FileToRead {
    file: Option<fs::File>,
    log: Record,
}

impl FileToRead {
    pub(crate) fn new(file: Option<fs::File>, key: u64) -> FileToRead
        ensures { result.log.events ≡ settled key ∷ [] }
    {
        let mut log = Record::new();
        log.note(&[SETTLED, key, 0, 1], &[]);
        FileToRead { file, log }
    }
}

fn measure(file: &Option<fs::File>) -> io::Result<usize> {
    match file {
        None => Ok(0),
        Some(file) => Ok(file.metadata()?.len() as usize),
    }
}

fn read(file: &Option<fs::File>, at: usize, buf: &mut [u8]) -> io::Result<usize>
    ensures { IfOk result (λ n. (0 < n) × (n ≤ length buf.old) × (at < 2 ^ 63)) }
{
    let Some(file) = file else {
        return Err(io::ErrorKind::UnexpectedEof.into());
    };
    if at > MAX_OFFSET {
        return Err(io::ErrorKind::InvalidInput.into());
    }
    let got = file.read_at(buf, at as u64)?;
    if got == 0 {
        Err(io::ErrorKind::UnexpectedEof.into())
    } else {
        Ok(got)
    }
}

impl Calls for FileToRead {
    ghost history = { λ f. f.log.events };

    fn len(&mut self) -> io::Result<usize> {
        let answer = measure(&self.file);
        match answer {
            Ok(n) => self.log.note(&[MEASURED, n as u64, 0, 1], &[]),
            Err(_) => self.log.note(&[MEASURED, 0, 0, 0], &[]),
        }
        answer
    }

    fn read_some(&mut self, at: usize, buf: &mut [u8]) -> io::Result<usize> {
        let (at64, len) = (at as u64, buf.len() as u64);
        let answer = read(&self.file, at, buf);
        match answer {
            Ok(n) => self.log.note(&[READ, at64, len, 1], &buf[..n]),
            Err(_) => self.log.note(&[READ, at64, len, 0], &[]),
        }
        answer
    }

    fn read_under(&mut self, key: u64, want: u64, at: usize, buf: &mut [u8]) -> io::Result<usize> {
        let (at64, len) = (at as u64, buf.len() as u64);
        let answer = read(&self.file, at, buf);
        match answer {
            Ok(n) => self.log.note(&[TESTED, at64, len, 1, key, want], &buf[..n]),
            Err(_) => self.log.note(&[TESTED, at64, len, 0, key, want], &[]),
        }
        answer
    }

    fn write_some(&mut self, at: usize, bytes: &[u8]) -> io::Result<usize> {
        let error = io::Error::from(io::ErrorKind::ReadOnlyFilesystem);
        self.log.note(
            &[WRITTEN, at as u64, u64::from(is_no_room(&error)), 0],
            bytes,
        );
        Err(error)
    }

    fn resize(&mut self, len: usize) -> io::Result<()> {
        let error = io::Error::from(io::ErrorKind::ReadOnlyFilesystem);
        self.log
            .note(&[CUT, len as u64, u64::from(is_no_room(&error)), 0], &[]);
        Err(error)
    }

    fn sync(&mut self) -> io::Result<()> {
        let error = io::Error::from(io::ErrorKind::ReadOnlyFilesystem);
        self.log
            .note(&[FLUSHED, 0, u64::from(is_no_room(&error)), 0], &[]);
        Err(error)
    }
}
