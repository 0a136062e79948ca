// Totals of what sources give, and of files by their paths.
ghost use Rattle.std.specs.Prelude.{◌≡◌, ℕ, List, IfOk, Some};
ghost use Rattle.byte_io.specs.Outcomes.{Outcome};
ghost use Rattle.byte_io.specs.Reads.{Reads, WasRead};
ghost use Rattle.file_reading.specs.Readers.{IsTotalOf, IsAnswer, IsAnswerOf};

use crate::total::{Total, TotalText, refused};
use byte_io::{Opened, Source, Unread, read_all};
use callgrind_reader::FILE_LIMIT;
use std::alloc::{AllocError, Global};
use std::fs;
use std::io::{ErrorKind, Read};
use std::rt::Files;

/// The total of what a source gives, if that was read to its end.
fn total_of<S: Source>(alloc: Global, source: &mut S) -> Result<TotalText, Unread>
    ensures { WasRead S.reads 1073741824 source.old source.new result IsTotalOf }
{
    let mut total = Total::new(alloc)?;
    match read_all(alloc, FILE_LIMIT, source, &mut total) {
        Ok(()) => Ok(total.finish(alloc)?),
        Err(end) => {
            drop(total);
            Err(end)
        }
    }
}

/// The total of what a source gives, where that is not too long and no read failed, else the line
/// that says which.
pub fn total_read<S: Source>(alloc: Global, source: &mut S) -> Result<TotalText, AllocError>
    ensures { (outcomes : List Outcome) × Reads S.reads source.old outcomes source.new × IfOk result (IsAnswer outcomes) }
{
    match total_of(alloc, source) {
        Ok(total) => Ok(total),
        Err(Unread::Failed) => refused(alloc, "read failed"),
        Err(Unread::TooLong) => refused(alloc, "too long"),
        Err(Unread::Memory) => Err(AllocError),
    }
}

/// The total of what a reader of std gives.
pub fn total_opened<F: Read + Drop>(alloc: Global, file: F) -> Result<TotalText, AllocError>
    ensures { (text : List ℕ) → F.remaining file ≡ Some text → IfOk result (IsAnswerOf text) }
{
    let mut source = Opened::new(file);
    total_read(alloc, &mut source)
}

/// The total of the file at a path, of which one piece and one line at most are held at a time. No
/// guarantee: of an opened file the checker knows no bytes; `total_opened` says what is made of them.
pub fn total_file<R: Files + AllocGlobal>(rt: &R, path: &str) -> Result<TotalText, AllocError> {
    match fs::open(rt, path) {
        Ok(file) => total_opened(rt.alloc(), file),
        Err(error) if error.kind() == ErrorKind::OutOfMemory => Err(AllocError),
        Err(_) => refused(rt.alloc(), "read failed"),
    }
}
