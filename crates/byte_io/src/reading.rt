// A source is read to its end.
ghost use Rattle.std.specs.Prelude.{◌<◌, length};
ghost use Rattle.byte_io.specs.Takes.{HasRoom, Takes};
ghost use Rattle.byte_io.specs.Reads.{WasRead};

use crate::source::Source;
use crate::takes::ByteSink;
use std::alloc::{AllocError, Global};

/// How many bytes are read at a time.
const PIECE: usize = 65_536;

/// Why a source was not read to its end.
#[derive(Clone, Copy, Debug, PartialEq, Eq)]
pub enum Unread {
    Memory,
    Failed,
    TooLong,
}

impl From<AllocError> for Unread {
    ghost use Rattle.std.specs.Prelude.{◌≡◌};
    ghost use Rattle.byte_io.specs.declared.reading.Unread.TheVariants as reasons;

    ghost from_gives = { λ _ reason. reason ≡ reasons.Memory };

    fn from(_error: AllocError) -> Unread {
        Unread::Memory
    }
}

/// Hands on what a source gives, by way of a buffer.
fn read_through<S: Source, T: ByteSink>(
    source: &mut S,
    buffer: &mut [u8],
    limit: u64,
    takes: &mut T,
) -> Result<(), Unread>
    requires some { 0 < length buffer.old }
    requires room { HasRoom T.has_taken takes.old limit }
    ensures { WasRead S.reads limit source.old source.new result (λ bytes _. Takes T.has_taken takes.old bytes takes.new) }
{
    let mut left = limit;
    'reads: loop {
        let Ok(count) = source.read(buffer) else {
            return Err(Unread::Failed);
        };
        if count == 0 {
            return Ok(());
        }
        if count as u64 > left {
            return Err(Unread::TooLong);
        }
        left -= count as u64;
        takes.feed(&buffer[..count])?;
    }
}

/// Hands on what a source gives to its end, or until that is more than `limit` bytes. Every error of
/// a read is a failed read, an interrupted one too.
pub fn read_all<S: Source, T: ByteSink>(
    alloc: Global,
    limit: u64,
    source: &mut S,
    takes: &mut T,
) -> Result<(), Unread>
    requires { HasRoom T.has_taken takes.old limit }
    ensures { WasRead S.reads limit source.old source.new result (λ bytes _. Takes T.has_taken takes.old bytes takes.new) }
{
    let mut buffer = vec![in alloc; 0u8; PIECE]?;
    read_through(source, buffer.as_mut_slice(), limit, takes)
}
