// A source is read to its end, as a file of a kind.
ghost use Rattle.std.specs.Prelude.{◌≤◌, ◌^◌};
ghost use Rattle.byte_io.specs.Reads.{WasRead};
ghost use Rattle.file_reading.specs.FileParsers.{IsParsedOf};

use crate::parser::{FileParser, ParsedFile};
use byte_io::{Source, Unread, read_all};
use profile_records::Kind;
use std::alloc::Global;

/// Reads a source to its end, a fault of its file or not.
pub fn parse_file<R: Source>(
    alloc: Global,
    kind: Kind,
    limit: u64,
    source: &mut R,
) -> Result<ParsedFile, Unread>
    requires { limit ≤ 2 ^ 30 }
    ensures { WasRead R.reads limit source.old source.new result (IsParsedOf kind) }
{
    let mut parser = FileParser::new(alloc, kind)?;
    match read_all(alloc, limit, source, &mut parser) {
        Ok(()) => Ok(parser.finish()?),
        Err(end) => {
            drop(parser);
            Err(end)
        }
    }
}
