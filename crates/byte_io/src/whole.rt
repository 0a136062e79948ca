// The bytes of a source, kept.
ghost use Rattle.std.specs.Prelude.{◌≡◌, ◌≤◌};
ghost use Rattle.byte_io.specs.Reads.{WasRead};

use crate::reading::{Unread, read_all};
use crate::source::Source;
use crate::takes::ByteSink;
use std::alloc::{AllocError, Global};

/// The bytes that were read so far.
#[derive(Drop)]
struct Gathered {
    bytes: Vec<u8>,
}

impl ByteSink for Gathered {
    ghost use Rattle.std.specs.Prelude.{◌≡◌};

    ghost Form = { Unit {0} };

    ghost has_taken = { λ gathered form bytes. gathered.bytes.items ≡ bytes };

    fn feed(&mut self, piece: &[u8]) -> Result<(), AllocError> {
        self.bytes.extend_from_slice(piece)?;
        Ok(())
    }
}

/// The bytes that a source gives to its end, or until that is more than `limit` bytes. Every error of a
/// read is a failed read, an interrupted one too.
pub fn read_to_end<S: Source>(alloc: Global, limit: u64, source: &mut S) -> Result<Vec<u8>, Unread>
    requires { limit ≤ 1073741824 }
    ensures { WasRead S.reads limit source.old source.new result (λ bytes whole. whole.items ≡ bytes) }
{
    let mut gathered = Gathered {
        bytes: Vec::new(alloc),
    };
    read_all(alloc, limit, source, &mut gathered)?;
    let Gathered { bytes } = gathered;
    Ok(bytes)
}
