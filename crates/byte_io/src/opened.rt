// The bytes of a file that is opened.
use crate::source::{ReadFault, Source};
use std::io::Read;

/// What a reader of std gives. Every error of a read is a failed read, an interrupted one too.
#[derive(Drop)]
pub struct Opened<F> {
    file: F,
}

impl<F: Read> Opened<F> {
    ghost use Rattle.std.specs.Prelude.{◌≡◌};

    /// What a reader is still to give.
    pub fn new(file: F) -> Opened<F>
        ensures { result.file ≡ file }
    {
        Opened { file }
    }
}

impl<F: Read> Source for Opened<F> {
    ghost use Rattle.byte_io.specs.Known.{IsRead};

    ghost reads = { λ from outcome to. IsRead (F.remaining from.file) outcome (F.remaining to.file) };

    fn read(&mut self, buf: &mut [u8]) -> Result<usize, ReadFault> {
        match self.file.read(buf) {
            Ok(count) => Ok(count),
            Err(_) => Err(ReadFault),
        }
    }
}
