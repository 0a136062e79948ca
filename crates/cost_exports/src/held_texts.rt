// Texts that are held, or whose bytes are counted alone, up to a length.
ghost use Rattle.std.specs.Prelude.{◌≡◌, ◌+◌, ◌++◌, ◌≤◌, [], length};

use byte_io::TextSink;
use cg_text::ListVec;
use std::alloc::Global;
use std::io;
use std::io::ErrorKind;

/// A text that is longer than it may be.
fn too_long() -> io::Error {
    io::Error::from(ErrorKind::OutOfMemory)
}

/// A text of so many bytes at most.
#[derive(Drop)]
pub(crate) struct HeldText {
    pub(crate) text: Vec<u8>,
    most: usize,
    ghost short: { length text.items ≤ most },
}

impl HeldText {
    /// An empty text. Takes no memory.
    pub(crate) fn new(alloc: Global, most: usize) -> HeldText
        ensures text { result.text.items ≡ [] }
        ensures most { result.most ≡ most }
    {
        HeldText {
            text: Vec::new(alloc),
            most,
        }
    }

    /// The text.
    pub(crate) fn into_text(self) -> ListVec<u8>
        ensures text { result ≡ self.text.items }
        ensures short { length result ≤ self.most }
    {
        let HeldText { text, most: _ } = self;
        ListVec::from_vec(text)
    }
}

impl TextSink for HeldText {
    ghost takes = { λ old piece new. (new.text.items ≡ old.text.items ++ piece) × (new.most ≡ old.most) };

    ghost stops = { λ old piece new. Unit {0} };

    fn take_piece(&mut self, piece: &[u8]) -> io::Result<()> {
        if piece.len() > self.most - self.text.len() {
            return Err(too_long());
        }
        match self.text.extend_from_slice(piece) {
            Ok(()) => Ok(()),
            Err(_) => Err(too_long()),
        }
    }
}

/// The bytes of a text are counted, so many at most, and none is held.
#[derive(Drop)]
pub(crate) struct CountedText {
    count: usize,
    most: usize,
    ghost short: { count ≤ most },
}

impl CountedText {
    /// No byte was counted.
    pub(crate) fn new(most: usize) -> CountedText
        ensures count { result.count ≡ 0 }
        ensures most { result.most ≡ most }
    {
        CountedText { count: 0, most }
    }

    /// How many bytes the text has.
    pub(crate) fn len(&self) -> usize
        ensures count { result ≡ self.now.count }
        ensures short { result ≤ self.now.most }
    {
        self.count
    }
}

impl TextSink for CountedText {
    ghost takes = { λ old piece new. (new.count ≡ old.count + length piece) × (new.most ≡ old.most) };

    ghost stops = { λ old piece new. Unit {0} };

    fn take_piece(&mut self, piece: &[u8]) -> io::Result<()> {
        if piece.len() > self.most - self.count {
            return Err(too_long());
        }
        self.count += piece.len();
        Ok(())
    }
}
