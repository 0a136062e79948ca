// A text of rows that is written in pieces.
ghost use Rattle.std.specs.Prelude.{◌≡◌, ℕ, [], List, false, IfOk, MatchResult};
ghost use Rattle.cost_exports.specs.Pieces.{IsCut, IsOn, IsOut};
ghost use Rattle.cost_exports.specs.Views.{HasWritten};
ghost use Rattle.cost_exports.specs.declared.csv_pieces.Unwritten.TheVariants.{Memory};

use byte_io::TextSink;
use csv::{Writer, WriterBuilder};
use std::alloc::{AllocError, Global};
use std::io::ErrorKind;
use std::{io, mem};

/// From how many bytes on a piece is handed on.
const PIECE: usize = 65_536;

/// The room of a piece. What comes over its end, of a row and of the buffer in front, fits as well, unless
/// names are longer than thousands of bytes: then the room grows.
const ROOM: usize = PIECE + 32_768;

/// Why a text was not written whole.
#[derive(Drop)]
pub enum Unwritten {
    /// There was no memory, and the sink was given nothing.
    Memory,
    /// The sink stopped, or there was no memory for more.
    Failed(io::Error),
}

impl From<AllocError> for Unwritten {
    ghost use Rattle.std.specs.Prelude.{◌≡◌};
    ghost use Rattle.cost_exports.specs.declared.csv_pieces.Unwritten.TheVariants.{Memory};

    ghost from_gives = { λ _ reason. reason ≡ Memory };

    fn from(_error: AllocError) -> Unwritten {
        Unwritten::Memory
    }
}

/// Memory ran out, where something may be written.
pub(crate) fn out_of_memory(begun: bool) -> Unwritten
    ensures { result ≡ Memory → begun ≡ false }
{
    if begun {
        return Unwritten::Failed(io::Error::from(ErrorKind::OutOfMemory));
    }
    Unwritten::Memory
}

/// The last rows of a text, gathered, and whether those before are being written.
#[derive(Drop)]
pub(crate) struct Pieces {
    pub(crate) rows: Writer<Vec<u8>>,
    pub(crate) begun: bool,
}

impl Pieces {
    /// No row, with the room of a piece.
    pub(crate) fn new(alloc: Global) -> Result<Pieces, AllocError>
        ensures { IfOk result (λ pieces. HasWritten pieces.rows []) }
    {
        let room = Vec::with_capacity(alloc, ROOM)?;
        Ok(Pieces {
            rows: WriterBuilder::new().from_writer(room),
            begun: false,
        })
    }

    /// Whether the rows that are gathered are a piece. No guarantee: how long pieces are is in no text.
    pub(crate) fn are_full(&self) -> bool {
        self.rows.get_ref().len() >= PIECE
    }

    /// Takes the rows that are gathered: those that follow are gathered in a new text.
    fn take(&mut self, alloc: Global) -> Writer<Vec<u8>>
        ensures rows { result ≡ self.old.rows }
        ensures begun { self.new.begun ≡ self.old.begun }
    {
        let none = WriterBuilder::new().from_writer(Vec::new(alloc));
        mem::replace(&mut self.rows, none)
    }

    /// Writes the rows that are gathered, and gathers those that follow in their room.
    pub(crate) fn hand_on<W: TextSink>(
        &mut self,
        alloc: Global,
        out: &mut W,
    ) -> Result<(), Unwritten>
        ensures { (from : _) (text : List ℕ) → IsOn W.takes from self.old out.old text
            → MatchResult result (λ done. IsOut W.takes from self.new out.new text) (λ e. IsCut W.takes W.stops from self.new out.new text) }
    {
        let Ok(mut room) = self.take(alloc).into_inner() else {
            return Err(Unwritten::Memory);
        };
        self.begun = true;
        if let Err(error) = out.take_piece(room.as_slice()) {
            return Err(Unwritten::Failed(error));
        }
        room.clear();
        self.rows = WriterBuilder::new().from_writer(room);
        Ok(())
    }
}
