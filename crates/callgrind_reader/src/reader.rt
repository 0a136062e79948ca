// Reads a file in pieces.
ghost use Rattle.std.specs.Prelude.{◌≡◌, ℕ, ◌≤◌, OnOk, OnErr, IfOk, IsErr, Option, None, Err, List, [], length};
ghost use Rattle.text_pieces.specs.Kept.{taken_of};
ghost use Rattle.text_pieces.specs.Readers.{GoesOn};
ghost use Rattle.profile_records.specs.Records.{Record};
ghost use Rattle.profile_records.specs.Marks.{KnowsNothing};
ghost use Rattle.profile_records.specs.declared.marks.Mark.{Mark};
ghost use Rattle.cg_text.specs.declared.words.Namespace.{Namespace};
ghost use Rattle.cg_text.specs.declared.faults.ReadEnd.TheVariants.{Memory};

use crate::state::State;
use cg_formulas::FileHead;
use cg_text::ReadEnd;
use profile_records::Sink;
use std::alloc::{AllocError, Global};
use text_pieces::Pieces;

/// Reads a Callgrind file in pieces, in one pass, and keeps of it at most one unfinished line beside
/// what its header lines say and the names that its identifiers mean.
#[derive(Drop)]
pub struct Reader {
    state: State,
    pieces: Pieces,
    ghost few: { state.lines ≤ taken_of pieces },
}

impl Reader {
    ghost use Rattle.callgrind_reader.specs.Reads.{Reads, Takes, room_of, IsSpent, StaysOpen, BreaksOff, Ended, HandsOver};

    /// Nothing was read.
    pub fn new(alloc: Global) -> Result<Reader, AllocError>
        ensures reads { IfOk result (λ r. Reads r [] []) }
        ensures takes { IfOk result (λ r. (last : ℕ) (known : Namespace → Mark → Option (List ℕ)) → last ≡ 0 → KnowsNothing known → Takes r last None known) }
        ensures room { IfOk result (λ r. room_of r ≡ 1073741824) }
        ensures fresh { IfOk result (λ r. IsSpent r → ⊥) }
    {
        Ok(Reader {
            state: State::new(alloc)?,
            pieces: Pieces::new(alloc),
        })
    }

    /// How many bytes it still takes.
    pub fn room(&self) -> u64
        ensures { result ≡ room_of self.now }
    {
        self.pieces.room()
    }

    /// Takes the next piece, and hands on the records of the lines that are whole now. After a fault
    /// of the file pieces are taken and nothing is handed on. Once memory was refused, it is refused
    /// again, and nothing is handed on.
    pub fn feed<S: Sink>(&mut self, piece: &[u8], sink: &mut S) -> Result<(), AllocError>
        requires room { length piece.now ≤ room_of self.old }
        requires takes { (IsSpent self.old → ⊥) → Takes self.old (S.last sink.old) (S.width sink.old) (S.known sink.old) }
        ensures reads { OnOk result (GoesOn Reads S.step self.old (S.meaning sink.old) piece.now self.new (S.meaning sink.new)) }
        ensures stays { OnOk result (StaysOpen self.old (length piece.now) self.new (S.last sink.new) (S.width sink.new) (S.known sink.new)) }
        ensures prefix { OnErr result (BreaksOff S.step self.old (S.meaning sink.old) piece.now (S.meaning sink.new)) }
        ensures spent { IsSpent self.old → IsErr result }
        ensures err { OnErr result (IsSpent self.new) }
        ensures untouched { IsSpent self.old → sink.new ≡ sink.old }
    {
        self.pieces.feed(piece, &mut self.state, sink)
    }

    /// Ends the file: hands on the record of its last line, if that has no end, and answers the
    /// file's head or its first fault.
    pub fn finish<S: Sink>(self, sink: &mut S) -> Result<FileHead, ReadEnd>
        requires { (IsSpent self → ⊥) → Takes self (S.last sink.old) (S.width sink.old) (S.known sink.old) }
        ensures ended { (text : List ℕ) (told : List Record) → Reads self text told → Ended result text }
        ensures told { HandsOver S.step self (S.meaning sink.old) result (S.meaning sink.new) }
        ensures few { IfOk result (λ head. length head.events ≤ 64) }
        ensures spent { IsSpent self → result ≡ Err Memory }
        ensures untouched { IsSpent self → sink.new ≡ sink.old }
    {
        let Reader { mut state, pieces } = self;
        match pieces.finish(&mut state, sink) {
            Ok(()) => state.head(),
            Err(AllocError) => {
                drop(state);
                Err(ReadEnd::Memory)
            }
        }
    }
}
