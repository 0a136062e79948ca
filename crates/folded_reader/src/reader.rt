// Reads a file in pieces.
ghost use Rattle.std.specs.Prelude.{◌≡◌, ℕ, ◌≤◌, OnOk, OnErr, IfOk, IsErr, Err, List, [], ◌++◌, length};
ghost use Rattle.cg_text.specs.declared.faults.ReadEnd.TheVariants.{Memory};
ghost use Rattle.text_pieces.specs.Kept.{taken_of};
ghost use Rattle.text_pieces.specs.Readers.{GoesOn, HandsAll, HandsPart};
ghost use Rattle.profile_records.specs.Stacks.{Seen};
ghost use Rattle.folded_reader.specs.Files.{stacks_of_file};
ghost use Rattle.folded_reader.specs.Heads.{HeadIs};

use crate::heads::samples_head;
use crate::state::State;
use cg_formulas::FileHead;
use cg_text::ReadEnd;
use profile_records::StackSink;
use std::alloc::{AllocError, Global};
use text_pieces::Pieces;

/// Reads a folded file in pieces, in one pass, and keeps of it at most one unfinished line.
#[derive(Drop)]
pub struct FoldedReader {
    state: State,
    pieces: Pieces,
    head: FileHead,
    ghost few: { state.lines ≤ taken_of pieces },
    ghost samples: { HeadIs head },
}

impl FoldedReader {
    ghost use Rattle.folded_reader.specs.Reads.{Reads, Takes, room_of, IsSpent, StaysOpen, Ended, MatchMemory};

    /// Nothing was read. What a head takes is taken now.
    pub fn new(alloc: Global) -> Result<FoldedReader, AllocError>
        ensures reads { IfOk result (λ r. Reads r [] []) }
        ensures takes { IfOk result (λ r. (last : ℕ) → last ≡ 0 → Takes r last) }
        ensures room { IfOk result (λ r. room_of r ≡ 1073741824) }
        ensures fresh { IfOk result (λ r. IsSpent r → ⊥) }
    {
        Ok(FoldedReader {
            state: State::new(),
            pieces: Pieces::new(alloc),
            head: samples_head(alloc)?,
        })
    }

    /// How many bytes it still takes.
    pub fn room(&self) -> u64
        ensures { result ≡ room_of self.now }
    {
        self.pieces.room()
    }

    /// Takes the next piece, and hands on the stacks of the lines that are whole now. After a fault
    /// of the file pieces are taken and nothing is handed on. Once memory was refused, it is refused
    /// again, and nothing is handed on.
    pub fn feed<S: StackSink>(&mut self, piece: &[u8], sink: &mut S) -> Result<(), AllocError>
        requires room { length piece.now ≤ room_of self.old }
        requires takes { (IsSpent self.old → ⊥) → Takes self.old (S.last sink.old) }
        ensures reads { OnOk result (GoesOn Reads S.step self.old (S.meaning sink.old) piece.now self.new (S.meaning sink.new)) }
        ensures stays { OnOk result (StaysOpen self.old (length piece.now) self.new (S.last sink.new)) }
        ensures prefix { OnErr result ((text : List ℕ) (told : List Seen) → Reads self.old text told
            → HandsPart stacks_of_file S.step (text ++ piece.now) told (S.meaning sink.old) (S.meaning sink.new)) }
        ensures spent { IsSpent self.old → IsErr result }
        ensures err { OnErr result (IsSpent self.new) }
        ensures untouched { IsSpent self.old → sink.new ≡ sink.old }
    {
        self.pieces.feed(piece, &mut self.state, sink)
    }

    /// Ends the file: hands on the stack of its last line, if that has no end, and answers the file's
    /// head or its first fault.
    pub fn finish<S: StackSink>(self, sink: &mut S) -> Result<FileHead, ReadEnd>
        requires { (IsSpent self → ⊥) → Takes self (S.last sink.old) }
        ensures ended { (text : List ℕ) (told : List Seen) → Reads self text told → Ended result text }
        ensures told { (text : List ℕ) (told : List Seen) → Reads self text told → MatchMemory result
            (HandsAll stacks_of_file S.step text told (S.meaning sink.old) (S.meaning sink.new))
            (HandsPart stacks_of_file S.step text told (S.meaning sink.old) (S.meaning sink.new)) }
        ensures few { IfOk result (λ head. length head.events ≤ 64) }
        ensures spent { IsSpent self → result ≡ Err Memory }
        ensures untouched { IsSpent self → sink.new ≡ sink.old }
    {
        let FoldedReader {
            mut state,
            pieces,
            head,
        } = self;
        // What is dropped at each way out is slow to prove.
        match pieces.finish(&mut state, sink) {
            Ok(()) => match state.fault {
                Some((fault, line)) => {
                    drop(head);
                    Err(ReadEnd::Fault(fault, line))
                }
                None => Ok(head),
            },
            Err(AllocError) => {
                drop(head);
                Err(ReadEnd::Memory)
            }
        }
    }
}
