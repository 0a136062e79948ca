// A text that comes in pieces.
ghost use Rattle.std.specs.Prelude.{◌≡◌, ℕ, ◌+◌, ◌≤◌, OnOk, OnErr, IfSome, IfNone, IsErr, List, [], ◌∷◌, ◌++◌, length, vec_len, MatchBool, ◌≢◌, false, true};
ghost use Rattle.std.specs.List.{AllByRecursion};
ghost use Rattle.text_pieces.specs.Cut.{cut};

use crate::takes::{Line, LineSink};
use cg_text::{LINE_LIMIT, line_end};
use std::alloc::{AllocError, Global};

/// The most bytes of a text.
pub const FILE_LIMIT: u64 = 1_073_741_824;

/// The bytes before the first line feed, and those after it.
fn split_line(bytes: &[u8]) -> Option<(&[u8], &[u8])>
    ensures none { IfNone result (AllByRecursion (λ b. b ≢ 10) bytes.now) }
    ensures run { IfSome result (λ p. AllByRecursion (λ b. b ≢ 10) p.0.now) }
    ensures whole { IfSome result (λ p. bytes.now ≡ (p.0.now ++ 10 ∷ []) ++ p.1.now) }
    ensures shorter { IfSome result (λ p. length bytes.now ≡ length p.0.now + 1 + length p.1.now) }
{
    match line_end(bytes) {
        Some(end) => Some((&bytes[..end], &bytes[end + 1..])),
        None => None,
    }
}

/// Keeps of a text that comes in pieces the one line that has no end yet, and no more of that than
/// a line may have.
#[derive(Drop)]
pub struct Pieces {
    partial: Vec<u8>,
    too_long: bool,
    taken: u64,
    spent: bool,
    ghost short: { vec_len partial ≤ 1048576 },
    ghost room: { taken ≤ 1073741824 },
}

impl Pieces {
    ghost use Rattle.text_pieces.specs.LineIs.{IsLine};
    ghost use Rattle.text_pieces.specs.Kept.{Keeps, taken_of, room_of, IsSpent};
    ghost use Rattle.text_pieces.specs.Moves.{at, Ready, TakesLine, TakesBytes, Ends};

    /// No piece was taken.
    pub fn new(alloc: Global) -> Pieces
        ensures keeps { Keeps result [] }
        ensures taken { taken_of result ≡ 0 }
        ensures fresh { IsSpent result → ⊥ }
    {
        Pieces {
            partial: Vec::new(alloc),
            too_long: false,
            taken: 0,
            spent: false,
        }
    }

    /// How many bytes are still taken.
    pub fn room(&self) -> u64
        ensures { result ≡ room_of self.now }
    {
        FILE_LIMIT - self.taken
    }

    /// Whether nothing is kept of a line.
    fn is_empty(&self) -> bool
        ensures rest { (text : List ℕ) → Keeps self.now text → MatchBool result ((cut text).rest ≡ []) ((cut text).rest ≡ [] → ⊥) }
        ensures bare { result ≡ true → (self.now.partial.items ≡ []) × (self.now.too_long ≡ false) }
    {
        !self.too_long && self.partial.is_empty()
    }

    /// The line that is kept.
    fn kept(&self) -> Line<'_>
        ensures { (text : List ℕ) → Keeps self.now text → IsLine result (cut text).rest }
    {
        if self.too_long {
            Line::TooLong
        } else {
            Line::Complete(&self.partial)
        }
    }

    /// Keeps bytes that end no line; of a line that is too long it keeps no more.
    fn keep(&mut self, bytes: &[u8]) -> Result<(), AllocError>
        requires none { AllByRecursion (λ b. b ≢ 10) bytes.now }
        requires room { self.old.taken + length bytes.now ≤ 1073741824 }
        ensures keeps { OnOk result ((text : List ℕ) → Keeps self.old text → Keeps self.new (text ++ bytes.now)) }
        ensures taken { self.new.taken ≡ self.old.taken + length bytes.now }
        ensures spent { self.new.spent ≡ self.old.spent }
    {
        self.taken += bytes.len() as u64;
        if self.too_long {
            return Ok(());
        }
        if bytes.len() > LINE_LIMIT - self.partial.len() {
            self.too_long = true;
            return Ok(());
        }
        self.partial.extend_from_slice(bytes)?;
        Ok(())
    }

    /// Takes the end of the line that is kept.
    fn end_line<S, T: LineSink<S>>(&mut self, state: &mut T, sink: &mut S) -> Result<(), AllocError>
        requires ready { Ready T.LineSink (at self.old state.old sink.old) 1 }
        ensures { TakesLine T.LineSink result (at self.old state.old sink.old) (10 ∷ []) (at self.new state.new sink.new) }
    {
        self.taken += 1;
        state.take_line(self.kept(), sink)?;
        self.too_long = false;
        self.partial.clear();
        Ok(())
    }

    /// Takes bytes that end no line, and then a line feed, where some of the line is kept.
    fn end_kept<S, T: LineSink<S>>(
        &mut self,
        bytes: &[u8],
        state: &mut T,
        sink: &mut S,
    ) -> Result<(), AllocError>
        requires none { AllByRecursion (λ b. b ≢ 10) bytes.now }
        requires ready { Ready T.LineSink (at self.old state.old sink.old) (length bytes.now + 1) }
        ensures { TakesLine T.LineSink result (at self.old state.old sink.old) (bytes.now ++ 10 ∷ []) (at self.new state.new sink.new) }
    {
        self.keep(bytes)?;
        self.end_line(state, sink)
    }

    /// Takes a line that lies whole in a piece, where nothing is kept: it is read where it lies.
    fn whole_line<S, T: LineSink<S>>(
        &mut self,
        bytes: &[u8],
        state: &mut T,
        sink: &mut S,
    ) -> Result<(), AllocError>
        requires nothing { self.old.partial.items ≡ [] }
        requires short_line { self.old.too_long ≡ false }
        requires none { AllByRecursion (λ b. b ≢ 10) bytes.now }
        requires ready { Ready T.LineSink (at self.old state.old sink.old) (length bytes.now + 1) }
        ensures { TakesLine T.LineSink result (at self.old state.old sink.old) (bytes.now ++ 10 ∷ []) (at self.new state.new sink.new) }
    {
        self.taken += bytes.len() as u64 + 1;
        state.take_line(Line::Complete(bytes), sink)
    }

    /// Takes bytes that end no line, and then a line feed.
    fn line<S, T: LineSink<S>>(
        &mut self,
        bytes: &[u8],
        state: &mut T,
        sink: &mut S,
    ) -> Result<(), AllocError>
        requires none { AllByRecursion (λ b. b ≢ 10) bytes.now }
        requires ready { Ready T.LineSink (at self.old state.old sink.old) (length bytes.now + 1) }
        ensures { TakesLine T.LineSink result (at self.old state.old sink.old) (bytes.now ++ 10 ∷ []) (at self.new state.new sink.new) }
    {
        if self.is_empty() {
            self.whole_line(bytes, state, sink)
        } else {
            self.end_kept(bytes, state, sink)
        }
    }

    /// Takes the bytes of a piece, a line at a time.
    fn take_lines<S, T: LineSink<S>>(
        &mut self,
        piece: &[u8],
        state: &mut T,
        sink: &mut S,
    ) -> Result<(), AllocError>
        requires ready { Ready T.LineSink (at self.old state.old sink.old) (length piece.now) }
        ensures { TakesBytes T.LineSink result (at self.old state.old sink.old) piece.now (at self.new state.new sink.new) }
    {
        let mut rest = piece;
        while let Some((run, more)) = split_line(rest) {
            self.line(run, state, sink)?;
            rest = more;
        }
        self.keep(rest)
    }

    /// Takes the next piece, and hands on the lines that are whole now. Once memory was refused, it
    /// is refused again, and nothing is handed on.
    pub fn feed<S, T: LineSink<S>>(
        &mut self,
        piece: &[u8],
        state: &mut T,
        sink: &mut S,
    ) -> Result<(), AllocError>
        requires room { length piece.now ≤ room_of self.old }
        requires few { T.lines state.old ≤ taken_of self.old }
        requires fits { (IsSpent self.old → ⊥) → T.fits state.old sink.old }
        ensures takes { TakesBytes T.LineSink result (at self.old state.old sink.old) piece.now (at self.new state.new sink.new) }
        ensures lines { T.lines state.new ≤ taken_of self.new }
        ensures room { OnOk result (room_of self.new + length piece.now ≡ room_of self.old) }
        ensures spent { IsSpent self.old → IsErr result }
        ensures err { OnErr result (IsSpent self.new) }
        ensures untouched { IsSpent self.old → sink.new ≡ sink.old }
    {
        if self.spent {
            // Nothing is handed on.
            return Err(AllocError);
        }
        match self.take_lines(piece, state, sink) {
            Ok(()) => Ok(()),
            Err(error) => {
                self.spent = true;
                Err(error)
            }
        }
    }

    /// Ends the text: hands on what is left of it, which is a line if it is not empty.
    pub fn finish<S, T: LineSink<S>>(self, state: &mut T, sink: &mut S) -> Result<(), AllocError>
        requires few { T.lines state.old ≤ taken_of self }
        requires fits { (IsSpent self → ⊥) → T.fits state.old sink.old }
        ensures ends { OnOk result (Ends T.LineSink (at self state.old sink.old) state.new sink.new) }
        ensures err { OnErr result (T.meaning sink.new ≡ T.meaning sink.old) }
        ensures spent { IsSpent self → IsErr result }
        ensures untouched { IsSpent self → sink.new ≡ sink.old }
    {
        if self.spent {
            return Err(AllocError);
        }
        if self.is_empty() {
            return Ok(());
        }
        state.take_line(self.kept(), sink)
    }
}
