// What takes the lines of a text.
ghost use Rattle.std.specs.Prelude.{◌≡◌, ℕ, ◌+◌, ◌<◌, ◌^◌, OnOk, OnErr, List, ◌∷◌, fold};

use std::alloc::AllocError;

/// A line of a text, without its line feed.
#[derive(Clone, Copy)]
pub enum Line<'a> {
    /// Its bytes.
    Complete(&'a [u8]),
    /// It has more than `LINE_LIMIT` bytes.
    TooLong,
}

/// Takes the lines of a text, in order, and hands what they add to a sink. What a line says is told
/// from its bytes alone; what it adds, from what it and the lines before it say.
pub trait LineSink<S> {
    ghost use Rattle.text_pieces.specs.LineIs.{IsLine, Took};

    /// What a line can say.
    ghost Reading: { Type 0 };

    /// What a line says.
    ghost reading_of: { List ℕ → Reading };

    /// What can be handed to the sink.
    ghost Record: { Type 0 };

    /// What a line adds after others, of which the nearest stands first.
    ghost adds: { Reading → List Reading → List Record };

    /// It represents lines that say so, the nearest first.
    ghost represents: { Self → List Reading → Type 0 };

    /// How many lines it took.
    ghost lines: { Self → ℕ };

    /// The sink would take what the next line adds.
    ghost fits: { Self → S → Type 0 };

    /// What a sink can mean.
    ghost Meaning: { Type 0 };

    /// What the sink means.
    ghost meaning: { S → Meaning };

    /// What a record makes of a meaning.
    ghost step: { Meaning → Record → Meaning };

    /// Takes the next line. A refusal leaves the sink's meaning as it was.
    fn take_line(&mut self, line: Line<'_>, sink: &mut S) -> Result<(), AllocError>
        requires few { lines self.old < 2 ^ 62 }
        requires fits { fits self.old sink.old }
        ensures represents { OnOk result (Took reading_of represents line.entry self.old self.new) }
        ensures told { OnOk result ((text : List ℕ) (back : List Reading) → IsLine line.entry text → represents self.old back
            → meaning sink.new ≡ fold step (meaning sink.old) (adds (reading_of text) back)) }
        ensures fits { OnOk result (fits self.new sink.new) }
        ensures lines { lines self.new ≡ lines self.old + 1 }
        ensures err { OnErr result (meaning sink.new ≡ meaning sink.old) };
}
