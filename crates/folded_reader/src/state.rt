// What a reader knows of the lines so far.
ghost use Rattle.std.specs.Prelude.{◌≡◌, ◌≢◌, ℕ, ◌+◌, ◌<◌, ◌≤◌, ◌^◌, IfOk, IfSome, List, [], ◌∷◌, None};
ghost use Rattle.text_pieces.specs.LineIs.{IsLine};
ghost use Rattle.folded_reader.specs.Lines.{Reading, reading_of};
ghost use Rattle.folded_reader.specs.Views.{said_is};
ghost use Rattle.profile_records.specs.Stacks.{Seen};
ghost use Rattle.folded_reader.specs.Looking.{adds};

use crate::stacks::{Stack, read_stack};
use cg_text::Fault;
use profile_records::StackSink;
use std::alloc::AllocError;
use text_pieces::{Line, LineSink};

/// How many lines there were, and the first fault of one, with its number.
#[derive(Drop)]
pub struct State {
    pub(crate) lines: u64,
    pub(crate) fault: Option<(Fault, u64)>,
}

/// What a line says.
#[tactic(auto, unfolding(crate::specs::Lines::reading_of))]
fn reading(line: Line<'_>) -> Result<Option<Stack<'_>>, Fault>
    ensures says { (text : List ℕ) → IsLine line.entry text → said_is result ≡ reading_of text }
    ensures some { IfOk result (λ said. IfSome said (λ s. s.frames.now ≢ [])) }
    ensures small { IfOk result (λ said. IfSome said (λ s. s.count < 2 ^ 63)) }
{
    match line {
        Line::Complete(bytes) => read_stack(bytes),
        Line::TooLong => Err(Fault::LineTooLong),
    }
}

impl State {
    ghost use Rattle.folded_reader.specs.Representation.{RepresentsAfter};

    /// No line was read.
    pub fn new() -> State
        ensures represents { RepresentsAfter result [] }
        ensures lines { result.lines ≡ 0 }
    {
        State {
            lines: 0,
            fault: None,
        }
    }
}

impl<S: StackSink> LineSink<S> for State {
    ghost use Rattle.folded_reader.specs.Representation.{RepresentsAfter};

    ghost Reading = { Reading };

    ghost reading_of = { reading_of };

    ghost Record = { Seen };

    ghost adds = { adds };

    ghost represents = { RepresentsAfter };

    ghost lines = { λ s. s.lines };

    ghost fits = { λ s sink. S.last sink ≤ s.lines };

    ghost Meaning = { S.Meaning };

    ghost meaning = { S.meaning };

    ghost step = { S.step };

    fn take_line(&mut self, line: Line<'_>, sink: &mut S) -> Result<(), AllocError> {
        self.lines += 1;
        if self.fault.is_some() {
            return Ok(());
        }
        match reading(line) {
            Ok(Some(stack)) => sink.stack(self.lines, stack.frames, stack.count)?,
            Ok(None) => {}
            Err(fault) => self.fault = Some((fault, self.lines)),
        }
        Ok(())
    }
}
