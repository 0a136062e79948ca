// The text of inclusive costs.
ghost use Rattle.std.specs.Prelude.{◌≡◌, ◌≤◌, OnOk, IfOk, length};
ghost use Rattle.report_texts.specs.Inclusive.{inclusive_head, inclusive_text};
ghost use Rattle.byte_io.specs.Written.{GoesOn};

use crate::inclusives::InclusiveReport;
use crate::key_texts::{push_rows, push_sum};
use byte_io::{SharedText, TextWriter};
use cost_rows::Key;
use std::alloc::{AllocError, Global};

/// Adds of which event the costs are.
fn push_head(text: &mut TextWriter<'_>, event: &[u8]) -> Result<(), AllocError>
    ensures { OnOk result (GoesOn text.old text.new (inclusive_head event.now)) }
{
    text.push_bytes(b"inclusive ")?;
    text.push_escaped(event)?;
    text.push(b'\n')
}

impl<'a> InclusiveReport<'a> {
    /// Adds the lines of the inclusive costs of an event.
    fn push_text(&self, text: &mut TextWriter<'a>, event: &[u8]) -> Result<(), AllocError>
        ensures { OnOk result (GoesOn text.old text.new (inclusive_text event.now self.now)) }
    {
        push_head(text, event)?;
        push_sum(text, self.total, self.total, b"total")?;
        push_rows(text, Key::Function, self.total, &self.rows)
    }

    /// The lines of the inclusive costs of an event, of at most `most` bytes, as `Report::text`.
    pub fn text(&self, alloc: Global, most: usize, event: &[u8]) -> Result<SharedText, AllocError>
        ensures text { IfOk result (λ text. text ≡ inclusive_text event.now self.now) }
        ensures short { IfOk result (λ text. length text ≤ most) }
    {
        let mut text = TextWriter::new(alloc, most);
        self.push_text(&mut text, event)?;
        text.finish()
    }
}
