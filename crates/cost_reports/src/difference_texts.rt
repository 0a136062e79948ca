// The text of a difference.
ghost use Rattle.std.specs.Prelude.{◌≡◌, ◌≤◌, ◌++◌, OnOk, IfOk, codes, length};
ghost use Rattle.report_texts.specs.Differences.{signed_text, difference_line, difference_lines, difference_head, difference_text};
ghost use Rattle.byte_io.specs.Written.{GoesOn};
ghost use Rattle.cost_reports.specs.Rows.{plain_difference, plain_differences};

use crate::differences::Difference;
use crate::key_texts::{push_key_and_event, push_last_part};
use crate::rows::DifferenceRow;
use crate::signed::push_signed;
use byte_io::{SharedText, TextWriter};
use cost_rows::Key;
use report_texts::Signed;
use std::alloc::{AllocError, Global};

/// Adds a difference.
fn push_difference(text: &mut TextWriter<'_>, difference: Signed) -> Result<(), AllocError>
    ensures { OnOk result (GoesOn text.old text.new (signed_text difference)) }
{
    push_signed(&mut text.bytes, difference)
}

/// Adds the line of a row.
fn push_row<'n>(
    text: &mut TextWriter<'n>,
    key: Key,
    row: &DifferenceRow<'n>,
) -> Result<(), AllocError>
    ensures { OnOk result (GoesOn text.old text.new (difference_line key (plain_difference row.now))) }
{
    let difference = Signed {
        size: row.size.0,
        below: row.below,
    };
    push_difference(text, difference)?;
    push_last_part(text, key, &row.place)
}

/// Adds the lines of rows, as long as the text is no longer than it may be.
fn push_rows<'n>(
    text: &mut TextWriter<'n>,
    key: Key,
    rows: &[DifferenceRow<'n>],
) -> Result<(), AllocError>
    ensures { OnOk result (GoesOn text.old text.new (difference_lines key (plain_differences rows.now))) }
{
    for row in rows {
        push_row(text, key, row)?;
        text.check_length()?;
    }
    Ok(())
}

/// Adds what the difference is by, and of which event.
fn push_head(text: &mut TextWriter<'_>, key: Key, event: &[u8]) -> Result<(), AllocError>
    ensures { OnOk result (GoesOn text.old text.new (difference_head key event.now)) }
{
    text.push_bytes(b"subtract ")?;
    push_key_and_event(text, key, event)
}

/// Adds the line of the whole difference.
fn push_total(text: &mut TextWriter<'_>, total: Signed) -> Result<(), AllocError>
    ensures { OnOk result (GoesOn text.old text.new (signed_text total ++ codes " total\n")) }
{
    push_difference(text, total)?;
    text.push_bytes(b" total\n")
}

impl<'a> Difference<'a> {
    /// Adds the lines of the difference of an event.
    fn push_text(&self, text: &mut TextWriter<'a>, event: &[u8]) -> Result<(), AllocError>
        ensures { OnOk result (GoesOn text.old text.new (difference_text event.now self.now)) }
    {
        push_head(text, self.key, event)?;
        push_total(text, self.total)?;
        push_rows(text, self.key, &self.rows)
    }

    /// The lines of the difference of an event, of at most `most` bytes, as `Report::text`.
    pub fn text(&self, alloc: Global, most: usize, event: &[u8]) -> Result<SharedText, AllocError>
        ensures text { IfOk result (λ text. text ≡ difference_text event.now self.now) }
        ensures short { IfOk result (λ text. length text ≤ most) }
    {
        let mut text = TextWriter::new(alloc, most);
        self.push_text(&mut text, event)?;
        text.finish()
    }
}
