// The text of a report of calls.
ghost use Rattle.std.specs.Prelude.{◌≡◌, ◌≤◌, OnOk, IfOk, codes, length};
ghost use Rattle.report_texts.specs.Calls.{side_name, pair_text, call_line, call_row_text, call_lines, call_head, call_report_text};
ghost use Rattle.byte_io.specs.Written.{GoesOn};
ghost use Rattle.cost_rows.specs.Keys.{lent_place};
ghost use Rattle.cost_reports.specs.Rows.{plain_call, plain_calls};

use crate::call_reports::CallReport;
use crate::key_texts::push_last_part;
use crate::numbers::push_number;
use crate::rows::CallRow;
use byte_io::{SharedText, TextWriter};
use cost_rows::{Key, LentPlace};
use report_texts::{CallSide, Pair};
use std::alloc::{AllocError, Global};

fn side_name(side: CallSide) -> &'static [u8]
    ensures { result.now ≡ side_name side }
{
    match side {
        CallSide::Callers => b"callers",
        CallSide::Callees => b"callees",
    }
}

/// Adds what calls cost, and how many there were.
fn push_pair(text: &mut TextWriter<'_>, calls: Pair) -> Result<(), AllocError>
    ensures { OnOk result (GoesOn text.old text.new (pair_text calls)) }
{
    push_number(&mut text.bytes, calls.first)?;
    text.bytes.push(b' ')?;
    push_number(&mut text.bytes, calls.second)
}

/// Adds the line of all calls.
fn push_total(text: &mut TextWriter<'_>, calls: Pair) -> Result<(), AllocError>
    ensures { OnOk result (GoesOn text.old text.new (call_line calls (codes "total"))) }
{
    push_pair(text, calls)?;
    text.push_bytes(b" total\n")
}

/// Adds the line of a row.
fn push_row<'n>(text: &mut TextWriter<'n>, row: &CallRow<'n>) -> Result<(), AllocError>
    ensures { OnOk result (GoesOn text.old text.new (call_row_text (plain_call row.now))) }
{
    let calls = Pair {
        first: row.cost.0,
        second: row.count,
    };
    push_pair(text, calls)?;
    push_last_part(text, Key::Function, &row.place)
}

/// Adds the lines of rows, as long as the text is no longer than it may be.
fn push_rows<'n>(text: &mut TextWriter<'n>, rows: &[CallRow<'n>]) -> Result<(), AllocError>
    ensures { OnOk result (GoesOn text.old text.new (call_lines (plain_calls rows.now))) }
{
    for row in rows {
        push_row(text, row)?;
        text.check_length()?;
    }
    Ok(())
}

/// Adds whose calls they are, and of which event.
fn push_head<'n>(
    text: &mut TextWriter<'n>,
    side: CallSide,
    event: &[u8],
    function: &LentPlace<'n>,
) -> Result<(), AllocError>
    ensures { OnOk result (GoesOn text.old text.new (call_head side event.now (lent_place function.now))) }
{
    text.push_bytes(side_name(side))?;
    text.push(b' ')?;
    text.push_escaped(event)?;
    push_last_part(text, Key::Function, function)
}

impl<'a> CallReport<'a> {
    /// Adds the lines of the calls of an event.
    fn push_text(&self, text: &mut TextWriter<'a>, event: &[u8]) -> Result<(), AllocError>
        ensures { OnOk result (GoesOn text.old text.new (call_report_text event.now self.now)) }
    {
        push_head(text, self.side, event, &self.function)?;
        push_total(text, self.total)?;
        push_rows(text, &self.rows)
    }

    /// The lines of the calls of an event, of at most `most` bytes, as `Report::text`.
    pub fn text(&self, alloc: Global, most: usize, event: &[u8]) -> Result<SharedText, AllocError>
        ensures text { IfOk result (λ text. text ≡ call_report_text event.now self.now) }
        ensures short { IfOk result (λ text. length text ≤ most) }
    {
        let mut text = TextWriter::new(alloc, most);
        self.push_text(&mut text, event)?;
        text.finish()
    }
}
