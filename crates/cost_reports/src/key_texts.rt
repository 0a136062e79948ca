// The text of a report by key.
ghost use Rattle.std.specs.Fmt.{decimal};
ghost use Rattle.std.specs.Prelude.{◌≡◌, ◌<◌, ◌≤◌, ◌++◌, OnOk, IfOk, codes, length};
ghost use Rattle.byte_io.specs.Escapes.{escaped};
ghost use Rattle.cost_rows.specs.KeySums.{total_of, sum_end};
ghost use Rattle.cost_rows.specs.declared.keys.Key.TheVariants.{Function, Line};
ghost use Rattle.report_texts.specs.KeyTexts.{part_text, cost_text, cost_line, row_text, rows_text, head_text, key_report_text};
ghost use Rattle.byte_io.specs.Written.{GoesOn};
ghost use Rattle.cost_rows.specs.Keys.{key_name, lent_place};
ghost use Rattle.cost_reports.specs.Rows.{plain_row, plain_rows};

use crate::key_reports::Report;
use crate::numbers::push_number;
use crate::percents::push_percent;
use crate::rows::Row;
use byte_io::{SharedText, TextWriter};
use cost_rows::{Key, LentPlace};
use std::alloc::{AllocError, Global};

/// Adds a number.
fn push_count(text: &mut TextWriter<'_>, count: u64) -> Result<(), AllocError>
    ensures { OnOk result (GoesOn text.old text.new (decimal count)) }
{
    push_number(&mut text.bytes, u128::from(count))
}

/// Adds a function, behind its object.
fn push_function<'n>(text: &mut TextWriter<'n>, place: &LentPlace<'n>) -> Result<(), AllocError>
    ensures { OnOk result (GoesOn text.old text.new (part_text Function (lent_place place.now))) }
{
    text.push_name(place.object)?;
    text.push(b':')?;
    text.push_name(place.function)
}

/// Adds a line, behind its file.
fn push_line<'n>(text: &mut TextWriter<'n>, place: &LentPlace<'n>) -> Result<(), AllocError>
    ensures { OnOk result (GoesOn text.old text.new (part_text Line (lent_place place.now))) }
{
    text.push_name(place.file)?;
    text.push(b':')?;
    push_count(text, place.line)
}

/// Adds the part of a place that a key tells.
pub(crate) fn push_part<'n>(
    text: &mut TextWriter<'n>,
    key: Key,
    place: &LentPlace<'n>,
) -> Result<(), AllocError>
    ensures { OnOk result (GoesOn text.old text.new (part_text key (lent_place place.now))) }
{
    match key {
        Key::Object => text.push_name(place.object),
        Key::File => text.push_name(place.file),
        Key::Function => push_function(text, place),
        Key::Line => push_line(text, place),
        Key::Thread => push_count(text, place.thread),
    }
}

/// Adds a cost and its part of the total.
fn push_cost(text: &mut TextWriter<'_>, cost: u128, total: u128) -> Result<(), AllocError>
    requires { cost < sum_end }
    ensures { OnOk result (GoesOn text.old text.new (cost_text cost total)) }
{
    push_number(&mut text.bytes, cost)?;
    text.bytes.push(b' ')?;
    push_percent(&mut text.bytes, cost, total)
}

/// Adds a word, behind a blank, and the end of the line.
fn push_last_word(text: &mut TextWriter<'_>, word: &[u8]) -> Result<(), AllocError>
    ensures { OnOk result (GoesOn text.old text.new (codes " " ++ (word.now ++ codes "\n"))) }
{
    text.push(b' ')?;
    text.push_bytes(word)?;
    text.push(b'\n')
}

/// Adds the line of a cost that is of no part of a place.
pub(crate) fn push_sum(
    text: &mut TextWriter<'_>,
    cost: u128,
    total: u128,
    name: &[u8],
) -> Result<(), AllocError>
    requires { cost < sum_end }
    ensures { OnOk result (GoesOn text.old text.new (cost_line cost total name.now)) }
{
    push_cost(text, cost, total)?;
    push_last_word(text, name)
}

/// Adds the part of a place that a key tells, behind a blank, and the end of the line.
pub(crate) fn push_last_part<'n>(
    text: &mut TextWriter<'n>,
    key: Key,
    place: &LentPlace<'n>,
) -> Result<(), AllocError>
    ensures { OnOk result (GoesOn text.old text.new (codes " " ++ (part_text key (lent_place place.now) ++ codes "\n"))) }
{
    text.push(b' ')?;
    push_part(text, key, place)?;
    text.push(b'\n')
}

/// Adds the line of a row.
fn push_row<'n>(
    text: &mut TextWriter<'n>,
    key: Key,
    total: u128,
    row: &Row<'n>,
) -> Result<(), AllocError>
    requires { (plain_row row.now).1 < sum_end }
    ensures { OnOk result (GoesOn text.old text.new (row_text key total (plain_row row.now))) }
{
    push_cost(text, row.cost.0, total)?;
    push_last_part(text, key, &row.place)
}

/// Adds the lines of rows, as long as the text is no longer than it may be.
pub(crate) fn push_rows<'n>(
    text: &mut TextWriter<'n>,
    key: Key,
    total: u128,
    rows: &[Row<'n>],
) -> Result<(), AllocError>
    requires { total_of (plain_rows rows.now) < sum_end }
    ensures { OnOk result (GoesOn text.old text.new (rows_text key total (plain_rows rows.now))) }
{
    for row in rows {
        push_row(text, key, total, row)?;
        text.check_length()?;
    }
    Ok(())
}

/// Adds a key and an event, to the end of the line.
pub(crate) fn push_key_and_event(
    text: &mut TextWriter<'_>,
    key: Key,
    event: &[u8],
) -> Result<(), AllocError>
    ensures { OnOk result (GoesOn text.old text.new (key_name key ++ (codes " " ++ (escaped event.now ++ codes "\n")))) }
{
    text.push_bytes(key.name())?;
    text.push(b' ')?;
    text.push_escaped(event)?;
    text.push(b'\n')
}

/// Adds what the report is by, and of which event.
fn push_head(text: &mut TextWriter<'_>, key: Key, event: &[u8]) -> Result<(), AllocError>
    ensures { OnOk result (GoesOn text.old text.new (head_text key event.now)) }
{
    text.push_bytes(b"by ")?;
    push_key_and_event(text, key, event)
}

impl<'a> Report<'a> {
    /// Adds the lines of the report of an event.
    fn push_text(&self, text: &mut TextWriter<'a>, event: &[u8]) -> Result<(), AllocError>
        ensures { OnOk result (GoesOn text.old text.new (key_report_text event.now self.now)) }
    {
        push_head(text, self.key, event)?;
        push_sum(text, self.total, self.total, b"total")?;
        push_rows(text, self.key, self.total, &self.rows)?;
        push_sum(text, self.rest, self.total, b"(rest)")
    }

    /// The lines of the report of an event. A text of more than `most` bytes is refused as one that there is no memory
    /// for.
    pub fn text(&self, alloc: Global, most: usize, event: &[u8]) -> Result<SharedText, AllocError>
        ensures text { IfOk result (λ text. text ≡ key_report_text event.now self.now) }
        ensures short { IfOk result (λ text. length text ≤ most) }
    {
        let mut text = TextWriter::new(alloc, most);
        self.push_text(&mut text, event)?;
        text.finish()
    }
}
