// The text of a source with what its lines cost.
ghost use Rattle.std.specs.Prelude.{◌≡◌, ◌+◌, ◌++◌, ◌≤◌, length, OnOk, IfOk};
ghost use Rattle.cg_text.specs.Lines.{lines_of, numbered};
ghost use Rattle.report_texts.specs.Annotations.{annotation_head, annotation_of, annotation_text, line_cost, outside_cost, source_line, source_line_text, source_lines, source_text, sum_line};

use crate::line_sums::LineSums;
use byte_io::push_escaped;
use cg_text::{Lines, ListVec, strip_carriage_return};
use cost_reports::{check_length, push_number, whole_text};
use std::alloc::{AllocError, Global};

/// Adds what a line cost: a dot where it is 0.
fn push_cost(text: &mut Vec<u8>, cost: u128) -> Result<(), AllocError>
    ensures { OnOk result (text.new.items ≡ text.old.items ++ line_cost cost) }
{
    if cost == 0 {
        text.push(b'.')?;
    } else {
        push_number(text, cost)?;
    }
    Ok(())
}

/// Adds a line of the source, with what it cost.
fn push_line(
    text: &mut Vec<u8>,
    sums: &LineSums,
    number: u64,
    line: &[u8],
) -> Result<u128, AllocError>
    ensures text { OnOk result (text.new.items ≡ text.old.items ++ source_line_text (source_line sums.now.costs (number, line.now))) }
    ensures cost { IfOk result (λ cost. cost ≡ (source_line sums.now.costs (number, line.now)).cost) }
{
    let cost = sums.cost_at(number);
    push_cost(text, cost)?;
    text.push(b' ')?;
    push_number(text, u128::from(number))?;
    text.extend_from_slice(b": ")?;
    text.extend_from_slice(strip_carriage_return(line))?;
    text.push(b'\n')?;
    Ok(cost)
}

/// Adds the lines of the source, and gives what is left of the total: what lines cost that it does not
/// have. It goes on as long as the text has at most `most` bytes.
fn push_lines(
    text: &mut Vec<u8>,
    sums: &LineSums,
    source: &[u8],
    most: usize,
) -> Result<u128, AllocError>
    ensures text { OnOk result (text.new.items ≡ text.old.items ++ source_text (source_lines sums.now.costs (numbered 1 (lines_of source.now)))) }
    ensures outside { IfOk result (λ outside. outside ≡ outside_cost (length (lines_of source.now)) sums.now.costs) }
{
    let mut left = sums.total();
    for (number, line) in Lines::new(source) {
        left -= push_line(text, sums, number, line)?;
        check_length(text.len(), most)?;
    }
    Ok(left)
}

/// Adds a sum and what it is of.
fn push_sum(text: &mut Vec<u8>, cost: u128, name: &[u8]) -> Result<(), AllocError>
    ensures { OnOk result (text.new.items ≡ text.old.items ++ sum_line cost name.now) }
{
    push_number(text, cost)?;
    text.push(b' ')?;
    text.extend_from_slice(name)?;
    text.push(b'\n')?;
    Ok(())
}

/// Adds whose lines they are, and of which event.
fn push_head(text: &mut Vec<u8>, file: &[u8], event: &[u8]) -> Result<(), AllocError>
    ensures { OnOk result (text.new.items ≡ text.old.items ++ annotation_head file.now event.now) }
{
    text.extend_from_slice(b"annotate ")?;
    push_escaped(text, file)?;
    text.push(b' ')?;
    push_escaped(text, event)?;
    text.push(b'\n')?;
    Ok(())
}

/// The lines of a file's source, each with what it cost in an event, and what line 0 and lines after the
/// end cost. A source is any bytes; its lines may be of any length. A text of more than `most` bytes is refused as one
/// that there is no memory for; there is no other refusal.
pub fn annotate(
    alloc: Global,
    most: usize,
    sums: &LineSums,
    event: &[u8],
    source: &[u8],
) -> Result<ListVec<u8>, AllocError>
    ensures text { IfOk result (λ text. text ≡ annotation_text event.now (annotation_of sums.now.file source.now sums.now.costs)) }
    ensures short { IfOk result (λ text. length text ≤ most) }
{
    let mut text = Vec::new(alloc);
    push_head(&mut text, sums.file(), event)?;
    push_sum(&mut text, sums.total(), b"total")?;
    let outside = push_lines(&mut text, sums, source, most)?;
    push_sum(&mut text, outside, b"(outside)")?;
    whole_text(text, most)
}
