// The text of what places cost by the names of events.
ghost use Rattle.std.specs.Prelude.{◌≡◌, ◌≤◌, ◌++◌, ℕ, List, [], OnOk, OnErr, IfOk, IfErr, MatchResult, length, map};
ghost use Rattle.csv.specs.Writing.{default_writer, row_text};
ghost use Rattle.report_texts.specs.Csv.{csv_header, csv_row, csv_rows, csv_text};
ghost use Rattle.cost_exports.specs.Pieces.{GoesOn, IsCut, IsOn, IsOut};
ghost use Rattle.byte_io.specs.Sinks.{HasGone, HasGoneInPart};
ghost use Rattle.cost_exports.specs.declared.csv_pieces.Unwritten.TheVariants.{Memory};
ghost use Rattle.cost_exports.specs.Views.{HasWritten, held_line, held_names, placed, spot_with, sums_in};

use crate::cell_sums::CellSums;
use crate::cells::{HeldLine, HeldNames};
use crate::csv_pieces::{Pieces, Unwritten, out_of_memory};
use crate::held_texts::{CountedText, HeldText};
use crate::line_costs::LineCosts;
use crate::places::Places;
use byte_io::TextSink;
use cg_text::ListVec;
use csv::Writer;
use itoa::Buffer;
use std::alloc::{AllocError, Global};

/// Writes a row. Its fields are as many in each row, so memory is the only refusal.
fn write_fields(writer: &mut Writer<Vec<u8>>, fields: &[&[u8]]) -> Result<(), AllocError>
    ensures { (text : List ℕ) → HasWritten writer.old text
        → OnOk result (HasWritten writer.new (text ++ row_text default_writer (map (λ f. f.now) fields.now))) }
{
    match writer.write_fields(fields) {
        Ok(()) => Ok(()),
        Err(_) => Err(AllocError),
    }
}

/// Writes the names of the fields.
fn write_header(writer: &mut Writer<Vec<u8>>) -> Result<(), AllocError>
    ensures { (text : List ℕ) → HasWritten writer.old text → OnOk result (HasWritten writer.new (text ++ row_text default_writer csv_header)) }
{
    let header = [
        b"object".as_slice(),
        b"file".as_slice(),
        b"function".as_slice(),
        b"line".as_slice(),
        b"event".as_slice(),
        b"cost".as_slice(),
    ];
    write_fields(writer, &header)
}

/// Writes what a line of a place cost in an event.
fn write_line(
    writer: &mut Writer<Vec<u8>>,
    names: &HeldNames,
    line: &HeldLine,
    cost: u128,
) -> Result<(), AllocError>
    ensures { (text : List ℕ) → HasWritten writer.old text
        → OnOk result (HasWritten writer.new (text ++ csv_row (spot_with (held_names names.now) (held_line line.now), cost))) }
{
    let mut number = Buffer::new();
    let mut amount = Buffer::new();
    write_fields(
        writer,
        &[
            names.object.as_slice(),
            names.file.as_slice(),
            names.function.as_slice(),
            number.format(line.line).as_bytes(),
            line.event.as_slice(),
            amount.format(cost).as_bytes(),
        ],
    )
}

/// Writes what a line of a place cost in an event, and hands the rows on where they are a piece.
fn put_line<W: TextSink>(
    alloc: Global,
    pieces: &mut Pieces,
    out: &mut W,
    names: &HeldNames,
    line: &HeldLine,
    cost: u128,
) -> Result<(), Unwritten>
    ensures { GoesOn W.takes W.stops result pieces.old pieces.new out.old out.new (csv_row (spot_with (held_names names.now) (held_line line.now), cost)) }
{
    write_line(&mut pieces.rows, names, line, cost)?;
    if pieces.are_full() {
        return pieces.hand_on(alloc, out);
    }
    Ok(())
}

/// Writes what the lines of a place cost.
fn put_lines<W: TextSink>(
    alloc: Global,
    pieces: &mut Pieces,
    out: &mut W,
    names: &HeldNames,
    lines: &LineCosts,
) -> Result<(), Unwritten>
    ensures { GoesOn W.takes W.stops result pieces.old pieces.new out.old out.new (csv_rows (placed (held_names names.now) lines.now)) }
{
    for (line, cost) in lines.iter() {
        put_line(alloc, pieces, out, names, line, *cost)?;
    }
    Ok(())
}

/// Writes what the lines of all places cost.
fn put_places<W: TextSink>(
    alloc: Global,
    pieces: &mut Pieces,
    out: &mut W,
    places: &Places,
) -> Result<(), Unwritten>
    ensures { GoesOn W.takes W.stops result pieces.old pieces.new out.old out.new (csv_rows (sums_in places.now)) }
{
    for (names, slot) in places.iter() {
        if let Some(lines) = places.lines(*slot) {
            put_lines(alloc, pieces, out, names, lines)?;
        }
    }
    Ok(())
}

/// Writes the header and the rows, to the last.
fn put_all<W: TextSink>(
    alloc: Global,
    pieces: &mut Pieces,
    out: &mut W,
    sums: &CellSums,
) -> Result<(), Unwritten>
    ensures { (from : _) → IsOn W.takes from pieces.old out.old []
        → MatchResult result (λ done. IsOut W.takes from pieces.new out.new (csv_text sums.now))
        (λ e. IsCut W.takes W.stops from pieces.new out.new (csv_text sums.now)) }
{
    write_header(&mut pieces.rows)?;
    put_places(alloc, pieces, out, sums.places())?;
    pieces.hand_on(alloc, out)
}

/// Writes the text of `csv_text`, a piece at a time, so that it is never held whole. Where that fails, the sink
/// took its first bytes, and was given none where there was no memory from the start.
pub fn write_csv<W: TextSink>(alloc: Global, sums: &CellSums, out: &mut W) -> Result<(), Unwritten>
    ensures whole { OnOk result (HasGone W.takes out.old (csv_text sums.now) out.new) }
    ensures part { OnErr result (HasGoneInPart W.takes W.stops out.old (csv_text sums.now) out.new) }
    ensures none { IfErr result (λ e. e ≡ Memory → out.new ≡ out.old) }
{
    let mut pieces = Pieces::new(alloc)?;
    match put_all(alloc, &mut pieces, out, sums) {
        Ok(()) => Ok(()),
        Err(Unwritten::Memory) => Err(out_of_memory(pieces.begun)),
        Err(Unwritten::Failed(error)) => Err(Unwritten::Failed(error)),
    }
}

/// A header, and a row for each place and event with its cost, as comma-separated values with the line
/// end LF: names as they are, with quotes where they need them. A text of more than `most` bytes is refused as
/// one that there is no memory for; there is no other refusal.
pub fn csv_text(alloc: Global, most: usize, sums: &CellSums) -> Result<ListVec<u8>, AllocError>
    ensures text { IfOk result (λ text. text ≡ csv_text sums.now) }
    ensures short { IfOk result (λ text. length text ≤ most) }
{
    let mut text = HeldText::new(alloc, most);
    match write_csv(alloc, sums, &mut text) {
        Ok(()) => Ok(text.into_text()),
        Err(_) => Err(AllocError),
    }
}

/// How many bytes the text of `csv_text` has, which is made for that and not held. One of more than `most` is
/// refused as there.
pub fn csv_length(alloc: Global, most: usize, sums: &CellSums) -> Result<usize, AllocError>
    ensures length { IfOk result (λ count. count ≡ length (csv_text sums.now)) }
    ensures short { IfOk result (λ count. count ≤ most) }
{
    let mut text = CountedText::new(most);
    match write_csv(alloc, sums, &mut text) {
        Ok(()) => Ok(text.len()),
        Err(_) => Err(AllocError),
    }
}
