// The costs of cost lines, and the counts of calls.
ghost use Rattle.std.specs.Prelude.{◌≡◌, ◌==◌, ℕ, ◌+◌, ◌-◌, ◌<◌, ◌≤◌, ◌^◌, OnOk, IfOk, Option, Some, None, [], ◌++◌, length, All, replicate, vec_len, if◌then◌else◌, Ok, Err, take};
ghost use Rattle.cg_text.specs.Fields.{fields_of};
ghost use Rattle.cg_text.specs.Numbers.{amount_of};
ghost use Rattle.cg_text.specs.Subpositions.{subpos_of};
ghost use Rattle.callgrind_reader.specs.Faulty.{each, err_of};
ghost use Rattle.callgrind_reader.specs.Costs.{AreAmounts, padded, shape_fault};
ghost use Rattle.callgrind_reader.specs.Calls.{counted};
ghost use Rattle.callgrind_reader.specs.Parts.{list_or, with_front, ReadFields, ReadRow};

use crate::layouts::Layout;
use crate::places::{PlacedLine, Places};
use cg_text::{Fault, amount, next_field, subpos};
use std::alloc::AllocError;

/// How many fields a text has.
pub fn field_count(text: &[u8]) -> usize
    ensures { result ≡ length (fields_of text.now) }
{
    let mut count = 0;
    let mut rest = text;
    while let Some((_, more)) = next_field(rest) {
        rest = more;
        count += 1;
    }
    count
}

/// Adds the amounts of a text's fields to a row, and answers the first fault.
#[inline(always)]
pub fn push_amounts(row: &mut Vec<u64>, text: &[u8]) -> Result<Option<Fault>, AllocError>
    ensures value { IfOk result (λ f. list_or f row.new.items ≡ with_front row.old.items (each amount_of (fields_of text.now))) }
    ensures count { IfOk result (λ f. f ≡ None → length row.new.items ≡ length row.old.items + length (fields_of text.now)) }
    ensures small { OnOk result (AreAmounts row.old.items → AreAmounts row.new.items) }
{
    let mut rest = text;
    while let Some((field, more)) = next_field(rest) {
        match amount(field) {
            Ok(n) => row.push(n)?,
            Err(fault) => return Ok(Some(fault)),
        }
        rest = more;
    }
    Ok(None)
}

/// Fills a row with zeros up to a length.
#[inline(always)]
fn pad(row: &mut Vec<u64>, len: usize) -> Result<(), AllocError>
    requires { vec_len row.old ≤ len }
    ensures value { OnOk result (row.new.items ≡ padded len row.old.items) }
    ensures full { OnOk result (length row.new.items ≡ len) }
    ensures small { OnOk result (AreAmounts row.old.items → AreAmounts row.new.items) }
{
    row.resize(len, 0)?;
    Ok(())
}

/// The fault of a cost line with too few fields or too many.
fn shape_fault(layout: Layout, events: usize, text: &[u8]) -> Option<Fault>
    ensures { result ≡ shape_fault events layout (fields_of text.now) }
{
    let count = field_count(text);
    if count < layout.width() {
        return Some(Fault::ShortLine);
    }
    if count - layout.width() > events {
        return Some(Fault::TooManyCosts);
    }
    None
}

/// Reads the fields of a cost line from left to right: its positions, and its costs into a row.
#[inline(always)]
fn read_fields<'a>(
    row: &mut Vec<u64>,
    layout: Layout,
    before: Places,
    text: &'a [u8],
) -> Result<Result<PlacedLine<'a>, Fault>, AllocError>
    ensures { IfOk result (ReadFields layout before (fields_of text.now) row.new.items) }
{
    row.clear();
    let placed = match before.read(layout, text) {
        Ok(placed) => placed,
        Err(fault) => return Ok(Err(fault)),
    };
    match push_amounts(row, placed.costs)? {
        Some(fault) => Ok(Err(fault)),
        None => Ok(Ok(placed)),
    }
}

/// Reads a cost line: its positions, and its costs into a row, one for each event.
#[inline(always)]
pub fn cost_row<'a>(
    row: &mut Vec<u64>,
    events: usize,
    layout: Layout,
    before: Places,
    text: &'a [u8],
) -> Result<Result<PlacedLine<'a>, Fault>, AllocError>
    ensures { IfOk result (ReadRow events layout before (fields_of text.now) row.new.items) }
{
    match read_fields(row, layout, before, text)? {
        Ok(placed) => {
            if row.len() > events {
                return Ok(Err(Fault::TooManyCosts));
            }
            pad(row, events)?;
            Ok(Ok(placed))
        }
        Err(fault) => match shape_fault(layout, events, text) {
            Some(shape) => Ok(Err(shape)),
            None => Ok(Err(fault)),
        },
    }
}

/// The fault of the first fields of a text as subpositions.
fn target_fault(targets: usize, text: &[u8]) -> Option<Fault>
    ensures { result ≡ err_of (each subpos_of (take targets (fields_of text.now))) }
{
    let mut rest = text;
    for _ in 0..targets {
        let (field, more) = next_field(rest)?;
        if let Err(fault) = subpos(field) {
            return Some(fault);
        }
        rest = more;
    }
    None
}

/// The count of a `calls=` line, which has so many targets.
pub fn call_count(targets: usize, value: &[u8]) -> Result<u64, Fault>
    ensures value { result ≡ counted targets (fields_of value.now) }
    ensures small { IfOk result (λ n. n < 2 ^ 63) }
{
    let (field, rest) = next_field(value).ok_or(Fault::ShortLine)?;
    if field_count(rest) < targets {
        return Err(Fault::ShortLine);
    }
    let count = amount(field)?;
    match target_fault(targets, rest) {
        Some(fault) => Err(fault),
        None => Ok(count),
    }
}
