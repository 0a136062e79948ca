// The positions of cost lines.
ghost use Rattle.std.specs.Prelude.{◌≡◌, ℕ, ◌+◌, ◌<◌, ◌≤◌, ◌^◌, IfOk, IfErr, Some};
ghost use Rattle.cg_text.specs.Fields.{fields_of};
ghost use Rattle.callgrind_reader.specs.Positions.{up, down, ranged, placed};
ghost use Rattle.callgrind_reader.specs.Columns.{ReadColumn, ReadFault};

use crate::layouts::Layout;
use cg_text::{Fault, SubPos, next_field, subpos};

/// The largest line number.
const LARGEST_LINE: u64 = (1 << 63) - 1;

/// The positions of the cost line before.
#[derive(Clone, Copy, Debug)]
pub struct Places {
    pub(crate) address: u64,
    pub(crate) line: u64,
    ghost near: { line < 2 ^ 63 },
}

/// The positions of a cost line, the line number that it says, and the text of its costs.
#[derive(Clone, Copy, Debug)]
pub struct PlacedLine<'a> {
    pub(crate) places: Places,
    pub(crate) line: u64,
    pub(crate) costs: &'a [u8],
}

/// The position that a subposition says, from the one before, up to a largest one.
#[inline(always)]
fn next_position(before: u64, by: SubPos, largest: u64) -> Result<u64, Fault>
    requires { before ≤ largest }
    ensures { (u d : ℕ) → before + d ≡ u → result ≡ ranged (largest + 1) (up by u) (down by d) }
{
    let next = match by {
        SubPos::Abs(n) => Some(n),
        SubPos::Plus(n) => before.checked_add(n),
        SubPos::Minus(n) => before.checked_sub(n),
        SubPos::Same => Some(before),
    };
    match next {
        Some(n) if n <= largest => Ok(n),
        _ => Err(Fault::PositionRange),
    }
}

/// The position that a field says.
#[inline(always)]
fn position(field: &[u8], before: u64, largest: u64) -> Result<u64, Fault>
    requires { before ≤ largest }
    ensures { (u d : ℕ) → before + d ≡ u → result ≡ placed (largest + 1) (Some field.now) u d }
{
    next_position(before, subpos(field)?, largest)
}

/// The position in a column, after the one before, and the text behind; where there is no such
/// column, the position stays.
#[inline(always)]
fn read_column(
    is_there: bool,
    text: &[u8],
    before: u64,
    largest: u64,
) -> Result<(u64, &[u8]), Fault>
    requires { before ≤ largest }
    ensures read { IfOk result (λ c. ReadColumn is_there (largest + 1) before (fields_of text.now) c.0 (fields_of c.1.now)) }
    ensures fault { IfErr result (ReadFault is_there (largest + 1) before (fields_of text.now)) }
{
    if !is_there {
        return Ok((before, text));
    }
    let Some((field, rest)) = next_field(text) else {
        return Err(Fault::ShortLine);
    };
    let next = position(field, before, largest)?;
    Ok((next, rest))
}

impl Places {
    ghost use Rattle.callgrind_reader.specs.Places.{ReadPlaces};

    /// Before the first cost line.
    pub fn new() -> Places
        ensures address { result.address ≡ 0 }
        ensures line { result.line ≡ 0 }
    {
        Places {
            address: 0,
            line: 0,
        }
    }

    /// Reads the positions of a cost line. A line with too few fields has a fault of any kind.
    #[inline(always)]
    pub fn read<'a>(self, layout: Layout, text: &'a [u8]) -> Result<PlacedLine<'a>, Fault>
        ensures { ReadPlaces layout self (fields_of text.now) result }
    {
        let (address, rest) = read_column(layout.has_address(), text, self.address, u64::MAX)?;
        let (line, costs) = read_column(layout.has_line(), rest, self.line, LARGEST_LINE)?;
        let places = Places { address, line };
        let line = if layout.has_line() { line } else { 0 };
        Ok(PlacedLine {
            places,
            line,
            costs,
        })
    }
}
