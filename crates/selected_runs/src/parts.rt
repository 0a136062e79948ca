// The part of a place that a key tells, by number.
ghost use Rattle.std.specs.Prelude.{◌≡◌};
ghost use Rattle.selected_runs.specs.Sums.{numbers_part};

use cost_rows::{CellRow, Key};
use std::cmp::Reverse;

/// A part of a place, with names by their numbers.
#[derive(Clone, Copy, PartialEq, Eq, PartialOrd, Ord)]
pub struct NumberPart {
    pub object: u32,
    pub file: u32,
    pub function: u32,
    pub line: u64,
    pub thread: u64,
}

/// A cost and the part that it is of: the greatest cost comes first, and of equal costs the order is that of the
/// parts.
#[derive(Clone, Copy, PartialEq, Eq, PartialOrd, Ord)]
pub(crate) struct PartSum {
    pub(crate) cost: Reverse<u128>,
    pub(crate) part: NumberPart,
}

/// The part of no place.
const NO_PART: NumberPart = NumberPart {
    object: 0,
    file: 0,
    function: 0,
    line: 0,
    thread: 0,
};

/// The part of a row's place that a key tells.
pub(crate) fn part_of_row(key: Key, row: &CellRow<u32>) -> NumberPart
    ensures { result ≡ numbers_part key row.now }
{
    match key {
        Key::Object => NumberPart {
            object: row.object,
            ..NO_PART
        },
        Key::File => NumberPart {
            file: row.file,
            ..NO_PART
        },
        Key::Function => NumberPart {
            object: row.object,
            function: row.function,
            ..NO_PART
        },
        Key::Line => NumberPart {
            file: row.file,
            line: row.line,
            ..NO_PART
        },
        Key::Thread => NumberPart {
            thread: row.thread,
            ..NO_PART
        },
    }
}
