// The lines of the tables.

use crate::column_int::ColumnInt;

/// The sum of an event's self costs at a place; names by number.
#[derive(Drop)]
pub struct StoredCell {
    pub run: u32,
    pub object: u32,
    pub file: u32,
    pub function: u32,
    pub line: ColumnInt,
    pub thread: ColumnInt,
    pub event: u32,
    pub cost: ColumnInt,
}

/// An event of a run: its column, its name, its sums, and the total that the file states.
#[derive(Drop)]
pub struct EventRow<'a> {
    pub run: u32,
    pub place: u32,
    pub name: &'a [u8],
    pub self_cost: ColumnInt,
    pub call_cost: ColumnInt,
    pub stated: Option<String>,
}

/// A derived event of a run.
#[derive(Drop)]
pub struct DerivedRow<'a> {
    pub run: u32,
    pub place: u32,
    pub name: &'a [u8],
}

/// How often an event counts in a derived one.
#[derive(Drop)]
pub struct CoefRow {
    pub run: u32,
    pub place: u32,
    pub event: u32,
    pub times: ColumnInt,
}

/// A part of the calls from a place to a function, names by number: part 0 counts them, part k + 1
/// is their cost in column k.
#[derive(Drop)]
pub struct StoredCall {
    pub run: u32,
    pub object: u32,
    pub file: u32,
    pub function: u32,
    pub line: ColumnInt,
    pub called_object: u32,
    pub called_file: u32,
    pub called_function: u32,
    pub part: u32,
    pub sum: ColumnInt,
}

/// How often a stack was seen.
#[derive(Drop)]
pub struct StoredStack<'a> {
    pub run: u32,
    pub frames: &'a [u8],
    pub count: ColumnInt,
}

/// How often a stack was seen, as it is read.
#[derive(Drop)]
pub struct HeldStack {
    pub run: u32,
    pub frames: Vec<u8>,
    pub count: ColumnInt,
}

/// A run: its number, its kind (1 for Callgrind, 2 for folded stacks), the SHA-256 of its file, its
/// label, and how many calls it has.
#[derive(Drop)]
pub struct RunRow<'a> {
    pub number: u32,
    pub kind: u32,
    pub digest: &'a [u8],
    pub label: &'a str,
    pub call_count: ColumnInt,
}

/// What a run says of itself: its events, its derived events, and their coefficients.
#[derive(Drop)]
pub struct HeadRows<'a> {
    pub events: Vec<EventRow<'a>>,
    pub derived: Vec<DerivedRow<'a>>,
    pub coefs: Vec<CoefRow>,
}
