// Rows of profiles: sums by what they belong to.

use cg_text::ListVec;

/// The sum of an event's self costs at a place. Names are bytes, owned or borrowed.
#[derive(Drop)]
pub struct CellRow<N> {
    pub object: N,
    pub file: N,
    pub function: N,
    /// The source line, 0 where none is known.
    pub line: u64,
    /// The number of the thread that ran, 0 where none is known.
    pub thread: u64,
    /// The event's column, from 0.
    pub event: usize,
    /// The sum, below 2^127, in the event's unit.
    pub cost: u128,
}

/// The sums of the calls from a place to a function: how many there were, and what they cost. Names
/// are bytes, owned or borrowed.
#[derive(Drop)]
pub struct ArcRow<N, C> {
    pub object: N,
    pub file: N,
    pub function: N,
    /// The source line of the calls, 0 where none is known.
    pub line: u64,
    pub called_object: N,
    pub called_file: N,
    pub called_function: N,
    /// How many calls there were, below 2^127.
    pub count: u128,
    /// The sum of each event's inclusive costs, by column, each below 2^127. A column that is absent is 0.
    pub costs: C,
}

/// How often a stack was seen: its frames, joined by `;` with the root first, as bytes.
#[derive(Drop)]
pub struct StackRow<N> {
    pub stack: N,
    /// The sum of its counts, below 2^127.
    pub count: u128,
}

/// The sums of some files by column: self costs, inclusive costs of calls, and the number of calls.
#[derive(Drop)]
pub struct FileTotals {
    pub self_cost: ListVec<u128>,
    pub call_cost: ListVec<u128>,
    pub call_count: u128,
}
