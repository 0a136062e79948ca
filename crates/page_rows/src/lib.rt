//! The rows of a table, and the entries of an index, straight from the pages of a database file, which nobody
//! has checked: no SQL, and no pass over the file before. They are handed on one at a time to what takes them.
//! Whatever the file holds, each call ends, and follows no overflow pages that lead back to themselves; where a table or
//! an index stands in its pages, they are what it holds.
#![tactic(auto)]

// Reads that load no more than a file holds.
mod bounded;
// The walk over the entries of an index.
mod entry_walks;
// Why a walk ends early.
mod errors;
// How many pages may be loaded.
mod loads;
// Places among the entries of an index.
mod probes;
// A record read as a row.
mod records;
// The root page of a table or an index, by its name.
mod roots;
// What takes rows, and what takes entries.
mod sinks;
// The walk over the rows of a table.
mod walks;

pub use bounded::{fill_entries, last_row, next_row};
pub use entry_walks::walk_entries;
pub use errors::WalkError;
pub use loads::Loads;
pub use records::read_row;
pub use roots::root_named;
pub use sinks::{EntrySink, RowSink};
pub use walks::{find_row, walk};
