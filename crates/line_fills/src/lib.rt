//! Lines, inserted behind the rows of a table with their entries in each of its indexes: many at a time, by the pages
//! of the file, with no SQL. A call stands within a transaction of `page_files`; after an error its `undo` is due.
#![tactic(auto)]

// Rows behind a table, and entries in an index: some hundred at a time (specs/Placed.antt).
mod appends;
// The records of some lines, to be handed to the pages at once.
mod batches;
// The record of some values.
mod encoder;
// Lines behind a table, and in its indexes (specs/Filled.antt).
mod fills;
// A line of a table.
mod lines;
// Records that lie in one buffer (specs/Records.antt).
mod records;
// The lines in the order of an index (specs/Rows.antt).
mod sorting;
// The lines of a run, as lines of its tables.
mod store_lines;
// The row of a line: the rowid, and then the line's columns.
mod values;

pub use fills::fill;
pub use lines::PageLine;
