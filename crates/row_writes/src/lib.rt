//! Rows go into a table of a database file, or out of it, and their entries into its indexes with them: by the
//! pages of the file, with no SQL. Each call stands within a transaction of `page_files`; after an error its `undo` is due.
#![tactic(auto)]

// The entries of a row in the indexes of its table.
mod entries;
// Rows that a test takes are erased.
mod erasing;
// The records of rows and entries.
mod records;
// One row at a time.
mod rows;
// Rows whose first column is a number are erased.
mod under;

pub use erasing::{RowTest, erase_where, rowids_where};
pub use rows::{erase, insert, replace};
pub use under::erase_under;
