//! A file is put into a store as a run: the lines of the tables that it becomes, and how they are written into the pages of
//! the store's file; no SQL. A call stands within a transaction of `page_files` that it begins; the caller commits or
//! undoes it.
#![tactic(auto)]

// The lines of the calls of a file, each a place in its rows (specs/Lines.antt).
mod call_lines;
// The lines of the self costs of a file, each a place in its rows (specs/Lines.antt).
mod cell_lines;
// The columns of rows.
mod columns;
// The line that a row of a file becomes (specs/FromRows.antt).
mod file_lines;
// The lines that the head of a file becomes (specs/Sums.antt).
mod head_lines;
// What a run says of itself: the next number, its own row, and the lines of its head.
mod heads;
// A file is put in as a run (specs/Imports.antt).
mod imports;
// The names of a file, by their numbers in the store.
mod names;
// Numbers of names, and the new names among them (specs/Names.antt).
mod numbering;
// The lines of self costs and of calls: places in the rows of a file.
mod row_lines;
// The lines of all stacks of a file.
mod row_lists;
// The rows of a file.
mod rows;
// The number of a run, and the numbers of its names in the tables.
mod run_names;

pub use file_lines::{call_of, cell_of, stack_of};
pub use head_lines::head_rows;
pub use imports::put_run;
pub use row_lists::stack_lines;
