//! Worked rows over the public calls of `prof_library` alone, as someone uses them who links it: files, commands and what is
//! printed. No guarantees: what is wanted fails where it is not so.
#![tactic(auto)]

// A file in memory.
mod bytes;
// Imports, removals and groups, and what is refused.
pub mod changes;
// A client in memory.
pub mod exchanges;
// The files of the rows.
mod files;
// Reports of rows that are handed in, in any order.
pub mod plain_rows;
// The records of a file, as a sink of one's own takes them.
pub mod records;
// Reports.
pub mod reports;
// Commands, and what each of them prints.
mod steps;
// Totals of files.
pub mod totals;
