//! The small tables of a store and its names, read off the pages of its file: no SQL, and no pass over the file before.
#![tactic(auto)]

// Whether two texts make tables with the same rows.
mod alike;
// The values of a record.
mod fields;
// A database file, opened.
mod files;
// The head of a run, from the rows of the small tables.
mod heads;
// The keys of the rows of the small tables (specs/Indexed.antt).
mod index_keys;
// Whether the indexes of the small tables have these keys.
mod indexes;
// All rows of a table, read into a list.
mod listing;
// The small tables of a store, read into lists.
mod lists;
// The names that are held.
mod names;
// Opens a store by the pages of its file.
mod opening;
// Records as rows of the tables.
mod records;
// The rows of the small tables, and of the names.
mod small;
// The rows of a table whose rowids are among some numbers.
mod some_rows;
// Whether a file has our tables.
mod texts;

pub use fields::{copied_in, end_of, number_in, whole_in};
pub use files::open_file;
pub use heads::head_of;
pub use lists::read_lists;
pub use names::{holds_names, names_among, names_under};
pub use opening::open_store;
