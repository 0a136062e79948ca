//! A database file that is read and written by its pages, with no check of the file before: no SQL. Where it
//! holds trees, a transaction changes some of them and nothing else; a failure or a crash leaves the old or the new.
#![tactic(auto)]

// Many rows or entries at a time, within a transaction.
mod appends;
// Changes of an index that load no more than a file holds.
mod bounded;
// Rows put behind those of a leaf (specs/Leaves.antt).
mod cells;
// One row or entry at a time.
mod edits;
// The entries of an index.
mod entries;
// Why a table was not read.
mod faults;
// A database file that was opened with no check of its pages, and what is read from it.
mod files;
// New rows in the last leaf of a tree.
mod fills;
// The last row of a table.
mod lasts;
// The last leaf of a tree.
mod leaves;
// The place of a row in an index.
mod probes;
// The cells of a page.
mod reads;
// Many rows taken out of one tree.
mod removals;
// Rows that are to stand behind those of a tree.
mod rows;
// The pages' calls, said of the part that a tree has.
mod store;
// Rows of a tree that are to go, one after another.
mod stretches;
// A transaction: rows and entries are written, and committed or undone.
mod transactions;
// Many rows at a time (specs/Places.antt).
mod tree_appends;
// Many rows taken out of a tree.
mod tree_removals;
// Rows taken out of one leaf in one write.
mod trims;

pub use bounded::Scratch;
pub use edits::{delete, insert, put, remove};
pub use files::{NotOpened, PageFile};
pub use tree_appends::{append, append_entries};
pub use tree_removals::{delete_all, remove_under};
