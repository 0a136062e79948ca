//! Where the tables and indexes of a store stand in the pages of its file, found by their names; the number of a name;
//! free rowids; and what a failure of the pages is for a caller of the store. What tables hold after a change of their trees
//! that was made without SQL: rows put behind the others, rows taken out, rows replaced; lemmas, no code.
#![tactic(auto)]

// What a failure of the pages is for a caller (specs/Failures.antt).
mod failures;
// The number of a name, found by the index of names (specs/Names.antt).
mod names;
// The root pages of tables and indexes (specs/Roots.antt).
mod roots;
// Why a row was not written.
mod errors;
// Where a table and its indexes stand.
mod places;
// Rowids that are free.
mod rowids;
// The tables of a store, each with its indexes (specs/Rooted.antt).
mod tables;

pub use errors::RowError;
pub use failures::{error_of, error_of_row, error_of_walk};
pub use names::find_name;
pub use places::{IndexPlace, Place, StoreTable};
pub use roots::{StoreRoots, TABLE_NAMES, find_roots, index_root, table_root};
pub use rowids::free_rowid;
