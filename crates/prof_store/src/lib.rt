//! The store of a SQLite database: the schema of its tables, what they hold as plain lists, what each SQL text makes of them
//! and what their columns may hold; and how it is made, opened, and brought up from version 1, each in one transaction. Its
//! rows are asked for and changed by the pages of its file (`page_runs`).
#![tactic(auto)]

// Whole numbers that a column can hold.
mod column_int;
// Makes a new store.
mod create;
// Why the store refuses (specs/Errors.antt).
mod errors;
// The kinds of runs, as numbers.
mod kinds;
// Laws: what a store represents survives a crash.
mod laws;
// Makes the tables of a new store (specs/Created.antt is what they are then).
mod making;
// Makes version 2 of a store of version 1 (specs/Migrated.antt is what its tables are then).
mod moving;
// Opens a store over a database, and hands the database back.
mod open;
// The store over a connection (specs/Shown.antt).
mod store;
// The lines of the tables.
mod table_rows;
// The call through which every statement within a transaction goes (specs/Within.antt, Steps.antt).
mod writing;

pub use column_int::{ColumnInt, column_int_of, small_of};
pub use errors::{OpenError, OutOfForm, error_of};
pub use kinds::number_of_kind;
pub use laws::{
    rows_say_lines, stores_say_their_version, what_is_left_is_taken_up, what_stands_survives,
};
pub use making::create_tables;
pub use moving::migrate;
pub use plain_tables::{StoreError, is_group_name, is_label};
pub use sqlite::Alter;
pub use store::Store;
pub use table_rows::{
    CoefRow, DerivedRow, EventRow, HeadRows, HeldStack, RunRow, StoredCall, StoredCell, StoredStack,
};
pub use writing::write_inside;
