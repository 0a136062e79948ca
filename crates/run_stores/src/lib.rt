//! Stores of runs: what each call of one tells and leaves, whatever keeps the tables. Stored runs with names in place, and
//! the order in which the rows of runs stand: definitions, and laws that say what each change of the tables makes of them.
#![tactic(auto)]

// The entries of lists (specs/Entries.antt).
mod entries;
// The names that a store holds, by number.
mod names;
// What a store is, for contracts alone (specs/Calls.antt).
mod states;
// The calls of a store.
mod stores;
// A file with the sums of its rows.
mod summed;
// What takes the rows of runs.
mod sinks;
// Laws: what each change of the tables makes of the book.
mod book_laws;
// A law: each change keeps the order in which the rows of runs stand (specs/Order.antt).
mod order_laws;

pub use book_laws::{
    a_dropped_run_leaves_the_book, a_file_is_in_the_book, an_inserted_file_is_in_the_book,
    groups_leave_the_runs, parts_sum_to_the_calls,
};
pub use entries::{GroupEntry, RunEntry};
pub use names::NameTable;
pub use order_laws::changes_keep_the_order;
pub use plain_tables::{StoreError, is_group_name, is_label};
pub use profile_records::Kind;
pub use sinks::{CallSink, CellSink, StackRowSink};
pub use states::StoreState;
pub use stores::RunStore;
pub use summed::SummedFile;
