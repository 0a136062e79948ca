//! Commands over a store that ask for no costs: a file that was read is imported or refused, runs are removed, groups are
//! made, changed and dropped, and what is held is listed.
#![tactic(auto)]

// Answers each command.
mod answering;
// Runs are removed; groups are made, changed and dropped.
mod changes;
// The texts of lists.
mod lists;
// Imports a file that was read, or refuses it (specs/FromTables.antt, Refused.antt).
mod taking;

pub use answering::{change_in, remove_in};
pub use changes::GroupChange;
pub use lists::{groups_answer, runs_answer};
pub use taking::{import_parsed, label_of};
