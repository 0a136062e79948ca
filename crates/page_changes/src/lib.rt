//! The changes of a store but for imports, written into the pages of its file: no SQL. Groups and their members; a run that
//! is taken out, for which only what there is of it is read and written of the large tables. Each is within a transaction that
//! the caller commits or undoes.
#![tactic(auto)]

// The rows of a name.
mod finding;
// The changes of groups and members.
mod groups;
// One row or the rows of one group, within a transaction (specs/Changes.antt).
mod rows;
// Groups whose baseline is a run.
mod baselines;
// The rows of a run in one table.
mod lines;
// The memberships of a run.
mod members;
// A run, taken out of a store.
mod runs;

pub use groups::{drop_group, join, leave, put_group, set_baseline};
pub use runs::drop_run;
