//! A store of runs that is read straight from the pages of its file: no SQL, and no pass over the file before.
#![tactic(auto)]

// What takes the cells, the calls and the stacks of a run from its rows.
mod handed;
// Where the rows of runs began when they were last walked.
mod hints;
// The cells of small runs, kept in memory (specs/Kept.antt).
mod kept;
// What is left of the sums of a run, while its rows are taken off them (specs/PartSums.antt).
mod part_sums;
// Where the rows of a run begin.
mod places;
// The rows of a run in one of its tables.
mod run_rows;
// The store (specs/States.antt).
mod store;

pub use store::PageRuns;
