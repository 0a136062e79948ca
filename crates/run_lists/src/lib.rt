//! What a store tells of its runs and groups, from lists of rows that were read whole: the tables that are
//! small, whatever the size of the runs; names by their numbers, heads and rows, from their lines. No database, no file.
#![tactic(auto)]

// The rows of a run's calls, made of their lines (specs/HeldCalls.antt).
mod call_rows;
// The groups with their members.
mod groups;
// Takes the lines of calls (specs/HeldCalls.antt).
mod handed_calls;
// Takes the lines of cells (specs/HeldCells.antt).
mod handed_cells;
// Takes the lines of stacks (specs/HeldStacks.antt).
mod handed_stacks;
// The lines of the head of a run.
mod head_lines;
// The head of a run, made of its lines (specs/HeadLines.antt).
mod heads_held;
// Names and their numbers (specs/NameRows.antt).
mod held_names;
// Whether lines name runs that are held (specs/HeldRuns.antt).
mod held_runs;
// The rows (specs/Listed.antt).
mod listed;
// What is asked of one run, one group or one digest.
mod lookups;
// The runs that are held, and the numbers of runs.
mod numbers;
// What the rows of a run sum to (specs/RowSums.antt).
mod row_sums;
// Lines of runs, in the order of their table.
mod run_lines;
// The sums of events (specs/Sums.antt).
mod sums;

pub use handed_calls::CallLines;
pub use handed_cells::CellLines;
pub use handed_stacks::StackLines;
pub use head_lines::{HeadCoef, HeadDerived, HeadEvent};
pub use heads_held::head_in;
pub use held_names::{HeldName, HeldNames, is_name};
pub use listed::{
    ListedCoef, ListedDerived, ListedEvent, ListedGroup, ListedMember, ListedRun, RunLists,
};
pub use run_lines::{OfRun, RunLines};
