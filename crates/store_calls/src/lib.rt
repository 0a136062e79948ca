//! Inclusive costs and calls over a store: questions of what functions cost with all that they call, of who
//! calls a function and of whom it calls, answered over the runs that a selection names. The answers are those
//! of the files: the rows of these runs sum to their records.
#![tactic(auto)]

// The function whose calls are asked, by name and by number (specs/KeptCalls.antt).
mod asked_functions;
// Answers `callers` and `callees` (specs/FunctionCalls.antt).
mod calling;
// Answers `inclusive` (specs/InclusiveRuns.antt).
mod including;
// Inclusive costs by the numbers of names, and those of stacks (specs/InclusiveParts.antt).
mod inclusive_parts;
// The rows of runs, added up to inclusive costs.
mod inclusive_sums;
// The calls of a function, row by row, by the numbers of names (specs/KeptCalls.antt).
mod kept_calls;
// What is kept of them.
mod kept_rows;
// Looks for a function in the rows of runs.
mod known_names;
// The calls of a function with the names of those on their other side.
mod named_calls;
// Adds to both, and joins them at the end.
mod part_sums;
// What rows cost in the event, within bounds.
mod weights;

pub use calling::calls_answer;
pub use including::inclusive_answer;
