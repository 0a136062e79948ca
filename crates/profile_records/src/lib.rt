//! What a reader hands on of a profile: records of costs, stacks with their counts, and what takes them;
//! how costs are added up, and of which kind a profile is.
#![tactic(auto)]

// Rows of costs are added up, column by column (specs/Columns.antt).
mod columns;
// Finds the function that was running.
mod frames;
// The kinds of profiles.
mod kinds;
// The names of records as they are lent, each with a mark (specs/Marks.antt).
mod marks;
// The trait of what takes records, and the records as they are lent (specs/Records.antt, Lent.antt).
mod sink;
// The trait of what takes stacks (specs/Stacks.antt).
mod stack_sink;

pub use columns::add_costs;
pub use frames::{function, leaf};
pub use kinds::Kind;
pub use marks::{LentName, LentNames, Mark};
pub use sink::{CallCost, SelfCost, Sink};
pub use stack_sink::StackSink;
