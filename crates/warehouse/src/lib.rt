//! The warehouse: commands over a store of runs, their answers, and the line that is printed of each.
#![tactic(auto)]

// What is asked over a store, each with its answer.
mod answering;
// Imports, questions and commands, one by one and in lists.
mod apply;
// Laws: which histories a store has.
mod laws;
// The refusals of sources that were not read.
mod refusals;
// The warehouse: a store of runs under limits.
mod warehouse;
// What is printed of an answer.
mod answers;

pub use answers::{is_refused, line_of, status_of};
pub use byte_io::{ReadFault, Source};
pub use histories::{Answer, Excess, Limits, Refusal};
pub use laws::{commands_keep_the_mark, crashes_leave_a_history, histories_survive};
pub use profile_records::Kind;
pub use requests::{Command, Query, Selection};
pub use warehouse::Warehouse;
