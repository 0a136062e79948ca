//! The program: the store at a path worked over, alone or beside others, or served, as the words of a command line
//! say; each answer printed as it is known.
#![tactic(auto)]

// Does a job over the store at a path beside others, who may write it meanwhile.
mod beside;
// What is done over the store that is opened for it (specs/Jobs.antt).
mod jobs;
// What a person is told of files (specs/Remarks.antt).
mod remarks;
// What the words of a command line say is done.
mod running;
// Runs commands over a store, and prints each answer (specs/Sessions.antt, specs/Works.antt).
mod session;
// What a person is told on a terminal.
mod telling;
// The total of a file is printed (specs/Works.antt).
mod totals;
// A job is done over the store at a path (specs/Theorem.antt).
mod works;

pub use jobs::Outputs;
pub use remarks::Remark;
pub use running::run;
pub use session::work_over;
pub use totals::print_total;
