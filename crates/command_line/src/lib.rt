//! The command line: from its words to a plan, and the commands that it says.
#![tactic(auto)]

// What the table of subcommands is made of, and what clap is told of it.
mod grammar;
// What the program is told to do, and the commands that it says (specs/Commands.antt).
mod plans;
// The subcommands: a row of the table for each, and the plan that is made of its words.
mod subcommands;
// Reads the options and operands of a subcommand (specs/Plans.antt).
mod words;

pub use plans::{Plan, PlanEnd, WordsCommand, commands_of};
pub use subcommands::plan;
