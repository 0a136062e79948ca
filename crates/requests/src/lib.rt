//! What a warehouse can be asked and told: one type for runs that are selected, one for questions, one for commands.
//! The command line and paths of HTTP make them, and the warehouse does what they say. N is how a name is held, as a lent
//! list of bytes or as one of its own, and R is where the bytes of a file come from.
#![tactic(auto)]

// What a warehouse is told to do.
mod commands;
// Questions to a warehouse.
mod queries;
// Which runs a question is about.
mod selections;

pub use commands::Command;
pub use queries::Query;
pub use selections::{Selection, lent_second};
