//! The formulas of derived events: what `event:` lines say, the coefficients that they yield over the
//! events of a file, and what an accepted file says of itself.
#![tactic(auto)]

// A derived event, its formula, and the line that says so.
mod definitions;
// The value of an `event:` line (specs/EventLines.antt, seen through EventViews).
mod event_lines;
// The coefficients of derived events over the events of a file, and their values.
mod flats;
// The formulas of `event:` lines, kept as texts until the events are known.
mod formulas;
// What an accepted file says of itself (specs/Errors.antt).
mod heads;
// Laws: the value of a sum of costs is the sum of the values.
mod laws;
// Coefficients, one for each event.
mod rows;
// The terms of a formula (specs/EventLines.antt).
mod terms;

pub use event_lines::{EventLine, Formula, TextEnd, event_line};
pub use flats::{Flat, FlatEnd};
pub use formulas::Formulas;
pub use heads::FileHead;
pub use laws::{a_repeat_changes_nothing, coefficients_give_the_values, values_add_up};
pub use terms::SplitTerms;
