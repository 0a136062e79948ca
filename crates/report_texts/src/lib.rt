//! Definitions of reports and exports: what each of them says, straight from the records of files and
//! from rows that represent them, and how it is printed. The only code is the plain types that these
//! definitions and questions speak of.
#![tactic(auto)]

// The two sides of calls (specs/Calls.antt).
mod call_sides;
// How much of a report is shown (specs/KeyReports.antt).
mod cuts;
// The two sides of a difference (specs/Differences.antt).
mod differences;
// Two numbers side by side (specs/Pairs.antt).
mod pairs;
// Whole numbers with a sign (specs/Differences.antt).
mod signed;

pub use call_sides::CallSide;
pub use cuts::Cut;
pub use differences::Side;
pub use pairs::Pair;
pub use signed::Signed;
