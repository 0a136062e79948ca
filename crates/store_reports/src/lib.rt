//! Reports and exports over a store: questions of costs by key, of differences, of what files state and of the lines of
//! a source, CSV and folded texts, answered over the runs that a selection names. The answers are those of the files: the rows of these runs sum to their
//! records.
#![tactic(auto)]

// Answers `annotate` (specs/Annotated.antt).
mod annotating;
// The cells of a run, added up by event (specs/CellSums.antt).
mod cell_sums;
// Answers `verify` (specs/Checked.antt).
mod checking;
// Answers `subtract` (specs/Compared.antt).
mod comparing;
// Answers `csv` (specs/CsvRuns.antt).
mod csv_writing;
// The cells of runs, added up by key.
mod event_sums;
// Answers `folded` (specs/FoldedRuns.antt).
mod folded_writing;
// Laws: what reports sum to.
mod laws;
// The sums of runs, by key.
mod merging;
// Answers `by` (specs/Reported.antt).
mod reporting;
// What takes the rows of runs.
mod sinks;

pub use annotating::annotate_answer;
pub use checking::verify_answer;
pub use comparing::subtract_answer;
pub use csv_writing::{csv_answer, csv_sums};
pub use folded_writing::folded_answer;
pub use laws::reports_sum_to_the_records;
pub use reporting::by_answer;
