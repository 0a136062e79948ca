//! Annotated sources and exports: what the lines of a file cost beside its source, what places cost as
//! comma-separated values, and stacks as folded text. Rows are handed in one at a time, and added up by
//! key: nothing here knows where they are kept.
#![tactic(auto)]

// The text of a source with what its lines cost (report_texts/specs/Annotations.antt).
mod annotations;
// The keys of the sums of cells (specs/Views.antt).
mod cells;
// What places cost by the names of events (report_texts/specs/Csv.antt).
mod cell_sums;
// The text of these sums, as it is written in pieces (specs/Pieces.antt).
mod csv_pieces;
// And what is written (report_texts/specs/Csv.antt).
mod csv_texts;
// Texts that are held, or whose bytes are counted alone, up to a length.
mod held_texts;
// The text of stacks (report_texts/specs/Folded.antt).
mod folded_texts;
// Laws: what exports sum to, from rows to records, and that the folded one reads back.
mod laws;
// What the lines of a place cost by the names of events (specs/Views.antt).
mod line_costs;
// What the lines of one file cost (report_texts/specs/Annotations.antt).
mod line_sums;
// The lines of places, found by the names of the place (specs/Views.antt).
mod places;
// Names that keys share.
mod shared_names;
// Stacks with their counts (report_texts/specs/Folded.antt).
mod stack_sums;

pub use annotations::annotate;
pub use cell_sums::CellSums;
pub use csv_pieces::Unwritten;
pub use csv_texts::{csv_length, csv_text, write_csv};
pub use folded_texts::folded_text;
pub use laws::{
    annotations_sum_to_the_records, csv_rows_sum_to_the_records, csv_texts_read_back,
    files_are_known_by_their_rows, folded_stacks_sum_to_the_stacks, folded_texts_read_back,
    shown_and_outside_are_the_total,
};
pub use line_sums::LineSums;
pub use stack_sums::StackSums;
