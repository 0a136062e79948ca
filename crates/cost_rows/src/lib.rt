//! The rows of profiles: names interned, records merged, and sums that must fit.
#![tactic(auto)]

// Sums of calls, with how many there were (specs/Calls.antt).
mod call_sums;
// The rows of one file: a sink of records and of stacks (specs/Content.antt, Rows.antt).
mod file_rows;
// Which numbers the names of the stacks before had.
mod guesses;
// Numbers that tell most names apart (specs/Hashes.antt).
mod hashes;
// What reports add costs up by: object, file, function, line or thread.
mod keys;
// Laws: what rows sum to is what the records sum to.
mod laws;
// The numbers of the names that a record is lent with: one whose mark is known costs no comparison.
mod lent_names;
// Whether a file's sums fit beside those that are held (specs/Admit.antt).
mod limits;
// The numbers of names, by the marks that they came with (specs/Marks.antt).
mod marks;
// Rows of many files, added up by key (specs/KeySums.antt).
mod merged;
// Names, each once, by number (specs/Naming.antt, Growing.antt).
mod names;
// A file's rows with names by number (specs/ByNumber.antt).
mod numbered;
// The numbers of a stack's names (specs/Numbered.antt). A name as in the stack before costs a comparison.
mod numbering;
// What sums belong to, with names by number.
mod places;
// The amounts of a record are added (specs/Merging.antt).
mod records;
// The rows as they are lent and handed over (specs/Plain.antt).
mod rows;
// A cost merged into the sum of its key (specs/Merging.antt).
mod merging;
// Counts by stack, each in a slot of its own (specs/StackCounts.antt, Stacks.antt).
mod stack_counts;
// The rows of a folded file (specs/StackSums.antt).
mod counted_stacks;
// Sums by key, as rows (specs/KeySums.antt).
mod sum_rows;
// Sums by key, all in one list.
mod sum_map;
// The stretch of a key's sums in that list (specs/Stretches.antt).
mod stretches;
// A file's sums by column (specs/Sums.antt, WalkSums.antt).
mod totals;
// Costs without the zeros at their end (specs/Trimmed.antt).
mod trimmed;
// A file's rows with names, one after another.
mod walks;

pub use file_rows::FileRows;
pub use keys::{Key, LentPlace};
pub use laws::{
    merging_keeps_each_sum, numbers_tell_names_apart, rows_add_up_by_key, rows_have_their_names,
    rows_sum_to_the_records, rows_sum_to_the_stacks, walked_rows_sum_to_the_sums,
};
pub use limits::{Overflow, Side, admit};
pub use merged::{Merged, SUM_END};
pub use merging::merge_cost;
pub use names::Names;
pub use numbered::{CallSum, CallsByPlace, CellSum, CellsByPlace, NumberedCalls, NumberedCells};
pub use places::{Call, CellPlace, Place};
pub use rows::{ArcRow, CellRow, FileTotals, StackRow};
pub use sum_rows::SumRows;
pub use walks::{CallWalk, CellWalk, GivesNames, StackWalk, Walk};
