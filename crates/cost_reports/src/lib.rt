//! Reports over the rows of profiles, and their texts. A report is a function of rows that are handed
//! in: nothing here knows where they are kept.
#![tactic(auto)]

// The callers of a function, or those that it calls (report_texts/specs/Calls.antt).
mod call_reports;
// The text of calls (report_texts/specs/Calls.antt).
mod call_texts;
// The text of a difference (report_texts/specs/Differences.antt).
mod difference_texts;
// The rows of some runs less those of others (report_texts/specs/Differences.antt).
mod differences;
// The functions of a stack (report_texts/specs/Inclusive.antt).
mod frames;
// The text of inclusive costs (report_texts/specs/Inclusive.antt).
mod inclusive_texts;
// What functions cost with all that they call (report_texts/specs/Inclusive.antt).
mod inclusives;
// A report by key (report_texts/specs/KeyReports.antt, specs/Enough.antt).
mod key_reports;
// The text of a report by key (report_texts/specs/KeyTexts.antt).
mod key_texts;
// How long a text may be.
mod lengths;
// What rows with lent names sum to, by key (specs/Rows.antt).
mod lent_sums;
// Laws: what reports sum to, from the rows of runs to the records of their files.
mod laws;
// What is printed of a number.
mod numbers;
// Two sums side by side, by place (report_texts/specs/Pairs.antt).
mod pair_sums;
// Two numbers that are added up side by side (report_texts/specs/Pairs.antt).
mod pairs;
// A part of a total in percent (report_texts/specs/Percents.antt).
mod percents;
// The places of rows and of functions, by names that are lent.
mod places;
// Rows in the order of a report (report_texts/specs/Ranking.antt).
mod ranks;
// The rows of reports, their names borrowed (specs/Rows.antt).
mod rows;
// Whole numbers with a sign (report_texts/specs/Differences.antt).
mod signed;
// The sums of a run's events beside the totals that its file states (report_texts/specs/Verifying.antt).
mod verifying;

pub use call_reports::{CallReport, CallSums, calls};
pub use cost_rows::LentPlace;
pub use differences::{Difference, subtract};
pub use frames::{functions_in, is_frame};
pub use inclusives::{FrameSums, InclusiveReport, InclusiveSums, inclusive};
pub use key_reports::{Report, by};
pub use laws::{
    added_rows_sum_to_the_reports, callers_and_callees_sum_to_the_calls, calls_sum_to_the_records,
    cells_sum_to_the_records, differences_sum_to_the_total, differences_turn_round,
    equal_costs_have_equal_sums, inclusive_costs_are_those_of_each_function,
    inclusive_costs_sum_to_the_records, shown_and_rest_are_the_total, the_fewest_rows_are_shown,
};
pub use lengths::{check_length, whole_text};
pub use lent_sums::LentSums;
pub use numbers::push_number;
pub use report_texts::{CallSide, Cut, Pair, Signed};
pub use rows::{CallRow, DifferenceRow, Row};
pub use verifying::{Check, Verification, verify};
