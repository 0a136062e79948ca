//! What commands are answered, and what they make of a warehouse: the definitions of a history, of
//! what is held after it, of its legal answers, and of stores that have it.
#![tactic(auto)]

// What commands are answered.
mod answers;
// Laws: what legal steps make of histories and of the tables.
mod laws;
// How much a warehouse holds.
mod limits;
// The answer that is expected, or a refusal (specs/Answered.antt, Refusals.antt).
mod stored_answers;

pub use answers::{Answer, Excess, Refusal};
pub use laws::{
    an_inserted_file_is_an_import, changes_are_commands, cuts_do_not_show, held_sums_fit,
    histories_grow, members_and_baselines_are_held, tables_represent_each_group,
    tables_represent_each_head, tables_represent_each_run, tables_represent_selections,
    tables_represent_the_lists, tables_represent_the_sums, tables_represent_what_is_held,
    tables_stay_through_what_changes_nothing, the_first_grammar_knows_no_thread, the_mark_stays,
};
pub use limits::Limits;
pub use stored_answers::answer_of;
