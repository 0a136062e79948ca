//! What a store of runs holds, as plain lists, and how it changes; the forms of labels and of groups' names;
//! and why a call of a store is refused.
#![tactic(auto)]

// Why a call of a store is refused.
mod errors;
// The forms of labels and of groups' names.
mod labels;

pub use errors::StoreError;
pub use labels::{is_group_name, is_label};
