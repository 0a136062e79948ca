//! The store at a path, opened by its pages, as what is done over it sees that: over any kind of file, and whatever the files
//! hold.
#![tactic(auto)]

// Opens the store in files.
mod opening;
// The store at a path, read beside others, and why one that is not to be changed is refused.
mod looking;
// Why the store at a path is not read beside others, as its database says.
mod refusing;
// What opens the store at a path, over any files.
mod path_openers;
// Laws: what a store leaves, the next opening finds.
mod laws;

pub use laws::stores_leave_what_is_opened;
pub use path_openers::PathOpener;
