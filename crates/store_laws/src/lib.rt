//! Laws of stores: which history one has that was of version 1; what the rows of each run sum to; that one is handed over from
//! SQL to its pages, and from its pages to SQL, over the same two files; and that what is answered depends on the files that a
//! selection names, and on nothing else.
#![tactic(auto)]

// Laws: histories, and what rows sum to.
mod laws;
// Laws: the same files have the same answers.
mod same_file_laws;
// From pages to SQL (specs/Databases.antt).
mod databases;
// From SQL to pages (specs/Pages.antt).
mod pages;

pub use databases::to_database;
pub use laws::{
    migrated_stores_have_their_history, rows_sum_to_the_small_tables, small_tables_name_held_runs,
};
pub use pages::to_pages;
pub use same_file_laws::{only_the_files_matter_to_exports, only_the_files_matter_to_reports};
