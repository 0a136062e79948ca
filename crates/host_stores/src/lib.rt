//! The store at a path of a host: made where there is none, whole or not at all; migrated or refused in its database by SQL; and
//! its files, opened. Others who have it open are waited for.
#![tactic(auto)]

// Why the host, or SQL, does not open a store.
mod causes;
// Gives a new store its name when its file is whole.
mod naming;
// The file of a new store, made in memory.
mod new_stores;
// What the files at a path hold each time they are opened.
mod openings;
// Says what a database is whose pages are refused, and writes nothing.
mod refusals;
// Makes, finds, migrates or refuses the store in a database, and that at a path.
mod stores;
// The files of a host.
mod hosts;
// Files of one type, however a store is opened.
mod files;
// Makes the store at a path by SQL, over any files.
mod maker;

pub use files::{HostFile, HostOpener};
pub use hosts::{Host, RunningHost};
pub use maker::SqlMaker;
pub use openings::Openings;
