//! What no command line of the program reaches, over the public calls of the other crates: the bodies of proved tests.
//! They stand in a library, since a program takes several times as long to prove. No guarantees: what is wanted fails
//! where it is not so.
#![tactic(auto)]

// The changes of a store.
mod changes;
// A file of which only so many changes are made.
mod disk;
// A file whose reads are given by hand.
mod given;
// What has to hold in a test.
mod holding;
// The two files of a database, and what a stop leaves of them.
mod images;
// Public calls that the program does not make.
pub mod library;
// What takes lines may refuse one; then each later piece is refused.
pub mod lines;
// How many changes are still made.
mod meters;
// A store of which one allocation is refused.
pub mod page_memory;
// A list of commands of which one allocation is refused.
pub mod refused;
// A machine that stops while a store is made, migrated or changed.
pub mod stops;
// Stores in files: made by SQL, opened by their pages.
mod stores;
// What a store tells of all that it holds.
mod told;

pub use disk::Stopping;
pub use images::{Image, Left, files_of};
pub use meters::{Meter, Stops};
