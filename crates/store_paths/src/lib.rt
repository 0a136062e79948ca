//! What opens the store at a path: how long others are waited for, what is said of one that is not opened, the traits of what
//! opens it, or its files, and makes it; and its files where they are only read, opened beside others who may write them.
#![tactic(auto)]

// Where an answer is printed, once it is known to be that of one commit.
mod answers;
// The bytes of a file, held in memory.
mod bytes;
// A disk of which the one below is only read (specs/HeldShown.antt).
mod disk;
// The file of either kind (specs/Either.antt).
mod either;
// Why a store is not opened, and what is printed of it.
mod errors;
// The files of a database, made read-only.
mod files;
// A file that is only read: each call of the system is noted.
mod host;
// Files of one kind, taken for files of either.
mod kinds;
// What a file is by its name, and when it was written last.
mod looks;
// What opens the files of a store.
mod opener;
// Opens both files, and says later whether they stood still.
mod opening;
// Paths of stores, and how their files are read and written.
mod paths;
// How long a command waits for others that have its store open.
mod patience;
// A list of calls that only clauses read (specs/Note.antt).
mod record;
// Whether what was read beside others is what one commit left.
mod standing;
// What opens the store (specs/Opened.antt).
mod stores;

pub use answers::IfStands;
pub use disk::ReadOnly;
pub use either::EitherDisk;
pub use errors::{Cause, NotOpened, cause_line, error_line};
pub use files::read_only;
pub use host::FileToRead;
pub use kinds::{as_one, as_other, other_of};
pub use looks::Look;
pub use opener::{FileOpener, StoreMaker, Unread};
pub use opening::{FileOf, Standing, Unopened, open_to_look, open_to_read};
pub use paths::{is_no_file, options_for};
pub use patience::{Patience, TRIES};
pub use standing::{has_same_log, has_stood};
pub use stores::Opener;
