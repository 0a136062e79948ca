// What opens the store at a path.
ghost use Rattle.std.specs.Prelude.{IfOk};
ghost use Rattle.std.specs.Result.{is_ok};
ghost use Rattle.run_stores.specs.Calls.{Asks};
ghost use Rattle.store_paths.specs.Opened.{RepresentsHeld};

use crate::errors::NotOpened;
use crate::opener::Unread;
use crate::opening::Standing;
use crate::patience::Patience;
use plain_tables::StoreError;
use run_stores::RunStore;
use std::rt::HostRuntime;

/// Opens the store of a type at a path. What is written over any opener knows no kind of store or file, and is proved for all that the
/// files may hold. Of which files are at a path the checker knows nothing: so what makes a store there, or looks at it, has no
/// guarantee.
pub trait Opener<S: RunStore + Drop> {
    ghost use Rattle.plain_tables.specs.Tables.{Tables};

    /// The rows that its files hold as they are opened.
    ghost held: { Tables → Type 0 };

    /// Makes the store where there is none, and takes from one that stands there the second name that a stop has left.
    /// Answers whether it is new.
    fn make_missing(rt: &HostRuntime, path: &str, patience: Patience) -> Result<bool, NotOpened>;

    /// Looks at the store by SQL: one of version 1 is migrated, and what is no store is refused for what it is.
    fn look(rt: &HostRuntime, path: &str, patience: Patience) -> Result<(), NotOpened>;

    /// Refuses a store that is not to be opened to be changed, for what it is: no lock is taken, and nothing is made or
    /// changed. The opening itself refuses what was not seen here: files that are not to be read beside others, or that others
    /// write.
    fn look_beside(rt: &HostRuntime, path: &str) -> Result<(), NotOpened>;

    /// The store, to be read beside others, and what its files were.
    fn beside(rt: &HostRuntime, path: &str) -> Result<(S, Standing), Unread>
        ensures { IfOk result (λ opened. RepresentsHeld S.StoreState held opened.0) };

    /// The store, to be read with no other beside. No byte of its files is written.
    fn alone(rt: &HostRuntime, path: &str, patience: Patience) -> Result<S, NotOpened>
        ensures { IfOk result (RepresentsHeld S.StoreState held) };

    /// The store, to be read and changed with no other beside, which keeps so many cells of small runs in memory.
    /// `WrongSchema` where another program has put an index or a trigger on its tables; `Memory`; `Store` where its files are
    /// not plainly a store of this version, or cannot be opened so: `look` says why.
    fn to_change(
        rt: &HostRuntime,
        path: &str,
        patience: Patience,
        cells_to_keep: usize,
    ) -> Result<S, NotOpened>
        ensures { IfOk result (RepresentsHeld S.StoreState held) };

    /// Copies what was committed from the log into the file. Errors: `Store`, and `Memory`.
    fn checkpoint(store: &mut S) -> Result<(), StoreError>
        ensures { Asks S.StoreState (is_ok result) store.old store.new };

    /// Closes a store. Whether a write to its files failed since the disk was full. No guarantee: of a full disk the checker knows
    /// nothing.
    fn has_met_full_disk(store: S) -> bool;
}
