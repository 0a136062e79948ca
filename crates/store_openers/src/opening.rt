// Opens the store in files by its pages.
ghost use Rattle.std.specs.Prelude.{◌≡◌, Some, IfOk, IsTrue};
ghost use Rattle.sqlite_wal.specs.Recovery.{Image};
ghost use Rattle.store_paths.specs.declared.errors.Cause.TheVariants as causes;
ghost use Rattle.prof_store.specs.declared.errors.OpenError.TheVariants as ends;
ghost use Rattle.store_paths.specs.Shown.{HoldsInOrder, ShowImage};
ghost use Rattle.store_paths.specs.Opened.{RepresentsHeld};
ghost use Rattle.page_runs.specs.States.{state_of};

use page_runs::PageRuns;
use plain_tables::StoreError;
use prof_store::OpenError;
use sqlite_disk::{Disk, Files};
use sqlite_pager::Options;
use std::alloc::Global;
use store_paths::{Cause, NotOpened};

/// The store in files, opened by its pages, which keeps so many cells of small runs in memory: where they hold rows that
/// represent a history, it represents that. As at `PageRuns::open`, no clause says which error comes.
pub(crate) fn store_in<D: Disk + Drop>(
    alloc: Global,
    files: Files<D>,
    options: Options,
    cells_to_keep: usize,
) -> Result<PageRuns<D>, StoreError>
    requires log { IsTrue (D.Disk.is_usable files.log) }
    requires db { IsTrue (D.Disk.is_usable files.db) }
    ensures { (image : Image) → ShowImage D.Disk image files → IfOk result (RepresentsHeld state_of (HoldsInOrder image)) }
{
    PageRuns::open(alloc, files, options, cells_to_keep)
}

/// Why a store is not changed on whose tables another program has put an index or a trigger.
pub(crate) fn changed_by_another() -> NotOpened
    ensures end { result.end ≡ ends.WrongSchema }
    ensures cause { result.cause ≡ Some causes.OtherIndex }
{
    NotOpened {
        end: OpenError::WrongSchema,
        cause: Some(Cause::OtherIndex),
    }
}

/// The same, to be changed: refused where another program has put an index or a trigger on its tables.
pub(crate) fn store_to_change_in<D: Disk + Drop>(
    alloc: Global,
    files: Files<D>,
    options: Options,
    cells_to_keep: usize,
) -> Result<PageRuns<D>, NotOpened>
    requires log { IsTrue (D.Disk.is_usable files.log) }
    requires db { IsTrue (D.Disk.is_usable files.db) }
    ensures { (image : Image) → ShowImage D.Disk image files → IfOk result (RepresentsHeld state_of (HoldsInOrder image)) }
{
    let store = store_in(alloc, files, options, cells_to_keep)?;
    if store.may_be_changed() {
        Ok(store)
    } else {
        // (a store that is let go by a call is faster to prove, here and below)
        drop(store);
        Err(changed_by_another())
    }
}

/// Whether the pages of the store in files say that it may be changed. No guarantee: where it is not opened, the answer is no.
pub(crate) fn may_be_changed_in<D: Disk + Drop>(
    alloc: Global,
    files: Files<D>,
    options: Options,
) -> bool
    requires log { IsTrue (D.Disk.is_usable files.log) }
    requires db { IsTrue (D.Disk.is_usable files.db) }
{
    match store_in(alloc, files, options, 0) {
        Ok(store) => {
            let may_be_changed = store.may_be_changed();
            drop(store);
            may_be_changed
        }
        Err(_) => false,
    }
}
