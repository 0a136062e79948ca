// A run is taken out of a store.
ghost use Rattle.page_files.specs.Files.{LeavesUsable};
ghost use Rattle.page_changes.specs.Removed.{Drops, DropsRow};

use crate::baselines::clear_baselines;
use crate::lines::{drop_costs, drop_events};
use crate::members::drop_members;
use page_files::PageFile;
use page_places::{StoreRoots, error_of_row, find_roots};
use plain_tables::StoreError;
use row_writes::erase;
use run_lists::RunLists;
use sqlite_disk::Disk;
use std::alloc::Global;

fn drop_its_row<D: Disk>(
    file: &mut PageFile<D>,
    alloc: Global,
    roots: &StoreRoots,
    run: u32,
) -> Result<(), StoreError>
    ensures done { DropsRow file.old file.new roots.now run result }
    ensures leaves { LeavesUsable file.old file.new result }
{
    match erase(file, alloc, &roots.run_table().place(), i64::from(run)) {
        Ok(()) => Ok(()),
        Err(error) => Err(error_of_row(error)),
    }
}

/// Takes a run out of a store whose small tables are in `lists`: its rows go from all tables, and no group has it as a
/// member or as its baseline. The names stay.
///
/// # Errors
/// `Store` where there is no such run, or what `PageFile` says of the pages. The caller then undoes the transaction.
pub fn drop_run<D: Disk>(
    file: &mut PageFile<D>,
    alloc: Global,
    lists: &RunLists,
    run: u32,
) -> Result<(), StoreError>
    ensures done { Drops file.old file.new lists.now run result }
    ensures leaves { LeavesUsable file.old file.new result }
{
    if !lists.has_run(run) {
        return Err(StoreError::Store);
    }
    let roots = find_roots(file, alloc)?;
    drop_events(file, alloc, &roots, run)?;
    drop_costs(file, alloc, &roots, run)?;
    drop_members(file, alloc, &roots, run)?;
    clear_baselines(file, alloc, &roots, run)?;
    drop_its_row(file, alloc, &roots, run)
}
