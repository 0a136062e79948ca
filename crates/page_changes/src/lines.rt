// The rows of a run in one table.
ghost use Rattle.std.specs.Prelude.{⊤};
ghost use Rattle.page_files.specs.Files.{LeavesUsable};
ghost use Rattle.page_changes.specs.Changes.{MakesWithin};
ghost use Rattle.page_changes.specs.Removed.{Anything, ErasesRun, without_costs, without_events};

use page_files::PageFile;
use page_places::{Place, StoreRoots, error_of_row};
use plain_tables::StoreError;
use row_writes::erase_under;
use sqlite_disk::Disk;
use std::alloc::Global;

/// Erases the rows of a run in a table whose indexes begin with the run.
fn erase_run<D: Disk>(
    file: &mut PageFile<D>,
    alloc: Global,
    place: &Place<'_>,
    run: u32,
) -> Result<(), StoreError>
    ensures done { ErasesRun file.old file.new place.now run result }
    ensures leaves { LeavesUsable file.old file.new result }
{
    match erase_under(file, alloc, place, i64::from(run)) {
        Ok(()) => Ok(()),
        Err(error) => Err(error_of_row(error)),
    }
}

/// Erases what a run says of its events.
pub(crate) fn drop_events<D: Disk>(
    file: &mut PageFile<D>,
    alloc: Global,
    roots: &StoreRoots,
    run: u32,
) -> Result<(), StoreError>
    ensures done { MakesWithin file.old file.new roots.now Anything (without_events run) (λ _ _. ⊤) result }
    ensures leaves { LeavesUsable file.old file.new result }
{
    erase_run(file, alloc, &roots.event_table().place(), run)?;
    erase_run(file, alloc, &roots.derived_table().place(), run)?;
    erase_run(file, alloc, &roots.coef_table().place(), run)
}

/// Erases the costs of a run.
pub(crate) fn drop_costs<D: Disk>(
    file: &mut PageFile<D>,
    alloc: Global,
    roots: &StoreRoots,
    run: u32,
) -> Result<(), StoreError>
    ensures done { MakesWithin file.old file.new roots.now Anything (without_costs run) (λ _ _. ⊤) result }
    ensures leaves { LeavesUsable file.old file.new result }
{
    erase_run(file, alloc, &roots.cell_table().place(), run)?;
    erase_run(file, alloc, &roots.call_table().place(), run)?;
    erase_run(file, alloc, &roots.stack_table().place(), run)
}
