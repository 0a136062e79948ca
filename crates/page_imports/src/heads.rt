// What a run says of itself: the next number, its own row, and the lines of its head.
ghost use Rattle.std.specs.Prelude.{[], ◌∷◌, map};
ghost use Rattle.page_files.specs.Files.{LeavesUsable};
ghost use Rattle.plain_tables.specs.Changes.{with_coefs, with_derived, with_events, with_next, with_run};
ghost use Rattle.prof_store.specs.Lines.{coef_row, derived_row, event_row, run_row};
ghost use Rattle.prof_store.specs.Schema.{meta_at, run_at, run_event_at, derived_at, coef_at};
ghost use Rattle.prof_store.specs.Steps.{IsAbove};
ghost use Rattle.prof_store.specs.Tables as tables;
ghost use Rattle.page_imports.specs.Runs.{with_head_of};
ghost use Rattle.page_imports.specs.Causes.{CanBeWritten, CanPutHeadOf};
ghost use Rattle.page_imports.specs.Needs.{CanAdd, CanBegin};
ghost use Rattle.page_imports.specs.Steps.{Makes, PutsLines, head_tables};

use crate::columns::{meta_columns, run_columns};
use line_fills::fill;
use page_files::PageFile;
use page_places::{Place, StoreRoots, error_of_row};
use plain_tables::StoreError;
use prof_store::{CoefRow, DerivedRow, EventRow, HeadRows, RunRow};
use row_writes::{insert, replace};
use sqlite_disk::Disk;
use std::alloc::Global;

/// Sets the number of the next run.
fn put_next<D: Disk>(
    file: &mut PageFile<D>,
    alloc: Global,
    roots: &StoreRoots,
    next: u32,
) -> Result<(), StoreError>
    ensures done { Makes file.old file.new roots.now (meta_at ∷ []) (IsAbove next) (with_next next)
        (λ _ _. CanBeWritten meta_at (tables.meta_columns next)) result }
    ensures leaves { LeavesUsable file.old file.new result }
{
    let columns = meta_columns(alloc, next)?;
    let place = Place {
        root: roots.meta,
        indexes: &[],
    };
    match replace(file, alloc, &place, 1, &columns) {
        Ok(()) => Ok(()),
        Err(error) => Err(error_of_row(error)),
    }
}

/// Puts the row of a run behind the others.
fn put_run_row<D: Disk>(
    file: &mut PageFile<D>,
    alloc: Global,
    roots: &StoreRoots,
    run: &RunRow<'_>,
) -> Result<(), StoreError>
    ensures done { Makes file.old file.new roots.now (run_at ∷ []) (CanAdd run.now.number run.now.digest.now) (with_run (run_row run.now))
        (λ _ _. CanBeWritten run_at (tables.run_columns (run_row run.now))) result }
    ensures leaves { LeavesUsable file.old file.new result }
{
    let columns = run_columns(alloc, run)?;
    match insert(
        file,
        alloc,
        &roots.run_table().place(),
        i64::from(run.number),
        &columns,
    ) {
        Ok(()) => Ok(()),
        Err(error) => Err(error_of_row(error)),
    }
}

/// Puts the lines of a run's events behind the others.
fn put_events<D: Disk>(
    file: &mut PageFile<D>,
    alloc: Global,
    roots: &StoreRoots,
    lines: &[EventRow<'_>],
) -> Result<(), StoreError>
    ensures done { PutsLines file.old file.new roots.now run_event_at (λ t. t.events) (λ line. line.run) tables.event_columns
        with_events (map event_row lines.now) result }
    ensures leaves { LeavesUsable file.old file.new result }
{
    fill(file, alloc, &roots.event_table().place(), lines)
}

/// Puts the lines of a run's derived events behind the others.
fn put_derived<D: Disk>(
    file: &mut PageFile<D>,
    alloc: Global,
    roots: &StoreRoots,
    lines: &[DerivedRow<'_>],
) -> Result<(), StoreError>
    ensures done { PutsLines file.old file.new roots.now derived_at (λ t. t.derived) (λ line. line.run) tables.derived_columns
        with_derived (map derived_row lines.now) result }
    ensures leaves { LeavesUsable file.old file.new result }
{
    fill(file, alloc, &roots.derived_table().place(), lines)
}

/// Puts the lines of a run's coefficients behind the others.
fn put_coefs<D: Disk>(
    file: &mut PageFile<D>,
    alloc: Global,
    roots: &StoreRoots,
    lines: &[CoefRow],
) -> Result<(), StoreError>
    ensures done { PutsLines file.old file.new roots.now coef_at (λ t. t.coefs) (λ line. line.run) tables.coef_columns
        with_coefs (map coef_row lines.now) result }
    ensures leaves { LeavesUsable file.old file.new result }
{
    fill(file, alloc, &roots.coef_table().place(), lines)
}

/// Puts what a new run says of itself behind the others, and raises the next number above its own.
pub(crate) fn put_head<D: Disk>(
    file: &mut PageFile<D>,
    alloc: Global,
    roots: &StoreRoots,
    run: &RunRow<'_>,
    head: &HeadRows<'_>,
) -> Result<(), StoreError>
    ensures done { Makes file.old file.new roots.now head_tables (CanBegin run.now head.now)
        (with_head_of run.now head.now) (λ _. CanPutHeadOf run.now head.now) result }
    ensures leaves { LeavesUsable file.old file.new result }
{
    let Some(next) = run.number.checked_add(1) else {
        return Err(StoreError::Store);
    };
    put_next(file, alloc, roots, next)?;
    put_run_row(file, alloc, roots, run)?;
    put_events(file, alloc, roots, &head.events)?;
    put_derived(file, alloc, roots, &head.derived)?;
    put_coefs(file, alloc, roots, &head.coefs)
}
