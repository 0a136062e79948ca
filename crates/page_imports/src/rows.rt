// The rows of a file.
ghost use Rattle.std.specs.Prelude.{[], ◌∷◌};
ghost use Rattle.cost_rows.specs.Rows.{content_of};
ghost use Rattle.page_files.specs.Files.{LeavesUsable};
ghost use Rattle.plain_tables.specs.Changes.{with_calls, with_cells, with_stacks};
ghost use Rattle.run_stores.specs.Files.{call_rows, cell_rows, stack_rows, with_rows};
ghost use Rattle.prof_store.specs.Schema.{arc_at, stack_at, thread_cell_at};
ghost use Rattle.page_imports.specs.Causes.{CanPutCalls, CanPutCells, CanPutRows, CanPutStacks};
ghost use Rattle.page_imports.specs.Needs.{HasNoCall, HasNoCell, HasNoRow, HasNoStack};
ghost use Rattle.page_imports.specs.Steps.{Makes, row_tables};

use crate::call_lines::call_lines;
use crate::cell_lines::cell_lines;
use crate::names::number_names;
use crate::row_lists::stack_lines;
use crate::run_names::RunNames;
use cost_rows::FileRows;
use line_fills::fill;
use page_files::PageFile;
use page_places::StoreRoots;
use plain_tables::StoreError;
use sqlite_disk::Disk;
use std::alloc::Global;

/// Puts the cells of a file behind the others, under the tables' numbers of its names.
fn put_cells<D: Disk>(
    file: &mut PageFile<D>,
    alloc: Global,
    roots: &StoreRoots,
    run: u32,
    numbers: &[u32],
    rows: &FileRows,
) -> Result<(), StoreError>
    ensures done { Makes file.old file.new roots.now (thread_cell_at ∷ []) (HasNoCell run)
        (with_cells (cell_rows run numbers.now (content_of rows.now).cells)) (λ _. CanPutCells run numbers.now (content_of rows.now).cells) result }
    ensures leaves { LeavesUsable file.old file.new result }
{
    let names = RunNames { run, numbers };
    let lines = cell_lines(alloc, &names, rows)?;
    fill(file, alloc, &roots.cell_table().place(), &lines)
}

/// Puts the calls of a file behind the others, as `put_cells`.
fn put_calls<D: Disk>(
    file: &mut PageFile<D>,
    alloc: Global,
    roots: &StoreRoots,
    run: u32,
    numbers: &[u32],
    rows: &FileRows,
) -> Result<(), StoreError>
    ensures done { Makes file.old file.new roots.now (arc_at ∷ []) (HasNoCall run)
        (with_calls (call_rows run numbers.now (content_of rows.now).calls)) (λ _. CanPutCalls run numbers.now (content_of rows.now).calls) result }
    ensures leaves { LeavesUsable file.old file.new result }
{
    let names = RunNames { run, numbers };
    let lines = call_lines(alloc, &names, rows)?;
    fill(file, alloc, &roots.call_table().place(), &lines)
}

/// Puts the stacks of a file behind the others.
fn put_stacks<D: Disk>(
    file: &mut PageFile<D>,
    alloc: Global,
    roots: &StoreRoots,
    run: u32,
    rows: &FileRows,
) -> Result<(), StoreError>
    ensures done { Makes file.old file.new roots.now (stack_at ∷ []) (HasNoStack run)
        (with_stacks (stack_rows run (content_of rows.now).stacks)) (λ _. CanPutStacks run (content_of rows.now).stacks) result }
    ensures leaves { LeavesUsable file.old file.new result }
{
    let lines = stack_lines(alloc, run, rows)?;
    fill(file, alloc, &roots.stack_table().place(), &lines)
}

/// Puts the names of a file, where they are not held, and its rows behind the others. It holds the lines of one table
/// at a time.
pub(crate) fn put_rows<D: Disk>(
    file: &mut PageFile<D>,
    alloc: Global,
    roots: &StoreRoots,
    run: u32,
    rows: &FileRows,
) -> Result<(), StoreError>
    ensures done { Makes file.old file.new roots.now row_tables (HasNoRow run)
        (with_rows run (content_of rows.now)) (CanPutRows run (content_of rows.now)) result }
    ensures leaves { LeavesUsable file.old file.new result }
{
    let numbers = number_names(file, alloc, roots, rows.names())?;
    put_cells(file, alloc, roots, run, &numbers, rows)?;
    put_calls(file, alloc, roots, run, &numbers, rows)?;
    put_stacks(file, alloc, roots, run, rows)
}
