// The small tables of a store, read into lists.
ghost use Rattle.std.specs.Prelude.{◌≡◌, ◌∷◌, [], ℕ, List, IfErr, IfOk, OnOk};
ghost use Rattle.sqlite_value.specs.Order.{Row};
ghost use Rattle.sqlite_trees.specs.Tree.{Trees};
ghost use Rattle.page_files.specs.Files.{IsFaithful, IsUsable, OnlyReads};
ghost use Rattle.plain_tables.specs.Tables.{Tables};
ghost use Rattle.run_lists.specs.HeldRuns.{NameHeldRuns};
ghost use Rattle.run_lists.specs.Listed.{AreListed};
ghost use Rattle.prof_store.specs.Readings.{RowsSay};
ghost use Rattle.prof_store.specs.Tables.{meta_columns};
ghost use Rattle.page_lists.specs.Meta.{IsMeta};
ghost use Rattle.page_lists.specs.Shown.{StandUnder, ShowsRows};

use crate::listing::all_rows;
use crate::small::Meta;
use page_files::PageFile;
use page_places::StoreRoots;
use plain_tables::StoreError;
use run_lists::{RunLines, RunLists};
use sqlite_disk::Disk;
use std::alloc::Global;

/// The number that the next run gets, in the only line of `meta`. `Store` unless it has one line, of schema 2.
fn next_in(lines: &[Meta]) -> Result<u32, StoreError>
    ensures next { IfOk result (IsMeta lines.now) }
    ensures refused { IfErr result (λ e. (e ≡ StoreError.Store) × ((next : ℕ) → ¬ (IsMeta lines.now next))) }
{
    match lines {
        [line] if line.schema == 2 => Ok(line.next),
        _ => Err(StoreError::Store),
    }
}

/// The number that the next run gets. `Store` unless `meta` has one row, of schema 2.
fn next_run<D: Disk>(file: &mut PageFile<D>, alloc: Global, root: u32) -> Result<u32, StoreError>
    ensures next { IsFaithful file.new → (rows : List Row) → ShowsRows file.old root rows → IfOk result (λ next. rows ≡ meta_columns next ∷ []) }
    ensures reads { OnlyReads file.old file.new }
{
    let lines: Vec<Meta> = all_rows(file, alloc, root)?;
    next_in(lines.as_slice())
}

/// Reads the small tables. `Store` where pages cannot be read, or rows are out of form.
fn read_tables<D: Disk>(
    file: &mut PageFile<D>,
    alloc: Global,
    roots: &StoreRoots,
) -> Result<RunLists, StoreError>
    ensures listed { IsFaithful file.new → (t : Tables) (db : Trees) → RowsSay t db → StandUnder file.old db roots.now → IfOk result (AreListed t) }
    ensures usable { OnOk result (IsUsable file.new) }
    ensures reads { OnlyReads file.old file.new }
{
    let next = next_run(file, alloc, roots.meta)?;
    let runs = all_rows(file, alloc, roots.runs)?;
    let events = all_rows(file, alloc, roots.events)?;
    let derived = all_rows(file, alloc, roots.derived)?;
    let coefs = all_rows(file, alloc, roots.coefs)?;
    let groups = all_rows(file, alloc, roots.groups)?;
    let members = all_rows(file, alloc, roots.members)?;
    Ok(RunLists {
        next,
        runs,
        events: RunLines::new(events),
        derived: RunLines::new(derived),
        coefs: RunLines::new(coefs),
        groups,
        members,
    })
}

/// The same, and looks whether they agree: runs rise, and each line of a run, each member and each baseline names a run
/// that is listed. `Store` where they do not.
pub fn read_lists<D: Disk>(
    file: &mut PageFile<D>,
    alloc: Global,
    roots: &StoreRoots,
) -> Result<RunLists, StoreError>
    ensures listed { IsFaithful file.new → (t : Tables) (db : Trees) → RowsSay t db → StandUnder file.old db roots.now → IfOk result (AreListed t) }
    ensures held { IfOk result (λ lists. (t : Tables) → AreListed t lists → NameHeldRuns t) }
    ensures usable { OnOk result (IsUsable file.new) }
    ensures reads { OnlyReads file.old file.new }
{
    let lists = read_tables(file, alloc, roots)?;
    lists.check_runs(alloc)?;
    Ok(lists)
}
