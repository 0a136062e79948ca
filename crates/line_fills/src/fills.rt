// Lines behind a table, and in its indexes (specs/Filled.antt).
ghost use Rattle.std.specs.Prelude.{◌≡◌, ◌+◌, ◌<◌, ◌^◌, pos, map, length, None, IfErr, IfOk, IfSome, OnOk};
ghost use Rattle.sqlite_pool.specs.Pool as pools;
ghost use Rattle.sqlite_pool.specs.Stored.{Keeps};
ghost use Rattle.sqlite_rules.specs.Edit.{next_rowid};
ghost use Rattle.sqlite_value.specs.declared.value.Value.TheVariants.{Int};
ghost use Rattle.page_files.specs.Files.{IsUsable, OnlyReads, LeavesUsable};
ghost use Rattle.page_places.specs.Changes.{AreBelow, AtRows};
ghost use Rattle.page_places.specs.Failures.{FailsToStore};
ghost use Rattle.line_fills.specs.Causes.{HasRoom, HasRoomFrom};
ghost use Rattle.line_fills.specs.Filled.{FillsTable};
ghost use Rattle.line_fills.specs.Placed.{FillsIndexes};
ghost use Rattle.line_fills.specs.Rows.{HaveRowids, first_from, numbered};

use crate::appends::{append_rows, fill_index};
use crate::lines::PageLine;
use page_files::PageFile;
use page_places::{IndexPlace, Place, error_of_row, free_rowid};
use plain_tables::StoreError;
use sqlite_disk::Disk;
use std::alloc::Global;

/// The first rowid of new rows, from one above those of a table, or `None` where too few are left for so many rows.
fn first_of(free: i64, count: usize) -> Option<u64>
    ensures room { IfSome result (λ first. first + count < 2 ^ 63) }
    ensures first { IfSome result (λ first. first ≡ first_from free) }
    ensures none { result ≡ None → ¬ (HasRoomFrom free count) }
{
    let first = u64::try_from(free.max(1)).ok()?;
    let end = first.checked_add(u64::try_from(count).ok()?)?;
    if end < 1 << 63 { Some(first) } else { None }
}

/// The first rowid of lines behind those of a table, with room for them.
fn first_rowid<D: Disk, L>(
    file: &mut PageFile<D>,
    alloc: Global,
    place: &Place<'_>,
    lines: &[L],
) -> Result<u64, StoreError>
    ensures first { IfOk result (λ first. AtRows file.old file.new place.now (λ rows. first ≡ first_from (next_rowid rows))) }
    ensures above { IfOk result (λ first. AtRows file.old file.new place.now (AreBelow (Int (pos first)))) }
    ensures room { IfOk result (λ first. HaveRowids first lines.now) }
    ensures failed { AtRows file.old file.new place.now (λ rows. IfErr result (FailsToStore file.old file.new (HasRoom rows (length lines.now)))) }
    ensures reads { OnlyReads file.old file.new }
    ensures usable { OnOk result (IsUsable file.new) }
{
    match free_rowid(file, alloc, place) {
        Ok(free) => match first_of(free, lines.len()) {
            Some(first) => Ok(first),
            None => Err(StoreError::Store),
        },
        Err(error) => Err(error_of_row(error)),
    }
}

/// Inserts the entries of lines, which are numbered from `first` on, into each index.
fn fill_indexes<D: Disk, L: PageLine>(
    file: &mut PageFile<D>,
    alloc: Global,
    indexes: &[IndexPlace<'_>],
    first: u64,
    lines: &[L],
) -> Result<(), StoreError>
    requires room { HaveRowids first lines.now }
    ensures done { FillsIndexes file.old file.new indexes.now (numbered first (map L.columns lines.now)) result }
    ensures usable { IsUsable file.old → OnOk result (IsUsable file.new) }
    ensures keeps { Keeps (pools.state file.old.pool) (pools.state file.new.pool) }
{
    for number in 0..indexes.len() {
        fill_index(file, alloc, number, &indexes[number], first, lines)?;
    }
    Ok(())
}

/// Puts a row for each line behind those of a table, numbered from the next rowid on, with an entry in each of its
/// indexes. After an error some of it may be written.
///
/// # Errors
/// `Memory`; `Store` where the file failed or is at a limit, a record is too long, two lines have the same key in an
/// index, or the rowids run out.
pub fn fill<D: Disk, L: PageLine>(
    file: &mut PageFile<D>,
    alloc: Global,
    place: &Place<'_>,
    lines: &[L],
) -> Result<(), StoreError>
    ensures done { FillsTable file.old file.new place.now (map L.columns lines.now) result }
    ensures leaves { LeavesUsable file.old file.new result }
{
    let first = first_rowid(file, alloc, place, lines)?;
    append_rows(file, alloc, place.root, first, lines)?;
    fill_indexes(file, alloc, place.indexes, first, lines)
}
