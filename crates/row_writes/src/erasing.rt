// Rows that a test takes are erased.
ghost use Rattle.std.specs.Prelude.{◌≡◌, filter, OnOk, MatchResult, ⊤};
ghost use Rattle.sqlite_pool.specs.Pool as pools;
ghost use Rattle.sqlite_pool.specs.Stored.{Keeps};
ghost use Rattle.sqlite_rules.specs.Edit.{without_all};
ghost use Rattle.page_files.specs.Files.{IsUsable, OnlyReads, LeavesUsable};
ghost use Rattle.page_places.specs.Causes.{FailsToChange};
ghost use Rattle.page_places.specs.Changes.{Anything, AtRows, EditsRows};
ghost use Rattle.row_writes.specs.Tests.{rowids_of, rows_left};

use crate::rows::erase;
use page_files::PageFile;
use page_places::{Place, RowError};
use page_rows::{RowSink, WalkError};
use sqlite_disk::Disk;
use sqlite_pages::Error;
use std::alloc::{AllocError, Global};

/// A test of rows.
pub trait RowTest {
    ghost use Rattle.std.specs.Prelude.{◌≡◌, Bool};
    ghost use Rattle.sqlite_value.specs.Order.{Row};
    ghost use Rattle.sqlite_store.specs.Db.{table_row};

    /// Whether it takes a row.
    ghost takes: { Self → Row → Bool };

    /// Tests a row: its rowid, and the bytes of its record, which `sqlite_record::fields` reads in place.
    fn test(&self, rowid: i64, payload: &[u8]) -> bool
        ensures { result ≡ takes self.now (table_row (rowid, payload.now)) };
}

/// Takes the rowids of rows that a test takes.
#[derive(Drop)]
struct Picker<'t, T: RowTest> {
    test: &'t T,
    rowids: Vec<i64>,
}

impl<T: RowTest> RowSink for Picker<'_, T> {
    ghost use Rattle.std.specs.Prelude.{◌≡◌, filter, ⊤};
    ghost use Rattle.row_writes.specs.Tests.{rowids_of};

    type Refusal = AllocError;

    ghost Start = { T };

    ghost Has = { λ test rows s. (s.test.now ≡ test) × (s.rowids.items ≡ rowids_of (filter (T.takes test) rows)) };

    ghost Ends = { λ _ _ _. ⊥ };

    ghost Refuses = { λ _ _. ⊤ };

    fn take(&mut self, rowid: i64, payload: &[u8]) -> Result<bool, AllocError> {
        if self.test.test(rowid, payload) {
            self.rowids.push(rowid)?;
        }
        Ok(true)
    }
}

/// The rowids of the rows of a table that a test takes, in their order. It walks over the table.
///
/// # Errors
/// `Pages`, as `PageFile::walk`.
pub fn rowids_where<D: Disk, T: RowTest>(
    file: &mut PageFile<D>,
    alloc: Global,
    place: &Place<'_>,
    test: &T,
) -> Result<Vec<i64>, RowError>
    ensures done { AtRows file.old file.new place.now
        (λ rows. MatchResult result (λ rowids. rowids.items ≡ rowids_of (filter (T.takes test.now) rows)) (FailsToChange file.old file.new ⊤)) }
    ensures reads { OnlyReads file.old file.new }
    ensures usable { OnOk result (IsUsable file.new) }
{
    let mut picker = Picker {
        test,
        rowids: Vec::new(alloc),
    };
    match file.walk(alloc, place.root, i64::MIN, &mut picker) {
        Ok(()) => Ok(picker.rowids),
        Err(WalkError::Pages(error)) => Err(RowError::Pages(error)),
        Err(WalkError::Refused(AllocError)) => Err(RowError::Pages(Error::OutOfMemory)),
    }
}

fn erase_all<D: Disk>(
    file: &mut PageFile<D>,
    alloc: Global,
    place: &Place<'_>,
    rowids: &[i64],
) -> Result<(), RowError>
    ensures done { EditsRows file.old file.new place.now Anything (λ rows. without_all rows rowids.now) (λ _ _. ⊤) result }
    ensures usable { IsUsable file.old → OnOk result (IsUsable file.new) }
    ensures keeps { Keeps (pools.state file.old.pool) (pools.state file.new.pool) }
{
    for rowid in rowids {
        erase(file, alloc, place, *rowid)?;
    }
    Ok(())
}

/// Erases each row that a test takes, with its entries. It walks over the table, holds the rowids of
/// those rows, and then erases one after another.
///
/// # Errors
/// `Pages`, as `PageFile::put`.
pub fn erase_where<D: Disk, T: RowTest>(
    file: &mut PageFile<D>,
    alloc: Global,
    place: &Place<'_>,
    test: &T,
) -> Result<(), RowError>
    ensures done { EditsRows file.old file.new place.now Anything (rows_left (T.takes test.now)) (λ _ _. ⊤) result }
    ensures leaves { LeavesUsable file.old file.new result }
{
    let rowids = rowids_where(file, alloc, place, test)?;
    erase_all(file, alloc, place, rowids.as_slice())
}
