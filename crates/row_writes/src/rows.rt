// One row at a time.
ghost use Rattle.std.specs.Prelude.{◌∷◌, ◌++◌, [], ⊤};
ghost use Rattle.sqlite_trees.specs.Tree.{put_row, without_rowid};
ghost use Rattle.sqlite_trees.specs.View.{IsStorableRow};
ghost use Rattle.sqlite_value.specs.declared.value.Value.TheVariants.{Int};
ghost use Rattle.page_files.specs.Files.{LeavesUsable};
ghost use Rattle.page_places.specs.Changes.{Anything, AreBelow, AreStorable, EditsRows, KeepsEntries};

use crate::entries::{insert_entries, remove_entries};
use crate::records::{with_rowid, write_record};
use page_files::PageFile;
use page_places::{Place, RowError};
use page_rows::read_row;
use sqlite_disk::Disk;
use sqlite_value::row::Row;
use std::alloc::Global;

/// Puts a row behind the others of a table, with an entry in each of its indexes. No other row may have its rowid
/// or one above it.
///
/// # Errors
/// `Pages`, as `PageFile::put`; `Unstorable`.
pub fn insert<D: Disk>(
    file: &mut PageFile<D>,
    alloc: Global,
    place: &Place<'_>,
    rowid: i64,
    columns: &Row,
) -> Result<(), RowError>
    ensures done { EditsRows file.old file.new place.now (λ rows _. AreBelow (Int rowid) rows) (λ rows. rows ++ (Int rowid ∷ columns.now) ∷ [])
        (λ _ indexes. IsStorableRow 0 (Int rowid ∷ columns.now) × AreStorable (Int rowid ∷ columns.now) indexes) result }
    ensures leaves { LeavesUsable file.old file.new result }
{
    let row = with_rowid(alloc, rowid, columns)?;
    let (mut types, mut fields) = (Vec::new(alloc), Vec::new(alloc));
    write_record(&row, 1, &mut types, &mut fields)?;
    file.put(place.root, rowid, fields.as_slice())?;
    insert_entries(file, alloc, place.indexes, &row)
}

/// Takes the row with a rowid, if there is one, out of a table, and its entries out of the indexes.
///
/// # Errors
/// `Pages`, as `PageFile::put`.
pub fn erase<D: Disk>(
    file: &mut PageFile<D>,
    alloc: Global,
    place: &Place<'_>,
    rowid: i64,
) -> Result<(), RowError>
    ensures done { EditsRows file.old file.new place.now Anything (without_rowid rowid) (λ _ _. ⊤) result }
    ensures leaves { LeavesUsable file.old file.new result }
{
    let mut payload = Vec::new(alloc);
    if !file.find_row(alloc, place.root, rowid, &mut payload)? {
        return Ok(());
    }
    let mut row = Row::new(alloc);
    read_row(rowid, payload.as_slice(), &mut row)?;
    file.delete(place.root, rowid)?;
    remove_entries(file, alloc, place.indexes, &row)
}

/// Puts other columns into the row with a rowid. The table has to have the row, and each column of an index has
/// to keep its value.
///
/// # Errors
/// `Pages`, as `PageFile::put`; `Unstorable`.
pub fn replace<D: Disk>(
    file: &mut PageFile<D>,
    alloc: Global,
    place: &Place<'_>,
    rowid: i64,
    columns: &Row,
) -> Result<(), RowError>
    ensures done { EditsRows file.old file.new place.now (KeepsEntries rowid columns.now) (put_row (Int rowid ∷ columns.now))
        (λ _ _. IsStorableRow 0 (Int rowid ∷ columns.now)) result }
    ensures leaves { LeavesUsable file.old file.new result }
{
    let row = with_rowid(alloc, rowid, columns)?;
    let (mut types, mut fields) = (Vec::new(alloc), Vec::new(alloc));
    write_record(&row, 1, &mut types, &mut fields)?;
    file.put(place.root, rowid, fields.as_slice())?;
    Ok(())
}
