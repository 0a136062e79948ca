// Rows whose first column is a number are erased, by the indexes that begin with that column.
ghost use Rattle.std.specs.Prelude.{◌≡◌, ◌∷◌, [], OnOk, ⊤};
ghost use Rattle.sqlite_pool.specs.Pool as pools;
ghost use Rattle.sqlite_pool.specs.Stored.{Keeps};
ghost use Rattle.sqlite_record.specs.Record.{decode};
ghost use Rattle.sqlite_rules.specs.Edit.{id_in};
ghost use Rattle.sqlite_value.specs.Value.{owned};
ghost use Rattle.page_files.specs.Files.{IsUsable, OnlyReads, LeavesUsable};
ghost use Rattle.page_places.specs.Changes.{EditsRows};
ghost use Rattle.page_places.specs.Entries.{EditsEntries};
ghost use Rattle.row_writes.specs.Tests.{rows_left};
ghost use Rattle.row_writes.specs.Under.{AreLed, entry_id, FindsUnder, is_under, out_under};

use page_files::PageFile;
use page_places::{IndexPlace, Place, RowError};
use page_rows::{EntrySink, WalkError};
use sqlite_disk::Disk;
use sqlite_pages::Error;
use sqlite_record::compare;
use sqlite_record::fields::Fields;
use sqlite_value::keys::Order;
use sqlite_value::row::Row;
use sqlite_value::value::ValueRef;
use std::alloc::{AllocError, Global};

/// The number of an integer, or 0.
fn integer_or_zero(value: ValueRef<'_>) -> i64
    ensures { result ≡ id_in (owned value.entry) }
{
    match value {
        ValueRef::Int(number) => number,
        _ => 0,
    }
}

/// The rowid that an entry ends with.
fn last_number(payload: &[u8]) -> i64
    ensures { result ≡ entry_id (decode payload.now) }
{
    let mut fields = Fields::new(payload);
    let mut last = 0;
    while let Some(value) = fields.next() {
        last = integer_or_zero(value);
    }
    last
}

/// Takes the rowids of entries that begin with a row, up to the first that does not.
#[derive(Drop)]
struct Under<'p> {
    prefix: &'p Row,
    rowids: Vec<i64>,
}

impl EntrySink for Under<'_> {
    ghost use Rattle.std.specs.Prelude.{◌≡◌, ◌++◌, List, ⊤};
    ghost use Rattle.sqlite_value.specs.Order.{Row as Entry};
    ghost use Rattle.row_writes.specs.Under.{ids_under};

    type Refusal = AllocError;

    ghost Start = { Entry };

    ghost Has = { λ start entries s. (s.prefix.now ≡ start)
        × ((rest : List Entry) → ids_under start (entries ++ rest) ≡ s.rowids.items ++ ids_under start rest) };

    ghost Ends = { λ start entries s. (rest : List Entry) → ids_under start (entries ++ rest) ≡ s.rowids.items };

    ghost Refuses = { λ _ _. ⊤ };

    fn take(&mut self, payload: &[u8]) -> Result<bool, AllocError> {
        if !compare::with_key(Order::PLAIN, payload, self.prefix).is_eq() {
            return Ok(false);
        }
        self.rowids.push(last_number(payload))?;
        Ok(true)
    }
}

/// The rowids of the entries that begin with a row, in the order of the index.
fn walk_under<D: Disk>(
    file: &mut PageFile<D>,
    alloc: Global,
    root: u32,
    prefix: &Row,
) -> Result<Vec<i64>, RowError>
    ensures done { FindsUnder file.old file.new root prefix.now result }
    ensures reads { OnlyReads file.old file.new }
    ensures usable { OnOk result (IsUsable file.new) }
{
    let mut under = Under {
        prefix,
        rowids: Vec::new(alloc),
    };
    match file.walk_entries(alloc, root, Order::PLAIN, prefix, &mut under) {
        Ok(()) => Ok(under.rowids),
        Err(WalkError::Pages(error)) => Err(RowError::Pages(error)),
        Err(WalkError::Refused(AllocError)) => Err(RowError::Pages(Error::OutOfMemory)),
    }
}

/// The same rowids, so that they rise.
fn rowids_under<D: Disk>(
    file: &mut PageFile<D>,
    alloc: Global,
    root: u32,
    prefix: &Row,
) -> Result<Vec<i64>, RowError>
    ensures done { FindsUnder file.old file.new root prefix.now result }
    ensures reads { OnlyReads file.old file.new }
    ensures usable { OnOk result (IsUsable file.new) }
{
    let mut rowids = walk_under(file, alloc, root, prefix)?;
    rowids.as_mut_slice().sort_unstable();
    Ok(rowids)
}

/// Removes the entries that begin with a row from each index.
fn remove_all_under<D: Disk>(
    file: &mut PageFile<D>,
    alloc: Global,
    indexes: &[IndexPlace<'_>],
    prefix: &Row,
) -> Result<(), RowError>
    ensures done { EditsEntries file.old file.new indexes.now (out_under prefix.now) [] (λ _. ⊤) result }
    ensures usable { IsUsable file.old → OnOk result (IsUsable file.new) }
    ensures keeps { Keeps (pools.state file.old.pool) (pools.state file.new.pool) }
{
    for index in indexes {
        file.remove_under(alloc, index.root, Order::PLAIN, prefix)?;
    }
    Ok(())
}

/// Erases each row whose first column is a number, with its entries. There has to be an index, and each has to begin
/// with that column. It reads the entries that begin with the number, writes a leaf of the table or an index at a
/// time, and reads and writes nothing of other rows.
///
/// # Errors
/// `Pages`, as `PageFile::put`.
pub fn erase_under<D: Disk>(
    file: &mut PageFile<D>,
    alloc: Global,
    place: &Place<'_>,
    number: i64,
) -> Result<(), RowError>
    ensures done { EditsRows file.old file.new place.now AreLed (rows_left (is_under number)) (λ _ _. ⊤) result }
    ensures leaves { LeavesUsable file.old file.new result }
{
    if place.indexes.is_empty() {
        file.if_usable()?;
        return Ok(());
    }
    let mut prefix = Row::new(alloc);
    prefix.push(ValueRef::Int(number))?;
    let rowids = rowids_under(file, alloc, place.indexes[0].root, &prefix)?;
    file.delete_all(alloc, place.root, rowids.as_slice())?;
    remove_all_under(file, alloc, place.indexes, &prefix)
}
