// The records of rows and entries.
ghost use Rattle.std.specs.Prelude.{◌≡◌, ◌<◌, ◌^◌, ◌∷◌, length, drop, IfOk, IfErr, OnOk};
ghost use Rattle.sqlite_value.specs.declared.value.Value.TheVariants.{Int};
ghost use Rattle.sqlite_record.specs.Record.{decode};
ghost use Rattle.sqlite_record.specs.Strict.{IsRecord};
ghost use Rattle.sqlite_sql.specs.Catalog.{entry_of};
ghost use Rattle.sqlite_trees.specs.View.{IsStorable};
ghost use Rattle.page_places.specs.Causes.{IsRefused};

use page_places::RowError;
use sqlite_pages::Error;
use sqlite_record::encode::encode;
use sqlite_trees::error::StoreError;
use sqlite_value::row::Row;
use sqlite_value::value::ValueRef;
use std::alloc::{AllocError, Global};

/// The most values of a row, with its rowid, that a record takes.
const MAX_VALUES: usize = 2001;

/// The row with this rowid and these columns.
pub(crate) fn with_rowid(alloc: Global, rowid: i64, columns: &Row) -> Result<Row, AllocError>
    ensures { IfOk result (λ row. row ≡ Int rowid ∷ columns.now) }
{
    let mut row = Row::new(alloc);
    row.push(ValueRef::Int(rowid))?;
    for at in 0..columns.len() {
        row.push(columns.get(at))?;
    }
    Ok(row)
}

/// Makes the entry of a row in an index of these columns.
pub(crate) fn make_entry(entry: &mut Row, columns: &[usize], row: &Row) -> Result<(), AllocError>
    ensures { OnOk result (entry.new ≡ entry_of columns.now row.now) }
{
    entry.clear();
    for at in columns {
        entry.push(row.get(*at))?;
    }
    entry.push(row.get(0))
}

fn refusal(error: StoreError) -> RowError
    ensures memory { error ≡ StoreError.OutOfMemory → result ≡ RowError.Pages Error.OutOfMemory }
    ensures row { error ≡ StoreError.Unstorable → result ≡ RowError.Unstorable }
{
    match error {
        StoreError::OutOfMemory => RowError::Pages(Error::OutOfMemory),
        _ => RowError::Unstorable,
    }
}

/// Writes over `out` the record of the values from `skip` on. `types` is scratch space.
pub(crate) fn write_record(
    row: &Row,
    skip: usize,
    types: &mut Vec<u8>,
    out: &mut Vec<u8>,
) -> Result<(), RowError>
    ensures short { OnOk result (length out.new.items < 2 ^ 31) }
    ensures strict { OnOk result (IsRecord out.new.items) }
    ensures encoded { OnOk result (decode out.new.items ≡ drop skip row.now) }
    ensures cause { IfErr result (IsRefused (IsStorable 0 row.now × (skip < length row.now))) }
{
    if row.len() <= skip || row.len() > MAX_VALUES {
        return Err(RowError::Unstorable);
    }
    match encode(row, skip, types, out) {
        Ok(()) => Ok(()),
        Err(error) => Err(refusal(error)),
    }
}
