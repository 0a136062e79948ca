// A record read as a row.
ghost use Rattle.std.specs.Prelude.{◌≡◌, OnOk};
ghost use Rattle.sqlite_store.specs.Db.{table_row};

use sqlite_record::fields::decode_into;
use sqlite_value::row::Row;
use sqlite_value::value::ValueRef;
use std::alloc::AllocError;

/// Reads a row that `RowSink::take` is given, all columns at once, in the place of what `row` had.
/// Where few columns are wanted, `sqlite_record::fields::Fields` reads them with no copy.
pub fn read_row(rowid: i64, payload: &[u8], row: &mut Row) -> Result<(), AllocError>
    ensures { OnOk result (row.new ≡ table_row (rowid, payload.now)) }
{
    row.clear();
    row.push(ValueRef::Int(rowid))?;
    decode_into(payload, 0, row)
}
