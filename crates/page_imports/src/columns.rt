// The columns of rows, without their rowids.
ghost use Rattle.std.specs.Prelude.{◌≡◌, drop, IfOk};
ghost use Rattle.prof_store.specs.Lines.{run_row};
ghost use Rattle.prof_store.specs.Tables as tables;

use prof_store::RunRow;
use sqlite_value::row::Row;
use sqlite_value::value::ValueRef;
use std::alloc::{AllocError, Global};

/// The row that has the next number.
pub(crate) fn meta_columns(alloc: Global, next: u32) -> Result<Row, AllocError>
    ensures { IfOk result (λ row. row ≡ drop 1 (tables.meta_columns next)) }
{
    let mut row = Row::new(alloc);
    row.push(ValueRef::Null)?;
    row.push(ValueRef::Int(2))?;
    row.push(ValueRef::Int(i64::from(next)))?;
    Ok(row)
}

/// The row of a run.
pub(crate) fn run_columns(alloc: Global, run: &RunRow<'_>) -> Result<Row, AllocError>
    ensures { IfOk result (λ row. row ≡ drop 1 (tables.run_columns (run_row run.now))) }
{
    let mut row = Row::new(alloc);
    row.push(ValueRef::Null)?;
    row.push(ValueRef::Int(i64::from(run.kind)))?;
    row.push(ValueRef::Blob(run.digest))?;
    row.push(ValueRef::Text(run.label.as_bytes()))?;
    row.push(ValueRef::Int(run.call_count.as_i64()))?;
    Ok(row)
}
