// The row of a line: the rowid, and then the line's columns.
ghost use Rattle.std.specs.Prelude.{◌≡◌, ◌<◌, ◌^◌, ◌∷◌, map, pos};
ghost use Rattle.sqlite_value.specs.declared.value.Value.TheVariants.{Int};
ghost use Rattle.sqlite_value.specs.Order.{column, row_cmp};
ghost use Rattle.sqlite_value.specs.Value.{owned};

use crate::lines::PageLine;
use sqlite_value::order::compare;
use sqlite_value::value::ValueRef;
use std::cmp::Ordering;

/// The value in a column of the row of a line.
#[inline(always)]
pub(crate) fn row_value<L: PageLine>(line: &L, rowid: u64, at: usize) -> ValueRef<'_>
    requires { rowid < 2 ^ 63 }
    ensures { owned result ≡ column (Int (pos rowid) ∷ L.columns line.now) at }
{
    if at == 0 {
        ValueRef::Int(rowid as i64)
    } else {
        line.value(at - 1)
    }
}

/// How two lines stand by these columns of their rows.
pub(crate) fn compare_keys<L: PageLine>(
    columns: &[usize],
    line: &L,
    rowid: u64,
    other: &L,
    other_rowid: u64,
) -> Ordering
    requires fits { rowid < 2 ^ 63 }
    requires other_fits { other_rowid < 2 ^ 63 }
    ensures { result ≡ row_cmp (map (column (Int (pos rowid) ∷ L.columns line.now)) columns.now)
        (map (column (Int (pos other_rowid) ∷ L.columns other.now)) columns.now) }
{
    for at in columns {
        match compare(
            row_value(line, rowid, *at),
            row_value(other, other_rowid, *at),
        ) {
            Ordering::Equal => {}
            found => return found,
        }
    }
    Ordering::Equal
}
