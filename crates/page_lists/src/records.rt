// Records as rows of the tables.

use plain_tables::StoreError;
use std::alloc::Global;

/// A row of a table, read from its record.
pub(crate) trait FromRecord: Sized {
    ghost use Rattle.std.specs.Prelude.{◌≡◌, IfErr, IfOk};
    ghost use Rattle.sqlite_value.specs.Order.{Row};
    ghost use Rattle.sqlite_store.specs.Db.{table_row};
    ghost use Rattle.page_lists.specs.Refusals.{RefusesRow};

    /// Of a row with its rowid what counts: all of it where the rowid is a key, else what stands behind it. Or the
    /// rowid alone.
    ghost seen: { Row → Row };

    /// The columns of this row.
    ghost columns: { Self → Row };

    /// The rows, each with its rowid, that are read wherever memory lasts, as far as that is said.
    ghost IsRead: { Row → Type 0 };

    /// Reads a record. `Store` where a column says nothing that this can be.
    fn from_record(alloc: Global, rowid: i64, payload: &[u8]) -> Result<Self, StoreError>
        ensures read { IfOk result (λ line. columns line ≡ seen (table_row (rowid, payload.now))) }
        ensures refused { IfErr result (RefusesRow IsRead (table_row (rowid, payload.now))) };
}
