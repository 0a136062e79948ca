// Every statement that writes within a transaction goes through this call.
ghost use Rattle.std.specs.Result.{is_ok};
ghost use Rattle.sqlite.specs.Values.{bound};
ghost use Rattle.prof_store.specs.Within.{Ran};

use crate::errors::error_of;
use plain_tables::StoreError;
use sqlite::types::ValueRef;
use sqlite::{Alter, Transaction};

/// Runs a statement that writes, within a transaction.
pub fn write_inside<S: Alter>(
    tx: &mut Transaction<'_, S>,
    text: &str,
    params: &[ValueRef<'_>],
) -> Result<(), StoreError>
    ensures { Ran S.Store text.now (bound params.now) (is_ok result) tx.old tx.new }
{
    match tx.execute(text, params) {
        Ok(_) => Ok(()),
        Err(error) => Err(error_of(error)),
    }
}
