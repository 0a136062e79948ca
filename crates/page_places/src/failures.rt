// What a failure to read pages is for a caller.
ghost use Rattle.std.specs.Prelude.{◌≡◌};
ghost use Rattle.page_places.specs.Failures.{end_of_walk, failure_of, failure_of_row};

use crate::errors::RowError;
use page_rows::WalkError;
use plain_tables::StoreError;
use sqlite_pages::Error;

/// What an error of the pages is for a caller.
pub fn error_of(error: Error) -> StoreError
    ensures { result ≡ failure_of error }
{
    match error {
        Error::OutOfMemory => StoreError::Memory,
        _ => StoreError::Store,
    }
}

/// What a row that was not written is for a caller. `Store` where it cannot be stored, or no rowid is left.
pub fn error_of_row(error: RowError) -> StoreError
    ensures { result ≡ failure_of_row error }
{
    match error {
        RowError::Pages(error) => error_of(error),
        RowError::Unstorable | RowError::NoRowid => StoreError::Store,
    }
}

/// What ended a walk.
pub fn error_of_walk(error: WalkError<StoreError>) -> StoreError
    ensures { result ≡ end_of_walk error }
{
    match error {
        WalkError::Pages(error) => error_of(error),
        WalkError::Refused(end) => end,
    }
}
