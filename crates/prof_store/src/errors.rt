// Why a call of the store is refused.
ghost use Rattle.std.specs.Prelude.{◌≡◌};
ghost use Rattle.prof_store.specs.Errors.{error_for};

use plain_tables::StoreError;
use sqlite::{Error, ErrorCode};

/// A row says nothing that a store can hold. What refuses a row so takes no memory: a caller tells it as `Store`.
#[derive(Clone, Copy, Debug, PartialEq, Eq)]
pub struct OutOfForm;

/// Why a store is not opened. The tables are as before.
#[derive(Clone, Copy, Debug, PartialEq, Eq)]
pub enum OpenError {
    /// A growth was refused.
    Memory,
    /// A database call failed for another cause, or rows are out of form.
    Store,
    /// The tables are of another schema, or there are none.
    WrongSchema,
}

/// What an error of the database is for a caller.
pub fn error_of(error: Error) -> StoreError
    ensures { result ≡ error_for error }
{
    match error {
        Error::SqliteFailure(ErrorCode::OutOfMemory) => StoreError::Memory,
        _ => StoreError::Store,
    }
}

impl From<OutOfForm> for StoreError {
    ghost use Rattle.std.specs.Prelude.{◌≡◌};
    ghost use Rattle.plain_tables.specs.declared.errors.StoreError.TheVariants as ends;

    ghost from_gives = { λ _ end. end ≡ ends.Store };

    fn from(_fault: OutOfForm) -> StoreError {
        StoreError::Store
    }
}

impl From<StoreError> for OpenError {
    ghost use Rattle.std.specs.Prelude.{◌≡◌};
    ghost use Rattle.prof_store.specs.Errors.{opening};

    ghost from_gives = { λ end opened. opened ≡ opening end };

    fn from(end: StoreError) -> OpenError {
        match end {
            StoreError::Memory => OpenError::Memory,
            StoreError::Store => OpenError::Store,
        }
    }
}
