// Why a row was not written.

use sqlite_pages::Error;
use std::alloc::AllocError;

/// Why a row was not written.
#[derive(Clone, Copy, Debug, Drop, PartialEq, Eq)]
pub enum RowError {
    /// The pages could not be read or written.
    Pages(Error),
    /// The row, or an entry of it, has a NaN, no column or too many, or is over a billion bytes.
    Unstorable,
    /// A row of the table has the greatest rowid, so there is none above it.
    NoRowid,
}

impl From<Error> for RowError {
    ghost use Rattle.std.specs.Prelude.{◌≡◌};
    ghost use Rattle.page_places.specs.declared.errors.RowError.TheVariants.{Pages};

    ghost from_gives = { λ e made. made ≡ Pages e };

    fn from(error: Error) -> RowError {
        RowError::Pages(error)
    }
}

impl From<AllocError> for RowError {
    ghost use Rattle.std.specs.Prelude.{◌≡◌};
    ghost use Rattle.page_places.specs.declared.errors.RowError.TheVariants.{Pages};
    ghost use Rattle.sqlite_pages.specs.declared.error.Error.TheVariants.{OutOfMemory};

    ghost from_gives = { λ e made. made ≡ Pages OutOfMemory };

    fn from(_: AllocError) -> RowError {
        RowError::Pages(Error::OutOfMemory)
    }
}
