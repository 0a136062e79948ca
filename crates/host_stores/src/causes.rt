// Why the host, or SQL, does not open a store.
ghost use Rattle.std.specs.Prelude.{◌≡◌};
ghost use Rattle.std_io.specs.IoError.{error_kind};
ghost use Rattle.prof_store.specs.Errors.{error_for, opening};
ghost use Rattle.host_stores.specs.Causes.{host_cause, host_refusal, path_cause, path_refusal, sql_cause};

use prof_store::OpenError;
use sqlite::{Error, ErrorCode};
use sqlite_std_file::OpenError as PathError;
use std::io;
use std::io::ErrorKind;
use store_paths::{Cause, NotOpened};

/// Why the database is not opened.
pub(crate) fn error_of_open(error: Error) -> OpenError
    ensures { result ≡ opening (error_for error) }
{
    match error {
        Error::SqliteFailure(ErrorCode::OutOfMemory) => OpenError::Memory,
        _ => OpenError::Store,
    }
}

/// What a database says of itself that is not opened.
fn cause_of_open(error: &Error) -> Option<Cause>
    ensures { result ≡ sql_cause error.now }
{
    match error {
        Error::SqliteFailure(ErrorCode::NotADatabase | ErrorCode::DatabaseCorrupt) => {
            Some(Cause::NoDatabase)
        }
        Error::SqliteFailure(ErrorCode::DatabaseBusy) => Some(Cause::InUse),
        Error::SqliteFailure(ErrorCode::DiskFull) => Some(Cause::DiskFull),
        _ => None,
    }
}

/// Why the host refuses a call.
fn error_of_host(error: &io::Error) -> OpenError
    ensures { result ≡ host_refusal (error_kind error.now) }
{
    match error.kind() {
        ErrorKind::OutOfMemory => OpenError::Memory,
        _ => OpenError::Store,
    }
}

/// What the host says of a call that it refuses.
fn cause_of_host(error: &io::Error) -> Option<Cause>
    ensures { result ≡ host_cause (error_kind error.now) }
{
    match error.kind() {
        ErrorKind::NotFound | ErrorKind::NotADirectory => Some(Cause::NoFolder),
        ErrorKind::PermissionDenied | ErrorKind::ReadOnlyFilesystem => Some(Cause::NoRight),
        ErrorKind::StorageFull | ErrorKind::QuotaExceeded => Some(Cause::DiskFull),
        ErrorKind::IsADirectory => Some(Cause::Folder),
        _ => None,
    }
}

/// Why the files at a path are not opened.
fn error_of_path(error: PathError) -> OpenError
    ensures { result ≡ path_refusal error }
{
    match error {
        PathError::OutOfMemory => OpenError::Memory,
        PathError::Io(error) => error_of_host(&error),
        PathError::Busy | PathError::HotJournal => OpenError::Store,
    }
}

/// What was found at a path whose files are not opened.
fn cause_of_path(error: PathError) -> Option<Cause>
    ensures { result ≡ path_cause error }
{
    match error {
        PathError::OutOfMemory => None,
        PathError::Io(error) => cause_of_host(&error),
        PathError::Busy => Some(Cause::InUse),
        PathError::HotJournal => Some(Cause::Journal),
    }
}

/// A database that SQL does not open.
pub(crate) fn by_sql(error: Error) -> NotOpened
    ensures end { result.end ≡ opening (error_for error) }
    ensures cause { result.cause ≡ sql_cause error }
{
    let cause = cause_of_open(&error);
    NotOpened {
        end: error_of_open(error),
        cause,
    }
}

/// A path at which the host refuses a call.
pub(crate) fn by_host(error: &io::Error) -> NotOpened
    ensures end { result.end ≡ host_refusal (error_kind error.now) }
    ensures cause { result.cause ≡ host_cause (error_kind error.now) }
{
    NotOpened {
        end: error_of_host(error),
        cause: cause_of_host(error),
    }
}

/// Files at a path that are not opened.
pub(crate) fn at_path(error: PathError) -> NotOpened
    ensures end { result.end ≡ path_refusal error }
    ensures cause { result.cause ≡ path_cause error }
{
    NotOpened {
        end: error_of_path(error),
        cause: cause_of_path(error),
    }
}
