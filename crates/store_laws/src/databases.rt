// From pages to SQL (specs/Databases.antt).
ghost use Rattle.std.specs.Prelude.{IfOk, IfErr};
ghost use Rattle.store_laws.specs.Databases.{FailsForCause, HoldsRepresented, LeavesRepresented};

use page_runs::PageRuns;
use sqlite::{Connection, Error, ErrorCode, FileStore, Leftover};
use sqlite_disk::Disk;
use sqlite_pager::Options;
use std::alloc::Global;

const IO: Error = Error::SqliteFailure(ErrorCode::SystemIoFailure);

/// Closes a store in pages, and opens its files as a database, which reads also what is still in the log. Each page
/// is checked then.
///
/// # Errors
/// Out of memory, a failure of the disk, or a limit of the format; with what is left of the files. Those of a store
/// that represents rows are never refused for what they hold, and hold these rows as before.
pub fn to_database<D: Disk + Drop>(
    alloc: Global,
    store: PageRuns<D>,
    options: Options,
) -> Result<Connection<FileStore<D>>, (Error, Leftover<D>)>
    ensures holds { IfOk result (HoldsRepresented store) }
    ensures cause { IfErr result (λ e. FailsForCause store e.1 e.0) }
    ensures left { IfErr result (λ e. LeavesRepresented store e.1) }
{
    let files = store.into_file().close();
    if !files.may_be_used() {
        return Err((IO, Leftover::Files(files)));
    }
    Connection::open_files_with(alloc, files, options, false)
}
