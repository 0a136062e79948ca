// From SQL to pages (specs/Pages.antt).
ghost use Rattle.std.specs.Prelude.{IfOk};
ghost use Rattle.store_laws.specs.Pages.{RepresentsCommitted, RepresentsStore};

use page_runs::PageRuns;
use plain_tables::StoreError;
use prof_store::error_of;
use sqlite::{Connection, FileStore};
use sqlite_disk::Disk;
use sqlite_pager::Options;
use std::alloc::Global;

/// Closes a database, and opens the store in it by its pages. What was not committed is rolled back.
///
/// # Errors
/// `Memory`; `Store` where the log could not be copied into the file, or where the files are not plainly a store of this
/// version or cannot be read. They are closed then. Which of them comes no clause says, as at `PageRuns::open`.
pub fn to_pages<D: Disk + Drop>(
    alloc: Global,
    conn: Connection<FileStore<D>>,
    options: Options,
) -> Result<PageRuns<D>, StoreError>
    ensures committed { IfOk result (RepresentsCommitted conn) }
    ensures store { IfOk result (RepresentsStore conn) }
{
    match conn.close_files() {
        Ok(files) => PageRuns::open(alloc, files, options, 0),
        Err((error, store)) => {
            drop(store.close());
            Err(error_of(error))
        }
    }
}
