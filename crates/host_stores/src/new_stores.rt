// The file of a new store, made in memory.
ghost use Rattle.std.specs.Prelude.{IfOk, IsTrue};
ghost use Rattle.sqlite.specs.Closing.{IsCopied};
ghost use Rattle.sqlite_disk.specs.Memory.{memory_bytes};
ghost use Rattle.sqlite_wal.specs.Reads.{AreClean};
ghost use Rattle.host_stores.specs.NewStores.{IsNewStore};

use crate::stores::{database_in, ready_in_files};
use sqlite::{Connection, FileStore};
use sqlite_disk::{Disk, Files, Memory};
use sqlite_pager::Options;
use std::alloc::{AllocError, Global};
use store_paths::FileOpener;

/// The files of a database in memory, closed: its last commit is in the second, with nothing in a log.
fn closed<D: Disk + Drop>(conn: Connection<FileStore<D>>) -> Result<Files<D>, AllocError>
    ensures { IfOk result (λ files. AreClean D.Disk files.log files.db → IsCopied conn files) }
{
    match conn.close_files() {
        Ok(files) => Ok(files),
        Err((_, store)) => {
            drop(store.close());
            Err(AllocError)
        }
    }
}

/// Makes a store in files in memory: it is whole in the second of them. What stands in them before, no clause says: none is
/// asked for.
fn filled<D: Disk + Drop>(
    alloc: Global,
    files: Files<D>,
    options: Options,
) -> Result<Files<D>, AllocError>
    requires log { IsTrue (D.Disk.is_usable files.log) }
    requires db { IsTrue (D.Disk.is_usable files.db) }
    ensures { IfOk result (λ files. AreClean D.Disk files.log files.db → IsNewStore (D.Disk.seen files.db)) }
{
    let Ok(conn) = database_in(alloc, files, options) else {
        return Err(AllocError);
    };
    let (made, conn) = ready_in_files(conn, true);
    let files = closed(conn)?;
    match made {
        Ok(()) => Ok(files),
        Err(_) => Err(AllocError),
    }
}

/// The file of a new store, whole, and with nothing in a log.
///
/// # Errors
/// Memory was refused: files in memory fail for nothing else. (They call it a fault of the disk, and so the database
/// does.)
pub(crate) fn new_store<F: FileOpener>(
    alloc: Global,
    options: Options,
) -> Result<Memory, AllocError>
    ensures { IfOk result (λ file. IsNewStore (memory_bytes file)) }
{
    let files = filled(alloc, F::in_memory(alloc), options)?;
    match F::into_memory(files) {
        Some(file) => Ok(file),
        None => Err(AllocError),
    }
}
