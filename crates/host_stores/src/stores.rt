// Makes, finds, migrates or refuses the store in a database, and that at a path.
ghost use Rattle.std.specs.Prelude.{IsTrue, IfOk, IfErr};
ghost use Rattle.sqlite.specs.Files.{Finds, file_state, over_files};
ghost use Rattle.sqlite.specs.Held.{state};
ghost use Rattle.sqlite.specs.State.{HasCleanDisk};
ghost use Rattle.prof_store.specs.Shown.{shown, IsFaithful};
ghost use Rattle.host_stores.specs.Stores.{IsReadyIn, Refuses, TakesUp};

use crate::causes::{by_host, by_sql};
use crate::naming::{drop_second_name_at, make_whole_at};
use prof_store::{OpenError, Store};
use sqlite::{Alter, Connection, FileStore};
use sqlite_disk::{Disk, Files};
use sqlite_pager::Options;
use std::alloc::Global;
use std::fs;
use std::io::ErrorKind;
use std::rt::HostRuntime;
use store_paths::{FileOpener, NotOpened, Patience, options_for};

/// How many pages are kept in memory where a store is made or looked at by SQL, which checks each page once: each is
/// read once, and more would only have to be made.
const PAGES_BY_SQL: usize = 100;

/// How many bytes the file at a path has: none where there is no file. A folder is none.
fn length_at(rt: &HostRuntime, path: &str) -> Result<u64, NotOpened> {
    match fs::metadata(rt, path) {
        Ok(metadata) if metadata.is_dir() => { Err(by_host(&ErrorKind::IsADirectory.into())) }
        Ok(metadata) => Ok(metadata.len()),
        Err(error) if error.kind() == ErrorKind::NotFound => Ok(0),
        Err(error) => Err(by_host(&error)),
    }
}

/// Whether a path is to become a new store: where there is no file, or an empty one. A file of one byte is
/// no store, and is not opened: the database would take it for a new one that a stop left half made, and
/// write over it. No guarantee: of the files at a path the checker knows nothing.
fn is_new_at(rt: &HostRuntime, path: &str) -> Result<bool, NotOpened> {
    match length_at(rt, path)? {
        0 => Ok(true),
        1 => Err(OpenError::WrongSchema.into()),
        _ => Ok(false),
    }
}

/// The store of a database: a new one where it is to become one, else the one that it holds. A refusal
/// hands the connection back.
fn store_in<S: Alter>(
    conn: Connection<S>,
    is_new: bool,
) -> Result<Store<S>, (OpenError, Connection<S>)>
    ensures taken_up { IfOk result (λ store. IsFaithful S.Store store → TakesUp S.Store is_new conn store.conn) }
    ensures refused { IfErr result (λ e. HasCleanDisk (state S.Store e.1) → Refuses S.Store is_new e.0 conn e.1) }
{
    if is_new {
        Store::create(conn)
    } else {
        Store::open(conn)
    }
}

/// Makes a store in a database that is to become one, or looks at the one that it holds: a store of version 1 is
/// migrated, and a damaged one refused. Hands back the database.
pub(crate) fn ready_in<S: Alter>(
    conn: Connection<S>,
    is_new: bool,
) -> (Result<(), OpenError>, Connection<S>)
    ensures { HasCleanDisk (state S.Store result.1) → IsReadyIn S.Store is_new result.0 conn result.1 }
{
    match store_in(conn, is_new) {
        Ok(store) => (Ok(()), store.into_connection()),
        Err((end, conn)) => (Err(end), conn),
    }
}

/// The database in files, opened by SQL.
pub(crate) fn database_in<D: Disk + Drop>(
    alloc: Global,
    files: Files<D>,
    options: Options,
) -> Result<Connection<FileStore<D>>, NotOpened>
    requires log { IsTrue (D.Disk.is_usable files.log) }
    requires db { IsTrue (D.Disk.is_usable files.db) }
    ensures { IfOk result (λ conn. HasCleanDisk (file_state conn) → Finds files conn) }
{
    match Connection::open_files_with(alloc, files, options, false) {
        Ok(conn) => Ok(conn),
        Err((error, _)) => Err(by_sql(error)),
    }
}

/// The store of a database in files, as `ready_in`. (What is called at the type of a database in files takes half a minute to
/// prove at each call: so this is done here alone.)
pub(crate) fn ready_in_files<D: Disk>(
    conn: Connection<FileStore<D>>,
    is_new: bool,
) -> (Result<(), OpenError>, Connection<FileStore<D>>)
    ensures { HasCleanDisk (file_state result.1) → IsReadyIn over_files is_new result.0 conn result.1 }
{
    ready_in(conn, is_new)
}

/// Makes a store in the database in files that is to become one, or looks at the one that it holds, and closes that: what was
/// committed is copied from the log into the file; where that fails, it stands in the log, and the next opening finds it
/// there. No guarantee: of the files at a path the checker knows nothing.
fn settle<D: Disk + Drop>(
    alloc: Global,
    files: Files<D>,
    options: Options,
    is_new: bool,
) -> Result<(), NotOpened>
    requires log { IsTrue (D.Disk.is_usable files.log) }
    requires db { IsTrue (D.Disk.is_usable files.db) }
{
    let (found, conn) = ready_in_files(database_in(alloc, files, options)?, is_new);
    let _closed = conn.close();
    Ok(found?)
}

/// The same of the database at a path, opened with few pages in its cache. No guarantee: as above.
fn ready_at<F: FileOpener>(
    rt: &HostRuntime,
    path: &str,
    patience: Patience,
    is_new: bool,
) -> Result<(), NotOpened> {
    let options = options_for(rt, PAGES_BY_SQL)?;
    settle(
        rt.alloc(),
        F::to_change(rt, path, patience)?,
        options,
        is_new,
    )
}

/// Looks at the store at a path by SQL: a store of version 1 is migrated, and what is no store is refused for what it is.
/// No guarantee: as above.
pub(crate) fn look_at<F: FileOpener>(
    rt: &HostRuntime,
    path: &str,
    patience: Patience,
) -> Result<(), NotOpened> {
    ready_at::<F>(rt, path, patience, false)
}

/// Makes a store at a path, unless another command has made it while this one waited for it: whole or not at all, or,
/// where that cannot be and where an empty file stands there, in its place. No guarantee: as above.
fn make_at<F: FileOpener>(
    rt: &HostRuntime,
    path: &str,
    patience: Patience,
) -> Result<(), NotOpened> {
    let options = options_for(rt, PAGES_BY_SQL)?;
    if make_whole_at::<F>(rt, path, options, patience)? && !is_new_at(rt, path)? {
        return Ok(());
    }
    match ready_at::<F>(rt, path, patience, true) {
        Err(
            NotOpened {
                end: OpenError::WrongSchema,
                ..
            },
        ) if !is_new_at(rt, path)? => Ok(()),
        made => made,
    }
}

/// Makes the store at a path where there is none, and takes from one that stands there the second name that a stop has
/// left. Answers whether it is new. No guarantee: as above.
pub(crate) fn make_missing_at<F: FileOpener>(
    rt: &HostRuntime,
    path: &str,
    patience: Patience,
) -> Result<bool, NotOpened> {
    let is_missing = is_new_at(rt, path)?;
    if is_missing {
        make_at::<F>(rt, path, patience)?;
    }
    drop_second_name_at(rt, path)?;
    Ok(is_missing)
}
