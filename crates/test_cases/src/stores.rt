// Stores in files: made by SQL, opened by their pages. No guarantees: the tests see what the stores tell.
use crate::changes::{Change, change_rows};
use crate::disk::Stopping;
use crate::images::files_of;
use crate::meters::{Meter, Stops};
use crate::told::told_by;
use page_runs::PageRuns;
use prof_store::Store;
use run_stores::{RunStore, StoreError};
use sqlite::{Alter, Connection, FileStore};
use sqlite_disk::{Disk, Files};
use sqlite_pager::Options;
use std::alloc::{AllocError, Global};

/// How many bytes a file has room for, so that it is never the disk that wants memory.
const ROOM: usize = 0x8_0000;

/// A change that writes more than a few pages has some in the log before it is committed.
fn options() -> Options {
    let mut options = Options::new(7);
    options.cache_pages = 20;
    options.spill_pages = 8;
    options
}

/// Opens the database in files, or hands them back.
fn database_in<D: Disk + Drop>(
    alloc: Global,
    files: Files<D>,
) -> Result<Connection<FileStore<D>>, Files<D>> {
    if !files.may_be_used() {
        return Err(files);
    }
    match Connection::open_files(alloc, files, options()) {
        Ok(conn) => Ok(conn),
        Err((_, left)) => Err(left.into_files()),
    }
}

/// Copies the log into the database file, if that can be, and hands both back.
fn closed<D: Disk + Drop>(conn: Connection<FileStore<D>>) -> Files<D> {
    match conn.close_files() {
        Ok(files) => files,
        Err((_, store)) => store.close(),
    }
}

/// What is done over a database.
#[derive(Clone, Copy)]
pub(crate) enum DatabaseJob {
    /// A store is made in an empty one.
    Make,
    /// A store is opened, and one of version 1 brought up.
    Open,
    /// A store of version 1 is made of one of version 2.
    MakeFirst,
}

/// What makes a store of version 1 of one of version 2 whose costs are of thread 0.
const BACK: [&str; 4] = [
    "CREATE TABLE cell (run INTEGER NOT NULL REFERENCES run ON DELETE CASCADE, ob INTEGER NOT NULL, fl INTEGER NOT NULL, fn INTEGER NOT NULL, line INTEGER NOT NULL, event INTEGER NOT NULL, cost INTEGER NOT NULL, PRIMARY KEY (run, ob, fl, fn, line, event)) STRICT",
    "INSERT INTO cell SELECT run, ob, fl, fn, line, event, cost FROM thread_cell",
    "DROP TABLE thread_cell",
    "UPDATE meta SET schema = 1",
];

/// Makes a store of version 1 of one of version 2: whether it is made, and the database.
fn make_first<S: Alter + Drop>(conn: Connection<S>) -> (bool, Connection<S>) {
    let mut conn = conn;
    for text in BACK {
        if conn.execute(text, &[]).is_err() {
            return (false, conn);
        }
    }
    (true, conn)
}

/// Does a job over a database: whether it is done, and the database. (It is written over any: what is called at the type of one
/// in files takes half a minute to prove at each call, so there is one such call.)
fn is_done<S: Alter + Drop>(job: DatabaseJob, conn: Connection<S>) -> (bool, Connection<S>) {
    let store = match job {
        DatabaseJob::Make => Store::create(conn),
        DatabaseJob::Open => Store::open(conn),
        DatabaseJob::MakeFirst => return make_first(conn),
    };
    match store {
        Ok(store) => (true, store.into_connection()),
        Err((_, conn)) => (false, conn),
    }
}

/// Does a job over the database in files: whether it is done, where they hold one that is opened, and the files behind it.
pub(crate) fn is_done_in<D: Disk + Drop>(
    alloc: Global,
    files: Files<D>,
    job: DatabaseJob,
) -> (Option<bool>, Files<D>) {
    match database_in(alloc, files) {
        Ok(conn) => {
            let (is_done, conn) = is_done(job, conn);
            (Some(is_done), closed(conn))
        }
        Err(files) => (None, files),
    }
}

/// Makes a store in empty files, and hands the files back.
pub(crate) fn made_in<D: Disk + Drop>(
    alloc: Global,
    files: Files<D>,
) -> Result<Files<D>, &'static str> {
    match is_done_in(alloc, files, DatabaseJob::Make) {
        (Some(true), files) => Ok(files),
        _ => Err("no store is made"),
    }
}

/// Opens the store in files by its pages.
pub(crate) fn pages_in<D: Disk + Drop>(
    alloc: Global,
    files: Files<D>,
) -> Result<PageRuns<D>, &'static str> {
    if !files.may_be_used() {
        return Err("a file has failed");
    }
    match PageRuns::open(alloc, files, options(), 0) {
        Ok(store) => Ok(store),
        Err(_) => Err("no store in pages"),
    }
}

/// Empty files.
fn empty_files(alloc: Global) -> Result<Files<Stopping>, AllocError> {
    let meter = Meter::new(alloc, Stops::Both)?;
    files_of(alloc, &[], &[], ROOM, &meter)
}

/// A store in pages, empty.
fn empty_pages(alloc: Global) -> Result<PageRuns<Stopping>, &'static str> {
    let Ok(files) = empty_files(alloc) else {
        return Err("no memory for files");
    };
    pages_in(alloc, made_in(alloc, files)?)
}

/// The same, made again where memory is refused.
pub(crate) fn new_pages(alloc: Global) -> Result<PageRuns<Stopping>, &'static str> {
    match empty_pages(alloc) {
        Ok(store) => Ok(store),
        Err(_) => empty_pages(alloc),
    }
}

/// Changes a store, or asks for all that it tells: nothing where it is changed.
fn visit<S: RunStore>(
    store: &mut S,
    alloc: Global,
    change: Option<Change>,
) -> Result<Vec<u8>, StoreError> {
    match change {
        Some(change) => {
            change_rows(store, alloc, change)?;
            Ok(Vec::new(alloc))
        }
        None => told_by(store, alloc),
    }
}

/// The same of a store in pages: the one place where such a store is handed to what is written over any, since each takes half a
/// minute to prove. (The checker gives up where the files are of one kind.)
fn visit_pages<D: Disk>(
    store: &mut PageRuns<D>,
    alloc: Global,
    change: Option<Change>,
) -> Result<Vec<u8>, StoreError> {
    visit(store, alloc, change)
}

/// Changes a store in pages.
pub(crate) fn change_pages<D: Disk>(
    store: &mut PageRuns<D>,
    alloc: Global,
    change: Change,
) -> Result<(), StoreError> {
    match change {
        Change::Checkpoint => store.checkpoint(),
        change => {
            drop(visit_pages(store, alloc, Some(change))?);
            Ok(())
        }
    }
}

/// All that a store in pages tells.
pub(crate) fn told_of_pages<D: Disk>(
    store: &mut PageRuns<D>,
    alloc: Global,
) -> Result<Vec<u8>, StoreError> {
    visit_pages(store, alloc, None)
}

/// What files tell by their pages.
pub(crate) fn told_by_pages<D: Disk + Drop>(
    alloc: Global,
    files: Files<D>,
) -> Result<Vec<u8>, &'static str> {
    let mut store = pages_in(alloc, files)?;
    let told = told_of_pages(&mut store, alloc);
    // (a store that is let go by a call is faster to prove)
    drop(store);
    match told {
        Ok(told) => Ok(told),
        Err(_) => Err("by its pages the store is not read"),
    }
}

/// The same of files that SQL took up before: of a store of version 1 what it tells when it is brought up, and nothing where no
/// store is, but one can be made.
pub(crate) fn told_by_sql<D: Disk + Drop>(
    alloc: Global,
    files: Files<D>,
) -> Result<Vec<u8>, &'static str> {
    match is_done_in(alloc, files, DatabaseJob::Open) {
        (Some(true), files) => told_by_pages(alloc, files),
        (Some(false), files) => {
            drop(made_in(alloc, files)?);
            Ok(Vec::new(alloc))
        }
        (None, _) => Err("no database"),
    }
}
