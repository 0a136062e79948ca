// What the database in files says of itself, where its pages are refused and nothing is to be written.
ghost use Rattle.std.specs.Prelude.{◌≡◌, ◌↔◌, pos, [], true, false, Ok, Some, Result, IfOk, IsTrue};
ghost use Rattle.sqlite.specs.Files.{Finds, IsBlankAs, file_state, image_of};
ghost use Rattle.sqlite.specs.Held.{state};
ghost use Rattle.sqlite.specs.State.{HasCleanDisk};
ghost use Rattle.sqlite_value.specs.Order.{column};
ghost use Rattle.sqlite_value.specs.declared.value.Value.TheVariants.{Int};
ghost use Rattle.sqlite_wal.specs.Reads.{AreClean, OnlyReads};
ghost use Rattle.host_stores.specs.Stores.{AsksForFirst, IsBroughtUp, IsFirstBySql, SaysFirst};

use crate::causes::error_of_open;
use crate::stores::{database_in, ready_in};
use prof_store::OpenError;
use sqlite::types::ValueRef;
use sqlite::{Alter, Connection, Error, Row};
use sqlite_disk::{Disk, Files};
use sqlite_pager::Options;
use sqlite_pool::probe_blank;
use sqlite_wal::PageSize;
use std::alloc::Global;
use store_paths::{FileOpener, NotOpened};

/// The size of the pages of a new database.
const NEW_SIZE: usize = 4096;

/// Whether files hold no database, or one that a stop left half made: an opening by SQL would make one there, and write
/// over it. It only reads.
fn is_blank_in<D: Disk>(alloc: Global, files: &mut Files<D>) -> Result<bool, OpenError>
    requires log { IsTrue (D.Disk.is_usable files.old.log) }
    requires db { IsTrue (D.Disk.is_usable files.old.db) }
    ensures blank { IfOk result (λ b. AreClean D.Disk files.new.log files.new.db → (IsTrue b ↔ IsBlankAs false (image_of D.Disk files.old))) }
    ensures log { OnlyReads D.Disk files.old.log files.new.log }
    ensures db { OnlyReads D.Disk files.old.db files.new.db }
{
    let size = PageSize::new(NEW_SIZE).unwrap();
    match probe_blank(alloc, files, size, false) {
        Ok(is_blank) => Ok(is_blank),
        Err(sqlite_wal::Error::OutOfMemory) => Err(OpenError::Memory),
        Err(_) => Err(OpenError::Store),
    }
}

/// Whether the number of the schema that a row shows is that of version 1; none where it is of neither version.
fn is_first_shown(row: &Row) -> Option<bool>
    ensures first { (result ≡ Some true) ↔ (column row.now 0 ≡ Int (pos 1)) }
    ensures second { (result ≡ Some false) ↔ (column row.now 0 ≡ Int (pos 2)) }
{
    match row.get_ref(0) {
        Ok(ValueRef::Int(1)) => Some(true),
        Ok(ValueRef::Int(2)) => Some(false),
        _ => None,
    }
}

/// What the answer to the query for the number of the schema says of it.
fn is_first_by(answer: Result<Row, Error>) -> Result<bool, OpenError>
    ensures { SaysFirst answer result }
{
    match answer {
        Ok(row) => match is_first_shown(&row) {
            Some(is_first) => Ok(is_first),
            None => Err(OpenError::WrongSchema),
        },
        Err(Error::SqlInputError(_) | Error::QueryReturnedNoRows) => Err(OpenError::WrongSchema),
        Err(error) => Err(error_of_open(error)),
    }
}

/// Whether a database is a store of version 1, by the number of its schema.
fn is_first_in<S: Alter>(conn: &mut Connection<S>) -> Result<bool, OpenError>
    ensures { HasCleanDisk (state S.Store conn.new) → AsksForFirst (state S.Store conn.old) (state S.Store conn.new) result }
{
    is_first_by(conn.query_row("SELECT schema FROM meta", &[]))
}

/// Whether a database is a store of version 1 that can be brought up to version 2: that is tried.
fn is_brought_up<S: Alter + Drop>(conn: Connection<S>) -> Result<bool, OpenError>
    ensures { IfOk result (IsBroughtUp S.Store conn) }
{
    let mut conn = conn;
    if !is_first_in(&mut conn)? {
        return Ok(false);
    }
    match ready_in(conn, false) {
        (Ok(()), _) => Ok(true),
        (Err(end), _) => Err(end),
    }
}

/// Whether the database in files is a store of version 1 that can be brought up to version 2: that is tried, and what it
/// writes stays in the log, which is forgotten with the files. False of a store of version 2. `WrongSchema` where the number
/// of the schema is neither 1 nor 2, or there is none; `Memory`; `Store` where SQL does not open the database, or not bring
/// it up.
fn is_migratable<D: Disk + Drop>(
    alloc: Global,
    files: Files<D>,
    options: Options,
) -> Result<bool, NotOpened>
    requires log { IsTrue (D.Disk.is_usable files.log) }
    requires db { IsTrue (D.Disk.is_usable files.db) }
    ensures { IfOk result (IsFirstBySql D.Disk files) }
{
    let mut options = options;
    options.checkpoint_frames = usize::MAX;
    let conn = database_in(alloc, files, options)?;
    Ok(is_brought_up(conn)?)
}

/// Whether the database in files that are only read is to be migrated, as `is_migratable`. One that is not made yet, or
/// was left half made, has no schema. No guarantee: `is_migratable` says what is found.
pub(crate) fn is_to_be_migrated<F: FileOpener>(
    alloc: Global,
    files: Files<F::File>,
    options: Options,
) -> Result<bool, NotOpened>
    requires log { IsTrue (F.File.Disk.is_usable files.log) }
    requires db { IsTrue (F.File.Disk.is_usable files.db) }
{
    let mut files = files;
    if is_blank_in(alloc, &mut files)? {
        return Err(OpenError::WrongSchema.into());
    }
    is_migratable(alloc, files, options)
}
