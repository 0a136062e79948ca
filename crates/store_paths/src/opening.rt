// Opens a database file and its log to read, and says later whether they stood still.
ghost use Rattle.std.specs.Prelude.{true, false, IsTrue, IfOk};
ghost use Rattle.store_paths.specs.File.{file_is_usable, IsFresh};

use crate::host::FileToRead;
use crate::looks::{Look, first_look, look_at};
use sqlite_disk::{Files, Modelled, Start};
use std::alloc::AllocError;
use std::fs::OpenOptions;
use std::hash::{BuildHasher, RandomState};
use std::io::ErrorKind;
use std::os::unix::fs::FileExt;
use std::path::PathBuf;
use std::rt::HostRuntime;
use std::{fs, io};

/// So long is the head of a log, which is another in each log that is begun.
const LOG_HEAD: usize = 32;

/// So long is the head of a database file.
const FILE_HEAD: usize = 100;

/// Where that says how the file is written and how it is read, and by which number it says: with a log.
const VERSIONS: usize = 18;

const WITH_LOG: u8 = 2;

/// A file of a database that is only read, of which `S` says what it held first.
pub type FileOf<S> = Modelled<FileToRead, S>;

/// Why the files at a path are not opened.
#[derive(Clone, Copy, Debug)]
pub enum Unopened {
    Io(io::Error),
    OutOfMemory,
    /// Another wrote meanwhile.
    Moved,
    /// They are not to be read without a lock: the file has two names, the log is no plain file, or a journal lies
    /// beside it.
    Unfit,
}

impl From<io::Error> for Unopened {
    fn from(error: io::Error) -> Unopened {
        if error.kind() == ErrorKind::OutOfMemory {
            Unopened::OutOfMemory
        } else {
            Unopened::Io(error)
        }
    }
}

impl From<AllocError> for Unopened {
    fn from(_error: AllocError) -> Unopened {
        Unopened::OutOfMemory
    }
}

/// What the files were when they were opened.
#[derive(Drop)]
pub struct Standing {
    /// The path of the database file, with no link in it.
    path: PathBuf,
    look: Look,
    is_read_with_log: bool,
    /// The log, if there was one, and its first bytes.
    log: Option<fs::File>,
    head: [u8; LOG_HEAD],
}

impl Standing {
    /// Whether the file says that it is a database which is written and read with a log. Of any other it is to be said
    /// without a lock why it is refused, and no more. No guarantee: of files the checker knows nothing.
    pub fn is_read_with_log(&self) -> bool {
        self.is_read_with_log
    }

    /// Whether the log is the one that was found: where it was begun anew while it was read, what was read of it may be
    /// old beside a newer database file. No guarantee: as above.
    pub fn has_same_log(&self) -> io::Result<bool> {
        match &self.log {
            Some(log) => Ok(head_of(log)? == self.head),
            None => Ok(true),
        }
    }

    /// Whether nobody has written the database file since it was opened, so that what was read of it and of the log is
    /// what one commit left; the log is then on the disk, so that no cut of the power takes back what it says. No
    /// guarantee: as above.
    pub fn stands(&self, rt: &HostRuntime) -> io::Result<bool> {
        if let Some(log) = &self.log {
            sync_log(log)?;
        }
        Ok(look_at(rt, self.path.as_str())?.0 == self.look)
    }
}

/// The first bytes of a log, with zeros where it is shorter. No guarantee: as above, and so below, but for `pair_of`,
/// `open_to_look` and `open_to_read`.
fn head_of(log: &fs::File) -> io::Result<[u8; LOG_HEAD]> {
    let mut head = [0; LOG_HEAD];
    let _count = log.read_at(&mut head, 0)?;
    Ok(head)
}

/// Syncs a log. A file system that is only read, and cannot be synced, has nothing to lose.
fn sync_log(log: &fs::File) -> io::Result<()> {
    match log.sync_all() {
        Err(error)
            if error.kind() == ErrorKind::ReadOnlyFilesystem
                || error.kind() == ErrorKind::InvalidInput => { Ok(()) }
        synced => synced,
    }
}

/// Whether a file says that it is a database which is written and read with a log.
fn has_log(db: &fs::File) -> io::Result<bool> {
    let mut head = [0; FILE_HEAD];
    let count = db.read_at(&mut head, 0)?;
    Ok(
        count == FILE_HEAD
            && head.starts_with(b"SQLite format 3\0")
            && head[VERSIONS] == WITH_LOG
            && head[VERSIONS + 1] == WITH_LOG,
    )
}

/// Whether nothing stands at a path.
fn is_free(rt: &HostRuntime, path: &str) -> io::Result<bool> {
    match fs::symlink_metadata(rt, path) {
        Ok(_) => Ok(false),
        Err(error) if error.kind() == ErrorKind::NotFound => Ok(true),
        Err(error) => Err(error),
    }
}

/// Opens the file at a path to read, of which this look was taken, if it is plain.
fn open_seen(
    rt: &HostRuntime,
    path: &str,
    look: &Look,
    is_plain: bool,
) -> Result<fs::File, Unopened> {
    if !is_plain {
        return Err(Unopened::Unfit);
    }
    let file = OpenOptions::new().read(true).open(rt, path)?;
    if Look::of(&file.metadata()?).is_same_file(look) {
        Ok(file)
    } else {
        Err(Unopened::Moved)
    }
}

/// Opens the log at a path to read, if there is one.
fn open_log(rt: &HostRuntime, path: &str) -> Result<Option<fs::File>, Unopened> {
    match look_at(rt, path) {
        Ok((look, is_plain)) => Ok(Some(open_seen(rt, path, &look, is_plain)?)),
        Err(error) if error.kind() == ErrorKind::NotFound => Ok(None),
        Err(error) => Err(error.into()),
    }
}

/// Opens the database file at a path to read, and takes a look at it before, which any later write changes.
fn open_database(rt: &HostRuntime, path: &str) -> Result<(fs::File, Look), Unopened> {
    let Some((look, is_plain)) = first_look(rt, path)? else {
        return Err(Unopened::Moved);
    };
    Ok((open_seen(rt, path, &look, is_plain)?, look))
}

/// Opens the log beside a database file to read, if there is one, unless a journal lies there.
fn open_beside(rt: &HostRuntime, path: &str) -> Result<Option<fs::File>, Unopened> {
    let journal = format!(in rt.alloc(); "{path}-journal")?;
    if !is_free(rt, journal.as_str())? {
        return Err(Unopened::Unfit);
    }
    drop(journal);
    let log = format!(in rt.alloc(); "{path}-wal")?;
    open_log(rt, log.as_str())
}

/// Two handles of a log, and its first bytes.
fn twice(
    log: Option<fs::File>,
) -> io::Result<(Option<fs::File>, Option<fs::File>, [u8; LOG_HEAD])> {
    let Some(log) = log else {
        return Ok((None, None, [0; LOG_HEAD]));
    };
    let head = head_of(&log)?;
    Ok((Some(log.try_clone()?), Some(log), head))
}

/// The secret under which digests of what is read are taken.
fn new_key(rt: &HostRuntime) -> io::Result<u64> {
    Ok(RandomState::new(rt)?.hash_one(&0u8))
}

/// The files of a database. A log that is missing is as one of no bytes. `S` stands for what they hold: they are noted as
/// settled, though nothing was synced.
fn pair_of<S: Start>(log: Option<fs::File>, db: fs::File, key: u64) -> Files<FileOf<S>>
    ensures log { IsTrue (file_is_usable S.Start result.log) }
    ensures db { IsTrue (file_is_usable S.Start result.db) }
    ensures fresh { IsFresh true result.log × IsFresh false result.db }
{
    Files {
        log: Modelled::new(FileToRead::new(log, key), true, key),
        db: Modelled::new(FileToRead::new(Some(db), key), false, key),
    }
}

/// Opens the database file at a path and its log.
fn open_both(rt: &HostRuntime, path: &str) -> Result<(Option<fs::File>, fs::File), Unopened> {
    let path = fs::canonicalize(rt, path)?;
    let (look, is_plain) = look_at(rt, path.as_str())?;
    let db = open_seen(rt, path.as_str(), &look, is_plain)?;
    let log = open_beside(rt, path.as_str())?;
    Ok((log, db))
}

/// Opens the database file at a path and its log, and tells what they were then.
fn open_standing(
    rt: &HostRuntime,
    path: &str,
) -> Result<(Option<fs::File>, fs::File, Standing), Unopened> {
    let path = fs::canonicalize(rt, path)?;
    let (db, look) = open_database(rt, path.as_str())?;
    let is_read_with_log = has_log(&db)?;
    let (read, log, head) = twice(open_beside(rt, path.as_str())?)?;
    let standing = Standing {
        path,
        look,
        is_read_with_log,
        log,
        head,
    };
    Ok((read, db, standing))
}

/// Opens the database file at a path and its log to read, as `open_to_read`, and waits for no clock. Nothing tells whether
/// others write meanwhile: what is read of them is no answer.
pub fn open_to_look<S: Start>(
    rt: &HostRuntime,
    path: &str,
    _start: S,
) -> Result<Files<FileOf<S>>, Unopened>
    ensures log { IfOk result (λ files. IsTrue (file_is_usable S.Start files.log)) }
    ensures db { IfOk result (λ files. IsTrue (file_is_usable S.Start files.db)) }
    ensures fresh { IfOk result (λ files. IsFresh true files.log × IsFresh false files.db) }
{
    let key = new_key(rt)?;
    let (log, db) = open_both(rt, path)?;
    Ok(pair_of(log, db, key))
}

/// Opens the database file at a path and its log to read, and tells what they were then. A log that is missing is as
/// one of no bytes. `S` stands for what they hold: they are noted as settled, though nothing was synced. Where others
/// write meanwhile, what is read agrees with no `S`, and `stands` says so; no clause does.
pub fn open_to_read<S: Start>(
    rt: &HostRuntime,
    path: &str,
    _start: S,
) -> Result<(Files<FileOf<S>>, Standing), Unopened>
    ensures log { IfOk result (λ opened. IsTrue (file_is_usable S.Start opened.0.log)) }
    ensures db { IfOk result (λ opened. IsTrue (file_is_usable S.Start opened.0.db)) }
    ensures fresh { IfOk result (λ opened. IsFresh true opened.0.log × IsFresh false opened.0.db) }
{
    let key = new_key(rt)?;
    let (log, db, standing) = open_standing(rt, path)?;
    Ok((pair_of(log, db, key), standing))
}
