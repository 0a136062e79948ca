// Gives a new store its name when its file is whole and on the disk: a stop, or a full disk, at any moment leaves no file
// at its path, or the store.
ghost use Rattle.std.specs.Prelude.{◌≡◌};
ghost use Rattle.std_io.specs.IoError.{error_kind};
ghost use Rattle.host_stores.specs.Causes.{unnamed};
ghost use Rattle.host_stores.specs.NewStores.{is_other};

use crate::causes::by_host;
use crate::new_stores::new_store;
use os::RangeLock;
use prof_store::OpenError;
use sqlite_pager::Options;
use std::fs::{File, Metadata, OpenOptions};
use std::io::ErrorKind;
use std::os::fd::AsRawFd;
use std::os::unix::fs::{FileExt, MetadataExt, OpenOptionsExt};
use std::path::Path;
use std::rt::HostRuntime;
use std::{fs, io};
use store_paths::{FileOpener, NotOpened, Patience, TRIES, is_no_file};

/// The rights that a new store has, of which the user's mask takes some.
const RIGHTS: u32 = 0o644;

/// A log of so many bytes at most is that of a database which was closed, and says nothing of it.
const LONGEST_EMPTY_LOG: u64 = 41;

/// What the path under which a store is made has behind its own.
const BESIDE: &str = "-new";

/// The bytes of a database that SQLite locks: from here on, and so many.
const FIRST_LOCKED: u64 = 1 << 30;

const LOCKED: u64 = 512;

/// Why a turn at making a store has not made it.
#[derive(Drop)]
pub(crate) enum Unmade {
    /// Something stands at the path.
    Stands,
    /// Another command is about to make it, or the file was removed meanwhile.
    Again,
    /// The file system gives no second names or no locks, or somebody else's file has the name beside.
    NoWay,
    Failed(NotOpened),
}

impl From<io::Error> for Unmade {
    ghost use Rattle.std.specs.Prelude.{◌≡◌};
    ghost use Rattle.std_io.specs.IoError.{error_kind};
    ghost use Rattle.host_stores.specs.Causes.{host_not_opened};
    ghost use Rattle.host_stores.specs.declared.naming.Unmade.TheVariants as ends;

    ghost from_gives = { λ error end. end ≡ ends.Failed (host_not_opened (error_kind error)) };

    fn from(error: io::Error) -> Unmade {
        Unmade::Failed(by_host(&error))
    }
}

/// Why a file does not get its name.
fn unnamed(error: io::Error) -> Unmade
    ensures { result ≡ unnamed (error_kind error) }
{
    match error.kind() {
        ErrorKind::AlreadyExists => Unmade::Stands,
        ErrorKind::NotFound => Unmade::Again,
        ErrorKind::PermissionDenied | ErrorKind::Unsupported | ErrorKind::TooManyLinks => {
            Unmade::NoWay
        }
        _ => error.into(),
    }
}

/// A path with more behind it.
fn path_with(rt: &HostRuntime, path: &str, end: &str) -> io::Result<String> {
    Ok(format!(in rt.alloc(); "{path}{end}")?)
}

/// What stands at a path, if anything does. No link is followed. No guarantee: of the files at a path the checker knows
/// nothing, here and below.
fn found_at(rt: &HostRuntime, path: &str) -> io::Result<Option<Metadata>> {
    match fs::symlink_metadata(rt, path) {
        Ok(found) => Ok(Some(found)),
        Err(error) if error.kind() == ErrorKind::NotFound => Ok(None),
        Err(error) => Err(error),
    }
}

/// Whether both are the same file. No guarantee: as above.
fn are_same(one: &Metadata, other: &Metadata) -> bool {
    one.dev() == other.dev() && one.ino() == other.ino()
}

/// What lies beside a path that a database there would take for its own.
#[derive(Drop, PartialEq, Eq)]
enum Logs {
    None,
    /// A log that says nothing.
    Empty,
    /// A journal, or a log that may say something.
    Full,
}

/// What a database at a path would take for its own. No guarantee: as above.
fn logs_of(rt: &HostRuntime, path: &str) -> io::Result<Logs> {
    let journal = found_at(rt, path_with(rt, path, "-journal")?.as_str())?;
    let log = found_at(rt, path_with(rt, path, "-wal")?.as_str())?;
    Ok(match (journal, log) {
        (None, None) => Logs::None,
        (None, Some(log)) if log.is_file() && log.len() <= LONGEST_EMPTY_LOG => Logs::Empty,
        _ => Logs::Full,
    })
}

/// Whether some byte is neither zero nor the one in its place among others, as far as these go.
fn is_other(found: &[u8], bytes: &[u8]) -> bool
    ensures { result ≡ is_other found.now bytes.now }
{
    found
        .iter()
        .zip(bytes)
        .any(|(found, byte)| *found != 0 && *found != *byte)
}

/// Whether a file may be one that was begun with these bytes: it has the first of them, or zeros in their place, as a
/// power cut leaves them. So nothing is lost with it. No guarantee: as above.
fn is_begun(rt: &HostRuntime, file: &File, bytes: &[u8]) -> io::Result<bool> {
    let length = file.metadata()?.len();
    if length > bytes.len() as u64 {
        return Ok(false);
    }
    let mut found = Vec::new(rt.alloc());
    found.resize(length as usize, 0)?;
    file.read_exact_at(&mut found, 0)?;
    Ok(!is_other(&found, bytes))
}

/// A path at which a new store is to stand, its folder, and the path beside it under which it is made.
#[derive(Drop)]
struct Place<'a> {
    rt: &'a HostRuntime,
    path: &'a str,
    beside: String,
    folder: File,
}

impl<'a> Place<'a> {
    /// The place at a path, whose folder may be read. No guarantee: as above.
    fn open(rt: &'a HostRuntime, path: &'a str) -> io::Result<Place<'a>> {
        let folder = match Path::new(path).parent() {
            Some(folder) if !folder.as_str().is_empty() => folder.as_str(),
            _ => ".",
        };
        Ok(Place {
            rt,
            path,
            beside: path_with(rt, path, BESIDE)?,
            folder: File::open(rt, folder)?,
        })
    }

    /// Whether something stands at the path. No guarantee: as above.
    fn is_filled(&self) -> io::Result<bool> {
        Ok(found_at(self.rt, self.path)?.is_some())
    }

    /// Takes a file that has the name beside, as SQLite locks a database, so that nobody else removes it: not where
    /// another has taken it, or it lost its name meanwhile. A command that is stopped lets go of it. `NoWay` where there
    /// are no locks. No guarantee: as above.
    fn is_taken(&self, file: &File) -> Result<bool, Unmade> {
        if os::try_lock_range(file.as_raw_fd(), RangeLock::Exclusive, FIRST_LOCKED, LOCKED) != 0 {
            let error = io::Error::from_raw_os_error(os::errno());
            return if error.kind() == ErrorKind::WouldBlock {
                Ok(false)
            } else {
                Err(Unmade::NoWay)
            };
        }
        let found = file.metadata()?;
        match found_at(self.rt, self.beside.as_str())? {
            Some(named) => Ok(are_same(&found, &named)),
            None => Ok(false),
        }
    }

    /// Takes the name beside from what has it. Where that fails, another command has done it, or the next one does. No
    /// guarantee: as above.
    fn drop_name(&self) {
        let _removed = fs::remove_file(self.rt, self.beside.as_str());
    }

    /// Removes the file that has the name beside, if it may be taken, has no log, and nothing is lost with it. No guarantee:
    /// as above.
    fn remove(&self, file: &File, bytes: &[u8]) -> Result<(), Unmade> {
        let beside = self.beside.as_str();
        let is_taken = self.is_taken(file)?;
        if logs_of(self.rt, beside)? != Logs::None || !is_begun(self.rt, file, bytes)? {
            return Err(Unmade::NoWay);
        }
        if !is_taken {
            return Err(Unmade::Again);
        }
        match fs::remove_file(self.rt, beside) {
            Ok(()) => Ok(()),
            Err(_) => Err(Unmade::NoWay),
        }
    }

    /// Removes what a stopped command has left under the name beside: a plain file with no other name and no log, which
    /// nobody has open, and with which nothing is lost. Another stays. No guarantee: as above.
    fn clear(&self, bytes: &[u8]) -> Result<(), Unmade> {
        let beside = self.beside.as_str();
        match found_at(self.rt, beside)? {
            Some(found) if found.is_file() && found.nlink() == 1 => {}
            Some(_) => return Err(Unmade::NoWay),
            None => return Ok(()),
        }
        let opened = OpenOptions::new()
            .read(true)
            .write(true)
            .open(self.rt, beside);
        let file = match opened {
            Ok(file) => file,
            Err(error) if error.kind() == ErrorKind::NotFound => return Ok(()),
            Err(_) => return Err(Unmade::NoWay),
        };
        let removed = self.remove(&file, bytes);
        // (it is taken until then)
        drop(file);
        removed
    }

    /// A new file with the name beside. No guarantee: as above.
    fn create(&self) -> Result<File, Unmade> {
        let made = OpenOptions::new()
            .write(true)
            .create_new(true)
            .mode(RIGHTS)
            .open(self.rt, self.beside.as_str());
        match made {
            Ok(file) => Ok(file),
            Err(error) if error.kind() == ErrorKind::AlreadyExists => Err(Unmade::Again),
            Err(error) => Err(error.into()),
        }
    }

    /// A new file with the name beside, which is taken. No guarantee: as above.
    fn begin(&self, bytes: &[u8]) -> Result<File, Unmade> {
        let file = match self.create() {
            Err(Unmade::Again) => {
                self.clear(bytes)?;
                self.create()?
            }
            made => made?,
        };
        match self.is_taken(&file) {
            Ok(true) => Ok(file),
            Ok(false) => Err(Unmade::Again),
            Err(end) => {
                self.drop_name();
                Err(end)
            }
        }
    }

    /// Writes bytes into the file with the name beside, and gives it the name of the path, once they are on the disk. No
    /// guarantee: as above.
    fn fill_and_name(&self, file: &File, bytes: &[u8]) -> io::Result<()> {
        file.write_all_at(bytes, 0)?;
        file.sync_all()?;
        fs::hard_link(self.rt, self.beside.as_str(), self.path)
    }

    /// Makes a file with these bytes at the path, if nothing stands there. No guarantee: as above.
    fn make(&self, bytes: &[u8]) -> Result<(), Unmade> {
        if self.is_filled()? {
            return Err(Unmade::Stands);
        }
        let file = match self.begin(bytes) {
            // It may be that of another, which has just got its second name.
            Err(Unmade::NoWay) if self.is_filled()? => return Err(Unmade::Stands),
            begun => begun?,
        };
        let named = self.fill_and_name(&file, bytes);
        self.drop_name();
        match named {
            Ok(()) => Ok(self.folder.sync_all()?),
            Err(error) => Err(unnamed(error)),
        }
    }

    /// The same, as long as patience lasts. False where it cannot be made so. No guarantee: as above.
    fn make_in_time(&self, bytes: &[u8], patience: Patience) -> Result<bool, NotOpened> {
        'tries: for _ in 0..TRIES {
            match self.make(bytes) {
                Ok(()) | Err(Unmade::Stands) => return Ok(true),
                Err(Unmade::NoWay) => return Ok(false),
                Err(Unmade::Again) if patience.is_left(self.rt) => {}
                Err(Unmade::Again) => return Err(OpenError::Store.into()),
                Err(Unmade::Failed(end)) => return Err(end),
            }
        }
        Err(OpenError::Store.into())
    }
}

/// Makes a file with these bytes at a path, if nothing stands there, as `make_whole_at`. No guarantee: as above.
fn make_file_at(
    rt: &HostRuntime,
    path: &str,
    bytes: &[u8],
    patience: Patience,
) -> Result<bool, NotOpened> {
    match Place::open(rt, path) {
        Ok(place) => {
            let made = place.make_in_time(bytes, patience);
            drop(place);
            made
        }
        Err(error) => Err(by_host(&error)),
    }
}

/// Makes a store at a path, whole or not at all, unless something stands there. False where it cannot be made so: a
/// journal or a log that may say something lies beside the path, or somebody else's file at the path with `-new`; or the
/// file system gives no second names, or no locks. No guarantee: as above.
pub(crate) fn make_whole_at<F: FileOpener>(
    rt: &HostRuntime,
    path: &str,
    options: Options,
    patience: Patience,
) -> Result<bool, NotOpened> {
    if is_no_file(path) || path.is_empty() || path.ends_with('/') {
        return Ok(false);
    }
    match logs_of(rt, path) {
        Ok(Logs::Full) => return Ok(false),
        Ok(_) => {}
        Err(error) => return Err(by_host(&error)),
    }
    let Ok(file) = new_store::<F>(rt.alloc(), options) else {
        return Err(OpenError::Memory.into());
    };
    let made = make_file_at(rt, path, file.bytes(), patience);
    drop(file);
    made
}

/// Takes from a store the second name that it has where a command was stopped between giving it its name and taking the
/// one beside: a database with two names is refused. No guarantee: as above.
pub(crate) fn drop_second_name_at(rt: &HostRuntime, path: &str) -> Result<(), NotOpened> {
    let Ok(found) = fs::metadata(rt, path) else {
        return Ok(());
    };
    if !found.is_file() || found.nlink() != 2 {
        return Ok(());
    }
    let Ok(real) = fs::canonicalize(rt, path) else {
        return Ok(());
    };
    let Ok(beside) = path_with(rt, real.as_str(), BESIDE) else {
        return Err(OpenError::Memory.into());
    };
    match found_at(rt, beside.as_str()) {
        Ok(Some(named)) if are_same(&found, &named) => {
            // Where that fails, the opening refuses the store.
            let _removed = fs::remove_file(rt, beside.as_str());
            Ok(())
        }
        _ => Ok(()),
    }
}
