// The files of a host.
ghost use Rattle.std.specs.Prelude.{◌≡◌, true, false, IfOk, IsTrue};
ghost use Rattle.sqlite_std_file.specs.File.{file_is_usable, IsFresh};
ghost use Rattle.host_stores.specs.Files.{AreUntouched};

use crate::causes::at_path;
use crate::openings::Openings;
use prof_store::OpenError;
use sqlite_disk::{Disk, Files, Start};
use sqlite_std_file::{FileFrom, OpenError as PathError};
use std::marker::PhantomData;
use std::rt::HostRuntime;
use store_paths::{
    FileOf, NotOpened, Patience, Standing, TRIES, Unopened, is_no_file, open_to_look, open_to_read,
};

/// Opens files of a host. What is written over any host knows no type of its files: a call at such a type takes a third of a
/// minute to prove.
pub trait Host {
    /// What they hold as they are opened.
    type Start: Start;

    /// A file that no other has open.
    type Locked: Disk + Drop;

    /// A file that others may write.
    type Shared: Disk + Drop;

    /// The files of the database at a path, which are made if they are missing, and locked: another who has them open is
    /// waited for. No clause says which error comes, here and below: of the files at a path the checker knows nothing.
    fn lock(
        rt: &HostRuntime,
        path: &str,
        patience: Patience,
    ) -> Result<Files<Self::Locked>, NotOpened>
        ensures { IfOk result (AreUntouched Self.Locked.Disk Self.Start.Start) };

    /// The files, to be read beside others, and what they were.
    fn share(rt: &HostRuntime, path: &str) -> Result<(Files<Self::Shared>, Standing), Unopened>
        ensures { IfOk result (λ opened. AreUntouched Self.Shared.Disk Self.Start.Start opened.0) };

    /// The same, to be looked at, whoever writes them meanwhile.
    fn share_to_look(rt: &HostRuntime, path: &str) -> Result<Files<Self::Shared>, Unopened>
        ensures { IfOk result (AreUntouched Self.Shared.Disk Self.Start.Start) };
}

/// The files of the database at a path, which are made if they are missing, and locked: another who has them open is
/// waited for. `S` says what they hold then.
fn files_at<S: Openings>(
    rt: &HostRuntime,
    path: &str,
    patience: Patience,
) -> Result<Files<FileFrom<S>>, NotOpened>
    ensures log { IfOk result (λ files. IsTrue (file_is_usable S.Start files.log)) }
    ensures db { IfOk result (λ files. IsTrue (file_is_usable S.Start files.db)) }
    ensures fresh { IfOk result (λ files. IsFresh true files.log × IsFresh false files.db) }
{
    if is_no_file(path) {
        return Err(OpenError::Store.into());
    }
    'tries: for _ in 0..TRIES {
        match sqlite_std_file::open(rt, path, S::next()) {
            Ok(files) => return Ok(files),
            Err(PathError::Busy) if patience.is_left(rt) => {}
            Err(error) => return Err(at_path(error)),
        }
    }
    Err(OpenError::Store.into())
}

/// The host that the program runs on. `S` says what its files hold.
pub struct RunningHost<S: Openings> {
    _openings: PhantomData<S>,
}

impl<S: Openings> Host for RunningHost<S> {
    type Start = S;

    type Locked = FileFrom<S>;

    type Shared = FileOf<S>;

    fn lock(
        rt: &HostRuntime,
        path: &str,
        patience: Patience,
    ) -> Result<Files<FileFrom<S>>, NotOpened> {
        files_at(rt, path, patience)
    }

    fn share(rt: &HostRuntime, path: &str) -> Result<(Files<FileOf<S>>, Standing), Unopened> {
        open_to_read(rt, path, S::next())
    }

    fn share_to_look(rt: &HostRuntime, path: &str) -> Result<Files<FileOf<S>>, Unopened> {
        open_to_look(rt, path, S::next())
    }
}
