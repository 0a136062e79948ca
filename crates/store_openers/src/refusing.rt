// Why the store at a path is not read beside others, as its database says: it is opened by SQL over files that are only read.
ghost use Rattle.std.specs.Prelude.{IsTrue};

use plain_tables::StoreError;
use prof_store::OpenError;
use sqlite_disk::Files;
use sqlite_pager::Options;
use std::rt::HostRuntime;
use store_paths::{FileOpener, Standing, StoreMaker, Unread, has_stood, options_for};

/// How many pages are kept in memory where a store is only read: each is read once, and more would only have to be made.
pub(crate) const PAGES_TO_READ: usize = 100;

/// Why a store is refused that its pages refuse, by what its database says over files that are only read, which others may
/// write. No guarantee: of the files at a path the checker knows nothing, here and below.
fn refused_in<F: FileOpener, M: StoreMaker<F>>(
    rt: &HostRuntime,
    files: Files<F::File>,
    options: Options,
    standing: &Standing,
) -> Unread
    requires log { IsTrue (F.File.Disk.is_usable files.log) }
    requires db { IsTrue (F.File.Disk.is_usable files.db) }
{
    let found = M::is_to_be_migrated(rt.alloc(), files, options);
    if !has_stood(rt, standing) {
        return Unread::Moved;
    }
    match found {
        Ok(true) => Unread::First,
        Ok(false) => Unread::Refused(OpenError::Store.into()),
        Err(end) => Unread::Refused(end),
    }
}

/// The same of the store at a path.
fn refused_at<F: FileOpener, M: StoreMaker<F>>(rt: &HostRuntime, path: &str) -> Unread {
    let Ok(options) = options_for(rt, PAGES_TO_READ) else {
        return Unread::Unfit;
    };
    match F::beside(rt, path) {
        Ok((files, standing)) => refused_in::<F, M>(rt, files, options, &standing),
        Err(why) => why,
    }
}

/// What comes of a store at a path whose pages are not read beside others.
pub(crate) fn unread<F: FileOpener, M: StoreMaker<F>>(
    rt: &HostRuntime,
    path: &str,
    standing: &Standing,
    error: StoreError,
) -> Unread {
    match error {
        StoreError::Memory => Unread::Refused(OpenError::Memory.into()),
        StoreError::Store if !has_stood(rt, standing) => Unread::Moved,
        StoreError::Store => refused_at::<F, M>(rt, path),
    }
}
