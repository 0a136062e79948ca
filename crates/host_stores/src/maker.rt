// Makes the store at a path by SQL, over any files.
ghost use Rattle.std.specs.Prelude.{IsTrue};

use crate::refusals::is_to_be_migrated;
use crate::stores::{look_at, make_missing_at};
use sqlite_disk::Files;
use sqlite_pager::Options;
use std::alloc::Global;
use std::rt::HostRuntime;
use store_paths::{FileOpener, NotOpened, Patience, StoreMaker};

/// Makes a store by SQL, or looks at it.
pub struct SqlMaker;

impl<F: FileOpener> StoreMaker<F> for SqlMaker {
    fn make_missing(rt: &HostRuntime, path: &str, patience: Patience) -> Result<bool, NotOpened> {
        make_missing_at::<F>(rt, path, patience)
    }

    fn look(rt: &HostRuntime, path: &str, patience: Patience) -> Result<(), NotOpened> {
        look_at::<F>(rt, path, patience)
    }

    fn is_to_be_migrated(
        alloc: Global,
        files: Files<F::File>,
        options: Options,
    ) -> Result<bool, NotOpened>
        requires log { IsTrue (F.File.Disk.is_usable files.log) }
        requires db { IsTrue (F.File.Disk.is_usable files.db) }
    {
        is_to_be_migrated::<F>(alloc, files, options)
    }
}
