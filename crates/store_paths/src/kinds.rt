// Files of one kind, taken for files of either.
ghost use Rattle.std.specs.Prelude.{◌≡◌, IfSome};
ghost use Rattle.store_paths.specs.Either.{are_one, are_other};

use crate::either::EitherDisk;
use sqlite_disk::{Disk, Files};

/// Files of the first kind.
pub fn as_one<A: Disk, B: Disk>(files: Files<A>) -> Files<EitherDisk<A, B>>
    ensures { result ≡ are_one files }
{
    Files {
        log: EitherDisk::One(files.log),
        db: EitherDisk::One(files.db),
    }
}

/// Files of the second kind.
pub fn as_other<A: Disk, B: Disk>(files: Files<B>) -> Files<EitherDisk<A, B>>
    ensures { result ≡ are_other files }
{
    Files {
        log: EitherDisk::Other(files.log),
        db: EitherDisk::Other(files.db),
    }
}

/// Files that are of the second kind; none where one of them is of the first.
pub fn other_of<A: Disk + Drop, B: Disk + Drop>(files: Files<EitherDisk<A, B>>) -> Option<Files<B>>
    ensures { IfSome result (λ other. files ≡ are_other other) }
{
    match (files.log, files.db) {
        (EitherDisk::Other(log), EitherDisk::Other(db)) => Some(Files { log, db }),
        _ => None,
    }
}
