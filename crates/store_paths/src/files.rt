// The files of a database, made read-only.
ghost use Rattle.std.specs.Prelude.{◌≡◌, ◌≤◌, length, IfSome, IsTrue};
ghost use Rattle.sqlite_wal.specs.Files.{outcomes, seen_image};
ghost use Rattle.sqlite_wal.specs.Reads.{AreClean};
ghost use Rattle.sqlite_wal.specs.Recovery.{Image};
ghost use Rattle.store_paths.specs.Untouched.{IsUntouched};

use crate::bytes::read_whole;
use crate::disk::ReadOnly;
use sqlite_disk::{Disk, Files, Start};
use std::alloc::Global;

/// The same files, which are only read from now on. The log is read whole into memory, and is not called
/// again. None where the log is longer than `most` bytes, cannot be read, or memory runs out; then the files
/// are closed.
pub fn read_only<D: Disk + Drop, S: Start>(
    alloc: Global,
    files: Files<D>,
    most: usize,
) -> Option<Files<ReadOnly<D, S>>>
    requires log { IsUntouched D.Disk S.Start.log files.log }
    requires db { IsUntouched D.Disk S.Start.db files.db }
    ensures log { IfSome result (λ it. IsTrue (⟦<ReadOnly<D, S> as Disk>⟧.is_usable it.log)) }
    ensures db { IfSome result (λ it. IsTrue (⟦<ReadOnly<D, S> as Disk>⟧.is_usable it.db)) }
    ensures shows { IfSome result (λ it. AreClean ⟦<ReadOnly<D, S> as Disk>⟧ it.log it.db
        → seen_image ⟦<ReadOnly<D, S> as Disk>⟧ it.log it.db ≡ seen_image D.Disk files.log files.db) }
    ensures clean { IfSome result (λ it. AreClean ⟦<ReadOnly<D, S> as Disk>⟧ it.log it.db → AreClean D.Disk files.log files.db) }
    ensures lasting { IfSome result (λ it. (left : Image) → outcomes ⟦<ReadOnly<D, S> as Disk>⟧ it.log it.db left
        → left ≡ seen_image ⟦<ReadOnly<D, S> as Disk>⟧ it.log it.db) }
    ensures most { IfSome result (λ it. length (⟦<ReadOnly<D, S> as Disk>⟧.seen it.log) ≤ most) }
    ensures faults { IfSome result (λ it. (⟦<ReadOnly<D, S> as Disk>⟧.faults it.log ≡ D.Disk.faults files.log)
        × (⟦<ReadOnly<D, S> as Disk>⟧.faults it.db ≡ D.Disk.faults files.db)) }
    ensures key { IfSome result (λ it. (⟦<ReadOnly<D, S> as Disk>⟧.key_of it.log ≡ D.Disk.key_of files.log)
        × (⟦<ReadOnly<D, S> as Disk>⟧.key_of it.db ≡ D.Disk.key_of files.db)) }
{
    let Files { mut log, db } = files;
    let bytes = read_whole(alloc, &mut log, most)?;
    Some(Files {
        log: ReadOnly::over_log(log, bytes),
        db: ReadOnly::over_file(db),
    })
}
