// What opens the files of a store.
ghost use Rattle.std.specs.Prelude.{◌≡◌, [], IfOk, IfSome, IsTrue};
ghost use Rattle.sqlite_disk.specs.Memory.{memory_bytes};
ghost use Rattle.sqlite_wal.specs.Reads.{AreClean};
ghost use Rattle.sqlite_wal.specs.Recovery.{Image};
ghost use Rattle.store_paths.specs.Shown.{ShowImage};

use crate::errors::NotOpened;
use crate::opening::Standing;
use crate::patience::Patience;
use sqlite_disk::{Disk, Files, Memory};
use sqlite_pager::Options;
use std::alloc::Global;
use std::rt::HostRuntime;

/// Why the store at a path is not read beside others, who may write it.
#[derive(Drop)]
pub enum Unread {
    /// Others wrote while the store was read.
    Moved,
    /// The store is refused, and nothing of it was written.
    Refused(NotOpened),
    /// It is of version 1, and is brought up to this one when it is opened to be changed.
    First,
    /// Nothing is known of it: the files are not to be read so, or what is asked of it changes it.
    Unfit,
}

/// Opens the files of the store at a path: to be changed, or only read, alone or beside others. They are of one type, so that
/// what is done over a store, by its pages or by SQL, is compiled once.
pub trait FileOpener {
    /// One of the files.
    type File: Disk + Drop;

    /// What they show as they are opened.
    ghost image: { Image };

    /// The files, to be changed with no other beside, who is waited for. They are made if they are missing.
    fn to_change(
        rt: &HostRuntime,
        path: &str,
        patience: Patience,
    ) -> Result<Files<Self::File>, NotOpened>
        ensures { IfOk result (ShowImage Self.File.Disk image) };

    /// The same, only to be read: not a byte of them is written. `Store` where their log cannot be held in memory.
    fn alone(
        rt: &HostRuntime,
        path: &str,
        patience: Patience,
    ) -> Result<Files<Self::File>, NotOpened>
        ensures { IfOk result (ShowImage Self.File.Disk image) };

    /// The files, to be read beside others, and what they were.
    fn beside(rt: &HostRuntime, path: &str) -> Result<(Files<Self::File>, Standing), Unread>
        ensures { IfOk result (λ opened. ShowImage Self.File.Disk image opened.0) };

    /// The files, to be looked at, whoever writes them meanwhile.
    fn to_look(rt: &HostRuntime, path: &str) -> Option<Files<Self::File>>
        ensures { IfSome result (ShowImage Self.File.Disk image) };

    /// Empty files in memory.
    fn in_memory(alloc: Global) -> Files<Self::File>
        ensures { ShowImage Self.File.Disk (record { log = []; db = [] }) result };

    /// The second of files that are in memory.
    fn into_memory(files: Files<Self::File>) -> Option<Memory>
        ensures clean { IfSome result (λ _. AreClean Self.File.Disk files.log files.db) }
        ensures bytes { IfSome result (λ file. memory_bytes file ≡ Self.File.Disk.seen files.db) };
}

/// Makes the store at a path whose files `F` opens, or looks at it by SQL. No guarantee: of the files at a path the checker knows
/// nothing.
pub trait StoreMaker<F: FileOpener> {
    /// Makes the store where there is none, and takes from one that stands there the second name that a stop has left.
    /// Answers whether it is new.
    fn make_missing(rt: &HostRuntime, path: &str, patience: Patience) -> Result<bool, NotOpened>;

    /// Looks at the store by SQL: one of version 1 is migrated, and what is no store is refused for what it is.
    fn look(rt: &HostRuntime, path: &str, patience: Patience) -> Result<(), NotOpened>;

    /// Whether the database in files that are only read is a store of version 1 that can be brought up to version 2.
    fn is_to_be_migrated(
        alloc: Global,
        files: Files<F::File>,
        options: Options,
    ) -> Result<bool, NotOpened>
        requires log { IsTrue (F.File.Disk.is_usable files.log) }
        requires db { IsTrue (F.File.Disk.is_usable files.db) };
}
