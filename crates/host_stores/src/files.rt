// Files of one type, however a store is opened.
ghost use Rattle.std.specs.Prelude.{◌≡◌, [], IfOk, IfSome};
ghost use Rattle.sqlite_disk.specs.Memory.{memory_bytes};
ghost use Rattle.sqlite_wal.specs.Reads.{AreClean};
ghost use Rattle.sqlite_wal.specs.Files.{image_at};
ghost use Rattle.sqlite_wal.specs.Recovery.{Image};
ghost use Rattle.store_paths.specs.Either.{are_one, are_other};
ghost use Rattle.store_paths.specs.Shown.{ShowImage};
ghost use Rattle.host_stores.specs.Files.{AreUntouched};

use crate::hosts::Host;
use prof_store::OpenError;
use sqlite_disk::{Disk, Files as DiskFiles, Memory, Start};
use std::alloc::Global;
use std::marker::PhantomData;
use std::rt::HostRuntime;
use store_paths::{
    EitherDisk, FileOpener, NotOpened, Patience, ReadOnly, Standing, Unopened, Unread, as_one,
    as_other, has_stood, other_of, read_only,
};

/// The longest log that is read whole into memory, in bytes: 64 MiB. A longer one is recovered in its file.
const LONGEST_LOG: usize = 0x400_0000;

/// Files of the first of four kinds.
fn as_first<A: Disk, B: Disk, C: Disk>(
    files: DiskFiles<A>,
) -> DiskFiles<EitherDisk<EitherDisk<A, B>, C>>
    ensures { result ≡ are_one (are_one files) }
{
    as_one(as_one(files))
}

/// Files of the fourth of four kinds.
fn as_fourth<A: Disk, B: Disk, C: Disk>(
    files: DiskFiles<C>,
) -> DiskFiles<EitherDisk<A, EitherDisk<B, C>>>
    ensures { result ≡ are_other (are_other files) }
{
    as_other(as_other(files))
}

/// Files that are of the fourth kind; none where one of them is not.
fn fourth_of<A: Disk + Drop, B: Disk + Drop, C: Disk + Drop>(
    files: DiskFiles<EitherDisk<A, EitherDisk<B, C>>>,
) -> Option<DiskFiles<C>>
    ensures { IfSome result (λ fourth. files ≡ are_other (are_other fourth)) }
{
    other_of(other_of(files)?)
}

/// Files that are only read from now on, as `read_only`, taken for the second of four kinds.
fn read_as_second<D: Disk + Drop, S: Start, A: Disk, C: Disk>(
    alloc: Global,
    files: DiskFiles<D>,
) -> Option<DiskFiles<EitherDisk<EitherDisk<A, ReadOnly<D, S>>, C>>>
    requires { AreUntouched D.Disk S.Start files }
    ensures { IfSome result (ShowImage ⟦<EitherDisk<EitherDisk<A, ReadOnly<D, S>>, C> as Disk>⟧ (image_at S.Start)) }
{
    let files = read_only(alloc, files, LONGEST_LOG)?;
    Some(as_one(as_other(files)))
}

/// The same, taken for the third.
fn read_as_third<D: Disk + Drop, S: Start, A: Disk, C: Disk>(
    alloc: Global,
    files: DiskFiles<D>,
) -> Option<DiskFiles<EitherDisk<A, EitherDisk<ReadOnly<D, S>, C>>>>
    requires { AreUntouched D.Disk S.Start files }
    ensures { IfSome result (ShowImage ⟦<EitherDisk<A, EitherDisk<ReadOnly<D, S>, C>> as Disk>⟧ (image_at S.Start)) }
{
    let files = read_only(alloc, files, LONGEST_LOG)?;
    Some(as_other(as_one(files)))
}

/// Why files are not read beside others. No guarantee: of the files at a path the checker knows nothing.
fn unopened(why: Unopened) -> Unread {
    match why {
        Unopened::Moved => Unread::Moved,
        Unopened::OutOfMemory => Unread::Refused(OpenError::Memory.into()),
        Unopened::Io(_) | Unopened::Unfit => Unread::Unfit,
    }
}

/// Files with what they were, where their log is held in memory. A log that is too long, or cannot be read whole, is that of
/// files that are not to be read so, unless others write it.
fn held_beside<D: Disk>(
    rt: &HostRuntime,
    files: Option<DiskFiles<D>>,
    standing: Standing,
) -> Result<(DiskFiles<D>, Standing), Unread>
    ensures { (image : Image) → IfSome files (ShowImage D.Disk image) → IfOk result (λ held. ShowImage D.Disk image held.0) }
{
    match files {
        Some(files) => Ok((files, standing)),
        None if has_stood(rt, &standing) => Err(Unread::Unfit),
        None => Err(Unread::Moved),
    }
}

/// A file of a host, of any of three kinds, or one in memory.
pub type HostFile<H> = EitherDisk<
    EitherDisk<<H as Host>::Locked, ReadOnly<<H as Host>::Locked, <H as Host>::Start>>,
    EitherDisk<ReadOnly<<H as Host>::Shared, <H as Host>::Start>, Memory>,
>;

/// Opens files of a host.
pub struct HostOpener<H: Host> {
    _host: PhantomData<H>,
}

impl<H: Host> FileOpener for HostOpener<H> {
    ghost use Rattle.sqlite_wal.specs.Files.{image_at};

    type File = HostFile<H>;

    ghost image = { image_at H.Start.Start };

    fn to_change(
        rt: &HostRuntime,
        path: &str,
        patience: Patience,
    ) -> Result<DiskFiles<HostFile<H>>, NotOpened>
        ensures { IfOk result (ShowImage ⟦<HostFile<H> as Disk>⟧ (image_at H.Start.Start)) }
    {
        Ok(as_first(H::lock(rt, path, patience)?))
    }

    fn alone(
        rt: &HostRuntime,
        path: &str,
        patience: Patience,
    ) -> Result<DiskFiles<HostFile<H>>, NotOpened>
        ensures { IfOk result (ShowImage ⟦<HostFile<H> as Disk>⟧ (image_at H.Start.Start)) }
    {
        match read_as_second(rt.alloc(), H::lock(rt, path, patience)?) {
            Some(files) => Ok(files),
            None => Err(OpenError::Store.into()),
        }
    }

    fn beside(rt: &HostRuntime, path: &str) -> Result<(DiskFiles<HostFile<H>>, Standing), Unread>
        ensures { IfOk result (λ opened. ShowImage ⟦<HostFile<H> as Disk>⟧ (image_at H.Start.Start) opened.0) }
    {
        match H::share(rt, path) {
            Ok((files, standing)) => { held_beside(rt, read_as_third(rt.alloc(), files), standing) }
            Err(why) => Err(unopened(why)),
        }
    }

    fn to_look(rt: &HostRuntime, path: &str) -> Option<DiskFiles<HostFile<H>>>
        ensures { IfSome result (ShowImage ⟦<HostFile<H> as Disk>⟧ (image_at H.Start.Start)) }
    {
        match H::share_to_look(rt, path) {
            Ok(files) => read_as_third(rt.alloc(), files),
            Err(_) => None,
        }
    }

    fn in_memory(alloc: Global) -> DiskFiles<HostFile<H>>
        ensures { ShowImage ⟦<HostFile<H> as Disk>⟧ (record { log = []; db = [] }) result }
    {
        as_fourth(DiskFiles {
            log: Memory::new(alloc),
            db: Memory::new(alloc),
        })
    }

    fn into_memory(files: DiskFiles<HostFile<H>>) -> Option<Memory>
        ensures clean { IfSome result (λ _. AreClean ⟦<HostFile<H> as Disk>⟧ files.log files.db) }
        ensures bytes { IfSome result (λ file. memory_bytes file ≡ ⟦<HostFile<H> as Disk>⟧.seen files.db) }
    {
        match fourth_of(files) {
            Some(files) => Some(files.db),
            None => None,
        }
    }
}
