// A database file, opened so that its pages can be read.
ghost use Rattle.std.specs.Prelude.{◌≡◌, List, IsTrue, IfOk};
ghost use Rattle.sqlite_pages.specs.PageMap.{PageMap};
ghost use Rattle.sqlite_pool.specs.Stored.{AddsNothing, Recovers};
ghost use Rattle.sqlite_wal.specs.Files.{outcomes, seen_image};
ghost use Rattle.sqlite_wal.specs.PageSize.{bytes_of};
ghost use Rattle.sqlite_wal.specs.Reads.{AreClean};
ghost use Rattle.sqlite_wal.specs.Reads as disks;
ghost use Rattle.page_files.specs.Files.{page_size, may_leave, IsFaithful};
ghost use Rattle.page_files.specs.Held.{Has, Rests};
ghost use Rattle.sqlite_pool.specs.File.{in_use};
ghost use Rattle.sqlite_store.specs.declared.catalog.Wanted.{Wanted};
ghost use Rattle.sqlite_store.specs.Db.{roots_of};
ghost use Rattle.sqlite_trees.specs.Tree.{Trees};
ghost use Rattle.page_lists.specs.Opening.{failure_of_probe};
ghost use Rattle.page_lists.specs.Sizes.{IsSizeOf};

use page_files::PageFile;
use page_places::error_of;
use plain_tables::StoreError;
use sqlite_disk::{Disk, Files};
use sqlite_pager::{Options, Pager};
use sqlite_pool::Pool;
use sqlite_wal::{Error, PageSize, probe_first_page, probe_page_size};
use std::alloc::Global;

/// Bytes 20 to 23 of the header, where each page ends in a sum.
const WITH_SUMS: u32 = 0x0840_2020;

/// What a failure to look at files is for a caller.
fn error_of_probe(error: Error) -> StoreError
    ensures { result ≡ failure_of_probe error }
{
    match error {
        Error::OutOfMemory => StoreError::Memory,
        _ => StoreError::Store,
    }
}

/// The size of the pages, of files that begin as a database whose pages end in no sums. It only reads, as nothing
/// is to be written beside a file that is no database.
fn plain_size<D: Disk>(alloc: Global, files: &mut Files<D>) -> Result<PageSize, StoreError>
    requires log { IsTrue (D.Disk.is_usable files.old.log) }
    requires db { IsTrue (D.Disk.is_usable files.old.db) }
    ensures size { IfOk result (λ size. AreClean D.Disk files.new.log files.new.db
        → IsSizeOf (seen_image D.Disk files.old.log files.old.db) (bytes_of size)) }
    ensures log { disks.OnlyReads D.Disk files.old.log files.new.log }
    ensures db { disks.OnlyReads D.Disk files.old.db files.new.db }
{
    let Ok(Some(size)) = probe_page_size(files) else {
        return Err(StoreError::Store);
    };
    let head = match probe_first_page(alloc, files, size) {
        Ok(head) => head,
        Err(error) => return Err(error_of_probe(error)),
    };
    if head.0 != b'S' || head.1 == WITH_SUMS {
        return Err(StoreError::Store);
    }
    Ok(size)
}

/// Opens the database in two files, which are closed at an error. `Store` where it is none: where they name no size of
/// its pages or hold no sound header, or cannot be read; and where its pages end in sums. `Memory`.
pub fn open_file<D: Disk + Drop>(
    alloc: Global,
    mut files: Files<D>,
    options: Options,
) -> Result<PageFile<D>, StoreError>
    requires log { IsTrue (D.Disk.is_usable files.log) }
    requires db { IsTrue (D.Disk.is_usable files.db) }
    ensures size { IfOk result (λ file. IsFaithful file → IsSizeOf (seen_image D.Disk files.log files.db) (page_size file)) }
    ensures rests { IfOk result (λ file. IsFaithful file → (wanted : List Wanted) (db : Trees) (pages : PageMap)
        → Recovers (page_size file) (seen_image D.Disk files.log files.db) pages → Has (page_size file) wanted db pages
        → Rests wanted (roots_of (page_size file) wanted (in_use (page_size file) pages)) db file) }
    ensures honest { IfOk result (λ file. IsFaithful file → AreClean D.Disk files.log files.db) }
    ensures crash { IfOk result (λ file. AddsNothing (page_size file) (outcomes D.Disk files.log files.db) (may_leave file)) }
{
    let size = match plain_size(alloc, &mut files) {
        Ok(found) => found,
        Err(end) => {
            drop(files);
            return Err(end);
        }
    };
    let pager = match Pager::new(alloc, files, size, options) {
        Ok(pager) => pager,
        Err(failed) => {
            drop(failed);
            return Err(StoreError::Memory);
        }
    };
    let pool = match Pool::new(alloc, pager, false) {
        Ok(pool) => pool,
        Err(failed) => {
            drop(failed);
            return Err(StoreError::Memory);
        }
    };
    match PageFile::open(alloc, pool) {
        Ok(file) => Ok(file),
        Err(failed) => {
            let error = failed.error;
            drop(failed);
            Err(error_of(error))
        }
    }
}
