// A database file that was opened with no check of its pages, and what is read from it.
ghost use Rattle.std.specs.Prelude.{◌≡◌, ◌<◌, ◌^◌, ℕ, List, [], Some, IsTrue, IfOk, IfErr, OnOk, MatchResult, false};
ghost use Rattle.sqlite_pages.specs.PageMap.{PageMap};
ghost use Rattle.sqlite_pool.specs.Pool as pools;
ghost use Rattle.sqlite_pool.specs.File.{in_use};
ghost use Rattle.sqlite_pool.specs.Opening.{image, AreUsable, HasSoundFile};
ghost use Rattle.sqlite_pool.specs.Backing.{FailsUnless};
ghost use Rattle.sqlite_pool.specs.Stored.{Recovers, AddsNothing};
ghost use Rattle.sqlite_trees.specs.Tree.{Trees};
ghost use Rattle.sqlite_trees.specs.View.{Finds};
ghost use Rattle.sqlite_value.specs.declared.keys.Order.{Order};
ghost use Rattle.sqlite_store.specs.declared.catalog.Wanted.{Wanted};
ghost use Rattle.sqlite_store.specs.Db.{table_row, roots_of};
ghost use Rattle.page_rows.specs.Rows.{from_rowid, rows_of, HasTable};
ghost use Rattle.page_rows.specs.Tables.{IsIndexNamed, IsNamed, root_of_tree};
ghost use Rattle.page_rows.specs.Walks.{HasWalked, Walks};

use crate::bounded::Scratch;
use page_rows::{RowSink, WalkError};
use sqlite_disk::{Disk, Files};
use sqlite_pages::Error;
use sqlite_pool::Pool;
use std::alloc::Global;

/// Files that were not opened.
#[derive(Drop)]
pub struct NotOpened<D: Disk> {
    pub error: Error,
    /// The files, which `Pool::close` gives back.
    pub pool: Pool<D>,
}

/// A database file that is read and written by its pages. Of the file, only the log, the header and the list of
/// free pages were looked at. Opening it recovers the log, and may begin it anew.
#[derive(Drop)]
pub struct PageFile<D: Disk> {
    pub(crate) pool: Pool<D>,
    pub(crate) scratch: Scratch,
}

impl<D: Disk> PageFile<D> {
    ghost use Rattle.page_files.specs.Files.{page_size, pages_of, files_of, may_leave, IsFaithful, IsUsable, FailsToRead, OnlyReads};
    ghost use Rattle.page_files.specs.Held.{Has, Rests};
    ghost use Rattle.page_files.specs.Trees.{ShowsDb, ShowsTable, trees_of};

    /// Opens the file of a pool that has not read yet. Errors: those of `Pool::recover`; `Corrupt` is
    /// for files that recover to no pages with a sound header and list of free pages.
    pub fn open(alloc: Global, mut pool: Pool<D>) -> Result<PageFile<D>, NotOpened<D>>
        requires { AreUsable pool }
        ensures size { IfOk result (λ it. page_size it ≡ (pools.state pool).page_size) }
        ensures rests { IfOk result (λ it. IsFaithful it → (wanted : List Wanted) (db : Trees) (pages : PageMap) → Recovers (page_size it) (image pool) pages
            → Has (page_size it) wanted db pages → Rests wanted (roots_of (page_size it) wanted (in_use (page_size it) pages)) db it) }
        ensures honest { MatchResult result (λ it. IsFaithful it → IsTrue (pools.state pool).is_clean)
            (λ failed. IsTrue (pools.state failed.pool).is_clean → IsTrue (pools.state pool).is_clean) }
        ensures crash { MatchResult result (λ it. AddsNothing (pools.state pool).page_size (pools.state pool).may_leave (may_leave it))
            (λ failed. AddsNothing (pools.state pool).page_size (pools.state pool).may_leave (pools.state failed.pool).may_leave) }
        ensures cause { IfErr result (λ failed. IsTrue (pools.state failed.pool).is_clean
            → FailsUnless (pools.state pool).faults (pools.opening_end failed.pool) (HasSoundFile (pools.state pool).page_size (image pool)) failed.error) }
    {
        match pool.recover(false) {
            Ok(()) => Ok(PageFile {
                pool,
                scratch: Scratch::new(alloc),
            }),
            Err(error) => Err(NotOpened { error, pool }),
        }
    }

    /// Gives the log and the database file back. What was written and not committed is lost.
    pub fn close(self) -> Files<D>
        ensures { (result.log, result.db) ≡ files_of self }
    {
        let PageFile { pool, scratch: _ } = self;
        pool.close()
    }

    /// `Io` where the files have failed for good: each call fails then until they are opened again.
    pub fn if_usable(&self) -> Result<(), Error>
        ensures usable { OnOk result (IsUsable self.now) }
        ensures cause { IfErr result (λ e. (e ≡ Error.Io) × ((pools.state self.now.pool).is_ready ≡ false)) }
    {
        if self.pool.is_open() {
            Ok(())
        } else {
            Err(Error::Io)
        }
    }

    /// The root page of the table with a name, byte for byte, as `sqlite_schema` states it; `None` where
    /// it has no entry of such a table. Errors: `OutOfMemory`, `Io`, and `Corrupt` for damaged pages.
    pub fn table_root(&mut self, alloc: Global, name: &[u8]) -> Result<Option<u32>, Error>
        ensures done { IsFaithful self.new → (wanted : List Wanted) (t : ℕ) → ShowsDb wanted self.old → IsNamed wanted t name.now
            → MatchResult result (λ root. root ≡ Some (root_of_tree (page_size self.old) wanted (pages_of self.old) t)) (FailsToRead self.old self.new) }
        ensures reads { OnlyReads self.old self.new }
        ensures usable { OnOk result (IsUsable self.new) }
    {
        let root = page_rows::root_named(&mut self.pool, alloc, b"table", name)?;
        self.if_usable()?;
        Ok(root)
    }

    /// The root page of the index with a name, as `table_root`.
    pub fn index_root(&mut self, alloc: Global, name: &[u8]) -> Result<Option<u32>, Error>
        ensures done { IsFaithful self.new → (wanted : List Wanted) (t : ℕ) (order : Order) → ShowsDb wanted self.old → IsIndexNamed wanted t order name.now
            → MatchResult result (λ root. root ≡ Some (root_of_tree (page_size self.old) wanted (pages_of self.old) t)) (FailsToRead self.old self.new) }
        ensures reads { OnlyReads self.old self.new }
        ensures usable { OnOk result (IsUsable self.new) }
    {
        let root = page_rows::root_named(&mut self.pool, alloc, b"index", name)?;
        self.if_usable()?;
        Ok(root)
    }

    /// Hands the rows of the table under a root page on, from a rowid on, by rising rowid, until no more
    /// are wanted. It holds one page and one row at a time. Errors: `Pages`, with `OutOfMemory`, `Io`, and
    /// `Corrupt` for damaged pages; and `Refused`.
    pub fn walk<T: RowSink>(
        &mut self,
        alloc: Global,
        root: u32,
        from: i64,
        sink: &mut T,
    ) -> Result<(), WalkError<T::Refusal>>
        ensures done { IsFaithful self.new → (wanted : List Wanted) (t : ℕ) → ShowsTable wanted t root self.old
            → (start : T.Start) → T.Has start [] sink.old → Walks (FailsToRead self.old self.new) T.Has T.Ends T.Refuses start sink.new
            (from_rowid from (trees_of wanted self.old t)) result }
        // Of any table, also of `sqlite_schema`, which is no tree of a schema.
        ensures rows { IsFaithful self.new → HasTable (page_size self.old) (pages_of self.old) root → (start : T.Start) → T.Has start [] sink.old
            → OnOk result (HasWalked T.Has T.Ends start (from_rowid from (rows_of (page_size self.old) (pages_of self.old) root)) sink.new) }
        ensures reads { OnlyReads self.old self.new }
        ensures usable { OnOk result (IsUsable self.new) }
    {
        let walked = page_rows::walk(&mut self.pool, alloc, root, from, sink);
        if let Err(WalkError::Pages(Error::OutOfMemory)) = walked {
            return Err(WalkError::Pages(self.table_fault(alloc, root)));
        }
        walked?;
        self.if_usable()?;
        Ok(())
    }

    /// Finds the row with a rowid in the table under a root page, and puts the bytes of its record into
    /// `payload`. Says whether there is one; where there is none, nothing is said of `payload`. Errors:
    /// `OutOfMemory`, `Io`, and `Corrupt` for damaged pages.
    pub fn find_row(
        &mut self,
        alloc: Global,
        root: u32,
        rowid: i64,
        payload: &mut Vec<u8>,
    ) -> Result<bool, Error>
        ensures done { IsFaithful self.new → (wanted : List Wanted) (t : ℕ) → ShowsTable wanted t root self.old
            → MatchResult result (Finds (trees_of wanted self.old t) rowid (table_row (rowid, payload.new.items))) (FailsToRead self.old self.new) }
        ensures reads { OnlyReads self.old self.new }
        ensures usable { OnOk result (IsUsable self.new) }
    {
        let found = page_rows::find_row(&mut self.pool, alloc, root, rowid, payload);
        if let Err(Error::OutOfMemory) = found {
            return Err(self.table_fault(alloc, root));
        }
        let found = found?;
        self.if_usable()?;
        Ok(found)
    }
}
