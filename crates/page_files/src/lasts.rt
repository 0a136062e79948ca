// The last row of a table.
ghost use Rattle.std.specs.Prelude.{◌≡◌, ℕ, List, OnOk, MatchResult};
ghost use Rattle.sqlite_pages.specs.Calls.{IsClean, Continues, FailsFor};
ghost use Rattle.sqlite_store.specs.declared.catalog.Wanted.{Wanted};
ghost use Rattle.page_rows.specs.Rows.{HasTable, rows_of};
ghost use Rattle.page_files.specs.Files.{IsFaithful, IsUsable, FailsToRead, OnlyReads};
ghost use Rattle.page_files.specs.Lasts.{IsLastRowid};
ghost use Rattle.page_files.specs.Trees.{ShowsTable, trees_of};

use crate::files::PageFile;
use page_rows::{Loads, last_row};
use sqlite_btree::{Batch, Scratch, table};
use sqlite_disk::Disk;
use sqlite_pages::{Error, Pages};
use std::alloc::Global;

fn last_of<P: Pages>(store: &mut P, alloc: Global, root: u32) -> Result<Option<i64>, Error>
    ensures done { IsClean P.Pages store.new → HasTable (P.Pages.size store.old) (P.Pages.pages store.old) root
        → MatchResult result (IsLastRowid (rows_of (P.Pages.size store.old) (P.Pages.pages store.old) root)) (FailsFor P.Pages store.old store.new ⊥) }
    ensures kept { Continues P.Pages store.old store.new }
    ensures pages { P.Pages.pages store.new ≡ P.Pages.pages store.old }
{
    let mut scratch = Scratch::new(alloc);
    let mut batch = Batch::new(alloc);
    table::fill_back(store, &mut scratch, root, i64::MAX, &mut batch)?;
    let mut loads = Loads::of_rows(alloc);
    if last_row(store, &mut loads, &mut batch)? {
        Ok(Some(batch.rowid()))
    } else {
        Ok(None)
    }
}

impl<D: Disk> PageFile<D> {
    /// The rowid of the last row of the table under a root page, which is its greatest; `None` where the
    /// table is empty. It reads one page of each level. Errors: `OutOfMemory`, `Io`, and `Corrupt` for
    /// damaged pages.
    pub fn last_rowid(&mut self, alloc: Global, root: u32) -> Result<Option<i64>, Error>
        ensures done { IsFaithful self.new → (wanted : List Wanted) (t : ℕ) → ShowsTable wanted t root self.old
            → MatchResult result (IsLastRowid (trees_of wanted self.old t)) (FailsToRead self.old self.new) }
        ensures reads { OnlyReads self.old self.new }
        ensures usable { OnOk result (IsUsable self.new) }
    {
        let last = last_of(&mut self.pool, alloc, root);
        if let Err(Error::OutOfMemory) = last {
            return Err(self.table_fault(alloc, root));
        }
        let last = last?;
        self.if_usable()?;
        Ok(last)
    }
}
