// The entries of an index.
ghost use Rattle.std.specs.Prelude.{ℕ, List, [], OnOk};
ghost use Rattle.sqlite_store.specs.declared.catalog.Wanted.{Wanted};
ghost use Rattle.page_rows.specs.Indexes.{from_entry};
ghost use Rattle.page_rows.specs.Walks.{Walks};
ghost use Rattle.page_files.specs.Files.{IsFaithful, IsUsable, FailsToRead, OnlyReads};
ghost use Rattle.page_files.specs.Trees.{ShowsIndex, trees_of};

use crate::files::PageFile;
use page_rows::{EntrySink, WalkError};
use sqlite_disk::Disk;
use sqlite_value::keys::Order;
use sqlite_value::row::Row;
use std::alloc::Global;

impl<D: Disk> PageFile<D> {
    /// Hands the entries of the index under a root page on, by its order, from the first that is not below
    /// `from`, until no more are wanted. A `from` of fewer columns is below each entry that it begins. It
    /// holds one page and two entries at a time. Errors: `Pages`, with `OutOfMemory`, `Io`, and `Corrupt`
    /// for damaged pages; and `Refused`.
    pub fn walk_entries<T: EntrySink>(
        &mut self,
        alloc: Global,
        root: u32,
        order: Order,
        from: &Row,
        sink: &mut T,
    ) -> Result<(), WalkError<T::Refusal>>
        ensures done { IsFaithful self.new → (wanted : List Wanted) (t : ℕ) → ShowsIndex wanted t order root self.old
            → (start : T.Start) → T.Has start [] sink.old → Walks (FailsToRead self.old self.new) T.Has T.Ends T.Refuses start sink.new
            (from_entry order from.now (trees_of wanted self.old t)) result }
        ensures reads { OnlyReads self.old self.new }
        ensures usable { OnOk result (IsUsable self.new) }
    {
        page_rows::walk_entries(&mut self.pool, alloc, root, order, from, sink)?;
        self.if_usable()?;
        Ok(())
    }
}
