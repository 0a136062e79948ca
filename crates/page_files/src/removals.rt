// Many rows taken out of one tree within a transaction.
ghost use Rattle.page_files.specs.Removals.{has_prefix, without, without_rowids};
ghost use Rattle.page_files.specs.Files.{LeavesUsable};
ghost use Rattle.page_files.specs.Writes.{EditsTree};

use crate::files::PageFile;
use crate::tree_removals;
use sqlite_disk::Disk;
use sqlite_pages::Error;
use sqlite_trees::store::Shape;
use sqlite_value::keys::Order;
use sqlite_value::row::Row;
use std::alloc::Global;

impl<D: Disk> PageFile<D> {
    /// Takes the rows with these rowids, where there are such, out of the table under a root page. Rowids that
    /// rise are fast; another order costs time and nothing else. After an error `undo` is due.
    ///
    /// # Errors
    /// As `put`.
    pub fn delete_all(&mut self, alloc: Global, root: u32, rowids: &[i64]) -> Result<(), Error>
        ensures done { EditsTree self.old self.new Shape.Table root (without_rowids rowids.now) result }
        ensures leaves { LeavesUsable self.old self.new result }
    {
        tree_removals::delete_all(&mut self.pool, alloc, root, rowids)?;
        self.if_usable()
    }

    /// Takes each entry that begins with the columns of this prefix out of the index under a root page. After an
    /// error `undo` is due.
    ///
    /// # Errors
    /// As `put`.
    pub fn remove_under(
        &mut self,
        alloc: Global,
        root: u32,
        order: Order,
        prefix: &Row,
    ) -> Result<(), Error>
        ensures done { EditsTree self.old self.new (Shape.Index order) root (without (has_prefix order prefix.now)) result }
        ensures leaves { LeavesUsable self.old self.new result }
    {
        tree_removals::remove_under(&mut self.pool, alloc, root, order, prefix)?;
        self.if_usable()
    }
}
