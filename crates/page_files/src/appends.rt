// Many rows or entries at a time, within a transaction.
ghost use Rattle.std.specs.Prelude.{◌^◌, ◌<◌, All, length};
ghost use Rattle.sqlite_record.specs.Strict.{IsRecord};
ghost use Rattle.sqlite_trees.specs.Tree.{put_row, insert_entry};
ghost use Rattle.page_files.specs.Places.{rows_given, entries_given};
ghost use Rattle.page_files.specs.Files.{LeavesUsable};
ghost use Rattle.page_files.specs.Writes.{PlacesRows};

use crate::files::PageFile;
use crate::tree_appends;
use sqlite_disk::Disk;
use sqlite_pages::Error;
use sqlite_trees::store::Shape;
use sqlite_value::keys::Order;
use std::alloc::Global;

impl<D: Disk> PageFile<D> {
    /// Puts rows into the table under a root page, one after another, as `put` does. Each is a rowid and
    /// the record of its columns. Rows that rise, above all that are there, are written a page at a time.
    /// After an error call `undo`: some of them may be written.
    ///
    /// # Errors
    /// As `put`.
    pub fn append(&mut self, alloc: Global, root: u32, rows: &[(i64, &[u8])]) -> Result<(), Error>
        requires short { All (λ row. length row.1.now < 2 ^ 31) rows.now }
        requires strict { All (λ row. IsRecord row.1.now) rows.now }
        ensures done { PlacesRows self.old self.new Shape.Table root put_row (rows_given rows.now) result }
        ensures leaves { LeavesUsable self.old self.new result }
    {
        tree_appends::append(&mut self.pool, alloc, root, rows)?;
        self.if_usable()
    }

    /// Inserts entries into the index under a root page, one after another, as `insert` does. Each is given
    /// as its record. Entries that rise, above all that are there, are written a page at a time. After an
    /// error call `undo`.
    ///
    /// # Errors
    /// As `put`.
    pub fn append_entries(
        &mut self,
        alloc: Global,
        root: u32,
        order: Order,
        entries: &[&[u8]],
    ) -> Result<(), Error>
        requires short { All (λ entry. length entry.now < 2 ^ 31) entries.now }
        requires strict { All (λ entry. IsRecord entry.now) entries.now }
        ensures done { PlacesRows self.old self.new (Shape.Index order) root (insert_entry order) (entries_given entries.now) result }
        ensures leaves { LeavesUsable self.old self.new result }
    {
        tree_appends::append_entries(&mut self.pool, alloc, root, order, entries)?;
        self.if_usable()
    }
}
