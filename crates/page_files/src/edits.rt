// One row or entry at a time (specs/Trees.antt).
ghost use Rattle.std.specs.Prelude.{◌≡◌, ◌^◌, ◌<◌, length};
ghost use Rattle.sqlite_pages.specs.Calls.{Continues};
ghost use Rattle.sqlite_trees.specs.Tree.{put_row, without_rowid, insert_entry, remove_entry};
ghost use Rattle.sqlite_record.specs.Record.{decode};
ghost use Rattle.sqlite_record.specs.Strict.{IsRecord};
ghost use Rattle.sqlite_store.specs.Db.{table_row};
ghost use Rattle.page_files.specs.OneTree.{EditsTree, PlacesRow};

use crate::bounded::{Scratch, insert_record, remove_record};
use crate::probes::AtRow;
use sqlite_btree::table;
use sqlite_pages::{Error, Pages};
use sqlite_trees::store::Shape;
use sqlite_value::keys::Order;
use sqlite_value::row::Row;

/// Puts a row into the table under this root, in the place of the row with that rowid. `fields` is
/// the record of its columns.
///
/// # Errors
/// The disk failed, memory ran out, the file is full, or the tree has the 20 levels that SQLite reads.
pub fn put<P: Pages>(
    store: &mut P,
    scratch: &mut Scratch,
    root: u32,
    rowid: i64,
    fields: &[u8],
) -> Result<(), Error>
    requires short { length fields.now < 2 ^ 31 }
    requires strict { IsRecord fields.now }
    ensures done { PlacesRow P.Pages store.old store.new Shape.Table root (table_row (rowid, fields.now)) put_row result }
    ensures kept { Continues P.Pages store.old store.new }
{
    table::insert(store, &mut scratch.buffers, root, rowid, fields)?;
    Ok(())
}

/// Takes the row with this rowid, if there is one, out of the table under this root.
///
/// # Errors
/// As `put`.
pub fn delete<P: Pages>(
    store: &mut P,
    scratch: &mut Scratch,
    root: u32,
    rowid: i64,
) -> Result<(), Error>
    ensures done { EditsTree P.Pages store.old store.new Shape.Table root (without_rowid rowid) result }
    ensures kept { Continues P.Pages store.old store.new }
{
    table::remove(store, &mut scratch.buffers, root, rowid)?;
    Ok(())
}

/// Inserts an entry into the index under this root, unless one is there that its order calls equal.
/// `fields` is the entry's record.
///
/// # Errors
/// As `put`.
pub fn insert<P: Pages>(
    store: &mut P,
    scratch: &mut Scratch,
    root: u32,
    order: Order,
    entry: &Row,
    fields: &[u8],
) -> Result<(), Error>
    requires short { length fields.now < 2 ^ 31 }
    requires strict { IsRecord fields.now }
    requires encoded { decode fields.now ≡ entry.now }
    ensures done { PlacesRow P.Pages store.old store.new (Shape.Index order) root entry.now (insert_entry order) result }
    ensures kept { Continues P.Pages store.old store.new }
{
    insert_record(store, scratch, root, &AtRow(order, entry), fields)?;
    Ok(())
}

/// Takes the entry that the index's order calls equal to this one, if there is one, out of the index
/// under this root.
///
/// # Errors
/// As `put`.
pub fn remove<P: Pages>(
    store: &mut P,
    scratch: &mut Scratch,
    root: u32,
    order: Order,
    entry: &Row,
) -> Result<(), Error>
    ensures done { EditsTree P.Pages store.old store.new (Shape.Index order) root (remove_entry order entry.now) result }
    ensures kept { Continues P.Pages store.old store.new }
{
    remove_record(store, scratch, root, &AtRow(order, entry))?;
    Ok(())
}
