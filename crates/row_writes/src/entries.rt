// The entries of a row in the indexes of its table.
ghost use Rattle.std.specs.Prelude.{OnOk, ⊤};
ghost use Rattle.sqlite_pool.specs.Pool as pools;
ghost use Rattle.sqlite_pool.specs.Stored.{Keeps};
ghost use Rattle.sqlite_trees.specs.Tree.{insert_entry, remove_entry};
ghost use Rattle.page_files.specs.Files.{IsUsable};
ghost use Rattle.page_places.specs.Changes.{AreStorable};
ghost use Rattle.page_places.specs.Entries.{EditsEntries};

use crate::records::{make_entry, write_record};
use page_files::PageFile;
use page_places::{IndexPlace, RowError};
use sqlite_disk::Disk;
use sqlite_value::keys::Order;
use sqlite_value::row::Row;
use std::alloc::Global;

/// Inserts the entries of a row.
pub(crate) fn insert_entries<D: Disk>(
    file: &mut PageFile<D>,
    alloc: Global,
    indexes: &[IndexPlace<'_>],
    row: &Row,
) -> Result<(), RowError>
    ensures done { EditsEntries file.old file.new indexes.now insert_entry row.now (AreStorable row.now) result }
    ensures usable { IsUsable file.old → OnOk result (IsUsable file.new) }
    ensures keeps { Keeps (pools.state file.old.pool) (pools.state file.new.pool) }
{
    let mut entry = Row::new(alloc);
    let (mut types, mut fields) = (Vec::new(alloc), Vec::new(alloc));
    for index in indexes {
        make_entry(&mut entry, index.columns, row)?;
        write_record(&entry, 0, &mut types, &mut fields)?;
        file.insert(index.root, Order::PLAIN, &entry, fields.as_slice())?;
    }
    Ok(())
}

/// Removes the entries of a row.
pub(crate) fn remove_entries<D: Disk>(
    file: &mut PageFile<D>,
    alloc: Global,
    indexes: &[IndexPlace<'_>],
    row: &Row,
) -> Result<(), RowError>
    ensures done { EditsEntries file.old file.new indexes.now remove_entry row.now (λ _. ⊤) result }
    ensures usable { IsUsable file.old → OnOk result (IsUsable file.new) }
    ensures keeps { Keeps (pools.state file.old.pool) (pools.state file.new.pool) }
{
    let mut entry = Row::new(alloc);
    for index in indexes {
        make_entry(&mut entry, index.columns, row)?;
        file.remove(index.root, Order::PLAIN, &entry)?;
    }
    Ok(())
}
