// Rows behind a table, and entries in an index: some hundred at a time (specs/Placed.antt).
ghost use Rattle.std.specs.Prelude.{OnOk, map};
ghost use Rattle.sqlite_pool.specs.Pool as pools;
ghost use Rattle.sqlite_pool.specs.Stored.{Keeps};
ghost use Rattle.sqlite_trees.specs.Tree.{insert_entry, put_row};
ghost use Rattle.sqlite_value.specs.Keys.{plain};
ghost use Rattle.page_files.specs.Files.{IsUsable};
ghost use Rattle.line_fills.specs.Causes.{HaveRecords};
ghost use Rattle.line_fills.specs.Placed.{FillsIndex, PlacesAll};
ghost use Rattle.line_fills.specs.Rows.{ArePlacesOf, HaveRowids, entries_at, numbered};

use crate::batches::{entry_records, row_records};
use crate::lines::PageLine;
use crate::sorting::in_order;
use page_files::PageFile;
use page_places::{IndexPlace, error_of};
use plain_tables::StoreError;
use sqlite_disk::Disk;
use sqlite_trees::store::Shape;
use sqlite_value::keys::Order;
use std::alloc::Global;

/// How many rows or entries are handed to the pages at once.
const BATCH: usize = 256;

/// Puts the rows of lines, which are numbered from `first` on, into the table under a root page.
pub(crate) fn append_rows<D: Disk, L: PageLine>(
    file: &mut PageFile<D>,
    alloc: Global,
    root: u32,
    first: u64,
    lines: &[L],
) -> Result<(), StoreError>
    requires room { HaveRowids first lines.now }
    ensures done { PlacesAll file.old file.new Shape.Table root put_row (numbered first (map L.columns lines.now))
        (HaveRecords (map L.columns lines.now)) result }
    ensures usable { IsUsable file.old → OnOk result (IsUsable file.new) }
    ensures keeps { Keeps (pools.state file.old.pool) (pools.state file.new.pool) }
{
    let mut done = 0;
    while done < lines.len() {
        let end = lines.len().min(done + BATCH);
        let records = row_records(alloc, &lines[done..end])?;
        let rows = records.rows(alloc, first + done as u64)?;
        match file.append(alloc, root, rows.as_slice()) {
            Ok(()) => done = end,
            Err(error) => return Err(error_of(error)),
        }
    }
    Ok(())
}

/// Inserts the entries of the lines at these places, one after another, into an index.
fn insert_entries<D: Disk, L: PageLine>(
    file: &mut PageFile<D>,
    alloc: Global,
    index: &IndexPlace<'_>,
    first: u64,
    lines: &[L],
    places: &[u32],
) -> Result<(), StoreError>
    requires room { HaveRowids first lines.now }
    requires within { ArePlacesOf lines.now places.now }
    ensures done { PlacesAll file.old file.new (Shape.Index plain) index.now.root (insert_entry plain)
        (entries_at index.now.columns.now first (map L.columns lines.now) places.now)
        (HaveRecords (entries_at index.now.columns.now first (map L.columns lines.now) places.now)) result }
    ensures usable { IsUsable file.old → OnOk result (IsUsable file.new) }
    ensures keeps { Keeps (pools.state file.old.pool) (pools.state file.new.pool) }
{
    let mut done = 0;
    while done < places.len() {
        let end = places.len().min(done + BATCH);
        let records = entry_records(alloc, index.columns, first, lines, &places[done..end])?;
        let entries = records.slices(alloc)?;
        match file.append_entries(alloc, index.root, Order::PLAIN, entries.as_slice()) {
            Ok(()) => done = end,
            Err(error) => return Err(error_of(error)),
        }
    }
    Ok(())
}

/// Inserts the entries of lines into an index, sorted. `number` is its place among the indexes of the table. `Store` where
/// two lines have one key.
pub(crate) fn fill_index<D: Disk, L: PageLine>(
    file: &mut PageFile<D>,
    alloc: Global,
    number: usize,
    index: &IndexPlace<'_>,
    first: u64,
    lines: &[L],
) -> Result<(), StoreError>
    requires room { HaveRowids first lines.now }
    ensures done { FillsIndex file.old file.new index.now (numbered first (map L.columns lines.now)) result }
    ensures usable { IsUsable file.old → OnOk result (IsUsable file.new) }
    ensures keeps { Keeps (pools.state file.old.pool) (pools.state file.new.pool) }
{
    let Some(places) = in_order(alloc, number, index.columns, first, lines)? else {
        return Err(StoreError::Store);
    };
    insert_entries(file, alloc, index, first, lines, places.as_slice())
}
