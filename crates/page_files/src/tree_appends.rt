// Many rows at a time (specs/Places.antt).
ghost use Rattle.std.specs.Prelude.{◌≡◌, ◌<◌, ◌≤◌, ◌^◌, All, length, IfOk};
ghost use Rattle.sqlite_pages.specs.Calls.{Continues};
ghost use Rattle.sqlite_record.specs.Strict.{IsRecord};
ghost use Rattle.sqlite_trees.specs.Tree.{put_row, insert_entry};
ghost use Rattle.page_files.specs.Places.{PlacesFirst, PlacesRows, rows_given, entries_given};
ghost use Rattle.sqlite_record.specs.Record.{decode};
ghost use Rattle.page_files.specs.OneTree.{PlacesRow};

use crate::bounded::{Scratch, insert_record};
use crate::edits::put;
use crate::fills::fill;
use crate::probes::AtRecord;
use crate::rows::{IndexEntries, TableRows};
use sqlite_pages::{Error, Pages};
use sqlite_trees::store::Shape;
use sqlite_value::keys::Order;
use std::alloc::Global;

/// Puts the first rows behind those of a table, as many as its last leaf takes.
fn fill_table<P: Pages>(
    store: &mut P,
    alloc: Global,
    root: u32,
    rows: &[(i64, &[u8])],
) -> Result<usize, Error>
    requires strict { All (λ row. IsRecord row.1.now) rows.now }
    ensures done { PlacesFirst P.Pages store.old store.new Shape.Table root put_row (rows_given rows.now) result }
    ensures within { IfOk result (λ taken. taken ≤ length rows.now) }
    ensures kept { Continues P.Pages store.old store.new }
{
    let taken = fill(store, alloc, root, &TableRows(rows))?;
    Ok(taken)
}

/// Inserts the first entries behind those of an index, as many as its last leaf takes.
fn fill_index<P: Pages>(
    store: &mut P,
    alloc: Global,
    root: u32,
    order: Order,
    entries: &[&[u8]],
) -> Result<usize, Error>
    requires strict { All (λ entry. IsRecord entry.now) entries.now }
    ensures done { PlacesFirst P.Pages store.old store.new (Shape.Index order) root (insert_entry order) (entries_given entries.now) result }
    ensures within { IfOk result (λ taken. taken ≤ length entries.now) }
    ensures kept { Continues P.Pages store.old store.new }
{
    let taken = fill(store, alloc, root, &IndexEntries(order, entries))?;
    Ok(taken)
}

/// Puts the first rows into a table, at least one.
fn append_some<P: Pages>(
    store: &mut P,
    alloc: Global,
    scratch: &mut Scratch,
    root: u32,
    rows: &[(i64, &[u8])],
) -> Result<usize, Error>
    requires some { 0 < length rows.now }
    requires short { All (λ row. length row.1.now < 2 ^ 31) rows.now }
    requires strict { All (λ row. IsRecord row.1.now) rows.now }
    ensures done { PlacesFirst P.Pages store.old store.new Shape.Table root put_row (rows_given rows.now) result }
    ensures within { IfOk result (λ taken. taken ≤ length rows.now) }
    ensures some { IfOk result (λ taken. 0 < taken) }
    ensures kept { Continues P.Pages store.old store.new }
{
    let taken = fill_table(store, alloc, root, rows)?;
    if taken == rows.len() {
        return Ok(taken);
    }
    let (rowid, fields) = rows[taken];
    put(store, scratch, root, rowid, fields)?;
    Ok(taken + 1)
}

/// Puts rows into the table under this root, one after another. Each is a rowid and the record of
/// its columns. Rows that rise, above all that are there, are written a page at a time; any other
/// goes to its place as by `put`.
///
/// # Errors
/// As `put`, where the tree may also become too deep on the way.
pub fn append<P: Pages>(
    store: &mut P,
    alloc: Global,
    root: u32,
    rows: &[(i64, &[u8])],
) -> Result<(), Error>
    requires short { All (λ row. length row.1.now < 2 ^ 31) rows.now }
    requires strict { All (λ row. IsRecord row.1.now) rows.now }
    ensures done { PlacesRows P.Pages store.old store.new Shape.Table root put_row (rows_given rows.now) result }
    ensures kept { Continues P.Pages store.old store.new }
{
    let mut scratch = Scratch::new(alloc);
    let mut done = 0;
    while done < rows.len() {
        done += append_some(store, alloc, &mut scratch, root, &rows[done..])?;
    }
    Ok(())
}

/// Inserts one entry, which is given as its record.
fn insert_one<P: Pages>(
    store: &mut P,
    scratch: &mut Scratch,
    root: u32,
    order: Order,
    fields: &[u8],
) -> Result<(), Error>
    requires short { length fields.now < 2 ^ 31 }
    requires strict { IsRecord fields.now }
    ensures done { PlacesRow P.Pages store.old store.new (Shape.Index order) root (decode fields.now) (insert_entry order) result }
    ensures kept { Continues P.Pages store.old store.new }
{
    insert_record(store, scratch, root, &AtRecord(order, fields), fields)?;
    Ok(())
}

/// Inserts the first entries into an index, at least one.
fn append_some_entries<P: Pages>(
    store: &mut P,
    alloc: Global,
    scratch: &mut Scratch,
    root: u32,
    order: Order,
    entries: &[&[u8]],
) -> Result<usize, Error>
    requires some { 0 < length entries.now }
    requires short { All (λ entry. length entry.now < 2 ^ 31) entries.now }
    requires strict { All (λ entry. IsRecord entry.now) entries.now }
    ensures done { PlacesFirst P.Pages store.old store.new (Shape.Index order) root (insert_entry order) (entries_given entries.now) result }
    ensures within { IfOk result (λ taken. taken ≤ length entries.now) }
    ensures some { IfOk result (λ taken. 0 < taken) }
    ensures kept { Continues P.Pages store.old store.new }
{
    let taken = fill_index(store, alloc, root, order, entries)?;
    if taken == entries.len() {
        return Ok(taken);
    }
    insert_one(store, scratch, root, order, entries[taken])?;
    Ok(taken + 1)
}

/// Inserts entries into the index under this root, one after another. Each is given as its record.
/// Entries that rise, above all that are there, are written a page at a time; any other goes to its
/// place as by `insert`, so entries in another order cost time and nothing else.
///
/// # Errors
/// As `append`.
pub fn append_entries<P: Pages>(
    store: &mut P,
    alloc: Global,
    root: u32,
    order: Order,
    entries: &[&[u8]],
) -> Result<(), Error>
    requires short { All (λ entry. length entry.now < 2 ^ 31) entries.now }
    requires strict { All (λ entry. IsRecord entry.now) entries.now }
    ensures done { PlacesRows P.Pages store.old store.new (Shape.Index order) root (insert_entry order) (entries_given entries.now) result }
    ensures kept { Continues P.Pages store.old store.new }
{
    let mut scratch = Scratch::new(alloc);
    let mut done = 0;
    while done < entries.len() {
        done += append_some_entries(store, alloc, &mut scratch, root, order, &entries[done..])?;
    }
    Ok(())
}
