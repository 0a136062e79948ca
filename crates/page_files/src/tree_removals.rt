// Many rows taken out of a tree (specs/Removals.antt).
ghost use Rattle.std.specs.Prelude.{◌≡◌, ◌<◌, ◌≤◌, ℕ, take, length, IfOk};
ghost use Rattle.sqlite_pages.specs.Calls.{Continues};
ghost use Rattle.sqlite_btree.specs.Batch.{taken};
ghost use Rattle.page_files.specs.Removals.{has_prefix, without, without_rowids, LosesSome, LosesUntil, Thins, ThinsBy};
ghost use Rattle.page_files.specs.Sought.{FindsUnder};

use crate::bounded::{Scratch, remove_record};
use crate::edits::delete;
use crate::probes::{AtRecord, BeforePrefix};
use crate::stretches::{UnderPrefix, WithRowids};
use crate::trims::trim;
use page_rows::{Loads, fill_entries, next_row};
use sqlite_btree::Batch;
use sqlite_pages::{Error, Pages};
use sqlite_record::compare;
use sqlite_trees::store::Shape;
use sqlite_value::keys::Order;
use sqlite_value::row::Row;
use std::alloc::Global;

/// Takes rows of the first of these rowids out of one leaf, but for the last of them. Says of how many.
fn trim_rows<P: Pages>(
    store: &mut P,
    alloc: Global,
    root: u32,
    rowids: &[i64],
) -> Result<usize, Error>
    requires some { 0 < length rowids.now }
    ensures done { Thins P.Pages store.old store.new Shape.Table root (λ (n : ℕ). without_rowids (take n rowids.now)) result }
    ensures few { IfOk result (λ n. n < length rowids.now) }
    ensures kept { Continues P.Pages store.old store.new }
{
    let taken = trim(store, alloc, root, &WithRowids(rowids))?;
    Ok(taken)
}

/// Takes the rows of the first of these rowids out, at least one. Says of how many.
fn delete_some<P: Pages>(
    store: &mut P,
    alloc: Global,
    scratch: &mut Scratch,
    root: u32,
    rowids: &[i64],
) -> Result<usize, Error>
    requires some { 0 < length rowids.now }
    ensures done { Thins P.Pages store.old store.new Shape.Table root (λ (n : ℕ). without_rowids (take n rowids.now)) result }
    ensures within { IfOk result (λ n. n ≤ length rowids.now) }
    ensures some { IfOk result (λ n. 0 < n) }
    ensures kept { Continues P.Pages store.old store.new }
{
    let taken = trim_rows(store, alloc, root, rowids)?;
    delete(store, scratch, root, rowids[taken])?;
    Ok(taken + 1)
}

/// Takes the rows with these rowids, where there are such, out of the table under this root. Rowids that rise are
/// fast; another order costs time and nothing else.
///
/// # Errors
/// As `put`, where the tree may also become too deep on the way.
pub fn delete_all<P: Pages>(
    store: &mut P,
    alloc: Global,
    root: u32,
    rowids: &[i64],
) -> Result<(), Error>
    ensures done { Thins P.Pages store.old store.new Shape.Table root (λ _. without_rowids rowids.now) result }
    ensures kept { Continues P.Pages store.old store.new }
{
    let mut scratch = Scratch::new(alloc);
    let mut done = 0;
    while done < rowids.len() {
        done += delete_some(store, alloc, &mut scratch, root, &rowids[done..])?;
    }
    Ok(())
}

/// Reads the first entry that begins so into the batch. Says whether there is one.
fn find_under<P: Pages>(
    store: &mut P,
    alloc: Global,
    root: u32,
    order: Order,
    prefix: &Row,
    batch: &mut Batch,
) -> Result<bool, Error>
    ensures done { FindsUnder P.Pages store.old store.new root order prefix.now (taken batch.new).payload result }
    ensures kept { Continues P.Pages store.old store.new }
    ensures pages { P.Pages.pages store.new ≡ P.Pages.pages store.old }
{
    let mut loads = Loads::of_search(alloc);
    let before = BeforePrefix(order, prefix);
    fill_entries(store, &mut loads, alloc, root, &before, batch)?;
    let mut loads = Loads::of_rows(alloc);
    if !next_row(store, &mut loads, batch)? {
        return Ok(false);
    }
    Ok(compare::with_key(order, batch.payload(), prefix).is_eq())
}

/// Takes the first entry that begins so out. The answer is no where there was none.
fn remove_first<P: Pages>(
    store: &mut P,
    alloc: Global,
    scratch: &mut Scratch,
    root: u32,
    order: Order,
    prefix: &Row,
    batch: &mut Batch,
) -> Result<bool, Error>
    ensures done { ThinsBy P.Pages store.old store.new (Shape.Index order) root (LosesUntil (has_prefix order prefix.now)) result }
    ensures kept { Continues P.Pages store.old store.new }
{
    if !find_under(store, alloc, root, order, prefix, batch)? {
        return Ok(false);
    }
    // On pages that hold no index an entry may be found where it is not removed, and then the loop would not end.
    if !remove_record(store, scratch, root, &AtRecord(order, batch.payload()))? {
        return Err(Error::Corrupt);
    }
    Ok(true)
}

/// Takes entries that begin so out of one leaf, but for the last of them.
fn trim_under<P: Pages>(
    store: &mut P,
    alloc: Global,
    root: u32,
    order: Order,
    prefix: &Row,
) -> Result<(), Error>
    ensures done { ThinsBy P.Pages store.old store.new (Shape.Index order) root (LosesSome (has_prefix order prefix.now)) result }
    ensures kept { Continues P.Pages store.old store.new }
{
    trim(store, alloc, root, &UnderPrefix(order, prefix))?;
    Ok(())
}

/// Takes entries that begin so out, at least one. The answer is no where none was left.
fn remove_some<P: Pages>(
    store: &mut P,
    alloc: Global,
    scratch: &mut Scratch,
    root: u32,
    order: Order,
    prefix: &Row,
    batch: &mut Batch,
) -> Result<bool, Error>
    ensures done { ThinsBy P.Pages store.old store.new (Shape.Index order) root (LosesUntil (has_prefix order prefix.now)) result }
    ensures kept { Continues P.Pages store.old store.new }
{
    trim_under(store, alloc, root, order, prefix)?;
    remove_first(store, alloc, scratch, root, order, prefix, batch)
}

/// Takes each entry that begins with the columns of this prefix out of the index under this root.
///
/// # Errors
/// As `delete_all`.
pub fn remove_under<P: Pages>(
    store: &mut P,
    alloc: Global,
    root: u32,
    order: Order,
    prefix: &Row,
) -> Result<(), Error>
    ensures done { Thins P.Pages store.old store.new (Shape.Index order) root (λ _. without (has_prefix order prefix.now)) result }
    ensures kept { Continues P.Pages store.old store.new }
{
    let mut scratch = Scratch::new(alloc);
    let mut batch = Batch::new(alloc);
    'entries: for _ in 0..u64::MAX {
        if !remove_some(store, alloc, &mut scratch, root, order, prefix, &mut batch)? {
            return Ok(());
        }
    }
    Err(Error::OutOfMemory)
}
