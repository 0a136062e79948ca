// The walk over the entries of an index.
ghost use Rattle.std.specs.Prelude.{◌≡◌, [], OnOk, IfErr};
ghost use Rattle.std.specs.Ordering.{is_gt};
ghost use Rattle.sqlite_pages.specs.Calls.{IsClean, Continues, FailsFor};
ghost use Rattle.sqlite_record.specs.Record.{decode};
ghost use Rattle.sqlite_value.specs.Keys.{entry_cmp};
ghost use Rattle.page_rows.specs.Batches.{HandsOn, WalksBatch};
ghost use Rattle.page_rows.specs.Indexes.{HasIndex, entries_of, from_entry};
ghost use Rattle.page_rows.specs.Walks.{Walks};

use crate::bounded::{fill_entries, next_row};
use crate::errors::WalkError;
use crate::loads::Loads;
use crate::probes::{AtRow, BehindRecord};
use crate::sinks::EntrySink;
use sqlite_btree::{Batch, Probe};
use sqlite_pages::{Error, Pages};
use sqlite_record::compare;
use sqlite_value::keys::Order;
use sqlite_value::row::Row;
use std::alloc::Global;
use std::cmp::Ordering;

/// Hands on the entries that the batch has left. Says whether more are wanted.
fn hand_on<P: Pages, T: EntrySink>(
    store: &mut P,
    loads: &mut Loads,
    batch: &mut Batch,
    sink: &mut T,
) -> Result<bool, WalkError<T::Refusal>>
    ensures done { HandsOn P.Pages store.old store.new T.Has T.Ends T.Refuses batch.old batch.new sink.old sink.new result }
    ensures kept { Continues P.Pages store.old store.new }
    ensures pages { P.Pages.pages store.new ≡ P.Pages.pages store.old }
{
    'entries: for _ in 0..u64::MAX {
        if !next_row(store, loads, batch)? {
            return Ok(true);
        }
        match sink.take(batch.payload()) {
            Ok(true) => {}
            Ok(false) => return Ok(false),
            Err(refusal) => return Err(WalkError::Refused(refusal)),
        }
    }
    Err(WalkError::Pages(Error::OutOfMemory))
}

/// Hands on the next entries from the target on, those of one page. Says whether there was one and more
/// are wanted.
fn walk_batch<P: Pages, C: Probe, T: EntrySink>(
    store: &mut P,
    loads: &mut Loads,
    alloc: Global,
    root: u32,
    probe: &C,
    batch: &mut Batch,
    sink: &mut T,
) -> Result<bool, WalkError<T::Refusal>>
    ensures done { WalksBatch P.Pages store.old store.new T.Has T.Ends T.Refuses (C.Probe.side probe.now) root batch.new sink.old sink.new result }
    ensures kept { Continues P.Pages store.old store.new }
    ensures pages { P.Pages.pages store.new ≡ P.Pages.pages store.old }
{
    let mut search = Loads::of_search(alloc);
    fill_entries(store, &mut search, alloc, root, probe, batch)?;
    if batch.is_empty() {
        return Ok(false);
    }
    hand_on(store, loads, batch, sink)
}

/// Whether a record comes after another in the order.
fn rises(order: Order, fields: &[u8], last: &[u8]) -> bool
    ensures { result ≡ is_gt (entry_cmp order (decode fields.now) (decode last.now)) }
{
    compare::with_record(order, fields, last) == Ordering::Greater
}

/// Copies the record that a batch gave.
fn keep(last: &mut Vec<u8>, fields: &[u8]) -> Result<(), Error>
    ensures copied { OnOk result (last.new.items ≡ fields.now) }
    ensures cause { IfErr result (λ e. e ≡ Error.OutOfMemory) }
{
    last.clear();
    last.extend_from_slice(fields)?;
    Ok(())
}

/// Hands the entries of the index under a root page on, by its order, from the first that is not below
/// `from`, until no more are wanted. A `from` of fewer columns is below each entry that it begins. It holds one
/// page and two entries at a time. Errors: `Pages`, of which `Corrupt` is for pages that hold no such index, and
/// `Refused`.
pub fn walk_entries<P: Pages, T: EntrySink>(
    store: &mut P,
    alloc: Global,
    root: u32,
    order: Order,
    from: &Row,
    sink: &mut T,
) -> Result<(), WalkError<T::Refusal>>
    ensures done { IsClean P.Pages store.new → HasIndex (P.Pages.size store.old) (P.Pages.pages store.old) order root
        → (start : T.Start) → T.Has start [] sink.old → Walks (FailsFor P.Pages store.old store.new ⊥) T.Has T.Ends T.Refuses start sink.new
        (from_entry order from.now (entries_of (P.Pages.size store.old) (P.Pages.pages store.old) order root)) result }
    ensures kept { Continues P.Pages store.old store.new }
    ensures pages { P.Pages.pages store.new ≡ P.Pages.pages store.old }
{
    let mut batch = Batch::new(alloc);
    let mut loads = Loads::of_rows(alloc);
    if !walk_batch(
        store,
        &mut loads,
        alloc,
        root,
        &AtRow(order, from),
        &mut batch,
        sink,
    )? {
        return Ok(());
    }
    let mut last = Vec::new(alloc);
    keep(&mut last, batch.payload())?;
    'batches: for _ in 0..u64::MAX {
        let behind = BehindRecord(order, last.as_slice());
        if !walk_batch(store, &mut loads, alloc, root, &behind, &mut batch, sink)? {
            return Ok(());
        }
        // On pages that hold no index the entries may go back, and then the walk would not end.
        if !rises(order, batch.payload(), last.as_slice()) {
            return Err(WalkError::Pages(Error::Corrupt));
        }
        keep(&mut last, batch.payload())?;
    }
    Err(WalkError::Pages(Error::OutOfMemory))
}
