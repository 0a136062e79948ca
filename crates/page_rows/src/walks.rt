// The walk over the rows of a table.
ghost use Rattle.std.specs.Prelude.{◌≡◌, ℤ, ℕ, List, [], MatchResult};
ghost use Rattle.sqlite_pages.specs.Calls.{IsClean, Continues, FailsFor};
ghost use Rattle.sqlite_btree.specs.Chain.{Layout};
ghost use Rattle.sqlite_btree.specs.Stored.{IsTable, IsLaidIn};
ghost use Rattle.sqlite_trees.specs.View.{Finds};
ghost use Rattle.sqlite_store.specs.Db.{table_row};
ghost use Rattle.page_rows.specs.Rows.{HasTable, rows_of, from_rowid};
ghost use Rattle.page_rows.specs.Places.{IsAt, HasCome};
ghost use Rattle.page_rows.specs.Walks.{Walks};

use crate::bounded::{get_row, next_row};
use crate::errors::WalkError;
use crate::loads::Loads;
use crate::sinks::RowSink;
use sqlite_btree::{Batch, Scratch, table};
use sqlite_pages::{Error, Pages};
use std::alloc::Global;

/// Takes the first row from a rowid on, of those that the batch has left or else of the next page.
/// Says whether there is one.
fn advance<P: Pages>(
    store: &mut P,
    loads: &mut Loads,
    scratch: &mut Scratch,
    root: u32,
    from: i64,
    batch: &mut Batch,
) -> Result<bool, Error>
    ensures done { IsClean P.Pages store.new → (layout : Layout) (raw : List (ℤ × List ℕ)) → IsLaidIn layout (P.Pages.pages store.old)
        → IsTable (P.Pages.size store.old) layout root raw → IsAt layout (P.Pages.size store.old) (P.Pages.pages store.old) raw from batch.old
        → MatchResult result (HasCome layout (P.Pages.size store.old) (P.Pages.pages store.old) raw from batch.new) (FailsFor P.Pages store.old store.new ⊥) }
    ensures kept { Continues P.Pages store.old store.new }
    ensures pages { P.Pages.pages store.new ≡ P.Pages.pages store.old }
{
    if next_row(store, loads, batch)? {
        return Ok(true);
    }
    table::fill(store, scratch, root, from, batch)?;
    next_row(store, loads, batch)
}

/// Hands the rows of the table under a root page on, from a rowid on, by rising rowid, until no more
/// are wanted. It holds one page and one row at a time. Errors: `Pages`, of which `Corrupt` is for
/// pages that hold no such table, and `Refused`.
pub fn walk<P: Pages, T: RowSink>(
    store: &mut P,
    alloc: Global,
    root: u32,
    from: i64,
    sink: &mut T,
) -> Result<(), WalkError<T::Refusal>>
    ensures done { IsClean P.Pages store.new → HasTable (P.Pages.size store.old) (P.Pages.pages store.old) root
        → (start : T.Start) → T.Has start [] sink.old → Walks (FailsFor P.Pages store.old store.new ⊥) T.Has T.Ends T.Refuses start sink.new
        (from_rowid from (rows_of (P.Pages.size store.old) (P.Pages.pages store.old) root)) result }
    ensures kept { Continues P.Pages store.old store.new }
    ensures pages { P.Pages.pages store.new ≡ P.Pages.pages store.old }
{
    let mut scratch = Scratch::new(alloc);
    let mut batch = Batch::new(alloc);
    let mut loads = Loads::of_rows(alloc);
    let mut next = from;
    'rows: loop {
        if !advance(store, &mut loads, &mut scratch, root, next, &mut batch)? {
            return Ok(());
        }
        let rowid = batch.rowid();
        // On pages that hold no table the rows may go back, and then the walk would not end.
        if rowid < next {
            return Err(WalkError::Pages(Error::Corrupt));
        }
        match sink.take(rowid, batch.payload()) {
            Ok(true) => {}
            Ok(false) => return Ok(()),
            Err(refusal) => return Err(WalkError::Refused(refusal)),
        }
        if rowid == i64::MAX {
            return Ok(());
        }
        next = rowid + 1;
    }
}

/// Finds the row with a rowid, and puts the bytes of its record into `payload`. Says whether there is
/// one; where there is none, nothing is said of `payload`. Errors: those of reading pages, of which
/// `Corrupt` is for pages that hold no such table.
pub fn find_row<P: Pages>(
    store: &mut P,
    alloc: Global,
    root: u32,
    rowid: i64,
    payload: &mut Vec<u8>,
) -> Result<bool, Error>
    ensures done { IsClean P.Pages store.new → HasTable (P.Pages.size store.old) (P.Pages.pages store.old) root
        → MatchResult result (Finds (rows_of (P.Pages.size store.old) (P.Pages.pages store.old) root) rowid (table_row (rowid, payload.new.items)))
        (FailsFor P.Pages store.old store.new ⊥) }
    ensures kept { Continues P.Pages store.old store.new }
    ensures pages { P.Pages.pages store.new ≡ P.Pages.pages store.old }
{
    let mut loads = Loads::of_search(alloc);
    get_row(store, &mut loads, alloc, root, rowid, payload)
}
