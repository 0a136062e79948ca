// New rows in the last leaf of a tree.
ghost use Rattle.std.specs.Prelude.{◌≡◌, ◌<◌, ◌≤◌, ℕ, length, IfOk};
ghost use Rattle.sqlite_pages.specs.Calls.{Continues};
ghost use Rattle.page_files.specs.Fills.{FillsLeaf};

use crate::cells::{put_rows, starts_after};
use crate::leaves::last_below;
use crate::rows::NewRows;
use crate::store;
use sqlite_pages::{Error, Pages};
use std::alloc::Global;

/// Puts new rows behind those of a tree, as many as rise and its last leaf takes, in one write.
/// Says how many.
pub fn fill<P: Pages, R: NewRows>(
    store: &mut P,
    alloc: Global,
    root: u32,
    rows: &R,
) -> Result<usize, Error>
    ensures done { FillsLeaf P.Pages store.old store.new (R.kind rows.now) (R.order rows.now) (R.rows rows.now) root result }
    ensures within { IfOk result (λ taken. taken ≤ length (R.rows rows.now)) }
    ensures keyed { IfOk result (λ taken. (i : ℕ) → i < taken → R.is_keyed rows.now i) }
    ensures kept { Continues P.Pages store.old store.new }
{
    if rows.count() == 0 {
        return Ok(0);
    }
    let leaf = last_below(store, root, 0)?;
    let mut bytes = store::copy(store, alloc, leaf)?;
    if !starts_after(bytes.as_slice(), leaf, rows)? {
        return Ok(0);
    }
    let mut cell = Vec::new(alloc);
    let taken = put_rows(bytes.as_mut_slice(), store::header(leaf), rows, &mut cell)?;
    store::put(store, leaf, bytes.as_slice())?;
    Ok(taken)
}
