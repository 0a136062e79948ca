// Rows put behind those of a leaf (specs/Leaves.antt).
ghost use Rattle.std.specs.Prelude.{◌≡◌, ◌≤◌, ◌<◌, ℕ, true, [], ◌∷◌, length, take, IfOk};
ghost use Rattle.std.specs.Bool.{OnTrue, OnFalse};
ghost use Rattle.sqlite_pages.specs.PageMap.{IsUsableSize};
ghost use Rattle.sqlite_format.specs.Page.{IsPage};
ghost use Rattle.sqlite_btree.specs.Aims.{new_entry};
ghost use Rattle.page_files.specs.Leaves.{leaf_of, TakesRows};
ghost use Rattle.page_files.specs.Rows.{entries_of, row_at, Rise};
ghost use Rattle.page_files.specs.Fills.{ComesBehind};

use crate::rows::NewRows;
use crate::{reads, store};
use sqlite_format::bytes::get_u16;
use sqlite_format::cell::{self, Key};
use sqlite_format::{Kind, Tree, page};
use sqlite_pages::Error;
use std::alloc::AllocError;

/// Puts a row behind the last of a leaf, if it needs no overflow page and the leaf has room.
/// `cell` is scratch space.
fn put_cell(
    bytes: &mut [u8],
    header: usize,
    tree: Tree,
    key: Key,
    payload: &[u8],
    cell: &mut Vec<u8>,
) -> Result<bool, AllocError>
    requires usable { IsUsableSize (length bytes.old) }
    requires header { header ≤ 100 }
    ensures len { length bytes.new ≡ length bytes.old }
    ensures unchanged { IfOk result (λ put. OnFalse put (bytes.new ≡ bytes.old)) }
    ensures done { IsPage (leaf_of tree) bytes.old header → IfOk result (λ put.
        OnTrue put (TakesRows tree bytes.old bytes.new header (new_entry tree key payload.now ∷ []))) }
{
    if cell::local(tree, bytes.len(), payload.len() as u64) < payload.len() {
        return Ok(false);
    }
    cell::write_row(cell, tree, bytes.len(), key, payload, 0)?;
    cell::pad(cell)?;
    let kind = Kind { tree, leaf: true };
    let count = get_u16(bytes, header + 3);
    Ok(page::insert_cell(bytes, header, kind, count, cell.as_slice()))
}

/// Puts rows behind the last of a leaf while each comes after the one before it and has room.
/// Says how many. `cell` is scratch space.
pub fn put_rows<R: NewRows>(
    bytes: &mut [u8],
    header: usize,
    rows: &R,
    cell: &mut Vec<u8>,
) -> Result<usize, AllocError>
    requires usable { IsUsableSize (length bytes.old) }
    requires header { header ≤ 100 }
    ensures len { length bytes.new ≡ length bytes.old }
    ensures within { IfOk result (λ taken. taken ≤ length (R.rows rows.now)) }
    ensures keyed { IfOk result (λ taken. (i : ℕ) → i < taken → R.is_keyed rows.now i) }
    ensures rise { IfOk result (λ taken. Rise (R.kind rows.now) (R.order rows.now) (R.rows rows.now) taken) }
    ensures done { IsPage (leaf_of (R.kind rows.now)) bytes.old header → IfOk result (λ taken.
        TakesRows (R.kind rows.now) bytes.old bytes.new header (entries_of (R.kind rows.now) (take taken (R.rows rows.now)))) }
{
    let tree = rows.tree();
    for i in 0..rows.count() {
        if i > 0 && !rows.follows(i, rows.key(i - 1), rows.payload(i - 1)) {
            return Ok(i);
        }
        let put = put_cell(bytes, header, tree, rows.key(i), rows.payload(i), cell)?;
        if !put {
            return Ok(i);
        }
    }
    Ok(rows.count())
}

/// Whether the first of the new rows comes after the last of a leaf. Where that one has overflow
/// pages, the answer is no.
pub fn starts_after<R: NewRows>(bytes: &[u8], page: u32, rows: &R) -> Result<bool, Error>
    requires usable { IsUsableSize (length bytes.now) }
    requires some { 0 < length (R.rows rows.now) }
    ensures { ComesBehind (R.kind rows.now) (R.order rows.now) bytes.now page (row_at (R.rows rows.now) 0) result }
{
    let tree = rows.tree();
    let node = store::parse(bytes, page)?;
    if node.count == 0 {
        return Ok(true);
    }
    let body = reads::body_at(&node, node.count - 1)?;
    let payload = reads::payload(tree, bytes.len(), body)?;
    if payload.spilled > 0 {
        return Ok(false);
    }
    let key = reads::key_of_row(tree, body)?;
    Ok(rows.follows(0, key, payload.local))
}
