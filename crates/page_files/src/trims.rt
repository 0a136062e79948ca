// Rows taken out of one leaf in one write (specs/Trims.antt).
ghost use Rattle.std.specs.Prelude.{◌≡◌, ◌⊎◌, ◌≤◌, ◌<◌, ◌+◌, ◌++◌, ◌-◌, map, take, drop, length, vec_len, IfOk, IfErr, OnOk, false};
ghost use Rattle.std.specs.Bool.{OnTrue};
ghost use Rattle.sqlite_pages.specs.Calls.{Continues};
ghost use Rattle.sqlite_pages.specs.declared.error.Error.TheVariants.{OutOfMemory};
ghost use Rattle.sqlite_pages.specs.Outcome.{IsDamage};
ghost use Rattle.sqlite_format.specs.Node.{IsSound, node_cells};
ghost use Rattle.sqlite_format.specs.Page.{page_cells, IsPage};
ghost use Rattle.page_files.specs.Trims.{FindsBelow, GoesAt, GoFrom, TrimsLeaf};

use crate::stretches::Stretch;
use crate::{reads, store};
use sqlite_format::{Node, Tree, cell, page};
use sqlite_pages::{Error, Pages};
use std::alloc::Global;

/// SQLite reads no deeper tree.
const MAX_DEPTH: usize = 20;

/// Whether cell `i` lies before the rows that are to go. A wrong answer costs time and nothing else.
fn is_past<S: Stretch>(node: &Node<'_>, i: usize, stretch: &S) -> bool
    requires { i < node.now.count }
{
    if let Tree::Table = node.kind.tree {
        return match node.key(i) {
            Some(key) => stretch.is_past(key, &[]),
            None => false,
        };
    }
    let Some(body) = node.body(i) else {
        return false;
    };
    match cell::payload_of(Tree::Index, node.bytes.len(), body) {
        Some(payload) => stretch.is_past(0, payload.local),
        None => false,
    }
}

/// The place of the rows that are to go, among the cells of a page.
fn place_in<S: Stretch>(node: &Node<'_>, stretch: &S) -> usize
    ensures { result ≤ node.now.count }
{
    let (mut low, mut high) = (0, node.count);
    'halve: while low < high {
        let middle = low + (high - low) / 2;
        if is_past(node, middle, stretch) {
            low = middle + 1;
        } else {
            high = middle;
        }
    }
    low
}

/// The leaf below a page where the rows that are to go have their place.
fn leaf_below<P: Pages, S: Stretch>(
    store: &mut P,
    page: u32,
    depth: usize,
    stretch: &S,
) -> Result<u32, Error>
    requires { depth ≤ 20 }
    ensures done { FindsBelow P.Pages store.old store.new page depth result }
    ensures kept { Continues P.Pages store.old store.new }
    ensures pages { P.Pages.pages store.new ≡ P.Pages.pages store.old }
{
    if depth == MAX_DEPTH {
        return Err(Error::Corrupt);
    }
    store::load(store, page)?;
    let node = store::parse(store.loaded(), page)?;
    if node.kind.leaf {
        return Ok(page);
    }
    let child = reads::child_page(&node, place_in(&node, stretch))?;
    leaf_below(store, child, depth + 1, stretch)
}

/// Whether the row of cell `at` of a leaf may go as row `i`. Where it has overflow pages, the answer is no.
fn goes_at<S: Stretch>(node: &Node<'_>, at: usize, i: usize, stretch: &S) -> Result<bool, Error>
    requires within { at < node.now.count }
    requires few { i < S.most stretch.now }
    ensures { GoesAt (S.kind stretch.now) (S.goes stretch.now i) node.now at result }
{
    let tree = stretch.tree();
    let body = reads::body_at(node, at)?;
    let payload = reads::payload(tree, node.bytes.len(), body)?;
    if payload.spilled > 0 {
        return Ok(false);
    }
    let key = reads::key_of_row(tree, body)?;
    Ok(stretch.takes(i, key, payload.local))
}

/// How many rows of a leaf may go, one after another from cell `at` on.
fn stretch_at<S: Stretch>(node: &Node<'_>, at: usize, stretch: &S) -> Result<usize, Error>
    requires { at ≤ node.now.count }
    ensures within { IfOk result (λ n. at + n ≤ node.now.count) }
    ensures few { IfOk result (λ n. n ≤ S.most stretch.now) }
    ensures done { GoFrom (S.kind stretch.now) (S.goes stretch.now) node.now at result }
{
    let most = stretch.most();
    for i in 0..node.count - at {
        if i >= most || !goes_at(node, at + i, i, stretch)? {
            return Ok(i);
        }
    }
    Ok(node.count - at)
}

/// Puts the cells of a page from one place up to another behind others.
fn push_cells<'a>(
    node: &Node<'a>,
    from: usize,
    to: usize,
    cells: &mut Vec<&'a [u8]>,
) -> Result<(), Error>
    requires { (from ≤ to) × (to ≤ node.now.count) }
    ensures done { IsSound node.now → OnOk result (map (λ cell. cell.now) cells.new.items
        ≡ map (λ cell. cell.now) cells.old.items ++ take (to - from) (drop from (node_cells node.now))) }
    ensures cause { IsSound node.now → IfErr result (λ e. e ≡ OutOfMemory) }
{
    for i in from..to {
        cells.push(reads::cell_at(node, i)?)?;
    }
    Ok(())
}

/// Writes the page without the cells from one place up to another over `out`, which has its bytes. Says whether
/// they fit.
fn build_without(
    alloc: Global,
    node: &Node<'_>,
    from: usize,
    to: usize,
    out: &mut [u8],
) -> Result<bool, Error>
    requires places { (from ≤ to) × (to ≤ node.now.count) }
    requires same { length out.old ≡ length node.now.bytes.now }
    ensures len { length out.new ≡ length out.old }
    ensures done { IsSound node.now → IfOk result (λ built. OnTrue built (IsPage node.now.kind out.new node.now.header
        × (page_cells node.now.kind out.new node.now.header ≡ take from (node_cells node.now) ++ drop to (node_cells node.now)))) }
    ensures cause { IsSound node.now → IfErr result (λ e. e ≡ OutOfMemory) }
{
    let mut cells = Vec::new(alloc);
    push_cells(node, 0, from, &mut cells)?;
    push_cells(node, to, node.count, &mut cells)?;
    Ok(page::build(out, node.header, node.kind, node.right(), cells.as_slice()))
}

/// Takes rows that are to go, one after another, out of one leaf, in one write, and leaves the last of them. Says how
/// many. The kit's `remove` takes a row that is the last of its leaf.
pub fn trim<P: Pages, S: Stretch>(
    store: &mut P,
    alloc: Global,
    root: u32,
    stretch: &S,
) -> Result<usize, Error>
    ensures done { TrimsLeaf P.Pages store.old store.new (S.kind stretch.now) (S.goes stretch.now) root result }
    ensures few { IfOk result (λ n. (n ≡ 0) ⊎ (n < S.most stretch.now)) }
    ensures kept { Continues P.Pages store.old store.new }
{
    let leaf = leaf_below(store, root, 0, stretch)?;
    let bytes = store::copy(store, alloc, leaf)?;
    let node = store::parse(bytes.as_slice(), leaf)?;
    let at = place_in(&node, stretch);
    let count = stretch_at(&node, at, stretch)?;
    if count < 2 {
        return Ok(0);
    }
    let mut page = Vec::from_slice(alloc, bytes.as_slice())?;
    if !build_without(alloc, &node, at, at + count - 1, page.as_mut_slice())? {
        return Ok(0);
    }
    store::put(store, leaf, page.as_slice())?;
    Ok(count - 1)
}
