// The cells of a page, with an error where the bytes are not sound.
ghost use Rattle.std.specs.Prelude.{◌≡◌, ◌<◌, ℕ, true, [], slice_index_or, IfErr, IsOkAnd};
ghost use Rattle.sqlite_pages.specs.PageMap.{IsUsableSize};
ghost use Rattle.sqlite_pages.specs.Outcome.{IsDamage};
ghost use Rattle.sqlite_format.specs.Cell.{IsBody, body_key};
ghost use Rattle.sqlite_format.specs.Payload.{IsPayloadOf};
ghost use Rattle.sqlite_format.specs.Node.{IsSound, node_body, node_cells};
ghost use Rattle.sqlite_format.specs.Page.{right_child};
ghost use Rattle.sqlite_btree.specs.Tree.{child_at};

use sqlite_format::cell::{self, Key, Payload};
use sqlite_format::{Node, Tree};
use sqlite_pages::Error;

/// The bytes of cell `i` without its padding.
pub fn body_at<'a>(node: &Node<'a>, i: usize) -> Result<&'a [u8], Error>
    requires { i < node.now.count }
    ensures found { IsSound node.now → IsOkAnd result (λ found. found.now ≡ node_body node.now i) }
    ensures damage { IfErr result IsDamage }
{
    node.body(i).ok_or(Error::Corrupt)
}

pub fn payload(tree: Tree, usable: usize, row: &[u8]) -> Result<Payload<'_>, Error>
    requires { IsUsableSize usable }
    ensures found { IsBody tree true usable row.now → IsOkAnd result (IsPayloadOf tree usable row.now) }
    ensures damage { IfErr result IsDamage }
{
    cell::payload_of(tree, usable, row).ok_or(Error::Corrupt)
}

fn row_key(row: &[u8]) -> Result<Key, Error>
    ensures found { (usable : ℕ) → IsBody Tree.Table true usable row.now → IsOkAnd result (λ key. key ≡ body_key Tree.Table true row.now) }
    ensures damage { IfErr result IsDamage }
{
    cell::key(true, row).ok_or(Error::Corrupt)
}

/// The key of a table's row, or 0.
pub fn key_of_row(tree: Tree, row: &[u8]) -> Result<Key, Error>
    ensures found { (usable : ℕ) → IsBody tree true usable row.now → IsOkAnd result (λ key. key ≡ body_key tree true row.now) }
    ensures damage { IfErr result IsDamage }
{
    match tree {
        Tree::Table => row_key(row),
        Tree::Index => Ok(0),
    }
}

/// The bytes of cell `i`.
pub fn cell_at<'a>(node: &Node<'a>, i: usize) -> Result<&'a [u8], Error>
    requires { i < node.now.count }
    ensures found { IsSound node.now → IsOkAnd result (λ cell. cell.now ≡ slice_index_or (node_cells node.now) i []) }
    ensures damage { IfErr result IsDamage }
{
    node.cell(i).ok_or(Error::Corrupt)
}

/// The child at place `i` of an interior page.
pub fn child_page(node: &Node<'_>, i: usize) -> Result<u32, Error>
    ensures found { IsSound node.now → IsOkAnd result (λ page. page ≡ child_at (node_cells node.now) (right_child node.now.bytes.now node.now.header) i) }
    ensures damage { IfErr result IsDamage }
{
    if i >= node.count {
        return Ok(node.right());
    }
    node.child(i).ok_or(Error::Corrupt)
}
