// Rows that are to stand behind those of a tree (specs/Rows.antt).
ghost use Rattle.std.specs.Prelude.{◌≡◌, ◌<◌, ℕ, ⊤, List, true, length, IsTrue};
ghost use Rattle.sqlite_format.specs.declared.kind.Tree.{Tree as TreeKind};
ghost use Rattle.sqlite_format.specs.declared.kind.Tree.TheVariants.{Table, Index};
ghost use Rattle.sqlite_btree.specs.Stored.{Order as RecordOrder, no_order, precedes, rowid_of};
ghost use Rattle.sqlite_store.specs.Db.{record_order};
ghost use Rattle.page_files.specs.Rows.{NewRow, entry_from, row_at, key_of, table_rows, index_rows, IsOfRowid};

use sqlite_format::Tree;
use sqlite_format::cell::{Key, toggle_sign};
use sqlite_record::compare;
use sqlite_value::keys::Order;
use std::cmp::Ordering;

/// New rows of one tree.
pub trait NewRows {
    ghost kind: { Self → TreeKind };

    ghost order: { Self → RecordOrder };

    ghost rows: { Self → List NewRow };

    // What the key of row i comes from.
    ghost is_keyed: { Self → ℕ → Type 0 };

    fn tree(&self) -> Tree
        ensures { result ≡ kind self.now };

    fn count(&self) -> usize
        ensures { result ≡ length (rows self.now) };

    fn key(&self, i: usize) -> Key
        requires { i < length (rows self.now) }
        ensures value { result ≡ (row_at (rows self.now) i).0 }
        ensures keyed { is_keyed self.now i };

    fn payload(&self, i: usize) -> &[u8]
        requires { i < length (rows self.now) }
        ensures { result.now ≡ (row_at (rows self.now) i).1 };

    /// Whether row `i` comes after a row with this key and payload.
    fn follows(&self, i: usize, key: Key, payload: &[u8]) -> bool
        requires { i < length (rows self.now) }
        ensures { IsTrue result → precedes (kind self.now) (order self.now) (entry_from (kind self.now) (key, payload.now))
            (entry_from (kind self.now) (row_at (rows self.now) i)) ≡ true };
}

/// The key of a row with this rowid.
pub(crate) fn key_from(rowid: i64) -> Key
    ensures value { result ≡ key_of rowid }
    ensures back { rowid_of result ≡ rowid }
{
    toggle_sign(rowid.cast_unsigned())
}

/// Rows of a table, each a rowid and the record of its columns.
#[derive(Clone, Copy)]
pub struct TableRows<'a>(pub &'a [(i64, &'a [u8])]);

impl NewRows for TableRows<'_> {
    ghost kind = { λ _. Table };

    ghost order = { λ _. no_order };

    ghost rows = { λ it. table_rows it.0.now };

    ghost is_keyed = { λ it i. IsOfRowid it.0.now i };

    fn tree(&self) -> Tree {
        Tree::Table
    }

    fn count(&self) -> usize {
        self.0.len()
    }

    fn key(&self, i: usize) -> Key {
        key_from(self.0[i].0)
    }

    fn payload(&self, i: usize) -> &[u8] {
        self.0[i].1
    }

    fn follows(&self, i: usize, key: Key, _payload: &[u8]) -> bool {
        key < key_from(self.0[i].0)
    }
}

/// Entries of an index of this order, each its record.
#[derive(Clone, Copy)]
pub struct IndexEntries<'a>(pub Order, pub &'a [&'a [u8]]);

impl NewRows for IndexEntries<'_> {
    ghost kind = { λ _. Index };

    ghost order = { λ it. record_order it.0 };

    ghost rows = { λ it. index_rows it.1.now };

    ghost is_keyed = { λ _ _. ⊤ };

    fn tree(&self) -> Tree {
        Tree::Index
    }

    fn count(&self) -> usize {
        self.1.len()
    }

    fn key(&self, _i: usize) -> Key {
        0
    }

    fn payload(&self, i: usize) -> &[u8] {
        self.1[i]
    }

    fn follows(&self, i: usize, _key: Key, payload: &[u8]) -> bool {
        compare::with_record(self.0, payload, self.1[i]) == Ordering::Less
    }
}
