// Rows of a tree that are to go, one after another.
ghost use Rattle.std.specs.Prelude.{◌≡◌, ◌<◌, ◌-◌, ◌^◌, ℕ, true, length, IsTrue, slice_index_or, pos};
ghost use Rattle.sqlite_format.specs.declared.kind.Tree.{Tree as TreeKind};
ghost use Rattle.sqlite_format.specs.declared.kind.Tree.TheVariants.{Table, Index};
ghost use Rattle.sqlite_btree.specs.Aims.{new_entry};
ghost use Rattle.sqlite_btree.specs.Chain.{Entry};
ghost use Rattle.sqlite_btree.specs.Stored.{rowid_of};
ghost use Rattle.sqlite_record.specs.Record.{decode};
ghost use Rattle.page_files.specs.Removals.{has_prefix};

use crate::rows::key_from;
use sqlite_format::Tree;
use sqlite_format::cell::Key;
use sqlite_record::compare;
use sqlite_value::keys::Order;
use sqlite_value::row::Row;

/// Rows that are to go, one after another.
pub trait Stretch {
    ghost kind: { Self → TreeKind };

    // What an entry is that may go as the one of this number.
    ghost goes: { Self → ℕ → Entry → Type 0 };

    ghost most: { Self → ℕ };

    fn tree(&self) -> Tree
        ensures { result ≡ kind self.now };

    /// How many there are at most.
    fn most(&self) -> usize
        ensures { result ≡ most self.now };

    /// Whether a row, or a divider of a table, lies before those that are to go. A wrong answer costs time and
    /// nothing else.
    fn is_past(&self, key: Key, payload: &[u8]) -> bool;

    /// Whether this row may go as row `i`.
    fn takes(&self, i: usize, key: Key, payload: &[u8]) -> bool
        requires { i < most self.now }
        ensures { IsTrue result → goes self.now i (new_entry (kind self.now) key payload.now) };
}

/// Rows of a table with these rowids.
#[derive(Clone, Copy)]
pub struct WithRowids<'a>(pub &'a [i64]);

impl Stretch for WithRowids<'_> {
    ghost kind = { λ _. Table };

    ghost goes = { λ it i entry. rowid_of entry.key ≡ slice_index_or it.0.now i (pos 0) };

    ghost most = { λ it. length it.0.now };

    fn tree(&self) -> Tree {
        Tree::Table
    }

    fn most(&self) -> usize {
        self.0.len()
    }

    fn is_past(&self, key: Key, _payload: &[u8]) -> bool {
        match self.0.first() {
            Some(rowid) => key < key_from(*rowid),
            None => false,
        }
    }

    fn takes(&self, i: usize, key: Key, _payload: &[u8]) -> bool {
        key == key_from(self.0[i])
    }
}

/// Entries of an index of this order that begin with the columns of a row.
#[derive(Clone, Copy)]
pub struct UnderPrefix<'a>(pub Order, pub &'a Row);

impl Stretch for UnderPrefix<'_> {
    ghost kind = { λ _. Index };

    ghost goes = { λ it _ entry. has_prefix it.0 it.1.now (decode entry.payload) ≡ true };

    ghost most = { λ _. 2 ^ 64 - 1 };

    fn tree(&self) -> Tree {
        Tree::Index
    }

    fn most(&self) -> usize {
        usize::MAX
    }

    fn is_past(&self, _key: Key, payload: &[u8]) -> bool {
        compare::with_key(self.0, payload, self.1).is_lt()
    }

    fn takes(&self, _i: usize, _key: Key, payload: &[u8]) -> bool {
        compare::with_key(self.0, payload, self.1).is_eq()
    }
}
