// A line of a table.

use sqlite_value::value::ValueRef;
use std::cmp::Ordering;

/// A line of a table.
pub trait PageLine {
    ghost use Rattle.std.specs.Prelude.{◌≡◌, length};
    ghost use Rattle.sqlite_value.specs.Order.{Row, column};
    ghost use Rattle.sqlite_value.specs.Value.{owned};

    /// Its columns, without the rowid.
    ghost columns: { Self → Row };

    /// How many columns it has.
    fn width(&self) -> usize
        ensures { result ≡ length (columns self.now) };

    /// The value in a column, and NULL past the last one.
    fn value(&self, at: usize) -> ValueRef<'_>
        ensures { owned result ≡ column (columns self.now) at };

    /// How two lines stand in the order of an index, by its place among the indexes of the table. Lines are sorted by
    /// it. A wrong answer costs time, or the lines are refused as if two had one key.
    fn compare(&self, other: &Self, index: usize) -> Ordering;
}
